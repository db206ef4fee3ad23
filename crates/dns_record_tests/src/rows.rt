//! What tests share: the assertion on a row, on each row of a table, and on each row whose text is a name.
use dns_record::Name;
use std::alloc::Global;
use std::process::Abort;

/// What was tried on a row held; the message names the row.
pub(crate) fn check_held(rt: &impl Abort, row: &str, held: bool) {
    assert!(rt; held, "{row}");
}

/// What a table says behind the name of a row.
pub(crate) trait Row {
    /// Whether it holds for the row of this name.
    fn holds(&self, alloc: Global, name: &str) -> bool;
}

/// Each row of a table holds.
pub(crate) fn check_rows<R: Row>(rt: &impl Abort, alloc: Global, rows: &[(&str, R)]) {
    for row in rows {
        check_held(rt, row.0, row.1.holds(alloc, row.0));
    }
}

/// What a table says of the name that a row's text is.
pub(crate) trait NameRow {
    /// Whether it holds for the name.
    fn holds(&self, alloc: Global, name: &Name) -> bool;
}

fn is_held<R: NameRow>(alloc: Global, text: &str, row: &R) -> bool {
    match Name::from_ascii(alloc, text) {
        Ok(name) => row.holds(alloc, &name),
        Err(_) => false,
    }
}

/// Each row of a table holds for its name.
pub(crate) fn check_names<R: NameRow>(rt: &impl Abort, alloc: Global, rows: &[(&str, R)]) {
    for row in rows {
        check_held(rt, row.0, is_held(alloc, row.0, &row.1));
    }
}
