//! What tests share: the assertion on a row, and on each row of a table.
use std::alloc::Global;
use std::process::Abort;

/// What a table says in a row.
pub(crate) trait Row {
    /// Whether it holds. Where memory runs out, the test ends.
    fn holds(&self, rt: &impl Abort, alloc: Global) -> bool;
}

/// What was tried on a row held; the message names the row.
pub(crate) fn check_row(rt: &impl Abort, row: &str, held: bool) {
    assert!(rt; held, "{row}");
}

/// Each row of a table holds; the message says which row of which table doesn't. The first one is row 0.
pub(crate) fn check_numbered<R: Row>(rt: &impl Abort, alloc: Global, table: &str, rows: &[R]) {
    let mut number = 0usize;
    for row in rows {
        assert!(rt; row.holds(rt, alloc), "{table}: row {number}");
        number = number.wrapping_add(1);
    }
}
