//! Messages of more records than one holds, and of names as long as may be, are built all the same.
use crate::large_rows::{LargeRow, rows_of_many, rows_of_the_longest};
use crate::parts::check;
use crate::update_tests::built;
use std::alloc::Global;
use std::process::Abort;
use std::rt::HostRuntime;

/// Whether a row's message has as many records as the row says.
fn has_so_many(rt: &impl Abort, alloc: Global, row: &LargeRow) -> bool {
    match built(rt, alloc, row.1, &row.2, true) {
        Some(message) => message.answers.len() == row.3 && message.authorities.len() == row.4,
        None => false,
    }
}

#[test]
fn a_zone_is_changed_by_70_000_records(rt: HostRuntime) {
    for row in rows_of_many() {
        check(&rt, row.0, has_so_many(&rt, rt.alloc(), row));
    }
}

#[test]
fn a_zone_with_the_longest_name_is_changed(rt: HostRuntime) {
    for row in rows_of_the_longest() {
        check(&rt, row.0, has_so_many(&rt, rt.alloc(), row));
    }
}
