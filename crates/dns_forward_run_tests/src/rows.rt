//! What tests share: the assertion on a row.
use std::process::Abort;

/// What was tried on a row held; the message names the row.
pub(crate) fn check_row(rt: &impl Abort, row: &str, held: bool) {
    assert!(rt; held, "{row}");
}
