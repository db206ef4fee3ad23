//! What tests share: the assertion on a row.
ghost use Rattle.std.specs.Prelude.{◌≡◌, true};

use std::process::Abort;

/// What was tried on a row held; the message names the row.
pub(crate) fn check_held(rt: &impl Abort, row: &str, held: bool)
    ensures { held ≡ true }
{
    assert!(rt; held, "{row}");
}
