//! Why reading stops, and the line that names a bad line.
ghost use Rattle.std.specs.Prelude.{◌≡◌, IfOk};
ghost use Rattle.dns_session.specs.Stops.{bad_line_text};
ghost use Rattle.dns_session.specs.declared.stop.SessionStop.TheVariants.{NoMemory as no_memory};

use dns_record::NoMemory;
use dns_text::push_decimal;
use std::alloc::{AllocFailed, Global};

/// Why a session, or a text that follows one, wasn't read.
#[derive(Clone, Copy, Debug, PartialEq, Eq, Drop)]
pub enum SessionStop {
    /// The number, from 1, of the first line that can't stand at its place, is missing or has no LF.
    BadLine(u64),
    /// Memory ran out; this says nothing of the bytes.
    NoMemory,
}

impl From<NoMemory> for SessionStop {
    ghost from_gives = { λ _ e. e ≡ no_memory };

    fn from(_error: NoMemory) -> SessionStop {
        SessionStop::NoMemory
    }
}

impl<T: Drop> From<AllocFailed<T>> for SessionStop {
    ghost from_gives = { λ _ e. e ≡ no_memory };

    fn from(_failed: AllocFailed<T>) -> SessionStop {
        SessionStop::NoMemory
    }
}

/// The line that names the first bad line, by its number: `bad line N`.
pub fn bad_line_text(alloc: Global, number: u64) -> Result<Vec<u8>, NoMemory>
    ensures { IfOk result (λ text. text.items ≡ bad_line_text number) }
{
    let mut text = Vec::from_slice(alloc, b"bad line ")?;
    push_decimal(&mut text, number)?;
    text.push(b'\n')?;
    Ok(text)
}
