//! The faults of readers within a message.
ghost use Rattle.std.specs.Prelude.{◌≡◌, ◌<◌, ◌^◌};
ghost use Rattle.dns_message.specs.declared.decode_error.DecodeKind.TheVariants.{NoMemory};
ghost use Rattle.dns_message.specs.Reading.{fault};

use crate::decode_error::{DecodeError, DecodeKind};
use std::alloc::{AllocError, AllocFailed};
use std::marker::Model;

/// A `DecodeError` while a message is read, as which contracts see it. Its place has a word, so that a result which holds it or a
/// place is moved in words: moved in pieces of other sizes, what was just stored is waited for at each return.
#[derive(Drop)]
pub(crate) struct ReadFault {
    pub(crate) kind: DecodeKind,
    place: usize,
}

impl Model for ReadFault {
    ghost use Rattle.std.specs.Prelude.{◌<◌, ◌^◌};
    ghost use Rattle.dns_message.specs.declared.decode_error.DecodeError.{DecodeError};

    ghost Value = { DecodeError };

    ghost view = { λ f. record { kind = f.kind; offset = f.place } };

    ghost invariant = { λ f. f.place < 2 ^ 32 };
}

impl ReadFault {
    // What the caller of the crate is told.
    pub(crate) fn shown(self) -> DecodeError
        ensures { result ≡ self }
    {
        DecodeError {
            kind: self.kind,
            offset: self.place as u32,
        }
    }
}

// Out of memory.
fn no_memory() -> ReadFault
    ensures { result.kind ≡ NoMemory }
{
    ReadFault {
        kind: DecodeKind::NoMemory,
        place: 0,
    }
}

impl From<AllocError> for ReadFault {
    ghost from_gives = { λ _ e. e.kind ≡ NoMemory };

    fn from(_error: AllocError) -> ReadFault {
        no_memory()
    }
}

impl<T: Drop> From<AllocFailed<T>> for ReadFault {
    ghost from_gives = { λ _ e. e.kind ≡ NoMemory };

    fn from(_failed: AllocFailed<T>) -> ReadFault {
        no_memory()
    }
}

impl From<dns_record::NoMemory> for ReadFault {
    ghost from_gives = { λ _ e. e.kind ≡ NoMemory };

    fn from(_error: dns_record::NoMemory) -> ReadFault {
        no_memory()
    }
}

// A fault at a place.
pub(crate) fn fault(kind: DecodeKind, place: usize) -> ReadFault
    requires { place < 2 ^ 32 }
    ensures { result ≡ fault kind place }
{
    ReadFault { kind, place }
}
