//! Why bytes are no message.
ghost use Rattle.std.specs.Prelude.{◌≡◌};
ghost use Rattle.dns_message.specs.declared.decode_error.DecodeKind.TheVariants.{NoMemory};

use std::alloc::{AllocError, AllocFailed};

/// What is wrong with the bytes of a message (RFC 1035, 4.1; RFC 6891, 6.1).
#[derive(Clone, Copy, Debug, PartialEq, Eq, Drop)]
pub enum DecodeKind {
    /// A field, label, pointer or rdata reaches past the end. The offset is that of its first byte.
    Short,
    /// A length byte whose top bits are 01 or 10, a pointer whose target isn't before the row of labels that it ends, or a
    /// name above 255 bytes. The offset is that of the length byte.
    BadName,
    /// An rdata that hasn't its type's shape, or is above 65,535 bytes with names spelled out. The offset is that of its
    /// first byte.
    BadRdata,
    /// An OPT outside the additional section, not at the root, or the second one. The offset is that of its owner.
    BadOpt,
    /// Bytes follow the last section. The offset is that of the first.
    Trailing,
    /// Memory ran out. Neither this nor the offset says anything of the bytes.
    NoMemory,
}

/// Why bytes are no message: the first fault from the left, and the place of it in bytes from the start.
#[derive(Clone, Copy, Debug, PartialEq, Eq, Drop)]
pub struct DecodeError {
    /// What is wrong.
    pub kind: DecodeKind,
    /// The place of the byte at which it is wrong, from 0; 0 where memory ran out.
    pub offset: u32,
}

impl From<AllocError> for DecodeError {
    ghost from_gives = { λ _ e. e.kind ≡ NoMemory };

    fn from(_error: AllocError) -> DecodeError {
        DecodeError {
            kind: DecodeKind::NoMemory,
            offset: 0,
        }
    }
}

impl<T: Drop> From<AllocFailed<T>> for DecodeError {
    ghost from_gives = { λ _ e. e.kind ≡ NoMemory };

    fn from(_failed: AllocFailed<T>) -> DecodeError {
        DecodeError {
            kind: DecodeKind::NoMemory,
            offset: 0,
        }
    }
}

impl From<dns_record::NoMemory> for DecodeError {
    ghost from_gives = { λ _ e. e.kind ≡ NoMemory };

    fn from(_error: dns_record::NoMemory) -> DecodeError {
        DecodeError {
            kind: DecodeKind::NoMemory,
            offset: 0,
        }
    }
}
