//! Why a message isn't written.
ghost use Rattle.std.specs.Prelude.{◌≡◌};
ghost use Rattle.dns_message.specs.declared.encode_error.EncodeError.TheVariants as errors;

use std::alloc::{AllocError, AllocFailed};

/// Why a message wasn't written.
#[derive(Clone, Copy, Debug, PartialEq, Eq, Drop)]
pub enum EncodeError {
    /// It has more than 65,535 bytes.
    TooLong,
    /// Memory ran out.
    NoMemory,
}

impl From<AllocError> for EncodeError {
    ghost from_gives = { λ _ e. e ≡ errors.NoMemory };

    fn from(_error: AllocError) -> EncodeError {
        EncodeError::NoMemory
    }
}

impl<T: Drop> From<AllocFailed<T>> for EncodeError {
    ghost from_gives = { λ _ e. e ≡ errors.NoMemory };

    fn from(_failed: AllocFailed<T>) -> EncodeError {
        EncodeError::NoMemory
    }
}

impl From<dns_record::NoMemory> for EncodeError {
    ghost from_gives = { λ _ e. e ≡ errors.NoMemory };

    fn from(_error: dns_record::NoMemory) -> EncodeError {
        EncodeError::NoMemory
    }
}
