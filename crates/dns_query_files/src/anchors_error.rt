//! Why a text isn't one of trusted keys.
ghost use Rattle.std.specs.Prelude.{◌≡◌};
ghost use Rattle.dns_query_files.specs.declared.anchors_error.AnchorsError.TheVariants.{NoMemory as no_memory};

use dns_master_file::Refusal;
use dns_record::NoMemory;
use std::alloc::{AllocError, AllocFailed};

/// What is wrong with a text of trusted keys.
#[derive(Clone, Copy, Debug, PartialEq, Eq, Drop)]
pub enum AnchorsError {
    /// A line isn't a record: the number of the line from 1, what is wrong with it, and in which column, from 1.
    BadLine(u64, Refusal, usize),
    /// The line of this number is a record of another class than IN, or neither a DNSKEY nor a DS, or too short to be one; or a key
    /// that is revoked, isn't a zone's or has another protocol than 3.
    NoAnchor(u64),
    /// No line says a key.
    Empty,
    /// Memory ran out; this says nothing of the text.
    NoMemory,
}

impl From<NoMemory> for AnchorsError {
    ghost from_gives = { λ _ e. e ≡ no_memory };

    fn from(_error: NoMemory) -> AnchorsError {
        AnchorsError::NoMemory
    }
}

impl From<AllocError> for AnchorsError {
    ghost from_gives = { λ _ e. e ≡ no_memory };

    fn from(_error: AllocError) -> AnchorsError {
        AnchorsError::NoMemory
    }
}

impl<T: Drop> From<AllocFailed<T>> for AnchorsError {
    ghost from_gives = { λ _ e. e ≡ no_memory };

    fn from(_failed: AllocFailed<T>) -> AnchorsError {
        AnchorsError::NoMemory
    }
}
