//! The error of a call that got no memory.
ghost use Rattle.std.specs.Prelude.{◌≡◌};
ghost use Rattle.dns_model.specs.declared.name_error.NameError.TheVariants.{NoMemory as no_memory};

use dns_model::NameError;
use std::alloc::{AllocError, AllocFailed};

/// Memory ran out. What the call was to change stays as it was.
#[derive(Clone, Copy, Debug, PartialEq, Eq, Drop)]
pub struct NoMemory;

impl From<AllocError> for NoMemory {
    fn from(_error: AllocError) -> Self {
        NoMemory
    }
}

impl<T: Drop> From<AllocFailed<T>> for NoMemory {
    fn from(_failed: AllocFailed<T>) -> Self {
        NoMemory
    }
}

impl From<NoMemory> for NameError {
    ghost from_gives = { λ _ e. e ≡ no_memory };

    fn from(_error: NoMemory) -> Self {
        NameError::NoMemory
    }
}
