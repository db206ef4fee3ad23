//! Why a lookup can't be saved.
ghost use Rattle.std.specs.Prelude.{◌≡◌};
ghost use Rattle.dns_saved_lookup.specs.declared.save_error.SaveError.TheVariants.{NoMemory as no_memory};

use dns_record::NoMemory;
use std::alloc::AllocFailed;

/// Why a lookup can't be saved.
#[derive(Clone, Copy, Debug, PartialEq, Eq, Drop)]
pub enum SaveError {
    /// The saved session has another answer: its replies aren't those that the lookup heard.
    Differs,
    /// A message has more than 65,535 bytes with its names spelled out.
    LongMessage,
    /// The text has more than 16,777,216 bytes, which is more than is read of a session.
    LongText,
    /// Memory ran out.
    NoMemory,
}

impl From<NoMemory> for SaveError {
    ghost from_gives = { λ _ e. e ≡ no_memory };

    fn from(_error: NoMemory) -> SaveError {
        SaveError::NoMemory
    }
}

impl<T: Drop> From<AllocFailed<T>> for SaveError {
    ghost from_gives = { λ _ e. e ≡ no_memory };

    fn from(_failed: AllocFailed<T>) -> SaveError {
        SaveError::NoMemory
    }
}
