//! Why a text or labels give no name.
ghost use Rattle.std.specs.Prelude.{◌≡◌};
ghost use Rattle.dns_model.specs.declared.name_error.NameError.TheVariants.{NoMemory};

use std::alloc::{AllocError, AllocFailed};

/// Why a text or labels give no name (RFC 1035, 5.1 and 3.1).
#[derive(Clone, Copy, Debug, PartialEq, Eq, Hash)]
pub enum NameError {
    /// A label without a byte.
    EmptyLabel,
    /// A label of more than 63 bytes.
    LongLabel,
    /// The wire form has more than 255 bytes.
    LongName,
    /// A broken escape, or a byte outside 0x21 to 0x7e that isn't escaped.
    BadEscape,
    /// Memory ran out.
    NoMemory,
}

impl From<AllocError> for NameError {
    ghost from_gives = { λ _ e. e ≡ NoMemory };

    fn from(_error: AllocError) -> Self {
        NameError::NoMemory
    }
}

impl<T: Drop> From<AllocFailed<T>> for NameError {
    ghost from_gives = { λ _ e. e ≡ NoMemory };

    fn from(_failed: AllocFailed<T>) -> Self {
        NameError::NoMemory
    }
}
