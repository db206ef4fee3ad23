//! Why no keys are trusted.
ghost use Rattle.dns_anchor_keys.specs.declared.fault.AnchorsFault.TheVariants.{NoMemory as no_memory};

use dns_handle::NetError;
use dns_record::{Name, NoMemory};
use std::alloc::{AllocError, AllocFailed};

/// Why records of trust anchors give no keys.
pub enum AnchorsFault {
    /// The zone's key set was asked for, and this error was answered.
    Unanswered(Name, NetError),
    /// No key is there: no key of the zones' key sets is one that a digest stands for.
    NoKey,
    /// Memory ran out.
    NoMemory,
}

// By hand, so that a function that lets one go calls this.
impl Drop for AnchorsFault {
    fn drop(self) {
        match self {
            AnchorsFault::Unanswered(_, _) => {}
            AnchorsFault::NoKey => {}
            AnchorsFault::NoMemory => {}
        }
    }
}

impl From<NoMemory> for AnchorsFault {
    ghost use Rattle.std.specs.Prelude.{◌≡◌};

    ghost from_gives = { λ _ e. e ≡ no_memory };

    fn from(_error: NoMemory) -> AnchorsFault {
        AnchorsFault::NoMemory
    }
}

impl From<AllocError> for AnchorsFault {
    ghost use Rattle.std.specs.Prelude.{◌≡◌};

    ghost from_gives = { λ _ e. e ≡ no_memory };

    fn from(_error: AllocError) -> AnchorsFault {
        AnchorsFault::NoMemory
    }
}

impl<T: Drop> From<AllocFailed<T>> for AnchorsFault {
    ghost use Rattle.std.specs.Prelude.{◌≡◌};

    ghost from_gives = { λ _ e. e ≡ no_memory };

    fn from(_failed: AllocFailed<T>) -> AnchorsFault {
        AnchorsFault::NoMemory
    }
}
