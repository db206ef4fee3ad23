//! Why no port was opened.
ghost use Rattle.std.specs.Prelude.{◌≡◌};
ghost use Rattle.dns_forward_run.specs.declared.stop.Stop.TheVariants.{NoMemory as no_memory};

use std::alloc::AllocFailed;

/// Why no port was opened.
#[derive(Clone, Copy, Debug, Drop)]
pub enum Stop {
    /// The listener refused one.
    Refused,
    /// Memory ran out.
    NoMemory,
}

impl<T: Drop> From<AllocFailed<T>> for Stop {
    ghost from_gives = { λ _ e. e ≡ no_memory };

    fn from(_failed: AllocFailed<T>) -> Stop {
        Stop::NoMemory
    }
}
