//! What is answered of a sighting and of a key (RFC 5011, 2.2 and 4).
ghost use Rattle.std.specs.Prelude.{◌≡◌};
ghost use Rattle.dns_anchor_roll.specs.declared.states.RollError.TheVariants.{NoMemory as no_memory};

use dns_record::NoMemory;

/// What came of a sighting.
#[derive(Clone, Copy, Debug, PartialEq, Eq, Drop)]
pub enum Seen {
    /// A key that was trusted before signed it (RFC 5011, 2.2).
    Accepted,
    /// None did. It counts for nothing but the moment, and for trusted keys that it revokes.
    Ignored,
}

/// The state of a key (RFC 5011, 4).
#[derive(Clone, Copy, Debug, PartialEq, Eq, Drop)]
pub enum KeyState {
    /// The last accepted sighting shows it, and its hold-down isn't over.
    Pending,
    /// It is trusted, and the last accepted sighting shows it, or there is none.
    Valid,
    /// It is trusted, and the last accepted sighting doesn't show it.
    Missing,
    /// It is revoked.
    Revoked,
    /// It was revoked 30 days ago or more.
    Removed,
}

/// Why a sighting wasn't taken.
#[derive(Clone, Copy, Debug, PartialEq, Eq, Drop)]
pub enum RollError {
    /// The last sighting was later: at this moment, in seconds since 1970.
    Earlier {
        /// The moment of the last sighting, in seconds since 1970.
        last: u64,
    },
    /// Memory ran out.
    NoMemory,
}

impl From<NoMemory> for RollError {
    ghost from_gives = { λ _ e. e ≡ no_memory };

    fn from(_error: NoMemory) -> RollError {
        RollError::NoMemory
    }
}
