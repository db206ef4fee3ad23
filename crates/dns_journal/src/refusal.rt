//! Why an event is refused.
ghost use Rattle.std.specs.Prelude.{◌≡◌};
ghost use Rattle.dns_journal.specs.declared.refusal.Refusal.TheVariants.{NoMemory};

use dns_record::NoMemory;

/// Why an event is refused. Nothing has changed then.
#[derive(Clone, Copy, Debug, PartialEq, Eq, Drop)]
pub enum Refusal {
    /// The journal has as many entries, or as many bytes of messages, as it may, less the places that it keeps.
    HistoryFull,
    /// Memory ran out.
    NoMemory,
}

impl From<NoMemory> for Refusal {
    ghost from_gives = { λ _ refusal. refusal ≡ NoMemory };

    fn from(_error: NoMemory) -> Self {
        Refusal::NoMemory
    }
}
