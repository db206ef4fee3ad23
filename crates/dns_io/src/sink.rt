//! What takes bytes, and the loop that writes them all.
ghost use Rattle.std.specs.Prelude.{◌≡◌, ℕ, ◌<◌, ◌≤◌, Bool, true, List, length, Option, OnOk};
ghost use Rattle.std.specs.Io.{WritesAtMost};
ghost use Rattle.std.specs.Io.KnownBytes.{Appends, WriteAppends};
ghost use Rattle.dns_model.specs.Counts.{Rose};
ghost use Rattle.dns_io.specs.Writing.{TakesPrefix};
ghost use Rattle.dns_io.specs.declared.sink.SinkFault.TheVariants.{NoMemory};

use std::alloc::{AllocError, AllocFailed};

/// Why a sink took nothing.
#[derive(Clone, Copy, Debug, PartialEq, Eq)]
pub enum SinkFault {
    /// A write failed.
    Failed,
    /// The sink had no memory for the bytes.
    NoMemory,
}

impl From<AllocError> for SinkFault {
    ghost from_gives = { λ _ e. e ≡ NoMemory };

    fn from(_: AllocError) -> Self {
        SinkFault::NoMemory
    }
}

impl<T: Drop> From<AllocFailed<T>> for SinkFault {
    ghost from_gives = { λ _ e. e ≡ NoMemory };

    fn from(_: AllocFailed<T>) -> Self {
        SinkFault::NoMemory
    }
}

/// What takes bytes, a piece at a time.
pub trait Sink {
    /// The bytes that were taken, where the sink tells them.
    ghost taken: { Self → Option (List ℕ) };

    /// How many writes have failed. It stops at the greatest `u64`.
    ghost faults: { Self → ℕ };

    /// Whether a write may want memory. Where it may not, none answers [`SinkFault::NoMemory`].
    ghost takes_memory: { Bool };

    /// Takes bytes from the front of `bytes`, and answers how many. To take none of a piece that
    /// isn't empty is a fault too.
    fn write(&mut self, bytes: &[u8]) -> Result<usize, SinkFault>
        ensures bound { WritesAtMost result bytes.now }
        ensures bytes { WriteAppends (taken self.old) (taken self.new) result bytes.now }
        ensures later { faults self.old ≤ faults self.new }
        ensures failed { result ≡ Err SinkFault.Failed → Rose (faults self.old) (faults self.new) }
        ensures memory { result ≡ Err SinkFault.NoMemory → takes_memory ≡ true }
        ensures none { result ≡ Ok 0 → 0 < length bytes.now → Rose (faults self.old) (faults self.new) };
}

/// Writes all of `bytes`. After an error a prefix of them was taken.
pub fn write_all<K: Sink>(sink: &mut K, bytes: &[u8]) -> Result<(), SinkFault>
    ensures all { OnOk result (Appends (K.taken sink.old) (K.taken sink.new) bytes.now) }
    ensures failed { result ≡ Err SinkFault.Failed → Rose (K.faults sink.old) (K.faults sink.new) }
    ensures memory { result ≡ Err SinkFault.NoMemory → K.takes_memory ≡ true }
    ensures later { K.faults sink.old ≤ K.faults sink.new }
    ensures prefix { TakesPrefix (K.taken sink.old) (K.taken sink.new) bytes.now }
{
    let mut at = 0;
    while at < bytes.len() {
        let count = sink.write(&bytes[at..])?;
        if count == 0 {
            return Err(SinkFault::Failed);
        }
        at += count;
    }
    Ok(())
}
