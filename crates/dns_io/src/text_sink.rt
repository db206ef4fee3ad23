//! Sinks whose bytes are in memory.
ghost use Rattle.std.specs.Prelude.{◌≡◌, ℕ, ◌<◌, ◌≤◌, ◌↔◌, List, [], length, Some, IfOk, IfErr, IsTrue, true};
ghost use Rattle.std.specs.Io.{WritesAtMost};
ghost use Rattle.std.specs.Io.KnownBytes.{WriteAppends};
ghost use Rattle.dns_io.specs.Calls.{no_calls, next_fails, with_call};
ghost use Rattle.dns_model.specs.Counts.{Rose};

use crate::calls::Calls;
use crate::sink::{Sink, SinkFault};
use std::alloc::Global;
use std::marker::Model;

/// A sink in memory that never fails. Contracts see it as the bytes that it took.
#[derive(Drop)]
pub struct SureSink {
    bytes: Vec<u8>,
}

impl Model for SureSink {
    ghost use Rattle.std.specs.Prelude.{ℕ, List};

    ghost Value = { List ℕ };

    ghost view = { λ s. s.bytes.items };
}

impl SureSink {
    /// A sink that took nothing yet.
    pub fn new(alloc: Global) -> SureSink
        ensures { result ≡ [] }
    {
        SureSink {
            bytes: Vec::new(alloc),
        }
    }

    /// The bytes that it took.
    pub fn taken(&self) -> &[u8]
        ensures { result.now ≡ self.now }
    {
        &self.bytes
    }
}

impl Sink for SureSink {
    ghost taken = { λ s. Some s };

    ghost faults = { λ _. 0 };

    ghost takes_memory = { true };

    fn write(&mut self, bytes: &[u8]) -> Result<usize, SinkFault>
        ensures bound { WritesAtMost result bytes.now }
        ensures bytes { WriteAppends (Some self.old) (Some self.new) result bytes.now }
        ensures count { IfOk result (λ n. n ≡ length bytes.now) }
        ensures err { IfErr result (λ e. e ≡ SinkFault.NoMemory) }
    {
        self.bytes.extend_from_slice(bytes)?;
        Ok(bytes.len())
    }
}

/// A sink in memory, of whose writes some fail. Contracts see it as the bytes that it took and its calls.
#[derive(Drop)]
pub struct TextSink {
    text: SureSink,
    calls: Calls,
}

impl Model for TextSink {
    ghost use Rattle.dns_io.specs.Calls.{TextTaken};

    ghost Value = { TextTaken };

    ghost view = { λ s. record { taken = s.text; calls = s.calls } };
}

impl TextSink {
    /// A sink that took nothing yet. `fails` are the numbers, from 0, of the writes that fail.
    pub fn new(alloc: Global, fails: Vec<u64>) -> TextSink
        ensures { result ≡ record { taken = []; calls = no_calls fails.items } }
    {
        TextSink {
            text: SureSink::new(alloc),
            calls: Calls::new(fails),
        }
    }

    /// The bytes that it took.
    pub fn taken(&self) -> &[u8]
        ensures { result.now ≡ self.now.taken }
    {
        self.text.taken()
    }
}

impl Sink for TextSink {
    ghost taken = { λ s. Some s.taken };

    ghost faults = { λ s. s.calls.faults };

    ghost takes_memory = { true };

    fn write(&mut self, bytes: &[u8]) -> Result<usize, SinkFault>
        ensures bound { WritesAtMost result bytes.now }
        ensures bytes { WriteAppends (Some self.old.taken) (Some self.new.taken) result bytes.now }
        ensures later { self.old.calls.faults ≤ self.new.calls.faults }
        ensures failed { result ≡ Err SinkFault.Failed → Rose self.old.calls.faults self.new.calls.faults }
        ensures none { result ≡ Ok 0 → 0 < length bytes.now → Rose self.old.calls.faults self.new.calls.faults }
        ensures fails { (result ≡ Err SinkFault.Failed) ↔ IsTrue (next_fails self.old.calls) }
        ensures count { IfOk result (λ n. n ≡ length bytes.now) }
        ensures calls { self.new.calls ≡ with_call self.old.calls }
    {
        if self.calls.make() {
            return Err(SinkFault::Failed);
        }
        self.text.write(bytes)
    }
}
