//! Sources whose bytes are in memory.
ghost use Rattle.std.specs.Prelude.{◌≡◌, ℕ, ◌≤◌, ◌↔◌, List, length, take, min, Some, IsOk, IsErr, IfOk, OnErr, IsTrue};
ghost use Rattle.std.specs.Io.{ReadsAtMost};
ghost use Rattle.std.specs.Io.KnownBytes.{ReadConsumes};
ghost use Rattle.dns_io.specs.Calls.{no_calls, next_fails, with_call};
ghost use Rattle.dns_model.specs.Counts.{Rose};

use crate::calls::Calls;
use crate::source::{Failed, Source};
use dns_record::Octets;
use std::marker::Model;

/// A source in memory that never fails. Contracts see it as the bytes that are left.
#[derive(Drop)]
pub struct SureSource {
    bytes: Octets,
    at: usize,
}

impl Model for SureSource {
    ghost use Rattle.std.specs.Prelude.{ℕ, ◌≤◌, List, drop, length};

    ghost Value = { List ℕ };

    ghost view = { λ s. drop s.at s.bytes };

    ghost invariant = { λ s. s.at ≤ length s.bytes };
}

impl SureSource {
    /// A source of these bytes.
    pub fn new(bytes: Octets) -> SureSource
        ensures { result ≡ bytes }
    {
        SureSource { bytes, at: 0 }
    }
}

impl Source for SureSource {
    ghost left = { λ s. Some s };

    ghost faults = { λ _. 0 };

    fn read(&mut self, buf: &mut [u8]) -> Result<usize, Failed>
        ensures bound { ReadsAtMost result buf.new }
        ensures bytes { ReadConsumes (Some self.old) (Some self.new) result buf.new }
        ensures ok { result ≡ Ok (min (length buf.new) (length self.old)) }
    {
        let count = copy_front(&self.bytes.as_slice()[self.at..], buf);
        self.at += count;
        Ok(count)
    }
}

// Copies what fits of `text` into the front of `buf`, and answers how many bytes.
fn copy_front(text: &[u8], buf: &mut [u8]) -> usize
    ensures count { result ≡ min (length buf.new) (length text.now) }
    ensures bytes { take result buf.new ≡ take result text.now }
{
    let count = buf.len().min(text.len());
    buf[..count].copy_from_slice(&text[..count]);
    count
}

/// A source in memory, of whose reads some fail. Contracts see it as the bytes that are left and its calls.
#[derive(Drop)]
pub struct TextSource {
    text: SureSource,
    calls: Calls,
}

impl Model for TextSource {
    ghost use Rattle.dns_io.specs.Calls.{TextLeft};

    ghost Value = { TextLeft };

    ghost view = { λ s. record { left = s.text; calls = s.calls } };
}

impl TextSource {
    /// A source of these bytes. `fails` are the numbers, from 0, of the reads that fail.
    pub fn new(bytes: Octets, fails: Vec<u64>) -> TextSource
        ensures { result ≡ record { left = bytes; calls = no_calls fails.items } }
    {
        TextSource {
            text: SureSource::new(bytes),
            calls: Calls::new(fails),
        }
    }
}

impl Source for TextSource {
    ghost left = { λ s. Some s.left };

    ghost faults = { λ s. s.calls.faults };

    fn read(&mut self, buf: &mut [u8]) -> Result<usize, Failed>
        ensures bound { ReadsAtMost result buf.new }
        ensures bytes { ReadConsumes (Some self.old.left) (Some self.new.left) result buf.new }
        ensures later { self.old.calls.faults ≤ self.new.calls.faults }
        ensures failed { OnErr result (Rose self.old.calls.faults self.new.calls.faults) }
        ensures fails { IsErr result ↔ IsTrue (next_fails self.old.calls) }
        ensures count { IfOk result (λ n. n ≡ min (length buf.new) (length self.old.left)) }
        ensures calls { self.new.calls ≡ with_call self.old.calls }
    {
        if self.calls.make() {
            return Err(Failed);
        }
        self.text.read(buf)
    }
}
