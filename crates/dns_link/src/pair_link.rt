//! A connection in memory.
ghost use Rattle.std.specs.Prelude.{◌≡◌, ◌≢◌, ◌↔◌, ◌++◌, [], All, Some, Ok, ◌<◌, IsErr, IfErr, IfOk, OnOk, OnErr, IsTrue, length, map, min, take, sum};
ghost use Rattle.std.specs.Io.{ReadsAtMost, WritesAtMost};
ghost use Rattle.std.specs.Io.KnownBytes.{prepend_known};
ghost use Rattle.dns_link.specs.Calls.{IsToldWith, only_fault};
ghost use Rattle.dns_link.specs.Counts.{after_read, after_write};
ghost use Rattle.dns_link.specs.Moved.{EndsAt, and_then, moved_by};
ghost use Rattle.dns_link.specs.Pairs.{free_room, new_pair, read_of_piece};
ghost use Rattle.dns_link.specs.Plans.{next_fails, with_call};

use crate::call_log::CallLog;
use crate::call_plan::CallPlan;
use crate::counts::Counts;
use crate::link::Link;
use crate::pieces::Pieces;
use dns_handle::IoKind;
use dns_record::{NoMemory, Octets};
use std::alloc::Global;
use std::marker::Model;

/// A link in memory. It gives bytes piece by piece, takes as many as it has room for, and fails where it is told to.
#[derive(Drop)]
pub struct PairLink {
    pieces: Pieces,
    taken: Vec<u8>,
    room: usize,
    plan: CallPlan,
    counts: Counts,
    calls: CallLog,
}

impl Model for PairLink {
    ghost use Rattle.std.specs.Prelude.{◌≤◌, vec_len, vec_capacity};
    ghost use Rattle.dns_link.specs.Pairs.{PairLinkValue};

    ghost Value = { PairLinkValue };

    ghost view = { λ l. record {
      pieces = l.pieces;
      taken = l.taken.items;
      room = l.room;
      plan = l.plan;
      counts = l.counts;
      calls = l.calls;
    } };

    ghost invariant = { λ l. (vec_len l.taken ≤ l.room) × (l.room ≤ vec_capacity l.taken) };
}

impl PairLink {
    /// A link that gives these pieces, none of them empty, and takes so many bytes. `fails` are the numbers, from 0, of the reads
    /// and writes that fail; their kind is `Other`.
    pub fn new(
        alloc: Global,
        pieces: Vec<Octets>,
        room: usize,
        fails: Vec<u64>,
    ) -> Result<PairLink, NoMemory>
        requires { All (λ piece. piece ≢ []) pieces.items }
        ensures { IfOk result (λ link. link ≡ new_pair pieces.items room fails.items) }
    {
        let taken = Vec::with_capacity(alloc, room)?;
        let pieces = Pieces::new(alloc, &pieces)?;
        Ok(PairLink {
            pieces,
            taken,
            room,
            plan: CallPlan::new(fails),
            counts: Counts::new(),
            calls: CallLog::new(alloc),
        })
    }

    /// The bytes that it took.
    pub fn taken(&self) -> &[u8]
        ensures { result.now ≡ self.now.taken }
    {
        &self.taken
    }

    /// What it met and the kind of its last fault.
    pub(crate) fn into_met(self) -> (Counts, CallLog)
        ensures { result ≡ (self.counts, self.calls) }
    {
        (self.counts, self.calls)
    }

    /// Reads, unless the call is one that fails.
    fn try_read(&mut self, buf: &mut [u8]) -> Result<usize, IoKind>
        ensures fails { IsErr result ↔ IsTrue (next_fails self.old.plan) }
        ensures kind { IfErr result (λ kind. kind ≡ IoKind.Other) }
        ensures count { IfOk result (λ n. n ≡ min (length buf.new) self.old.pieces.piece) }
        ensures bytes { IfOk result (λ n. take n buf.new ≡ take n self.old.pieces.left) }
        ensures ok { IfOk result (λ n. self.new
            ≡ record self.old { pieces = read_of_piece n self.old.pieces; plan = with_call self.old.plan }) }
        ensures err { OnErr result (self.new ≡ record self.old { plan = with_call self.old.plan }) }
        ensures end { result ≡ Ok 0 → 0 < length buf.new → self.new.pieces.left ≡ [] }
    {
        if self.plan.make() {
            return Err(IoKind::Other);
        }
        Ok(self.pieces.read(buf))
    }

    /// Writes, unless the call is one that fails.
    fn try_write(&mut self, bytes: &[u8]) -> Result<usize, IoKind>
        ensures fails { IsErr result ↔ IsTrue (next_fails self.old.plan) }
        ensures kind { IfErr result (λ kind. kind ≡ IoKind.Other) }
        ensures count { IfOk result (λ n. n ≡ min (length bytes.now) (free_room self.old)) }
        ensures moved { self.new ≡ record self.old {
          taken = self.old.taken ++ moved_by result bytes.now;
          plan = with_call self.old.plan;
        } }
    {
        if self.plan.make() {
            return Err(IoKind::Other);
        }
        let count = bytes.len().min(self.room - self.taken.len());
        let Ok(()) = self.taken.extend_from_slice(&bytes[..count]) else {
            unreachable!()
        };
        Ok(count)
    }
}

impl Link for PairLink {
    ghost counts = { λ l. l.counts };

    ghost given = { λ l. Some l.pieces.given };

    ghost left = { λ l. Some l.pieces.left };

    ghost taken = { λ l. Some l.taken };

    ghost calls = { λ l. l.calls };

    fn read(&mut self, buf: &mut [u8]) -> Result<usize, IoKind>
        ensures bound { ReadsAtMost result buf.new }
        ensures counts { self.new.counts ≡ after_read (length buf.new) result self.old.counts }
        ensures given { Some self.new.pieces.given ≡ and_then (Some self.old.pieces.given) (moved_by result buf.new) }
        ensures left { Some self.old.pieces.left ≡ prepend_known (moved_by result buf.new) (Some self.new.pieces.left) }
        ensures end { EndsAt result buf.new (Some self.new.pieces.left) }
        ensures taken { Some self.new.taken ≡ Some self.old.taken }
        ensures calls { IsToldWith self.old.calls (only_fault result) self.new.calls }

        // A read gives at most the rest of a piece, and fails where it is told to.
        ensures fails { IsErr result ↔ IsTrue (next_fails self.old.plan) }
        ensures kind { IfErr result (λ kind. kind ≡ IoKind.Other) }
        ensures count { IfOk result (λ n. n ≡ min (length buf.new) self.old.pieces.piece) }
        ensures pieces { IfOk result (λ n. self.new.pieces ≡ read_of_piece n self.old.pieces) }
        ensures plan { self.new.plan ≡ with_call self.old.plan }
        ensures room { self.new.room ≡ self.old.room }
    {
        let result = self.try_read(buf);
        self.counts.count_read(buf.len(), &result);
        self.calls.add_fault(&result);
        result
    }

    fn write(&mut self, bytes: &[u8]) -> Result<usize, IoKind>
        ensures bound { WritesAtMost result bytes.now }
        ensures counts { self.new.counts ≡ after_write (length bytes.now) result self.old.counts }
        ensures taken { Some self.new.taken ≡ and_then (Some self.old.taken) (moved_by result bytes.now) }
        ensures given { Some self.new.pieces.given ≡ Some self.old.pieces.given }
        ensures left { Some self.new.pieces.left ≡ Some self.old.pieces.left }
        ensures calls { IsToldWith self.old.calls (only_fault result) self.new.calls }

        // A write takes what there is room for, and fails where it is told to.
        ensures fails { IsErr result ↔ IsTrue (next_fails self.old.plan) }
        ensures kind { IfErr result (λ kind. kind ≡ IoKind.Other) }
        ensures count { IfOk result (λ n. n ≡ min (length bytes.now) (free_room self.old)) }
        ensures pieces { self.new.pieces ≡ self.old.pieces }
        ensures plan { self.new.plan ≡ with_call self.old.plan }
        ensures room { self.new.room ≡ self.old.room }
    {
        let result = self.try_write(bytes);
        self.counts.count_write(bytes.len(), &result);
        self.calls.add_fault(&result);
        result
    }
}
