//! What is done before the calls of a link.
use crate::beside::Beside;
use crate::hooked_link::Hook;
use dns_handle::IoKind;
use dns_multiplexer::{Draws, ListDraws};
use std::process::Abort;
use std::sync::Wait;
use std::sync::atomic::{AtomicU64, Ordering};
use std::thread;

/// So often a word is looked at, at the most.
const TRIES: u64 = 10_000_000;

/// The call with a number, from 0, fails.
#[derive(Drop)]
pub(crate) struct FailsAt {
    made: u64,
    at: u64,
    kind: IoKind,
}

impl FailsAt {
    pub(crate) fn new(at: u64, kind: IoKind) -> FailsAt {
        FailsAt { made: 0, at, kind }
    }

    fn call(&mut self) -> Result<(), IoKind> {
        let fails = self.made == self.at;
        self.made = self.made.saturating_add(1);
        if fails { Err(self.kind) } else { Ok(()) }
    }
}

impl Hook for FailsAt {
    fn before_read(&mut self) -> Result<(), IoKind> {
        self.call()
    }

    fn before_write(&mut self) -> Result<(), IoKind> {
        self.call()
    }
}

/// Before each read another caller ends the request with a number.
#[derive(Drop)]
pub(crate) struct Cancels<W: Abort + Wait + Copy> {
    beside: Beside<W>,
    number: u64,
}

impl<W: Abort + Wait + Copy> Cancels<W> {
    pub(crate) fn new(beside: Beside<W>, number: u64) -> Cancels<W> {
        Cancels { beside, number }
    }
}

impl<W: Abort + Wait + Copy> Hook for Cancels<W> {
    fn before_read(&mut self) -> Result<(), IoKind> {
        self.beside.cancel(self.number);
        Ok(())
    }

    fn before_write(&mut self) -> Result<(), IoKind> {
        Ok(())
    }
}

/// Before a read so many ids have been drawn.
#[derive(Drop)]
pub(crate) struct AfterDraws<'a> {
    drawn: &'a AtomicU64,
    wanted: u64,
}

impl<'a> AfterDraws<'a> {
    pub(crate) fn new(drawn: &'a AtomicU64, wanted: u64) -> AfterDraws<'a> {
        AfterDraws { drawn, wanted }
    }
}

impl<'a> Hook for AfterDraws<'a> {
    fn before_read(&mut self) -> Result<(), IoKind> {
        for _ in 0..TRIES {
            if self.drawn.load(Ordering::SeqCst) >= self.wanted {
                return Ok(());
            }
            thread::yield_now();
        }
        Err(IoKind::TimedOut)
    }

    fn before_write(&mut self) -> Result<(), IoKind> {
        Ok(())
    }
}

/// Draws from a list, and counts the ids.
#[derive(Drop)]
pub(crate) struct CountedDraws<'a> {
    draws: ListDraws,
    drawn: &'a AtomicU64,
}

impl<'a> CountedDraws<'a> {
    pub(crate) fn new(draws: ListDraws, drawn: &'a AtomicU64) -> CountedDraws<'a> {
        CountedDraws { draws, drawn }
    }
}

impl<'a> Draws for CountedDraws<'a> {
    ghost draws_id = { λ old id new. ⟦<ListDraws as Draws>⟧.draws_id old.draws id new.draws };

    ghost draws_port = { λ old port new. ⟦<ListDraws as Draws>⟧.draws_port old.draws port new.draws };

    fn id(&mut self) -> u16 {
        self.drawn.fetch_add(1, Ordering::SeqCst);
        self.draws.id()
    }

    fn port(&mut self) -> u16 {
        self.draws.port()
    }
}
