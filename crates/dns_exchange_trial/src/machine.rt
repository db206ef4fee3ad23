//! What is told events and answers them: a multiplexer by itself, or one that is called through a token.

use crate::plain_mux::{Answer, Event};
use dns_record::NoMemory;
use std::alloc::Global;
use std::time::{Clock, Duration, Instant};

/// A machine for events.
pub(crate) trait Machine {
    /// What it answers to an event.
    fn answer(&mut self, alloc: Global, event: Event) -> Result<Answer, NoMemory>;
}

/// A machine whose answers are timed.
#[derive(Drop)]
pub(crate) struct Timed<'a, M: Machine + Drop, C: Clock> {
    machine: M,
    clock: &'a C,
    /// Nanoseconds of the longest answer.
    pub(crate) longest: u64,
}

impl<'a, M: Machine + Drop, C: Clock> Timed<'a, M, C> {
    /// None was timed yet.
    pub(crate) fn new(machine: M, clock: &'a C) -> Timed<'a, M, C> {
        Timed {
            machine,
            clock,
            longest: 0,
        }
    }
}

// Nanoseconds since a moment; 0 where the clock fails.
fn nanoseconds(start: &Instant, clock: &impl Clock) -> u64 {
    let taken = start.elapsed(clock).unwrap_or(Duration::ZERO);
    u64::try_from(taken.as_nanos()).unwrap_or(u64::MAX)
}

impl<'a, M: Machine + Drop, C: Clock> Machine for Timed<'a, M, C> {
    fn answer(&mut self, alloc: Global, event: Event) -> Result<Answer, NoMemory> {
        let Ok(start) = Instant::now(self.clock) else {
            return Ok(Answer::Other);
        };
        let answer = self.machine.answer(alloc, event)?;
        self.longest = self.longest.max(nanoseconds(&start, self.clock));
        Ok(answer)
    }
}
