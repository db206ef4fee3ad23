//! How much time has passed.
ghost use Rattle.std.specs.Prelude.{◌≡◌, ℕ, ⊤, drop};
ghost use Rattle.dns_multiplexer.specs.Draws.{first_or};

use std::collections::VecDeque;
use std::marker::Model;
use std::time::{self, Instant};

/// What tells how many milliseconds have passed since it was started.
pub trait Stopwatch {
    /// The stopwatch before it is read, the milliseconds, and the stopwatch after.
    ghost reads: { Self → ℕ → Self → Type 0 };

    /// The milliseconds since it was started.
    fn elapsed_ms(&mut self) -> u64
        ensures { reads self.old result self.new };
}

/// Tells what a list says: each call takes the first value that is left. With none left it tells 0.
#[derive(Drop)]
pub struct ListStopwatch {
    readings: VecDeque<u64>,
}

impl Model for ListStopwatch {
    ghost use Rattle.std.specs.Prelude.{List, ℕ};

    ghost Value = { List ℕ };

    ghost view = { λ w. w.readings.items };
}

impl ListStopwatch {
    /// Tells these milliseconds, from the front. It takes no memory.
    pub fn new(readings: Vec<u64>) -> ListStopwatch
        ensures { result ≡ readings.items }
    {
        ListStopwatch {
            readings: VecDeque::from_vec(readings),
        }
    }
}

impl Stopwatch for ListStopwatch {
    ghost reads = { λ old ms new. (ms ≡ first_or 0 old) × (new ≡ drop 1 old) };

    fn elapsed_ms(&mut self) -> u64 {
        match self.readings.pop_front() {
            Some(reading) => reading,
            None => 0,
        }
    }
}

/// Tells the time by the system's clock that never goes back. Where that fails it tells the greatest number, so that nobody waits
/// unmeasured.
#[derive(Drop)]
pub struct SystemStopwatch<C: Drop> {
    clock: C,
    /// When it was started; None where the clock failed.
    began: Option<Instant>,
}

impl<C: time::Clock + Drop> SystemStopwatch<C> {
    /// A stopwatch that starts now.
    pub fn new(clock: C) -> SystemStopwatch<C> {
        let began = Instant::now(&clock).ok();
        SystemStopwatch { clock, began }
    }

    // The milliseconds since it was started; None where the clock fails.
    fn passed(&self) -> Option<u64> {
        let passed = self.began?.elapsed(&self.clock).ok()?;
        let seconds = passed.as_secs().saturating_mul(1000);
        Some(seconds.saturating_add(u64::from(passed.subsec_millis())))
    }
}

/// It tells nothing of the time beforehand.
impl<C: time::Clock + Drop> Stopwatch for SystemStopwatch<C> {
    ghost reads = { λ _ _ _. ⊤ };

    fn elapsed_ms(&mut self) -> u64 {
        self.passed().unwrap_or(u64::MAX)
    }
}
