//! How long after the last write a link may still be read.
use std::time::{self, Duration, Instant};

/// A limit of time that begins anew with each write.
#[derive(Drop)]
pub(crate) struct Deadline<C: Drop> {
    clock: C,
    limit: Duration,
    /// When it began; None where the clock failed.
    began: Option<Instant>,
}

impl<C: time::Clock + Drop> Deadline<C> {
    /// A limit of so many milliseconds that begins now.
    pub(crate) fn new(clock: C, limit_ms: u64) -> Deadline<C> {
        let began = Instant::now(&clock).ok();
        Deadline {
            clock,
            limit: Duration::from_millis(limit_ms),
            began,
        }
    }

    /// Begins anew.
    pub(crate) fn restart(&mut self) {
        self.began = Instant::now(&self.clock).ok();
    }

    /// The time since it began; None where the clock failed.
    fn elapsed(&self) -> Option<Duration> {
        self.began?.elapsed(&self.clock).ok()
    }

    /// Whether it is over. It is where the clock fails, so that nobody waits unmeasured.
    pub(crate) fn is_over(&self) -> bool {
        match self.elapsed() {
            Some(elapsed) => elapsed > self.limit,
            None => true,
        }
    }
}
