//! The end of all waiting.
use dns_query_handle::{Stopwatch, SystemStopwatch};
use std::time;

/// When nothing is awaited any more.
#[derive(Drop)]
pub(crate) struct End<C: Drop> {
    watch: SystemStopwatch<C>,
    /// Milliseconds by the stopwatch.
    limit_ms: u64,
}

impl<C: time::Clock + Drop> End<C> {
    /// So many milliseconds from now.
    pub(crate) fn after(clock: C, limit_ms: u64) -> End<C> {
        End {
            watch: SystemStopwatch::new(clock),
            limit_ms,
        }
    }

    /// The milliseconds that are left; none where the clock fails.
    pub(crate) fn left_ms(&mut self) -> u64 {
        self.limit_ms.saturating_sub(self.watch.elapsed_ms())
    }
}
