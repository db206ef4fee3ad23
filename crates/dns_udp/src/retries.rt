//! How often a request is sent, by the time that has passed.
ghost use Rattle.std.specs.Prelude.{◌≡◌, ◌≤◌};
ghost use Rattle.dns_udp.specs.Tries.{retries_of, tries_by};

use std::marker::Model;

/// How often a request is sent while no answer comes (RFC 1035, 7.1).
#[derive(Clone, Copy, Debug, PartialEq, Eq)]
pub struct Retries {
    /// Milliseconds; never 0.
    interval_ms: u64,
    /// Never 0.
    max_tasks: u8,
}

impl Model for Retries {
    ghost use Rattle.std.specs.Prelude.{◌<◌};
    ghost use Rattle.dns_udp.specs.Tries.{RetriesValue};

    ghost Value = { RetriesValue };

    ghost view = { λ r. record { interval = r.interval_ms; tasks = r.max_tasks } };

    ghost inverse = { λ r. record { interval_ms = r.interval; max_tasks = r.tasks } };

    ghost invariant = { λ r. (0 < r.interval_ms) × (0 < r.max_tasks) };
}

impl Retries {
    /// Sent again after each interval, in milliseconds, until so many tasks wait for an answer. An interval of 0 counts as 1,
    /// and no task as one.
    pub fn new(interval_ms: u64, max_tasks: u8) -> Retries
        ensures { result ≡ retries_of interval_ms max_tasks }
    {
        Retries {
            interval_ms: interval_ms.max(1),
            max_tasks: max_tasks.max(1),
        }
    }

    /// How often the request was to be sent when so many milliseconds have passed since the first time: 1 at least.
    ///
    /// ```
    /// fn sends_in_a_second() -> u64 {
    ///     Retries::new(333, 5).tries(1000)
    /// }
    /// ```
    pub fn tries(&self, elapsed_ms: u64) -> u64
        ensures tries { result ≡ tries_by self.now elapsed_ms }
        ensures some { 1 ≤ result }
        ensures most { result ≤ 255 }
    {
        let more = u64::from(self.max_tasks) - 1;
        1 + more.min(elapsed_ms / self.interval_ms)
    }
}
