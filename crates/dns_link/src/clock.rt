//! The moment, from the system or fixed.
ghost use Rattle.std.specs.Prelude.{◌≡◌};

use std::time;
use std::time::SystemTime;

/// What tells the moment, in seconds since 1970.
pub trait Clock {
    /// The moment.
    fn now(&mut self) -> u64;
}

/// A clock that stands.
#[derive(Drop)]
pub struct FixedClock {
    moment: u64,
}

impl FixedClock {
    ghost use Rattle.dns_link.specs.Sockets.{standing_at};

    /// A clock that stands at a moment.
    pub fn new(moment: u64) -> FixedClock
        ensures { standing_at result ≡ moment }
    {
        FixedClock { moment }
    }
}

impl Clock for FixedClock {
    ghost use Rattle.dns_link.specs.Sockets.{standing_at};

    fn now(&mut self) -> u64
        ensures moment { result ≡ standing_at self.old }
        ensures kept { self.new ≡ self.old }
    {
        self.moment
    }
}

/// The system's clock. Where it fails or stands before 1970, the last moment is told again, at first 0. A copy begins at the same moment,
/// and from then on each remembers its own.
#[derive(Clone, Drop)]
pub struct SystemClock<R: time::Clock + Drop> {
    clock: R,
    last: u64,
}

impl<R: time::Clock + Drop> SystemClock<R> {
    /// The clock of a runtime.
    pub fn new(clock: R) -> SystemClock<R> {
        SystemClock { clock, last: 0 }
    }
}

/// The seconds since 1970; none where the clock fails or stands before.
fn seconds(clock: &impl time::Clock) -> Option<u64> {
    let now = SystemTime::now(clock).ok()?;
    let since = now.duration_since(SystemTime::UNIX_EPOCH).ok()?;
    Some(since.as_secs())
}

impl<R: time::Clock + Drop> Clock for SystemClock<R> {
    fn now(&mut self) -> u64 {
        if let Some(moment) = seconds(&self.clock) {
            self.last = moment;
        }
        self.last
    }
}
