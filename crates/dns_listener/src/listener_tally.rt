//! What a listener met, as counts.
ghost use Rattle.std.specs.Prelude.{◌≡◌};
ghost use Rattle.dns_link.specs.Counts.{sum_counted};
ghost use Rattle.dns_listener.specs.Listening.{after_listening, nothing_listened, with_port};

use crate::port_counts::PortCounts;
use dns_handle::IoKind;
use std::marker::Model;

/// What a listener met, and the ports that it has back. Each count stops at the greatest `u64`.
#[derive(Drop)]
pub(crate) struct ListenerTally {
    faults: u64,
    broken: u64,
    gots: u64,
    ends: u64,
}

impl Model for ListenerTally {
    ghost use Rattle.dns_listener.specs.Listening.{ListenerCounts};

    ghost Value = { ListenerCounts };

    ghost view = { λ t. record { faults = t.faults; broken = t.broken; gots = t.gots; ends = t.ends } };
}

// A sum that stops at the greatest `u64`.
fn add_counted(count: &mut u64, more: u64)
    ensures { count.new ≡ sum_counted count.old more }
{
    *count = count.saturating_add(more);
}

impl ListenerTally {
    /// Nothing was met yet.
    pub(crate) fn new() -> ListenerTally
        ensures { result ≡ nothing_listened }
    {
        ListenerTally {
            faults: 0,
            broken: 0,
            gots: 0,
            ends: 0,
        }
    }

    /// Counts a call that was to give a port.
    pub(crate) fn count_listening<X>(&mut self, made: &Result<X, IoKind>)
        ensures { self.new ≡ after_listening made.now self.old }
    {
        if made.is_err() {
            self.faults = self.faults.saturating_add(1);
        }
    }

    /// Adds what a port met.
    pub(crate) fn add(&mut self, port: &PortCounts)
        ensures { self.new ≡ with_port self.old port.now }
    {
        add_counted(&mut self.broken, port.faults);
        add_counted(&mut self.gots, port.gots);
        add_counted(&mut self.ends, port.ends);
    }
}
