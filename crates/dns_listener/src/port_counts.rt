//! What a port met, as counts.
ghost use Rattle.std.specs.Prelude.{◌≡◌, ◌≤◌};
ghost use Rattle.dns_listener.specs.Listening.{after_receiving, after_replying, nothing_met};

use dns_handle::IoKind;
use dns_ports::PortFault;
use dns_record::Octets;
use std::marker::Model;

/// What a port met. Each count stops at the greatest `u64`.
#[derive(Drop)]
pub struct PortCounts {
    pub(crate) faults: u64,
    pub(crate) gots: u64,
    pub(crate) ends: u64,
}

impl Model for PortCounts {
    ghost use Rattle.dns_listener.specs.Listening.{PortCountsValue};

    ghost Value = { PortCountsValue };

    ghost view = { λ c. record { faults = c.faults; gots = c.gots; ends = c.ends } };
}

impl PortCounts {
    /// Nothing was met yet.
    pub fn new() -> PortCounts
        ensures { result ≡ nothing_met }
    {
        PortCounts {
            faults: 0,
            gots: 0,
            ends: 0,
        }
    }

    /// Counts what a call of `receive` gave.
    pub fn count_receive(&mut self, given: &Result<Option<Octets>, PortFault>)
        ensures counted { self.new ≡ after_receiving given.now self.old }
        ensures later { self.old.faults ≤ self.new.faults }
    {
        match given {
            Ok(Some(_)) => self.gots = self.gots.saturating_add(1),
            Ok(None) => self.ends = self.ends.saturating_add(1),
            Err(PortFault::Io(_)) => self.faults = self.faults.saturating_add(1),
            Err(PortFault::NoMemory) => (),
        }
    }

    /// Counts what a call of `reply` answered.
    pub fn count_reply(&mut self, sent: &Result<(), IoKind>)
        ensures counted { self.new ≡ after_replying sent.now self.old }
        ensures later { self.old.faults ≤ self.new.faults }
    {
        if sent.is_err() {
            self.faults = self.faults.saturating_add(1);
        }
    }
}
