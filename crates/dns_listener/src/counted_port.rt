//! A port that counts what it met.
ghost use Rattle.std.specs.Prelude.{◌≡◌};
ghost use Rattle.dns_listener.specs.Listening.{IsSilent};
ghost use Rattle.dns_listener.specs.Ports.{sent_after, traffic_since};

use crate::port_counts::PortCounts;
use dns_handle::IoKind;
use dns_ports::{Port, PortFault};
use dns_record::Octets;

/// Any port, which counts from 0 what it meets from now on. It tells what comes and goes from now on, where that port does.
#[derive(Drop)]
pub struct CountedPort<P: Port + Drop> {
    port: P,
    counts: PortCounts,
    /// How many replies were sent; it stops at the greatest `u64`.
    sent: u64,
}

impl<P: Port + Drop> CountedPort<P> {
    ghost use Rattle.dns_listener.specs.Ports.{counted_by, port_in};
    ghost use Rattle.dns_listener.specs.Listening.{nothing_met};

    /// A port with no count yet.
    pub fn new(port: P) -> CountedPort<P>
        ensures met { counted_by result ≡ nothing_met }
        ensures port { port_in result ≡ port }
        ensures silent { IsSilent (traffic_since P.Port result) }
    {
        CountedPort {
            port,
            counts: PortCounts::new(),
            sent: 0,
        }
    }

    /// What it met.
    pub(crate) fn counts(&self) -> &PortCounts
        ensures { result.now ≡ counted_by self.now }
    {
        &self.counts
    }
}

// Counts a reply, if it was sent.
fn count_sent(count: &mut u64, sent: &Result<(), IoKind>)
    ensures { count.new ≡ sent_after sent.now count.old }
{
    if sent.is_ok() {
        *count = count.saturating_add(1);
    }
}

impl<P: Port + Drop> Port for CountedPort<P> {
    ghost use Rattle.dns_listener.specs.Ports.{counted_by, traffic_since};

    ghost faults = { λ p. (counted_by p).faults };

    ghost gots = { λ p. (counted_by p).gots };

    ghost ends = { λ p. (counted_by p).ends };

    ghost received = { λ p. (traffic_since P.Port p).received };

    ghost replied = { λ p. (traffic_since P.Port p).replied };

    fn receive(&mut self) -> Result<Option<Octets>, PortFault> {
        let given = self.port.receive();
        self.counts.count_receive(&given);
        given
    }

    fn reply(&mut self, bytes: &[u8]) -> Result<(), IoKind> {
        let sent = self.port.reply(bytes);
        self.counts.count_reply(&sent);
        count_sent(&mut self.sent, &sent);
        sent
    }
}
