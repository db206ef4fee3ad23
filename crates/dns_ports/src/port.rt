//! Where requests come from and replies go to.
ghost use Rattle.std.specs.Prelude.{◌≡◌, ◌≤◌, List, Option, ℕ};
ghost use Rattle.dns_ports.specs.Ports.{ends_after, gots_after, given_by, sent_by, ReceiveHasCause, ReplyHasCause, TellsMore};

use dns_handle::IoKind;
use dns_record::Octets;

/// Why a port gave no request.
#[derive(Clone, Copy, Debug, PartialEq, Eq, Drop)]
pub enum PortFault {
    /// The outside failed.
    Io(IoKind),
    /// Memory ran out.
    NoMemory,
}

/// Where requests come from and replies go to. Its counts stop at the greatest `u64`.
pub trait Port {
    /// How many faults were met; it never falls.
    ghost faults: { Self → ℕ };

    /// How many requests were given.
    ghost gots: { Self → ℕ };

    /// How often it was said that no more requests come.
    ghost ends: { Self → ℕ };

    /// The requests that were given, in order, where the port tells them. It may stop to do so.
    ghost received: { Self → Option (List (List ℕ)) };

    /// The replies that were sent, in order, where the port tells them. It may stop to do so.
    ghost replied: { Self → Option (List (List ℕ)) };

    /// Waits for a request. None where the client has closed, or where nothing came for long. `Io` comes only where a fault was met.
    fn receive(&mut self) -> Result<Option<Octets>, PortFault>
        ensures gots { gots self.new ≡ gots_after (gots self.old) result }
        ensures ends { ends self.new ≡ ends_after (ends self.old) result }
        ensures later { faults self.old ≤ faults self.new }
        ensures cause { ReceiveHasCause (faults self.old) (faults self.new) result }
        ensures received { TellsMore (received self.old) (given_by result) (received self.new) }
        ensures replied { replied self.new ≡ replied self.old };

    /// Sends a reply to the client whose request was given last. It fails only where a fault was met.
    fn reply(&mut self, bytes: &[u8]) -> Result<(), IoKind>
        ensures gots { gots self.new ≡ gots self.old }
        ensures ends { ends self.new ≡ ends self.old }
        ensures later { faults self.old ≤ faults self.new }
        ensures cause { ReplyHasCause (faults self.old) (faults self.new) result }
        ensures received { received self.new ≡ received self.old }
        ensures replied { TellsMore (replied self.old) (sent_by bytes.now result) (replied self.new) };
}
