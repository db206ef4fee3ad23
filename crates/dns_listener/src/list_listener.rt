//! A listener in memory.
ghost use Rattle.std.specs.Prelude.{◌≡◌, ◌∷◌, [], IfOk, Some, drop};
ghost use Rattle.dns_listener.specs.Listening.{IsSilent, TellsPorts, after_listening, nothing_listened, nothing_met, with_port};
ghost use Rattle.dns_listener.specs.Ports.{counted_by, traffic_since};
ghost use Rattle.dns_listener.specs.Listeners.{IsFirst, kept_told, listed_counts, listed_ports, listed_told};

use crate::counted_port::CountedPort;
use crate::listener::Listener;
use crate::listener_tally::ListenerTally;
use dns_handle::IoKind;
use dns_ports::Port;
use std::collections::VecDeque;
use std::net::SocketAddr;

/// A listener in memory. It gives ports in order, whichever call asks for one, or a kind of fault in place of one, and refuses with
/// `AddrNotAvailable` where none is left. It keeps the ports that it has back, unless memory runs out.
#[derive(Drop)]
pub struct ListListener<P: Port + Drop> {
    ports: VecDeque<Result<P, IoKind>>,
    tally: ListenerTally,
    /// The ports that are back; None once memory ran out for one.
    retired: Option<Vec<CountedPort<P>>>,
}

impl<P: Port + Drop> ListListener<P> {
    /// A listener that gives these ports.
    pub fn new(ports: Vec<Result<P, IoKind>>) -> ListListener<P>
        ensures ports { listed_ports result ≡ ports.items }
        ensures counts { listed_counts result ≡ nothing_listened }
        ensures told { listed_told P.Port result ≡ Some [] }
    {
        let retired = Some(Vec::new(*ports.allocator()));
        ListListener {
            ports: VecDeque::from_vec(ports),
            tally: ListenerTally::new(),
            retired,
        }
    }

    // The next port, counted.
    fn next(&mut self) -> Result<CountedPort<P>, IoKind>
        ensures made { IfOk result (λ port. counted_by port ≡ nothing_met) }
        ensures silent { IfOk result (λ port. IsSilent (traffic_since P.Port port)) }
        ensures counts { listed_counts self.new ≡ after_listening result (listed_counts self.old) }
        ensures told { listed_told P.Port self.new ≡ listed_told P.Port self.old }
        ensures first { IsFirst (listed_ports self.old) result }
        ensures rest { listed_ports self.new ≡ drop 1 (listed_ports self.old) }
    {
        let made = first_of(&mut self.ports);
        self.tally.count_listening(&made);
        made
    }
}

// Takes the first port out, if it is one.
fn first_of<P: Port + Drop>(
    ports: &mut VecDeque<Result<P, IoKind>>,
) -> Result<CountedPort<P>, IoKind>
    ensures made { IfOk result (λ port. counted_by port ≡ nothing_met) }
    ensures silent { IfOk result (λ port. IsSilent (traffic_since P.Port port)) }
    ensures first { IsFirst ports.old.items result }
    ensures rest { ports.new.items ≡ drop 1 ports.old.items }
{
    match ports.pop_front() {
        Some(Ok(port)) => Ok(CountedPort::new(port)),
        Some(Err(kind)) => Err(kind),
        None => Err(IoKind::AddrNotAvailable),
    }
}

// Keeps a port behind others, unless memory runs out or others aren't kept.
fn keep<P: Port + Drop>(kept: &mut Option<Vec<CountedPort<P>>>, port: CountedPort<P>)
    ensures { TellsPorts (kept_told P.Port kept.old) (traffic_since P.Port port ∷ []) (kept_told P.Port kept.new) }
{
    let Some(mut ports) = kept.take() else {
        return;
    };
    if ports.push(port).is_ok() {
        *kept = Some(ports);
    }
}

impl<P: Port + Drop> Listener for ListListener<P> {
    ghost use Rattle.dns_listener.specs.Listeners.{listed_counts, listed_told};

    type Port = CountedPort<P>;

    ghost counts = { listed_counts };

    ghost told = { λ l. listed_told P.Port l };

    fn udp(&mut self, _local: SocketAddr) -> Result<CountedPort<P>, IoKind>
        ensures made { IfOk result (λ port. counted_by port ≡ nothing_met) }
        ensures silent { IfOk result (λ port. IsSilent (traffic_since P.Port port)) }
        ensures counts { listed_counts self.new ≡ after_listening result (listed_counts self.old) }
        ensures told { listed_told P.Port self.new ≡ listed_told P.Port self.old }

        // It gives the first port.
        ensures first { IsFirst (listed_ports self.old) result }
        ensures rest { listed_ports self.new ≡ drop 1 (listed_ports self.old) }
    {
        self.next()
    }

    fn accept(&mut self, _local: SocketAddr) -> Result<CountedPort<P>, IoKind>
        ensures made { IfOk result (λ port. counted_by port ≡ nothing_met) }
        ensures silent { IfOk result (λ port. IsSilent (traffic_since P.Port port)) }
        ensures counts { listed_counts self.new ≡ after_listening result (listed_counts self.old) }
        ensures told { listed_told P.Port self.new ≡ listed_told P.Port self.old }

        // It gives the first port.
        ensures first { IsFirst (listed_ports self.old) result }
        ensures rest { listed_ports self.new ≡ drop 1 (listed_ports self.old) }
    {
        self.next()
    }

    fn retire(&mut self, port: CountedPort<P>)
        ensures counts { listed_counts self.new ≡ with_port (listed_counts self.old) (counted_by port) }
        ensures told { TellsPorts (listed_told P.Port self.old) (traffic_since P.Port port ∷ []) (listed_told P.Port self.new) }
        ensures left { listed_ports self.new ≡ listed_ports self.old }
    {
        self.tally.add(port.counts());
        keep(&mut self.retired, port);
    }
}
