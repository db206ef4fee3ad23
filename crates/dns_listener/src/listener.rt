//! A listener, as a layer above sees it.
ghost use Rattle.std.specs.Prelude.{◌≡◌, ◌∷◌, [], IfOk, List, Option};
ghost use Rattle.dns_listener.specs.Listening.{IsSilent, ListenerCounts, TellsPorts, TrafficValue, after_listening, met, nothing_met, traffic, with_port};

use dns_handle::IoKind;
use dns_ports::Port;
use std::net::SocketAddr;

/// What makes ports, and takes them back.
pub trait Listener {
    /// What `udp` and `accept` make.
    type Port: Port + Drop;

    /// What the listener met, and what the ports met that it has back. It counts a fault exactly where it gives no port.
    ghost counts: { Self → ListenerCounts };

    /// What came and went at the ports that it has back, in order, where it tells that. It may stop to do so.
    ghost told: { Self → Option (List TrafficValue) };

    /// Makes a port for the datagrams that come to a local address.
    fn udp(&mut self, local: SocketAddr) -> Result<Self::Port, IoKind>
        ensures made { IfOk result (λ port. met (Self.Port.faults port) (Self.Port.gots port) (Self.Port.ends port) ≡ nothing_met) }
        ensures silent { IfOk result (λ port. IsSilent (traffic (Self.Port.received port) (Self.Port.replied port))) }
        ensures counts { counts self.new ≡ after_listening result (counts self.old) }
        ensures told { told self.new ≡ told self.old };

    /// Waits for a client that connects to a local address, and makes a port for its connection. The first call also begins to listen.
    fn accept(&mut self, local: SocketAddr) -> Result<Self::Port, IoKind>
        ensures made { IfOk result (λ port. met (Self.Port.faults port) (Self.Port.gots port) (Self.Port.ends port) ≡ nothing_met) }
        ensures silent { IfOk result (λ port. IsSilent (traffic (Self.Port.received port) (Self.Port.replied port))) }
        ensures counts { counts self.new ≡ after_listening result (counts self.old) }
        ensures told { told self.new ≡ told self.old };

    /// Takes a port back.
    fn retire(&mut self, port: Self::Port)
        ensures counts { counts self.new ≡ with_port (counts self.old)
            (met (Self.Port.faults port) (Self.Port.gots port) (Self.Port.ends port)) }
        ensures told { TellsPorts (told self.old)
            (traffic (Self.Port.received port) (Self.Port.replied port) ∷ []) (told self.new) };
}
