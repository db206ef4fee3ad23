//! Sockets that are bound in a single try.
ghost use Rattle.std.specs.Prelude.{◌≡◌, IfOk};
ghost use Rattle.dns_link.specs.Calls.{IsToldWith, Tells, answered, no_calls};
ghost use Rattle.dns_link.specs.Counts.{after_dial};
ghost use Rattle.dns_link.specs.Moved.{IsNew};
ghost use Rattle.dns_udp.specs.Bindings.{IsBoundFor};

use crate::binding::any_address;
use dns_handle::IoKind;
use dns_link::{Datagrams, Dialer, NetCall};
use std::net::SocketAddr;

/// Sockets that a dialer makes, each in a single try. A fault is the dialer's, which counts it.
pub trait UdpSocket: Datagrams {
    /// A socket at a local address.
    fn bind<D: Dialer<Datagrams = Self>>(dial: &mut D, addr: SocketAddr) -> Result<Self, IoKind>
        ensures made { IfOk result (λ socket. IsNew (Self.counts socket) (Self.given socket)) }
        ensures counts { D.counts dial.new ≡ after_dial result (D.counts dial.old) }
        ensures bytes { D.given_bytes dial.new ≡ D.given_bytes dial.old }
        ensures datagrams { D.given_datagrams dial.new ≡ D.given_datagrams dial.old }
        ensures unasked { IfOk result (λ socket. Tells (Self.calls socket) no_calls) }
        ensures calls { IsToldWith (D.calls dial.old) (answered (NetCall.Bind addr) result) (D.calls dial.new) };

    /// A socket for a server: at every address of its family, with a port that the system chooses.
    fn connect<D: Dialer<Datagrams = Self>>(dial: &mut D, addr: SocketAddr) -> Result<Self, IoKind>
        ensures made { IfOk result (λ socket. IsNew (Self.counts socket) (Self.given socket)) }
        ensures counts { D.counts dial.new ≡ after_dial result (D.counts dial.old) }
        ensures bytes { D.given_bytes dial.new ≡ D.given_bytes dial.old }
        ensures datagrams { D.given_datagrams dial.new ≡ D.given_datagrams dial.old }
        ensures unasked { IfOk result (λ socket. Tells (Self.calls socket) no_calls) }
        ensures calls { IsBoundFor addr (D.calls dial.old) (D.calls dial.new) result };

    /// A socket for a server at a local address. The server's address isn't used.
    fn connect_with_bind<D: Dialer<Datagrams = Self>>(
        dial: &mut D,
        addr: SocketAddr,
        bind_addr: SocketAddr,
    ) -> Result<Self, IoKind>
        ensures made { IfOk result (λ socket. IsNew (Self.counts socket) (Self.given socket)) }
        ensures counts { D.counts dial.new ≡ after_dial result (D.counts dial.old) }
        ensures bytes { D.given_bytes dial.new ≡ D.given_bytes dial.old }
        ensures datagrams { D.given_datagrams dial.new ≡ D.given_datagrams dial.old }
        ensures unasked { IfOk result (λ socket. Tells (Self.calls socket) no_calls) }
        ensures calls { IsToldWith (D.calls dial.old) (answered (NetCall.Bind bind_addr) result) (D.calls dial.new) };
}

impl<G: Datagrams + Drop> UdpSocket for G {
    fn bind<D: Dialer<Datagrams = G>>(dial: &mut D, addr: SocketAddr) -> Result<G, IoKind> {
        dial.bind(addr)
    }

    fn connect<D: Dialer<Datagrams = G>>(dial: &mut D, addr: SocketAddr) -> Result<G, IoKind> {
        dial.bind(any_address(&addr))
    }

    fn connect_with_bind<D: Dialer<Datagrams = G>>(
        dial: &mut D,
        _addr: SocketAddr,
        bind_addr: SocketAddr,
    ) -> Result<G, IoKind> {
        dial.bind(bind_addr)
    }
}
