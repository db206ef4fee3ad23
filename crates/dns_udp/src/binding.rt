//! Where sockets are bound, and how often that is tried.
ghost use Rattle.std.specs.Prelude.{◌≡◌, ◌<◌, ◌≤◌, true, IfOk};
ghost use Rattle.dns_udp.specs.Ports.{is_avoided};
ghost use Rattle.dns_link.specs.Calls.{Tells, no_calls};
ghost use Rattle.dns_udp.specs.Bindings.{DrawsPorts, IsAnyAddress, IsBound, IsNextLocalBy, draws_ports, is_refusal, is_tried_again};
ghost use Rattle.dns_udp.specs.Met.{dialer_view};

use crate::next_port;
use dns_handle::IoKind;
use dns_link::Dialer;
use dns_multiplexer::Draws;
use std::collections::BTreeSet;
use std::marker::Model;
use std::net::{IpAddr, Ipv4Addr, Ipv6Addr, SocketAddr};

/// So many refusals at most are tried again.
const MOST_REFUSED: u8 = 11;

/// Where sockets are bound.
#[derive(Drop)]
pub struct Binding {
    /// The local address; port 0 stands for any.
    pub local: SocketAddr,
    /// Ports that aren't drawn.
    pub avoid: BTreeSet<u16>,
    /// The system chooses the port.
    pub os_ports: bool,
}

impl Model for Binding {
    ghost use Rattle.dns_udp.specs.Bindings.{BindingValue};

    ghost Value = { BindingValue };

    ghost view = { λ b. record { local = b.local; avoid = b.avoid; os_ports = b.os_ports } };
}

/// Every address of a server's family, and port 0.
pub fn any_address(server: &SocketAddr) -> SocketAddr
    ensures { IsAnyAddress server.now result }
{
    match server {
        SocketAddr::V4(_) => SocketAddr::new(IpAddr::V4(Ipv4Addr::UNSPECIFIED), 0),
        SocketAddr::V6(_) => SocketAddr::new(IpAddr::V6(Ipv6Addr::UNSPECIFIED), 0),
    }
}

/// Whether another address may be given where this one wasn't.
fn is_refusal(kind: IoKind) -> bool
    ensures { result ≡ is_refusal kind }
{
    matches!(kind, IoKind::PermissionDenied | IoKind::AddrInUse)
}

/// Whether another bind is tried after a refusal.
fn is_tried_again(attempted: u8, kind: IoKind) -> bool
    ensures again { result ≡ is_tried_again attempted kind }
    ensures few { result ≡ true → attempted < 11 }
{
    attempted < MOST_REFUSED && is_refusal(kind)
}

impl Binding {
    /// Whether a port is drawn for each try.
    fn draws_ports(&self) -> bool
        ensures { result ≡ draws_ports self.now }
    {
        self.local.port() == 0 && !self.os_ports
    }

    /// The address of the next try: as it was given, or with a port that is drawn.
    fn next_local<R: Draws>(&self, draws: &mut R, attempted: &mut u8) -> SocketAddr
        ensures next { IsNextLocalBy (draws_ports self.now) R.draws_port self.now draws.old draws.new attempted.old
            attempted.new result }
        ensures ports { DrawsPorts R.draws_port draws.old draws.new }
        ensures rises { attempted.old ≤ attempted.new }
    {
        if !self.draws_ports() {
            return self.local;
        }
        let mut local = self.local;
        local.set_port(next_port(draws, attempted, &self.avoid));
        local
    }

    /// Makes a socket. A refusal with `PermissionDenied` or `AddrInUse` is tried again while there were less than eleven attempts,
    /// and is one attempt more, as a port is that was drawn and is avoided. So there are twelve binds at most, and none after
    /// ten attempts draws a port. `attempted` is 0 for a socket of its own.
    pub fn bind<D: Dialer, R: Draws>(
        &self,
        dial: &mut D,
        draws: &mut R,
        attempted: &mut u8,
    ) -> Result<D::Datagrams, IoKind>
        ensures bound { IsBound R.draws_port self.now draws.old draws.new attempted.old attempted.new D.Datagrams.counts
            D.Datagrams.given (dialer_view D.counts D.given_datagrams dial.old) (dialer_view D.counts D.given_datagrams dial.new)
            (D.calls dial.old) (D.calls dial.new) result }
        ensures unasked { IfOk result (λ socket. Tells (D.Datagrams.calls socket) no_calls) }
        ensures bytes { D.given_bytes dial.new ≡ D.given_bytes dial.old }
        ensures ports { DrawsPorts R.draws_port draws.old draws.new }
    {
        let local = self.next_local(draws, attempted);
        match dial.bind(local) {
            Ok(socket) => Ok(socket),
            Err(kind) => {
                if is_tried_again(*attempted, kind) {
                    *attempted += 1;
                    return self.bind(dial, draws, attempted);
                }
                Err(kind)
            }
        }
    }
}
