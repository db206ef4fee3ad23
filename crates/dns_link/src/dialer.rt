//! A dialer, as a layer above sees it.
ghost use Rattle.std.specs.Prelude.{◌≡◌, ℕ, List, Option, None, IfOk};
ghost use Rattle.dns_link.specs.Calls.{IsToldWith, IsToldWithThose, NetCalls, Tells, answered, no_calls};
ghost use Rattle.dns_link.specs.Counts.{CountsValue, after_dial, with_counts};
ghost use Rattle.dns_link.specs.Moved.{DatagramValue, IsNew, and_those};

use crate::datagrams::Datagrams;
use crate::link::Link;
use crate::net_call::NetCall;
use dns_handle::IoKind;
use std::net::SocketAddr;

/// What makes links and sockets, and takes them back.
pub trait Dialer {
    /// What `connect` makes.
    type Link: Link + Drop;

    /// What `bind` makes.
    type Datagrams: Datagrams + Drop;

    /// What the dialer met, and what the links and sockets met that it has back.
    ghost counts: { Self → CountsValue };

    /// The bytes that those links gave, one link behind the other, where all of them and the dialer tell them.
    ghost given_bytes: { Self → Option (List ℕ) };

    /// The datagrams that came to those sockets, where all of them and the dialer tell them.
    ghost given_datagrams: { Self → Option (List DatagramValue) };

    /// What was asked of the dialer, in order, with what was sent by the sockets that it has back, and the kind of the last fault, where
    /// all of them and the dialer tell them.
    ghost calls: { Self → Option NetCalls } = { λ _. None };

    /// Makes a link to a peer, from a local address if one is given. Connecting, and each read and write later, waits for so many
    /// milliseconds at most.
    fn connect(
        &mut self,
        peer: SocketAddr,
        bind: Option<SocketAddr>,
        timeout_ms: u64,
    ) -> Result<Self::Link, IoKind>
        ensures made { IfOk result (λ link. IsNew (Self.Link.counts link) (Self.Link.given link)) }
        ensures unasked { IfOk result (λ link. Tells (Self.Link.calls link) no_calls) }
        ensures counts { counts self.new ≡ after_dial result (counts self.old) }
        ensures bytes { given_bytes self.new ≡ given_bytes self.old }
        ensures datagrams { given_datagrams self.new ≡ given_datagrams self.old }
        ensures calls { IsToldWith (calls self.old) (answered (NetCall.Connect peer bind timeout_ms) result) (calls self.new) };

    /// Makes a socket at a local address.
    fn bind(&mut self, local: SocketAddr) -> Result<Self::Datagrams, IoKind>
        ensures made { IfOk result (λ socket. IsNew (Self.Datagrams.counts socket) (Self.Datagrams.given socket)) }
        ensures unasked { IfOk result (λ socket. Tells (Self.Datagrams.calls socket) no_calls) }
        ensures counts { counts self.new ≡ after_dial result (counts self.old) }
        ensures bytes { given_bytes self.new ≡ given_bytes self.old }
        ensures datagrams { given_datagrams self.new ≡ given_datagrams self.old }
        ensures calls { IsToldWith (calls self.old) (answered (NetCall.Bind local) result) (calls self.new) };

    /// Takes a link back.
    fn retire(&mut self, link: Self::Link)
        ensures counts { counts self.new ≡ with_counts (counts self.old) (Self.Link.counts link) }
        ensures bytes { given_bytes self.new ≡ and_those (given_bytes self.old) (Self.Link.given link) }
        ensures datagrams { given_datagrams self.new ≡ given_datagrams self.old }
        ensures calls { IsToldWithThose (calls self.old) (Self.Link.calls link) (calls self.new) };

    /// Takes a socket back.
    fn retire_datagrams(&mut self, socket: Self::Datagrams)
        ensures counts { counts self.new ≡ with_counts (counts self.old) (Self.Datagrams.counts socket) }
        ensures bytes { given_bytes self.new ≡ given_bytes self.old }
        ensures datagrams { given_datagrams self.new ≡ and_those (given_datagrams self.old) (Self.Datagrams.given socket) }
        ensures calls { IsToldWithThose (calls self.old) (Self.Datagrams.calls socket) (calls self.new) };
}
