//! A stream to a server.
ghost use Rattle.std.specs.Prelude.{◌≡◌, ◌≢◌, ◌<◌, ◌≤◌, [], false, IfOk, OnOk, length, nat_le};
ghost use Rattle.std.specs.declared.net.socket_addr.SocketAddr.{SocketAddr};
ghost use Rattle.dns_link.specs.Moved.{IsNew};
ghost use Rattle.dns_multiplexer.specs.Queues.{IsPut};
ghost use Rattle.dns_tcp.specs.Causes.{DrainAnswer, FeedAnswer, IsWritten};
ghost use Rattle.dns_tcp.specs.Dialing.{IsDialed, dial_to};
ghost use Rattle.dns_tcp.specs.Draining.{Drains};
ghost use Rattle.dns_tcp.specs.Feeding.{Feeds, GivesFrame, IsFramed};
ghost use Rattle.dns_tcp.specs.Frames.{lacking};
ghost use Rattle.dns_tcp.specs.Links.{link_view};
ghost use Rattle.dns_tcp.specs.Streams.{new_stream};

use crate::{Feed, TcpStream};
use dns_handle::NetError;
use dns_link::{Dialer, Link};
use dns_multiplexer::{BufDnsStreamHandle, SerialMessage};
use std::alloc::Global;
use std::net::SocketAddr;

/// What carries a client's messages to one server.
pub trait DnsClientStream {
    /// The server.
    ghost server: { Self → SocketAddr };

    /// The server's address.
    fn name_server_addr(&self) -> SocketAddr
        ensures { result ≡ server self.now };
}

/// A client's side of a [`TcpStream`] (RFC 7766).
#[derive(Drop)]
pub struct TcpClientStream<L: Link + Drop> {
    stream: TcpStream<L>,
}

impl<L: Link + Drop> TcpClientStream<L> {
    ghost use Rattle.dns_tcp.specs.StreamViews.{link_of, state_of, stream_of};

    /// A stream over a new link to the server, from a local address if one is given, and a handle that puts messages into its
    /// queue. Connecting, and each read and write later, waits for so many milliseconds at most.
    pub fn new<D: Dialer<Link = L>>(
        alloc: Global,
        dial: &mut D,
        peer: SocketAddr,
        bind: Option<SocketAddr>,
        timeout_ms: u64,
    ) -> Result<(TcpClientStream<L>, BufDnsStreamHandle), NetError>
        ensures dialed { IsDialed D.counts D.calls (dial_to peer bind timeout_ms) dial.old dial.new result }
        ensures bytes { D.given_bytes dial.new ≡ D.given_bytes dial.old }
        ensures datagrams { D.given_datagrams dial.new ≡ D.given_datagrams dial.old }
        ensures link { IfOk result (λ made.
            IsNew (L.counts (link_of (stream_of made.0))) (L.given (link_of (stream_of made.0)))) }
        ensures state { IfOk result (λ made. state_of (stream_of made.0) ≡ new_stream peer []) }
        ensures handle { IfOk result (λ made. made.1 ≡ record { addr = peer; buffer = 32 }) }
    {
        let link = dial.connect(peer, bind, timeout_ms)?;
        let (stream, handle) = TcpStream::from_stream(alloc, link, peer);
        Ok((TcpClientStream { stream }, handle))
    }

    /// A client's side of a stream.
    pub fn from_stream(stream: TcpStream<L>) -> TcpClientStream<L>
        ensures { stream_of result ≡ stream }
    {
        TcpClientStream { stream }
    }

    /// As [`TcpStream::enqueue`].
    pub fn enqueue(
        &mut self,
        handle: &mut BufDnsStreamHandle,
        message: SerialMessage,
    ) -> Result<(), NetError>
        requires { message.bytes ≢ [] }
        ensures put { IsPut handle.old.addr handle.old.buffer message
            (state_of (stream_of self.old)).queue (state_of (stream_of self.new)).queue result }
        ensures kept { state_of (stream_of self.new)
            ≡ record (state_of (stream_of self.old)) { queue = (state_of (stream_of self.new)).queue } }
        ensures link { link_of (stream_of self.new) ≡ link_of (stream_of self.old) }
        ensures handle { handle.new ≡ handle.old }
    {
        self.stream.enqueue(handle, message)
    }

    /// As [`TcpStream::has_room`].
    pub fn has_room(&self, handle: &BufDnsStreamHandle) -> bool
        ensures { result ≡ nat_le (length (state_of (stream_of self.now)).queue) handle.now.buffer }
    {
        self.stream.has_room(handle)
    }

    /// As [`TcpStream::feed`].
    pub fn feed(&mut self) -> Result<Feed, NetError>
        ensures fed { Feeds (link_view L.counts L.given L.left L.taken L.calls)
            (link_of (stream_of self.old)) (link_of (stream_of self.new))
            (state_of (stream_of self.old)) (state_of (stream_of self.new)) result }
        ensures framed { IsFramed (link_view L.counts L.given L.left L.taken L.calls)
            (link_of (stream_of self.old)) (link_of (stream_of self.new))
            (state_of (stream_of self.old)).part (state_of (stream_of self.new)).part result }
        ensures fits { GivesFrame result }
        ensures open { OnOk result ((state_of (stream_of self.new)).failed ≡ false) }
        ensures ready { 0 < lacking (state_of (stream_of self.new)).part }
        ensures small { OnOk result (length (state_of (stream_of self.new)).part ≤ 65537) }
        ensures answer { FeedAnswer (L.counts (link_of (stream_of self.old))) (L.counts (link_of (stream_of self.new)))
            (state_of (stream_of self.old)) result }
    {
        self.stream.feed()
    }

    /// As [`TcpStream::drain`].
    pub fn drain(&mut self) -> Result<bool, NetError>
        ensures drained { Drains (link_view L.counts L.given L.left L.taken L.calls)
            (link_of (stream_of self.old)) (link_of (stream_of self.new))
            (state_of (stream_of self.old)) (state_of (stream_of self.new)) result }
        ensures written { IsWritten (link_view L.counts L.given L.left L.taken L.calls)
            (link_of (stream_of self.old)) (link_of (stream_of self.new))
            (state_of (stream_of self.old)) (state_of (stream_of self.new)) result }
        ensures answer { DrainAnswer (L.counts (link_of (stream_of self.old))) (L.counts (link_of (stream_of self.new)))
            (state_of (stream_of self.old)) (state_of (stream_of self.new)) result }
    {
        self.stream.drain()
    }
}

impl<L: Link + Drop> DnsClientStream for TcpClientStream<L> {
    ghost use Rattle.dns_tcp.specs.StreamViews.{state_of, stream_of};

    ghost server = { λ s. (state_of (stream_of s)).peer };

    fn name_server_addr(&self) -> SocketAddr {
        self.stream.peer_addr()
    }
}
