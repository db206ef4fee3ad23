//! A port over a connection (RFC 1035, 4.2.2).
ghost use Rattle.std.specs.Prelude.{◌≡◌, ◌≤◌, [], OnOk, OnErr};
ghost use Rattle.dns_ports.specs.Ports.{ReceiveHasCause, ReplyHasCause, ends_after, gots_after};
ghost use Rattle.dns_listener.specs.Listening.{after_receiving, after_replying, nothing_met};
ghost use Rattle.dns_listener.specs.Ports.{stream_met, stream_of};
ghost use Rattle.dns_listener.specs.Streams.{Gives, IsQueued, Replies, Writes, fault_in, kind_in};
ghost use Rattle.dns_tcp.specs.Links.{link_view};
ghost use Rattle.dns_tcp.specs.Steps.{DrainsAll};
ghost use Rattle.dns_tcp.specs.StreamViews.{link_of, state_of};
ghost use Rattle.dns_tcp.specs.Streams.{new_stream};

use crate::port_counts::PortCounts;
use dns_handle::{IoKind, NetError};
use dns_link::Link;
use dns_multiplexer::{BufDnsStreamHandle, SerialMessage};
use dns_ports::{Port, PortFault};
use dns_record::Octets;
use dns_tcp::{Feed, TcpStream};
use std::alloc::Global;
use std::net::SocketAddr;

/// A port for one client's connection, with a length before each message. It gives none once the client has closed between two messages.
/// A length of 0, an end inside a message and a client that says nothing for too long are faults.
#[derive(Drop)]
pub struct StreamPort<L: Link + Drop> {
    alloc: Global,
    stream: TcpStream<L>,
    counts: PortCounts,
}

impl<L: Link + Drop> StreamPort<L> {
    /// A port over a link that a client has made from an address. How long a read waits is the link's.
    pub fn new(alloc: Global, link: L, client: SocketAddr) -> StreamPort<L>
        ensures met { stream_met result ≡ nothing_met }
        ensures link { link_of (stream_of result) ≡ link }
        ensures state { state_of (stream_of result) ≡ new_stream client [] }
    {
        let (stream, _) = TcpStream::from_stream(alloc, link, client);
        StreamPort {
            alloc,
            stream,
            counts: PortCounts::new(),
        }
    }

    /// What it met.
    pub(crate) fn counts(&self) -> &PortCounts
        ensures { result.now ≡ stream_met self.now }
    {
        &self.counts
    }
}

// The kind of an error of a stream; of what is no fault of the outside, as want of memory, `Other`.
fn kind_of(error: NetError) -> IoKind
    ensures { result ≡ kind_in error }
{
    match error {
        NetError::Timeout => IoKind::TimedOut,
        NetError::Io(kind) => kind,
        _ => IoKind::Other,
    }
}

// An error of a stream as a port's.
fn fault_of(error: NetError) -> PortFault
    ensures { result ≡ fault_in error }
{
    match error {
        NetError::NoMemory => PortFault::NoMemory,
        NetError::Timeout => PortFault::Io(IoKind::TimedOut),
        NetError::Io(kind) => PortFault::Io(kind),
        _ => PortFault::Io(IoKind::Other),
    }
}

// The next message, or none where the client has closed.
fn next_request<L: Link + Drop>(stream: &mut TcpStream<L>) -> Result<Option<Octets>, PortFault>
    ensures { Gives (link_view L.counts L.given L.left L.taken L.calls) (link_of stream.old) (link_of stream.new)
        (state_of stream.old) (state_of stream.new) result }
{
    'frame: loop {
        match stream.feed() {
            Ok(Feed::More) => (),
            Ok(Feed::Message(message)) => return Ok(Some(message.bytes)),
            Ok(Feed::Closed) => return Ok(None),
            Err(error) => return Err(fault_of(error)),
        }
    }
}

// Puts a message of these bytes behind what waits to be written; no byte is no message.
fn put<L: Link + Drop>(
    alloc: Global,
    stream: &mut TcpStream<L>,
    bytes: &[u8],
) -> Result<(), NetError>
    ensures queued { OnOk result (IsQueued (link_view L.counts L.given L.left L.taken L.calls) (link_of stream.old)
        (state_of stream.old) (state_of stream.new) bytes.now) }
    ensures link { link_of stream.new ≡ link_of stream.old }
    ensures err { OnErr result (state_of stream.new ≡ state_of stream.old) }
{
    if bytes.is_empty() {
        return Ok(());
    }
    let bytes = Octets::from_slice(alloc, bytes)?;
    let addr = stream.peer_addr();
    let (mut handle, _) = BufDnsStreamHandle::new(alloc, addr);
    stream.enqueue(&mut handle, SerialMessage { bytes, addr })
}

// Writes all that waits in a stream's queue.
fn drain_all<L: Link + Drop>(stream: &mut TcpStream<L>) -> Result<(), NetError>
    ensures { DrainsAll (link_view L.counts L.given L.left L.taken L.calls) (link_of stream.old) (link_of stream.new)
        (state_of stream.old) (state_of stream.new) result }
{
    'write: loop {
        if stream.drain()? {
            return Ok(());
        }
    }
}

// Writes a message of these bytes.
fn write<L: Link + Drop>(
    alloc: Global,
    stream: &mut TcpStream<L>,
    bytes: &[u8],
) -> Result<(), NetError>
    ensures { Writes (link_view L.counts L.given L.left L.taken L.calls) (link_of stream.old) (link_of stream.new)
        (state_of stream.old) (state_of stream.new) bytes.now result }
{
    put(alloc, stream, bytes)?;
    drain_all(stream)
}

// The same, with the kind of a fault.
fn send<L: Link + Drop>(
    alloc: Global,
    stream: &mut TcpStream<L>,
    bytes: &[u8],
) -> Result<(), IoKind>
    ensures { Replies (link_view L.counts L.given L.left L.taken L.calls) (link_of stream.old) (link_of stream.new)
        (state_of stream.old) (state_of stream.new) bytes.now result }
{
    match write(alloc, stream, bytes) {
        Ok(()) => Ok(()),
        Err(error) => Err(kind_of(error)),
    }
}

/// It tells nothing of requests and replies.
impl<L: Link + Drop> Port for StreamPort<L> {
    ghost use Rattle.std.specs.Prelude.{None};
    ghost use Rattle.dns_listener.specs.Ports.{stream_met};

    ghost faults = { λ p. (stream_met p).faults };

    ghost gots = { λ p. (stream_met p).gots };

    ghost ends = { λ p. (stream_met p).ends };

    ghost received = { λ _. None };

    ghost replied = { λ _. None };

    /// The next message, whole. None where the client has closed between two, and `Io` where it closed inside one, sent a length of 0 or
    /// the link failed.
    fn receive(&mut self) -> Result<Option<Octets>, PortFault>
        ensures gots { (stream_met self.new).gots ≡ gots_after (stream_met self.old).gots result }
        ensures ends { (stream_met self.new).ends ≡ ends_after (stream_met self.old).ends result }
        ensures later { (stream_met self.old).faults ≤ (stream_met self.new).faults }
        ensures cause { ReceiveHasCause (stream_met self.old).faults (stream_met self.new).faults result }

        // What each answer comes from.
        ensures met { stream_met self.new ≡ after_receiving result (stream_met self.old) }
        ensures gives { Gives (link_view L.counts L.given L.left L.taken L.calls) (link_of (stream_of self.old)) (link_of (stream_of self.new))
            (state_of (stream_of self.old)) (state_of (stream_of self.new)) result }
    {
        let given = next_request(&mut self.stream);
        self.counts.count_receive(&given);
        given
    }

    /// Writes a message; for want of memory it fails with `Other`.
    fn reply(&mut self, bytes: &[u8]) -> Result<(), IoKind>
        ensures gots { (stream_met self.new).gots ≡ (stream_met self.old).gots }
        ensures ends { (stream_met self.new).ends ≡ (stream_met self.old).ends }
        ensures later { (stream_met self.old).faults ≤ (stream_met self.new).faults }
        ensures cause { ReplyHasCause (stream_met self.old).faults (stream_met self.new).faults result }

        // What was written, and why no more.
        ensures met { stream_met self.new ≡ after_replying result (stream_met self.old) }
        ensures written { Replies (link_view L.counts L.given L.left L.taken L.calls) (link_of (stream_of self.old)) (link_of (stream_of self.new))
            (state_of (stream_of self.old)) (state_of (stream_of self.new)) bytes.now result }
    {
        let sent = send(self.alloc, &mut self.stream, bytes);
        self.counts.count_reply(&sent);
        sent
    }
}
