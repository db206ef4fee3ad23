//! A stream without its link: what was read of a frame, and what is to be written.
ghost use Rattle.std.specs.Prelude.{◌≡◌, ◌↔◌, ◌≢◌, ◌<◌, ◌≤◌, ◌++◌, [], false, IsTrue, OnOk, length, nat_le};
ghost use Rattle.dns_multiplexer.specs.Queues.{IsPut};
ghost use Rattle.dns_tcp.specs.Draining.{Drains, drain_reply, is_drained, sent};
ghost use Rattle.dns_tcp.specs.Feeding.{Feeds, GivesFrame, IsFramed, after_feed_reply, frame_given, frame_reply, message_reply, unused};
ghost use Rattle.dns_tcp.specs.Frames.{lacking};
ghost use Rattle.dns_tcp.specs.Links.{WritesOnce, link_view};
ghost use Rattle.dns_tcp.specs.Loading.{FeedsPart, IsChecked, Loads, TriesDrain};
ghost use Rattle.dns_tcp.specs.Streams.{after_reply, new_stream, with_fault};

use crate::Feed;
use crate::frame_reader::FrameReader;
use crate::frame_writer::FrameWriter;
use dns_handle::{IoKind, NetError};
use dns_link::Link;
use dns_multiplexer::{BufDnsStreamHandle, DnsStreamHandle, SerialMessage, StreamReceiver};
use dns_record::Octets;
use std::alloc::Global;
use std::marker::Model;
use std::net::SocketAddr;

/// A frame has at most so many bytes behind its length.
const MOST_FRAMED: usize = 65535;

/// A connection without the link that carries it, which each call is lent.
#[derive(Drop)]
pub(crate) struct StreamState {
    peer: SocketAddr,
    reader: FrameReader,
    queue: StreamReceiver,
    writer: FrameWriter,
    failed: bool,
    failures: u64,
}

impl Model for StreamState {
    ghost use Rattle.std.specs.Prelude.{◌<◌};
    ghost use Rattle.dns_tcp.specs.Frames.{lacking};
    ghost use Rattle.dns_tcp.specs.Streams.{StreamValue};

    ghost Value = { StreamValue };

    ghost view = { λ s. record {
      peer = s.peer;
      part = s.reader;
      queue = s.queue;
      unsent = s.writer;
      failed = s.failed;
      failures = s.failures;
    } };

    ghost invariant = { λ s. 0 < lacking s.reader };
}

/// Whether two addresses are one.
fn is_same(a: &SocketAddr, b: &SocketAddr) -> bool
    ensures { IsTrue result ↔ (a.now ≡ b.now) }
{
    a == b
}

/// What a whole frame is answered; one without a byte is no message.
fn message_reply(peer: SocketAddr, bytes: Octets) -> Result<Feed, NetError>
    ensures { result ≡ message_reply peer bytes }
{
    if bytes.is_empty() {
        return Err(NetError::Io(IoKind::BrokenPipe));
    }
    Ok(Feed::Message(SerialMessage { bytes, addr: peer }))
}

/// What the bytes are answered that were read of a frame.
fn frame_reply(peer: SocketAddr, reader: &mut FrameReader) -> Result<Feed, NetError>
    ensures reply { result ≡ frame_reply peer reader.old }
    ensures rest { reader.new ≡ unused reader.old }
    ensures framed { OnOk result (reader.old ≡ frame_given result ++ reader.new) }
    ensures fits { GivesFrame result }
    ensures ready { 0 < lacking reader.new }
    ensures shorter { length reader.new ≤ length reader.old }
{
    match reader.take_message() {
        None => Ok(Feed::More),
        Some(bytes) => message_reply(peer, Octets::from_vec(bytes)),
    }
}

/// Reads once, and answers what came.
fn feed_from<L: Link>(
    peer: SocketAddr,
    reader: &mut FrameReader,
    link: &mut L,
) -> Result<Feed, NetError>
    requires { 0 < lacking reader.old }
    ensures fed { FeedsPart (link_view L.counts L.given L.left L.taken L.calls) link.old link.new peer reader.old reader.new result }
    ensures framed { IsFramed (link_view L.counts L.given L.left L.taken L.calls) link.old link.new reader.old reader.new result }
    ensures fits { GivesFrame result }
    ensures ready { 0 < lacking reader.new }
    ensures small { length reader.new ≤ 65537 }
{
    let was_empty = reader.is_empty();
    let outcome = reader.read(link)?;
    match outcome {
        Err(kind) => Err(NetError::from(kind)),
        Ok(count) => {
            if count > 0 {
                frame_reply(peer, reader)
            } else if was_empty {
                Ok(Feed::Closed)
            } else {
                Err(NetError::Io(IoKind::BrokenPipe))
            }
        }
    }
}

/// Whether a message goes to the peer and has a frame.
fn check_message(message: &SerialMessage, peer: &SocketAddr) -> Result<(), NetError>
    ensures { IsChecked message.now peer.now result }
{
    if !is_same(&message.addr, peer) {
        return Err(NetError::Io(IoKind::InvalidData));
    }
    if message.bytes.len() > MOST_FRAMED {
        return Err(NetError::Io(IoKind::RequestTooLong));
    }
    Ok(())
}

impl StreamState {
    /// A connection to a peer, over which these messages are to go.
    pub(crate) fn new(alloc: Global, peer: SocketAddr, queue: StreamReceiver) -> StreamState
        ensures { result ≡ new_stream peer queue }
    {
        StreamState {
            peer,
            reader: FrameReader::new(alloc),
            queue,
            writer: FrameWriter::new(alloc),
            failed: false,
            failures: 0,
        }
    }

    /// The other side.
    pub(crate) fn peer(&self) -> SocketAddr
        ensures { result ≡ self.now.peer }
    {
        self.peer
    }

    /// How many faults were answered, and how often that the link was closed.
    pub(crate) fn failures(&self) -> u64
        ensures { result ≡ self.now.failures }
    {
        self.failures
    }

    /// Puts a message at the end of those that wait.
    pub(crate) fn enqueue(
        &mut self,
        handle: &mut BufDnsStreamHandle,
        message: SerialMessage,
    ) -> Result<(), NetError>
        requires { message.bytes ≢ [] }
        ensures put { IsPut handle.old.addr handle.old.buffer message self.old.queue self.new.queue result }
        ensures kept { self.new ≡ record self.old { queue = self.new.queue } }
        ensures handle { handle.new ≡ handle.old }
    {
        handle.send(&mut self.queue, message)
    }

    /// Whether one message more may wait.
    pub(crate) fn has_room(&self, handle: &BufDnsStreamHandle) -> bool
        ensures { result ≡ nat_le (length self.now.queue) handle.now.buffer }
    {
        handle.has_room(&self.queue)
    }

    /// Counts a fault, after which nothing goes on.
    fn count_fault(&mut self)
        ensures { self.new ≡ with_fault self.old }
    {
        self.failed = true;
        self.failures = self.failures.saturating_add(1);
    }

    /// Counts a reply that is a fault.
    fn note<X>(&mut self, reply: &Result<X, NetError>)
        ensures { self.new ≡ after_reply reply.now self.old }
    {
        match reply {
            Ok(_) | Err(NetError::NoMemory) => (),
            Err(_) => self.count_fault(),
        }
    }

    /// Counts a reply that is a fault, or that the link is closed.
    fn note_feed(&mut self, reply: &Result<Feed, NetError>)
        ensures { self.new ≡ after_feed_reply reply.now self.old }
    {
        match reply {
            Ok(Feed::Closed) => self.failures = self.failures.saturating_add(1),
            _ => self.note(reply),
        }
    }

    /// Reads once, and gives a message once it is whole.
    pub(crate) fn feed<L: Link>(&mut self, link: &mut L) -> Result<Feed, NetError>
        ensures fed { Feeds (link_view L.counts L.given L.left L.taken L.calls) link.old link.new self.old self.new result }
        ensures framed { IsFramed (link_view L.counts L.given L.left L.taken L.calls) link.old link.new
            self.old.part self.new.part result }
        ensures fits { GivesFrame result }
        ensures open { OnOk result (self.new.failed ≡ false) }
        ensures ready { 0 < lacking self.new.part }
        ensures small { OnOk result (length self.new.part ≤ 65537) }
    {
        if self.failed {
            self.count_fault();
            return Err(NetError::Io(IoKind::NotConnected));
        }
        let reply = feed_from(self.peer, &mut self.reader, link);
        self.note_feed(&reply);
        reply
    }

    /// Makes the next message's frame ready to be written. `false` where nothing waits.
    fn load_next(&mut self) -> Result<bool, NetError>
        requires { self.old.unsent ≡ [] }
        ensures { Loads self.old self.new result }
    {
        match self.queue.peek() {
            None => Ok(false),
            Some(message) => match check_message(message, &self.peer) {
                Err(error) => Err(error),
                Ok(()) => {
                    self.writer.load(message.bytes.as_slice())?;
                    let _ = self.queue.pop();
                    Ok(true)
                }
            },
        }
    }

    /// The same, unless a frame is ready.
    fn load(&mut self) -> Result<bool, NetError>
        ensures { Loads self.old self.new result }
    {
        if self.writer.is_idle() {
            self.load_next()
        } else {
            Ok(true)
        }
    }

    /// Writes once, and answers how many bytes the link took.
    fn write<L: Link>(&mut self, link: &mut L) -> Result<usize, IoKind>
        ensures once { WritesOnce (link_view L.counts L.given L.left L.taken L.calls) self.old.unsent link.old link.new result }
        ensures sent { self.new ≡ sent result self.old }
    {
        let count = link.write(self.writer.unsent())?;
        self.writer.advance(count);
        Ok(count)
    }

    /// Whether nothing is left to be written.
    fn is_drained(&self) -> bool
        ensures { result ≡ is_drained self.now }
    {
        self.writer.is_idle() && self.queue.peek().is_none()
    }

    /// What a write is answered.
    fn drain_reply(&self, outcome: Result<usize, IoKind>) -> Result<bool, NetError>
        ensures { result ≡ drain_reply outcome self.now }
    {
        match outcome {
            Ok(0) => Err(NetError::Io(IoKind::Other)),
            Ok(_) => Ok(self.is_drained()),
            Err(kind) => Err(NetError::from(kind)),
        }
    }

    /// Writes once of what waits.
    fn try_drain<L: Link>(&mut self, link: &mut L) -> Result<bool, NetError>
        ensures { TriesDrain (link_view L.counts L.given L.left L.taken L.calls) link.old link.new self.old self.new result }
    {
        match self.load() {
            Err(error) => Err(error),
            Ok(ready) => {
                if !ready {
                    return Ok(true);
                }
                let outcome = self.write(link);
                self.drain_reply(outcome)
            }
        }
    }

    /// Writes once of what waits. `true` where nothing is left.
    pub(crate) fn drain<L: Link>(&mut self, link: &mut L) -> Result<bool, NetError>
        ensures { Drains (link_view L.counts L.given L.left L.taken L.calls) link.old link.new self.old self.new result }
    {
        if self.failed {
            self.count_fault();
            return Err(NetError::Io(IoKind::NotConnected));
        }
        let reply = self.try_drain(link);
        self.note(&reply);
        reply
    }
}
