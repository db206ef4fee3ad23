//! Messages over a link (RFC 1035, 4.2.2).
ghost use Rattle.std.specs.Prelude.{◌≡◌, ◌≢◌, ◌<◌, ◌≤◌, [], false, None, IfOk, OnOk, length, nat_le};
ghost use Rattle.dns_link.specs.Moved.{IsNew};
ghost use Rattle.dns_multiplexer.specs.Queues.{IsPut};
ghost use Rattle.dns_tcp.specs.Causes.{DrainAnswer, FeedAnswer, IsWritten};
ghost use Rattle.dns_tcp.specs.Dialing.{IsDialed, dial_to};
ghost use Rattle.dns_tcp.specs.Draining.{Drains};
ghost use Rattle.dns_tcp.specs.Feeding.{Feeds, GivesFrame, IsFramed};
ghost use Rattle.dns_tcp.specs.Frames.{lacking};
ghost use Rattle.dns_tcp.specs.Links.{link_view};
ghost use Rattle.dns_tcp.specs.Streams.{new_stream};

use crate::Feed;
use crate::stream_state::StreamState;
use dns_handle::NetError;
use dns_link::{Dialer, Link};
use dns_multiplexer::{BufDnsStreamHandle, SerialMessage, StreamReceiver};
use std::alloc::Global;
use std::net::SocketAddr;

/// Messages over a link, each behind its length (RFC 1035, 4.2.2).
///
/// Messages wait in a queue until [`TcpStream::drain`] writes them. After any fault but running out of memory nothing is read or written
/// any more.
#[derive(Drop)]
pub struct TcpStream<L: Link + Drop> {
    link: L,
    state: StreamState,
}

impl<L: Link + Drop> TcpStream<L> {
    ghost use Rattle.dns_tcp.specs.StreamViews.{link_of, state_of};

    /// A stream over a link that is connected to the peer, and a handle that puts messages into its queue, in which 32 and one
    /// more may wait.
    pub fn from_stream(
        alloc: Global,
        link: L,
        peer: SocketAddr,
    ) -> (TcpStream<L>, BufDnsStreamHandle)
        ensures link { link_of result.0 ≡ link }
        ensures state { state_of result.0 ≡ new_stream peer [] }
        ensures handle { result.1 ≡ record { addr = peer; buffer = 32 } }
    {
        let (handle, queue) = BufDnsStreamHandle::new(alloc, peer);
        (
            TcpStream::from_stream_with_receiver(alloc, link, peer, queue),
            handle,
        )
    }

    /// The same with a queue in which so many messages and one more may wait.
    pub fn from_stream_with_buffer_size(
        alloc: Global,
        link: L,
        peer: SocketAddr,
        size: usize,
    ) -> (TcpStream<L>, BufDnsStreamHandle)
        ensures link { link_of result.0 ≡ link }
        ensures state { state_of result.0 ≡ new_stream peer [] }
        ensures handle { result.1 ≡ record { addr = peer; buffer = size } }
    {
        let (handle, queue) = BufDnsStreamHandle::with_buffer_size(alloc, peer, size);
        (
            TcpStream::from_stream_with_receiver(alloc, link, peer, queue),
            handle,
        )
    }

    /// A stream over a link that is connected to the peer, over which these messages are to go.
    pub fn from_stream_with_receiver(
        alloc: Global,
        link: L,
        peer: SocketAddr,
        queue: StreamReceiver,
    ) -> TcpStream<L>
        ensures link { link_of result ≡ link }
        ensures state { state_of result ≡ new_stream peer queue }
    {
        TcpStream {
            link,
            state: StreamState::new(alloc, peer, queue),
        }
    }

    /// A stream over a new link to the peer. Connecting, and each read and write later, waits for so many milliseconds at most.
    pub fn with_future<D: Dialer<Link = L>>(
        alloc: Global,
        dial: &mut D,
        peer: SocketAddr,
        timeout_ms: u64,
    ) -> Result<(TcpStream<L>, BufDnsStreamHandle), NetError>
        ensures dialed { IsDialed D.counts D.calls (dial_to peer None timeout_ms) dial.old dial.new result }
        ensures bytes { D.given_bytes dial.new ≡ D.given_bytes dial.old }
        ensures datagrams { D.given_datagrams dial.new ≡ D.given_datagrams dial.old }
        ensures link { IfOk result (λ made. IsNew (L.counts (link_of made.0)) (L.given (link_of made.0))) }
        ensures state { IfOk result (λ made. state_of made.0 ≡ new_stream peer []) }
        ensures handle { IfOk result (λ made. made.1 ≡ record { addr = peer; buffer = 32 }) }
    {
        let link = dial.connect(peer, None, timeout_ms)?;
        Ok(TcpStream::from_stream(alloc, link, peer))
    }

    /// The other side.
    pub fn peer_addr(&self) -> SocketAddr
        ensures { result ≡ (state_of self.now).peer }
    {
        self.state.peer()
    }

    /// How many faults `feed` and `drain` have answered, running out of memory aside, and how often `feed` that the link was closed. It
    /// stops at the greatest `u64`.
    pub fn failures(&self) -> u64
        ensures { result ≡ (state_of self.now).failures }
    {
        self.state.failures()
    }

    /// Gives the link back.
    pub fn into_link(self) -> L
        ensures { result ≡ link_of self }
    {
        self.link
    }

    /// Puts a message at the end of the queue, under the handle's address. `SendQueueFull` comes exactly where one more than the
    /// handle's size waits. After an error the queue is as it was.
    pub fn enqueue(
        &mut self,
        handle: &mut BufDnsStreamHandle,
        message: SerialMessage,
    ) -> Result<(), NetError>
        requires { message.bytes ≢ [] }
        ensures put { IsPut handle.old.addr handle.old.buffer message (state_of self.old).queue (state_of self.new).queue result }
        ensures kept { state_of self.new ≡ record (state_of self.old) { queue = (state_of self.new).queue } }
        ensures link { link_of self.new ≡ link_of self.old }
        ensures handle { handle.new ≡ handle.old }
    {
        self.state.enqueue(handle, message)
    }

    /// Whether `enqueue` by this handle finds room: `false` exactly where it would answer that the queue is full.
    pub fn has_room(&self, handle: &BufDnsStreamHandle) -> bool
        ensures { result ≡ nat_le (length (state_of self.now).queue) handle.now.buffer }
    {
        self.state.has_room(handle)
    }

    /// Reads once, at most the bytes that the length or the frame still lacks, and gives a message with its last byte. `Closed`
    /// where the link ended between two frames. `Io(BrokenPipe)` comes where it ended inside one, and where a length is 0.
    ///
    /// The next message, if so many reads bring one before the link ends:
    ///
    /// ```
    /// fn next_message<L: Link + Drop>(
    ///     stream: &mut TcpStream<L>,
    ///     reads: u32,
    /// ) -> Result<Option<SerialMessage>, NetError> {
    ///     for _ in 0..reads {
    ///         match stream.feed()? {
    ///             Feed::Message(message) => return Ok(Some(message)),
    ///             Feed::Closed => return Ok(None),
    ///             Feed::More => {}
    ///         }
    ///     }
    ///     Ok(None)
    /// }
    /// ```
    pub fn feed(&mut self) -> Result<Feed, NetError>
        ensures fed { Feeds (link_view L.counts L.given L.left L.taken L.calls) (link_of self.old) (link_of self.new)
            (state_of self.old) (state_of self.new) result }

        // What follows: the bytes that were read are the given message's and those not used yet, and the message has a frame.
        ensures framed { IsFramed (link_view L.counts L.given L.left L.taken L.calls) (link_of self.old) (link_of self.new)
            (state_of self.old).part (state_of self.new).part result }
        ensures fits { GivesFrame result }

        // After an Ok the stream hasn't failed, and of what isn't used yet something is lacking.
        ensures open { OnOk result ((state_of self.new).failed ≡ false) }
        ensures ready { 0 < lacking (state_of self.new).part }
        ensures small { OnOk result (length (state_of self.new).part ≤ 65537) }

        // What each answer comes from, and which has to come.
        ensures answer { FeedAnswer (L.counts (link_of self.old)) (L.counts (link_of self.new)) (state_of self.old) result }
    {
        self.state.feed(&mut self.link)
    }

    /// Writes once of what waits, a message and its length together. `true` where nothing is left. `Io(InvalidData)` comes where
    /// the next message goes to another address than the peer's, `Io(RequestTooLong)` where it has more than 65,535 bytes, and
    /// `Io(Other)` where the link takes nothing. No message without a byte waits: whatever puts one into a queue has that condition.
    pub fn drain(&mut self) -> Result<bool, NetError>
        ensures drained { Drains (link_view L.counts L.given L.left L.taken L.calls) (link_of self.old) (link_of self.new)
            (state_of self.old) (state_of self.new) result }

        // What follows: the bytes that were written are the first of those that wait.
        ensures written { IsWritten (link_view L.counts L.given L.left L.taken L.calls) (link_of self.old) (link_of self.new)
            (state_of self.old) (state_of self.new) result }

        // What each answer comes from, and which has to come.
        ensures answer { DrainAnswer (L.counts (link_of self.old)) (L.counts (link_of self.new))
            (state_of self.old) (state_of self.new) result }
    {
        self.state.drain(&mut self.link)
    }
}
