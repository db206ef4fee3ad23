//! A client that sends requests to one server by datagrams.
ghost use Rattle.std.specs.Prelude.{◌≡◌, false, true, Ok, Err, Some, IfOk, min, max};
ghost use Rattle.dns_udp.specs.Questions.{asks_alike};
ghost use Rattle.dns_handle.specs.Replies.{reply_of};
ghost use Rattle.dns_message.specs.WrittenAs.{encoded};
ghost use Rattle.dns_message.specs.declared.encode_error.EncodeError.TheVariants as encode;
ghost use Rattle.dns_udp.specs.Met.{dialer_view};
ghost use Rattle.dns_udp.specs.ClientStreams.{IsTooLong, asked_of, plain_builder};
ghost use Rattle.dns_udp.specs.Conversations.{AsksAll, IsConversation};
ghost use Rattle.dns_udp.specs.Requests.{payload_of};
ghost use Rattle.dns_udp.specs.Sendings.{asked_by};

use crate::builder::UdpClientStreamBuilder;
use crate::open_sockets::retire_all;
use crate::receiving::encoded;
use crate::waiting::{Sending, wait};
use crate::{Binding, MAX_RECEIVE_BUFFER_SIZE, Retries, receive_buffer};
use dns_handle::{DnsRequest, DnsResponse, NetError};
use dns_link::Dialer;
use dns_message::Edns;
use dns_multiplexer::Draws;
use std::alloc::Global;
use std::fmt;
use std::marker::Model;
use std::net::SocketAddr;

/// The most bytes of a datagram without an OPT record that names more (RFC 1035, 4.2.1; RFC 6891, 6.2.3).
const PLAIN_PAYLOAD: u16 = 512;

/// Sends requests to one server by datagrams, each from sockets of its own.
#[derive(Drop)]
pub struct UdpClientStream {
    pub(crate) server: SocketAddr,
    /// Milliseconds.
    pub(crate) timeout: u64,
    pub(crate) is_shutdown: bool,
    pub(crate) binding: Binding,
    pub(crate) max_retries: u8,
    /// Milliseconds.
    pub(crate) retry_interval_floor: u64,
}

impl Model for UdpClientStream {
    ghost use Rattle.dns_udp.specs.ClientStreams.{ClientStreamValue};

    ghost Value = { ClientStreamValue };

    ghost view = { λ s. record {
      server = s.server;
      timeout = s.timeout;
      is_shutdown = s.is_shutdown;
      binding = s.binding;
      max_retries = s.max_retries;
      floor = s.retry_interval_floor;
    } };
}

/// How many bytes of a datagram are received: 4,096 at most, and at most the payload that the request names.
fn buffer_size(edns: &Option<Edns>) -> usize
    ensures { result ≡ min 4096 (payload_of edns.now) }
{
    let payload = match edns {
        None => PLAIN_PAYLOAD,
        Some(edns) => edns.max_payload.max(PLAIN_PAYLOAD),
    };
    MAX_RECEIVE_BUFFER_SIZE.min(usize::from(payload))
}

impl UdpClientStream {
    /// A builder of a stream to a server. Unless other values are chosen, an answer is awaited for 5,000 milliseconds, on three
    /// sockets at most that are opened 333 milliseconds apart at least, each at a port that is drawn.
    pub fn builder(alloc: Global, server: SocketAddr) -> UdpClientStreamBuilder
        ensures { result ≡ plain_builder server }
    {
        UdpClientStreamBuilder::new(alloc, server)
    }

    /// Sends a request and waits for its answer (RFC 1035, 4.2.1; RFC 5452, 9.1).
    ///
    /// One socket is opened and the request sent on it. While no answer comes, further sockets are opened by
    /// [`Retries::tries`] of the time that has passed, the same bytes are sent on each, and they are waited on by turns; a wait
    /// in which no datagram comes is 100 milliseconds of that time. `accept_datagram` judges each datagram. Where letters were
    /// sent in a random case, the original question is put back into the answer. All sockets are given back to the dialer.
    ///
    /// A request whose bytes don't fit into a message is `Proto(TooLong)`, and then nothing is sent; `Proto(Decode(..))` and
    /// `QueryCaseMismatch` at the first datagram that is judged so; `Timeout` where the time is over, at once for 0 milliseconds,
    /// where 65,536 datagrams were no answer, and where dialer or socket timed out; `Io` where one of them failed;
    /// `NotAllBytesSent` where a socket took less than the request.
    pub fn send_message<D: Dialer, R: Draws>(
        &mut self,
        alloc: Global,
        dial: &mut D,
        draws: &mut R,
        request: &DnsRequest,
    ) -> Result<DnsResponse, NetError>
        requires { self.old.is_shutdown ≡ false }
        ensures talk { IsConversation R.draws_port (asked_of self.old request.now) (dialer_view D.counts D.given_datagrams dial.old)
            (dialer_view D.counts D.given_datagrams dial.new) draws.old draws.new (reply_of result) }
        ensures asked { AsksAll R.draws_port self.old.binding (asked_of self.old request.now) (D.calls dial.old) (D.calls dial.new)
            draws.old draws.new (reply_of result) }
        ensures id { IfOk result (λ r. r.message.id ≡ request.now.message.id) }
        ensures questions { IfOk result (λ r. asks_alike request.now.message.queries r.message.queries ≡ true) }
        ensures long { encoded request.now.message ≡ Err encode.TooLong
            → IsTooLong result × (dial.new ≡ dial.old) × (draws.new ≡ draws.old) }
        ensures kept { self.new ≡ self.old }
    {
        self.ask(alloc, dial, draws, request)
    }

    /// No request is to be sent any more.
    pub fn shutdown(&mut self)
        ensures { self.new ≡ record self.old { is_shutdown = true } }
    {
        self.is_shutdown = true;
    }

    /// Whether it was shut down.
    pub fn is_shutdown(&self) -> bool
        ensures { result ≡ self.now.is_shutdown }
    {
        self.is_shutdown
    }
}

impl UdpClientStream {
    /// Sends a request and waits for its answer, whatever `is_shutdown` says.
    pub(crate) fn ask<D: Dialer, R: Draws>(
        &self,
        alloc: Global,
        dial: &mut D,
        draws: &mut R,
        request: &DnsRequest,
    ) -> Result<DnsResponse, NetError>
        ensures talk { IsConversation R.draws_port (asked_of self.now request.now) (dialer_view D.counts D.given_datagrams dial.old)
            (dialer_view D.counts D.given_datagrams dial.new) draws.old draws.new (reply_of result) }
        ensures asked { AsksAll R.draws_port self.now.binding (asked_of self.now request.now) (D.calls dial.old) (D.calls dial.new)
            draws.old draws.new (reply_of result) }
        ensures id { IfOk result (λ r. r.message.id ≡ request.now.message.id) }
        ensures questions { IfOk result (λ r. asks_alike request.now.message.queries r.message.queries ≡ true) }
        ensures long { encoded request.now.message ≡ Err encode.TooLong
            → IsTooLong result × (dial.new ≡ dial.old) × (draws.new ≡ draws.old) }
    {
        let bytes = encoded(request)?;
        self.converse(alloc, dial, draws, request, bytes.as_slice())
    }

    /// A request on its way.
    fn sending<'a>(&'a self, request: &'a DnsRequest, bytes: &'a [u8]) -> Sending<'a>
        ensures asked { asked_by result ≡ asked_of self.now request.now }
        ensures binding { result.binding.now ≡ self.now.binding }
        ensures bytes { result.bytes.now ≡ bytes.now }
    {
        let interval = request.options.retry_interval_ms;
        Sending {
            request,
            bytes,
            server: self.server,
            binding: &self.binding,
            retries: Retries::new(interval.max(self.retry_interval_floor), self.max_retries),
            timeout: self.timeout,
        }
    }

    /// Sends the bytes of a request and waits for its answer.
    fn converse<D: Dialer, R: Draws>(
        &self,
        alloc: Global,
        dial: &mut D,
        draws: &mut R,
        request: &DnsRequest,
        bytes: &[u8],
    ) -> Result<DnsResponse, NetError>
        requires { encoded request.now.message ≡ Ok bytes.now }
        ensures talk { IsConversation R.draws_port (asked_of self.now request.now) (dialer_view D.counts D.given_datagrams dial.old)
            (dialer_view D.counts D.given_datagrams dial.new) draws.old draws.new (reply_of result) }
        ensures asked { AsksAll R.draws_port self.now.binding (asked_of self.now request.now) (D.calls dial.old) (D.calls dial.new)
            draws.old draws.new (reply_of result) }
    {
        let mut buf = receive_buffer(alloc, buffer_size(&request.message.edns))?;
        let sending = self.sending(request, bytes);
        let mut sockets = Vec::new(alloc);
        let reply = wait(alloc, &sending, dial, draws, &mut buf, &mut sockets);
        retire_all(dial, sockets);
        reply
    }
}

/// `UDP(ADDRESS)`.
impl fmt::Display for UdpClientStream {
    fn fmt<W: fmt::Write>(&self, f: &mut fmt::Formatter<W>) -> fmt::Result {
        write!(f, "UDP({})", self.server)
    }
}
