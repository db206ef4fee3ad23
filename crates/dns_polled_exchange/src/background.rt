//! `DnsExchangeBackground`, which hands what comes over a connection to an exchange.
ghost use Rattle.std.specs.Prelude.{◌≡◌, false};
ghost use Rattle.futures.specs.Task.{Covers, Keeps};
ghost use Rattle.futures.specs.Poll.{OnPending};
ghost use Rattle.dns_shared_exchange.specs.Tokens.{IsKnown};
ghost use Rattle.dns_polled_exchange.specs.Backgrounds.{stream_of, has_ended, IsHanded, IsClosedBy, PollsOn, CameOf, GoesStill, WaitsStill};

use dns_handle::{IoKind, NetError};
use dns_multiplexer::{Draws, SerialMessage};
use dns_shared_exchange::{CallerToken, DnsExchange};
use futures::Stream;
use futures::task::{Context, Poll};
use std::alloc::Global;
use std::fmt;
use std::sync::Wait;

/// So many messages are handed over in one poll.
const MOST_MESSAGES: u32 = 100;

/// Hands the messages that a stream gives over to an exchange, up to the fault or the end of the stream, which closes the exchange
/// (RFC 7766, 6.2.1). A message that the exchange refuses, since its history is full or memory ran out, is dropped.
#[derive(Drop)]
pub struct DnsExchangeBackground<S: Drop> {
    stream: S,
    is_ended: bool,
}

impl<S: Drop> fmt::Debug for DnsExchangeBackground<S> {
    fn fmt<W: fmt::Write>(&self, f: &mut fmt::Formatter<W>) -> fmt::Result {
        f.write_str("DnsExchangeBackground")
    }
}

/// What became of a stream that was polled.
#[derive(Clone, Copy, Drop)]
pub(crate) enum Came {
    /// Nothing is there now.
    Waits,
    /// As many messages as may be.
    Many,
    /// It has ended, and the exchange is closed by this fault.
    Ends(IoKind),
}

// Hands a message over, which is answered or dropped.
fn hand_over<R: Draws + Drop, W: Wait>(
    rt: &W,
    alloc: Global,
    exchange: &DnsExchange<R>,
    token: &mut CallerToken,
    message: &SerialMessage,
)
    requires { token.old.line ≡ exchange.now }
    ensures handed { IsHanded message.now.bytes token.old.known token.new.known }
    ensures known { IsKnown token.new.known }
    ensures line { token.new.line ≡ token.old.line }
{
    let _ = exchange.arrive(rt, alloc, token, message.bytes.as_slice());
}

// Closes an exchange by a fault.
fn close<R: Draws + Drop, W: Wait>(
    rt: &W,
    alloc: Global,
    exchange: &DnsExchange<R>,
    token: &mut CallerToken,
    fault: IoKind,
) -> Result<(), NetError>
    requires { token.old.line ≡ exchange.now }
    ensures closed { IsClosedBy fault result token.old.known token.new.known }
    ensures known { IsKnown token.new.known }
    ensures line { token.new.line ≡ token.old.line }
{
    Ok(exchange.close(rt, alloc, token, fault)?)
}

impl<S: Stream<Item = Result<SerialMessage, IoKind>>> DnsExchangeBackground<S> {
    /// A background of the messages of a stream, and of its fault.
    pub fn new(stream: S) -> DnsExchangeBackground<S>
        ensures stream { stream_of result ≡ stream }
        ensures going { has_ended result ≡ false }
    {
        DnsExchangeBackground {
            stream,
            is_ended: false,
        }
    }

    // Hands over what the stream gives now, so many messages at most.
    fn run<R: Draws + Drop, W: Wait>(
        &mut self,
        rt: &W,
        alloc: Global,
        exchange: &DnsExchange<R>,
        token: &mut CallerToken,
        cx: &mut Context<'_>,
        left: u32,
    ) -> Came
        requires line { token.old.line ≡ exchange.now }
        requires can { S.can_poll (stream_of self.old) }
        ensures came { CameOf (S.yields (stream_of self.old)) (S.yields (stream_of self.new)) left
            token.old.known token.new.known result }
        ensures again { GoesStill result (S.can_poll (stream_of self.new)) }
        ensures registered { WaitsStill result (Covers cx.new (S.needs (stream_of self.new))) }
        ensures kept { Keeps cx.old cx.new }
        ensures ended { has_ended self.new ≡ has_ended self.old }
        ensures known { IsKnown token.old.known → IsKnown token.new.known }
        ensures line { token.new.line ≡ token.old.line }
    {
        if left == 0 {
            return Came::Many;
        }
        match self.stream.poll_next(cx) {
            Poll::Pending => Came::Waits,
            Poll::Ready(None) => Came::Ends(IoKind::UnexpectedEof),
            Poll::Ready(Some(Err(kind))) => Came::Ends(kind),
            Poll::Ready(Some(Ok(message))) => {
                hand_over(rt, alloc, exchange, token, &message);
                self.run(rt, alloc, exchange, token, cx, left - 1)
            }
        }
    }

    /// Hands over what the stream gives now, 100 messages at most; where there were so many it asks to be polled again. A fault
    /// closes the exchange by its kind, and the end of the stream by `UnexpectedEof`. Then the poll is ready, with the error of a
    /// `close` that was refused, and each later poll is ready with Ok.
    pub fn poll<R: Draws + Drop, W: Wait>(
        &mut self,
        rt: &W,
        alloc: Global,
        exchange: &DnsExchange<R>,
        token: &mut CallerToken,
        cx: &mut Context<'_>,
    ) -> Poll<Result<(), NetError>>
        requires line { token.old.line ≡ exchange.now }
        requires can { has_ended self.old ≡ false → S.can_poll (stream_of self.old) }
        ensures polled { PollsOn (S.yields (stream_of self.old)) (S.yields (stream_of self.new)) (has_ended self.old)
            (has_ended self.new) token.old.known token.new.known result }
        ensures again { has_ended self.new ≡ false → S.can_poll (stream_of self.new) }
        ensures registered { OnPending result (Covers cx.new (S.needs (stream_of self.new))) }
        ensures kept { Keeps cx.old cx.new }
        ensures known { IsKnown token.old.known → IsKnown token.new.known }
        ensures line { token.new.line ≡ token.old.line }
    {
        if self.is_ended {
            return Poll::Ready(Ok(()));
        }
        match self.run(rt, alloc, exchange, token, cx, MOST_MESSAGES) {
            Came::Waits => Poll::Pending,
            Came::Many => cx.yield_now(),
            Came::Ends(fault) => {
                self.is_ended = true;
                Poll::Ready(close(rt, alloc, exchange, token, fault))
            }
        }
    }
}
