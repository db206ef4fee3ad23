//! `ExchangeStream`, the same as a stream.
ghost use Rattle.std.specs.Prelude.{◌≡◌};

use crate::DnsExchangeSend;
use dns_handle::{DnsResponse, NetError};
use dns_multiplexer::{Draws, RequestId};
use dns_shared_exchange::{CallerToken, DnsExchange};
use futures::Stream;
use futures::task::{Context, Poll};
use std::alloc::Global;
use std::marker::Model;
use std::sync::Wait;

/// What comes for one request of an exchange, as a stream, such as the messages of a transfer (RFC 5936, 2.2). It keeps the runtime,
/// since a poll may wait for the turns of others, and the token. Where nothing waits yet it asks to be polled again.
#[derive(Drop)]
pub struct ExchangeStream<R: Draws + Drop, T: Wait + Copy> {
    rt: T,
    alloc: Global,
    exchange: DnsExchange<R>,
    token: CallerToken,
    send: DnsExchangeSend,
}

/// Contracts see the token, and the number of the request.
impl<R: Draws + Drop, T: Wait + Copy> Model for ExchangeStream<R, T> {
    ghost use Rattle.std.specs.Prelude.{◌≡◌};
    ghost use Rattle.dns_polled_exchange.specs.Polls.{StreamValue, number_of};

    ghost Value = { StreamValue };

    ghost view = { λ s. record { token = s.token; number = number_of s.send } };

    ghost invariant = { λ s. s.token.line ≡ s.exchange };
}

impl<R: Draws + Drop, T: Wait + Copy> ExchangeStream<R, T> {
    /// What comes for the request with this number.
    pub fn new(
        rt: T,
        alloc: Global,
        exchange: DnsExchange<R>,
        token: CallerToken,
        id: RequestId,
    ) -> ExchangeStream<R, T>
        requires { token.line ≡ exchange }
        ensures { result ≡ record { token = token; number = id.0 } }
    {
        ExchangeStream {
            rt,
            alloc,
            exchange,
            token,
            send: DnsExchangeSend::new(id),
        }
    }

    /// The exchange and the token, with which all was seen that was polled.
    pub fn into_parts(self) -> (DnsExchange<R>, CallerToken)
        ensures line { result.1.line ≡ result.0 }
        ensures token { result.1 ≡ self.token }
    {
        let ExchangeStream {
            rt: _,
            alloc: _,
            exchange,
            token,
            send: _,
        } = self;
        (exchange, token)
    }
}

impl<R: Draws + Drop, T: Wait + Copy> Stream for ExchangeStream<R, T> {
    ghost use Rattle.std.specs.Prelude.{◌≡◌, ⊤, OnSome, true};
    ghost use Rattle.futures.specs.Task.{Covers, Keeps};
    ghost use Rattle.futures.specs.Poll.{IfReady, OnPending};
    ghost use Rattle.dns_shared_exchange.specs.Tokens.{IsTurn, IsKnown};
    ghost use Rattle.dns_polled_exchange.specs.Polls.{IsPolled};

    type Item = Result<DnsResponse, NetError>;

    // The trait's clauses, that a poll is one take, and that a pending one asks for another poll.
    fn poll_next(&mut self, cx: &mut Context<'_>) -> Poll<Option<Result<DnsResponse, NetError>>>
        ensures value { IfReady result (λ o. ⊤) }
        ensures goes { IfReady result (λ o. OnSome o ⊤) }
        ensures again { OnPending result ⊤ }
        ensures registered { OnPending result (Covers cx.new (λ _. ⊥)) }
        ensures woken { OnPending result (cx.new.is_woken ≡ true) }
        ensures kept { Keeps cx.old cx.new }
        ensures polled { IsTurn (IsPolled self.old.number result) self.old.token.known self.new.token.known }
        ensures known { IsKnown self.new.token.known }
        ensures line { self.new.token.line ≡ self.old.token.line }
        ensures number { self.new.number ≡ self.old.number }
    {
        let polled = self
            .send
            .poll_take(&self.rt, self.alloc, &self.exchange, &mut self.token);
        match polled {
            Poll::Ready(item) => Poll::Ready(item),
            Poll::Pending => cx.yield_now(),
        }
    }
}
