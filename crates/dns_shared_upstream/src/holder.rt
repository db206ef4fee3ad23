//! What one holder has of a shared connection.
ghost use Rattle.std.specs.Prelude.{◌≡◌, ◌<◌, ◌≤◌, ◌+◌, IfOk, IfErr, IsOk, Err};
ghost use Rattle.turns.specs.Turns.{newcomer};
ghost use Rattle.dns_handle.specs.Replies.{error_of};
ghost use Rattle.dns_tcp.specs.Frames.{HasFrame};
ghost use Rattle.dns_multiplexer.specs.Draws.{request_bytes};
ghost use Rattle.dns_shared_upstream.specs.Rounds.{Closes, Ends, Goes, Passed, PassesOver, SentAs, Takes, one_came};
ghost use Rattle.dns_shared_upstream.specs.Sends.{Asked, holding};

use dns_handle::{DnsRequest, DnsResponse, IoKind, NetError};
use dns_journal::ExchangeError;
use dns_multiplexer::{Draws, RequestId, SerialMessage, Taken};
use dns_record::NoMemory;
use dns_shared_exchange::{CallerToken, DnsExchange};
use std::alloc::Global;
use std::sync::Wait;
use std::sync::ledger::{Book, Ledger, Share};

/// An exchange with a token of it, and a share of the failures of the stream that carries it.
#[derive(Drop)]
pub(crate) struct Holder<R: Draws + Drop, G: Ledger> {
    exchange: DnsExchange<R>,
    token: CallerToken,
    share: Share<G>,
    ghost own: { token.line ≡ exchange },
    ghost backed: { 0 < share.parts },
}

impl<R: Draws + Drop, G: Ledger> Holder<R, G> {
    pub(crate) fn new(exchange: DnsExchange<R>, token: CallerToken, share: Share<G>) -> Self
        requires token { token.line ≡ exchange }
        requires share { 0 < share.parts }
        ensures token { result.token ≡ token }
        ensures share { result.share ≡ share }
    {
        Holder {
            exchange,
            token,
            share,
        }
    }

    /// Another holder of the same exchange, with one part of the share; for want of memory the holder alone.
    pub(crate) fn split(self) -> Result<(Self, Self), Self>
        requires { 2 ≤ self.share.parts }
        ensures same { IfOk result (λ both. both.0.token ≡ self.token) }
        ensures amount { IfOk result (λ both. both.0.share.amount ≡ self.share.amount) }
        ensures left { IfOk result (λ both. both.0.share.parts + 1 ≡ self.share.parts) }
        ensures new { IfOk result (λ both. both.1.token ≡ record self.token { known = newcomer self.token.known }) }
        ensures none { IfOk result (λ both. both.1.share.amount ≡ 0) }
        ensures one { IfOk result (λ both. both.1.share.parts ≡ 1) }
        ensures err { IfErr result (λ back. back ≡ self) }
    {
        let Ok(beside) = self.exchange.share() else {
            return Err(self);
        };
        let Holder {
            exchange,
            token,
            mut share,
        } = self;
        let Ok((token, new)) = exchange.split(token) else {
            unreachable!()
        };
        let part = share.split_off(1, 0);
        Ok((
            Holder::new(exchange, token, share),
            Holder::new(beside, new, part),
        ))
    }

    /// Sends a request at a time, in milliseconds.
    pub(crate) fn send<W: Wait>(
        &mut self,
        rt: &W,
        alloc: Global,
        request: &DnsRequest,
        now_ms: u64,
    ) -> Result<RequestId, NetError>
        ensures sent { IfOk result (λ id. SentAs (request_bytes request.now) now_ms id.0
            (holding self.old.token self.old.share.amount) (holding self.new.token self.new.share.amount)) }
        ensures refused { IfErr result (λ e. Asked request.now now_ms
            (holding self.old.token self.old.share.amount) (holding self.new.token self.new.share.amount) (Err (error_of e))) }
    {
        let id = self
            .exchange
            .send(rt, alloc, &mut self.token, request, now_ms)?;
        Ok(id)
    }

    /// Takes what waits for a request; none where nothing waits yet. Of one that has ended the reply is `Timeout`.
    pub(crate) fn take<W: Wait>(
        &mut self,
        rt: &W,
        alloc: Global,
        id: RequestId,
    ) -> Result<Option<Result<DnsResponse, NetError>>, NetError>
        ensures { Takes id.0 (holding self.old.token self.old.share.amount) (holding self.new.token self.new.share.amount) result }
    {
        let taken = self.exchange.take(rt, alloc, &mut self.token, id)?;
        match taken {
            Taken::Item(reply) => Ok(Some(reply)),
            Taken::Pending => Ok(None),
            Taken::Ended => Ok(Some(Err(NetError::Timeout))),
        }
    }

    /// Hands bytes that came to the exchange.
    pub(crate) fn arrive<W: Wait>(
        &mut self,
        rt: &W,
        alloc: Global,
        bytes: &[u8],
    ) -> Result<(), NetError>
        requires { HasFrame bytes.now }
        ensures went { Goes one_came (holding self.old.token self.old.share.amount) (holding self.new.token self.new.share.amount) result }
        ensures failures { self.new.share.amount ≡ self.old.share.amount }
    {
        self.exchange.arrive(rt, alloc, &mut self.token, bytes)?;
        Ok(())
    }

    /// The next message that is to be sent.
    pub(crate) fn pop<W: Wait>(&mut self, rt: &W) -> Option<SerialMessage>
        ensures { Passed 0 (holding self.old.token self.old.share.amount) (holding self.new.token self.new.share.amount) }
    {
        self.exchange.pop_outbound(rt, &mut self.token)
    }

    /// Counts a failure of the stream and closes the exchange with its fault, if its history has room for that. It has before the
    /// first close.
    pub(crate) fn close<W: Wait>(
        &mut self,
        rt: &W,
        alloc: Global,
        book: &mut Book<G>,
        fault: IoKind,
    ) -> Result<(), NoMemory>
        ensures total { book.new.total ≡ book.old.total + 1 }
        ensures failures { self.new.share.amount ≡ self.old.share.amount + 1 }
        ensures closed { Closes fault (holding self.old.token self.old.share.amount) (holding self.new.token self.new.share.amount) result }
    {
        book.add(&mut self.share, 1);
        let closed = self.exchange.close(rt, alloc, &mut self.token, fault);
        passed_over(closed)
    }

    /// Ends a request, if the history has room for that.
    pub(crate) fn cancel<W: Wait>(
        &mut self,
        rt: &W,
        alloc: Global,
        id: RequestId,
    ) -> Result<(), NoMemory>
        ensures { Ends id.0 (holding self.old.token self.old.share.amount) (holding self.new.token self.new.share.amount) result }
    {
        let canceled = self.exchange.cancel(rt, alloc, &mut self.token, id);
        passed_over(canceled)
    }
}

// A call that a full history refused is passed over.
fn passed_over(done: Result<(), ExchangeError>) -> Result<(), NoMemory>
    ensures { PassesOver done result }
{
    match done {
        Err(ExchangeError::NoMemory) => Err(NoMemory),
        _ => Ok(()),
    }
}
