//! `DnsExchangeSend`, what comes for one request of an exchange.
ghost use Rattle.std.specs.Prelude.{◌≡◌};
ghost use Rattle.dns_shared_exchange.specs.Tokens.{IsKnown, IsTurn};
ghost use Rattle.dns_polled_exchange.specs.Polls.{IsPolled, poll_by};

use dns_handle::{DnsResponse, NetError};
use dns_multiplexer::{Draws, RequestId, Taken};
use dns_shared_exchange::{CallerToken, DnsExchange, ExchangeError};
use futures::task::Poll;
use std::alloc::Global;
use std::sync::Wait;

/// What comes for one request of an exchange: each poll is one `take`.
#[derive(Clone, Copy, Debug, PartialEq, Eq, Drop)]
pub struct DnsExchangeSend {
    id: RequestId,
}

// The poll that a take stands for.
fn polled(taken: Result<Taken, ExchangeError>) -> Poll<Option<Result<DnsResponse, NetError>>>
    ensures { result ≡ poll_by taken }
{
    match taken {
        Ok(Taken::Item(reply)) => Poll::Ready(Some(reply)),
        Ok(Taken::Pending) => Poll::Pending,
        Ok(Taken::Ended) => Poll::Ready(None),
        Err(error) => Poll::Ready(Some(Err(NetError::from(error)))),
    }
}

impl DnsExchangeSend {
    ghost use Rattle.dns_polled_exchange.specs.Polls.{number_of};

    /// What comes for the request with this number.
    pub fn new(id: RequestId) -> DnsExchangeSend
        ensures { number_of result ≡ id.0 }
    {
        DnsExchangeSend { id }
    }

    /// Asks once. Pending where nothing waits yet, and None where nothing is to come. Where the history is full the item is
    /// `Message(HistoryFull)`, and `NoMemory` where memory ran out. It asks nobody to poll it again.
    pub fn poll_take<R: Draws + Drop, W: Wait>(
        &mut self,
        rt: &W,
        alloc: Global,
        exchange: &DnsExchange<R>,
        token: &mut CallerToken,
    ) -> Poll<Option<Result<DnsResponse, NetError>>>
        requires { token.old.line ≡ exchange.now }
        ensures polled { IsTurn (IsPolled (number_of self.old) result) token.old.known token.new.known }
        ensures same { self.new ≡ self.old }
        ensures known { IsKnown token.new.known }
        ensures line { token.new.line ≡ token.old.line }
    {
        polled(exchange.take(rt, alloc, token, self.id))
    }
}
