//! A caller of the exchange beside the holders of a connection.
ghost use Rattle.std.specs.Prelude.{◌≡◌};

use crate::heard::{Heard, heard_reply};
use crate::parts::query;
use dns_multiplexer::{ListDraws, RequestId, Taken};
use dns_shared_exchange::{CallerToken, DnsExchange};
use std::alloc::Global;
use std::process::Abort;
use std::sync::Wait;

/// A caller that calls the exchange itself.
#[derive(Drop)]
pub(crate) struct Beside<W: Abort + Wait + Copy> {
    rt: W,
    alloc: Global,
    exchange: DnsExchange<ListDraws>,
    token: CallerToken,
    ghost own: { token.line ≡ exchange },
}

impl<W: Abort + Wait + Copy> Beside<W> {
    /// A caller, beside who has the token that is given back.
    pub(crate) fn new(
        rt: W,
        alloc: Global,
        exchange: &DnsExchange<ListDraws>,
        token: CallerToken,
    ) -> (CallerToken, Beside<W>)
        requires { token.line ≡ exchange.now }
        ensures { result.0 ≡ token }
    {
        let other = exchange.share().expect(&rt, "memory");
        let (token, new) = exchange.split(token).expect(&rt, "two tokens");
        let beside = Beside {
            rt,
            alloc,
            exchange: other,
            token: new,
        };
        (token, beside)
    }

    /// Sends a query, and gives its number; none where it is refused.
    pub(crate) fn send(&mut self) -> Option<u64> {
        let request = query(self.alloc);
        let sent = self
            .exchange
            .send(&self.rt, self.alloc, &mut self.token, &request, 0);
        Some(sent.ok()?.0)
    }

    /// What waits for a request; none where nothing does.
    pub(crate) fn take(&mut self, number: u64) -> Option<Heard> {
        let id = RequestId(number);
        let taken = self
            .exchange
            .take(&self.rt, self.alloc, &mut self.token, id);
        match taken.expect(&self.rt, "room and memory") {
            Taken::Item(reply) => Some(heard_reply(&reply)),
            Taken::Pending | Taken::Ended => None,
        }
    }

    pub(crate) fn cancel(&mut self, number: u64) {
        let id = RequestId(number);
        let canceled = self
            .exchange
            .cancel(&self.rt, self.alloc, &mut self.token, id);
        canceled.expect(&self.rt, "room and memory");
    }

    /// Fills the history with so many ticks.
    pub(crate) fn tick(&mut self, count: u64) {
        for _ in 0..count {
            let ticked = self.exchange.tick(&self.rt, self.alloc, &mut self.token, 0);
            ticked.expect(&self.rt, "room and memory");
        }
    }
}
