//! A caller of an exchange.
ghost use Rattle.std.specs.Prelude.{◌≡◌};

use crate::heard::{Heard, heard_arrived, heard_done, heard_sent, heard_taken};
use crate::parts::id_of;
use dns_handle::{DnsRequest, IoKind};
use dns_multiplexer::{
    BufDnsStreamHandle, DnsMultiplexer, Draws, ListDraws, RequestId, SerialMessage, Taken,
};
use dns_shared_exchange::{CallerToken, DnsExchange};
use std::alloc::Global;
use std::net::{IpAddr, Ipv4Addr, SocketAddr};
use std::process::Abort;
use std::sync::Wait;
use std::thread;

/// So many tries are made at most.
pub(crate) const TRIES: u64 = 1_000_000;

fn server() -> SocketAddr {
    SocketAddr::new(IpAddr::V4(Ipv4Addr::new(127, 0, 0, 1)), 53)
}

/// Draws these ids and then 0.
pub(crate) fn draws_of(rt: &impl Abort, alloc: Global, ids: &[u16]) -> ListDraws {
    let ids = Vec::from_slice(alloc, ids).expect(rt, "memory");
    ListDraws::new(ids, Vec::new(alloc))
}

/// A holder of an exchange, with a token of it.
#[derive(Drop)]
pub(crate) struct Caller<R: Draws + Drop> {
    exchange: DnsExchange<R>,
    token: CallerToken,
    ghost own: { token.line ≡ exchange },
}

impl<R: Draws + Drop> Caller<R> {
    /// The first caller of an exchange of which so many requests may be live, and so many messages and one more wait.
    pub(crate) fn first<W: Abort + Wait>(
        rt: &W,
        alloc: Global,
        maximum: usize,
        size: usize,
        draws: R,
    ) -> Caller<R> {
        let (handle, queue) = BufDnsStreamHandle::with_buffer_size(alloc, server(), size);
        let mux = DnsMultiplexer::new(alloc, server(), handle, queue, draws);
        let mux = mux.with_max_active_requests(maximum);
        let made = DnsExchange::from_stream(rt, alloc, mux);
        let (exchange, token) = made.expect(rt, "memory");
        Caller { exchange, token }
    }

    /// This caller, and another one beside it.
    pub(crate) fn beside<W: Abort>(self, rt: &W) -> (Caller<R>, Caller<R>) {
        let Caller { exchange, token } = self;
        let other = exchange.share().expect(rt, "memory");
        let (token, new) = exchange.split(token).expect(rt, "two tokens");
        let first = Caller { exchange, token };
        let second = Caller {
            exchange: other,
            token: new,
        };
        (first, second)
    }

    pub(crate) fn send<W: Abort + Wait>(
        &mut self,
        rt: &W,
        alloc: Global,
        request: &DnsRequest,
        now_ms: u64,
    ) -> Heard {
        heard_sent(
            &self
                .exchange
                .send(rt, alloc, &mut self.token, request, now_ms),
        )
    }

    pub(crate) fn arrive<W: Abort + Wait>(&mut self, rt: &W, alloc: Global, bytes: &[u8]) -> Heard {
        heard_arrived(&self.exchange.arrive(rt, alloc, &mut self.token, bytes))
    }

    pub(crate) fn take<W: Abort + Wait>(&mut self, rt: &W, alloc: Global, number: u64) -> Heard {
        let id = RequestId(number);
        heard_taken(&self.exchange.take(rt, alloc, &mut self.token, id))
    }

    pub(crate) fn cancel<W: Abort + Wait>(&mut self, rt: &W, alloc: Global, number: u64) -> Heard {
        let id = RequestId(number);
        heard_done(&self.exchange.cancel(rt, alloc, &mut self.token, id))
    }

    pub(crate) fn tick<W: Abort + Wait>(&mut self, rt: &W, alloc: Global, now_ms: u64) -> Heard {
        heard_done(&self.exchange.tick(rt, alloc, &mut self.token, now_ms))
    }

    pub(crate) fn close<W: Abort + Wait>(&mut self, rt: &W, alloc: Global, fault: IoKind) -> Heard {
        heard_done(&self.exchange.close(rt, alloc, &mut self.token, fault))
    }

    /// The next message that is to be sent.
    pub(crate) fn popped<W: Abort + Wait>(&mut self, rt: &W) -> Option<SerialMessage> {
        self.exchange.pop_outbound(rt, &mut self.token)
    }

    /// The id under which the next message is to be sent.
    pub(crate) fn pop<W: Abort + Wait>(&mut self, rt: &W) -> Option<u16> {
        id_of(&self.popped(rt)?)
    }

    /// What has come for a request.
    pub(crate) fn taken<W: Abort + Wait>(&mut self, rt: &W, alloc: Global, number: u64) -> Taken {
        let id = RequestId(number);
        let taken = self.exchange.take(rt, alloc, &mut self.token, id);
        taken.expect(rt, "room and memory")
    }

    /// What comes for a request within a million tries. Another thread may run after each.
    pub(crate) fn wait<W: Abort + Wait>(&mut self, rt: &W, alloc: Global, number: u64) -> Taken {
        for _ in 0..TRIES {
            let taken = self.taken(rt, alloc, number);
            if !matches!(taken, Taken::Pending) {
                return taken;
            }
            thread::yield_now();
        }
        Taken::Pending
    }
}
