//! An exchange, what polls say of it, and a stream by a script.
ghost use Rattle.std.specs.Prelude.{◌≡◌};

use crate::echo::echo_server;
use dns_handle::{DnsRequest, DnsRequestOptions, DnsResponse, IoKind, NetError, Notice};
use dns_message::Message;
use dns_multiplexer::{
    BufDnsStreamHandle, DnsMultiplexer, ListDraws, RequestId, SerialMessage, Taken,
};
use dns_polled_exchange::{DnsExchangeBackground, DnsExchangeSend, ExchangeStream};
use dns_record::Octets;
use dns_shared_exchange::{CallerToken, DnsExchange, ExchangeError};
use futures::Stream;
use futures::task::{Context, Poll};
use std::alloc::Global;
use std::process::Abort;
use std::sync::Wait;

/// What a poll, or what it stands for, says.
#[derive(Clone, Copy, PartialEq, Eq)]
pub(crate) enum Said {
    Done,
    /// A response with the id.
    Response(u16),
    Fault(IoKind),
    /// The history is full.
    Full,
    Pending,
    Ended,
    Other,
}

pub(crate) fn said_of_error(error: &NetError) -> Said {
    match error {
        NetError::Io(kind) => Said::Fault(*kind),
        NetError::Message(Notice::HistoryFull) => Said::Full,
        _ => Said::Other,
    }
}

fn said_of_refusal(error: &ExchangeError) -> Said {
    match error {
        ExchangeError::HistoryFull => Said::Full,
        ExchangeError::Net(error) => said_of_error(error),
        ExchangeError::NoMemory => Said::Other,
    }
}

/// What a poll for items says.
pub(crate) fn said_of_item(poll: &Poll<Option<Result<DnsResponse, NetError>>>) -> Said {
    match poll {
        Poll::Pending => Said::Pending,
        Poll::Ready(None) => Said::Ended,
        Poll::Ready(Some(Ok(response))) => Said::Response(response.message.id),
        Poll::Ready(Some(Err(error))) => said_of_error(error),
    }
}

/// What a poll of a background says.
pub(crate) fn said_of_end(poll: &Poll<Result<(), NetError>>) -> Said {
    match poll {
        Poll::Pending => Said::Pending,
        Poll::Ready(Ok(())) => Said::Done,
        Poll::Ready(Err(error)) => said_of_error(error),
    }
}

/// A response without a question (RFC 1035, 4.1.1).
pub(crate) fn response_bytes(id: u16) -> [u8; 12] {
    let [high, low] = id.to_be_bytes();
    [high, low, 0x80, 0, 0, 0, 0, 0, 0, 0, 0, 0]
}

/// A stream of so many responses with an id, and then its end, a fault, or nothing yet.
#[derive(Drop)]
pub(crate) struct Script {
    pub(crate) alloc: Global,
    pub(crate) id: u16,
    pub(crate) left: u32,
    pub(crate) end: End,
}

/// What follows the responses of a script.
#[derive(Clone, Copy, Drop)]
pub(crate) enum End {
    End,
    Fault(IoKind),
    Nothing,
}

impl Stream for Script {
    type Item = Result<SerialMessage, IoKind>;

    fn poll_next(&mut self, cx: &mut Context<'_>) -> Poll<Option<Result<SerialMessage, IoKind>>> {
        if self.left > 0 {
            self.left -= 1;
            let bytes = Octets::from_slice(self.alloc, &response_bytes(self.id));
            return match bytes {
                Ok(bytes) => Poll::Ready(Some(Ok(SerialMessage {
                    bytes,
                    addr: echo_server(),
                }))),
                Err(_) => Poll::Ready(Some(Err(IoKind::Other))),
            };
        }
        match self.end {
            End::End => Poll::Ready(None),
            End::Fault(kind) => Poll::Ready(Some(Err(kind))),
            End::Nothing => cx.yield_now(),
        }
    }
}

/// An exchange, which draws the ids 7, 8 and then 0, and a token of it.
#[derive(Drop)]
pub(crate) struct Polled {
    exchange: DnsExchange<ListDraws>,
    token: CallerToken,
    ghost own: { token.line ≡ exchange },
}

impl Polled {
    pub(crate) fn new<W: Abort + Wait>(rt: &W, alloc: Global) -> Polled {
        let (handle, queue) = BufDnsStreamHandle::new(alloc, echo_server());
        let ids = Vec::from_slice(alloc, &[7, 8]).expect(rt, "memory");
        let draws = ListDraws::new(ids, Vec::new(alloc));
        let mux = DnsMultiplexer::new(alloc, echo_server(), handle, queue, draws);
        let made = DnsExchange::from_stream(rt, alloc, mux);
        let (exchange, token) = made.expect(rt, "memory");
        Polled { exchange, token }
    }

    pub(crate) fn send<W: Abort + Wait>(&mut self, rt: &W, alloc: Global) -> RequestId {
        let request = DnsRequest {
            message: Message::query(alloc),
            options: DnsRequestOptions::default(),
            original: None,
        };
        let sent = self.exchange.send(rt, alloc, &mut self.token, &request, 0);
        sent.expect(rt, "room and memory")
    }

    pub(crate) fn arrive<W: Abort + Wait>(&mut self, rt: &W, alloc: Global, bytes: &[u8]) -> bool {
        self.exchange
            .arrive(rt, alloc, &mut self.token, bytes)
            .is_ok()
    }

    /// So many ticks.
    pub(crate) fn tick<W: Abort + Wait>(&mut self, rt: &W, alloc: Global, count: u32) {
        for _ in 0..count {
            let _ = self.exchange.tick(rt, alloc, &mut self.token, 0);
        }
    }

    pub(crate) fn close<W: Abort + Wait>(&mut self, rt: &W, alloc: Global, fault: IoKind) -> Said {
        match self.exchange.close(rt, alloc, &mut self.token, fault) {
            Ok(()) => Said::Done,
            Err(error) => said_of_refusal(&error),
        }
    }

    pub(crate) fn take<W: Abort + Wait>(&mut self, rt: &W, alloc: Global, id: RequestId) -> Said {
        match self.exchange.take(rt, alloc, &mut self.token, id) {
            Ok(Taken::Pending) => Said::Pending,
            Ok(Taken::Ended) => Said::Ended,
            Ok(Taken::Item(Ok(response))) => Said::Response(response.message.id),
            Ok(Taken::Item(Err(error))) => said_of_error(&error),
            Err(error) => said_of_refusal(&error),
        }
    }

    pub(crate) fn poll_take<W: Wait>(
        &mut self,
        rt: &W,
        alloc: Global,
        send: &mut DnsExchangeSend,
    ) -> Said {
        said_of_item(&send.poll_take(rt, alloc, &self.exchange, &mut self.token))
    }

    pub(crate) fn run<W: Wait>(
        &mut self,
        rt: &W,
        alloc: Global,
        background: &mut DnsExchangeBackground<Script>,
        cx: &mut Context<'_>,
    ) -> Said {
        said_of_end(&background.poll(rt, alloc, &self.exchange, &mut self.token, cx))
    }

    /// What comes for a request, as a stream.
    pub(crate) fn into_stream<W: Wait + Copy>(
        self,
        rt: W,
        alloc: Global,
        id: RequestId,
    ) -> ExchangeStream<ListDraws, W> {
        let Polled { exchange, token } = self;
        ExchangeStream::new(rt, alloc, exchange, token, id)
    }
}
