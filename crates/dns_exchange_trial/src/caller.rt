//! A caller of an exchange, with a token of it.
ghost use Rattle.std.specs.Prelude.{◌≡◌};

use crate::machine::Machine;
use crate::measured::{given, multiplexer, outbound, refused, request, response_with};
use crate::plain_mux::{Answer, Event};
use dns_handle::{IoKind, NetError};
use dns_multiplexer::{Draws, RequestId};
use dns_record::NoMemory;
use dns_shared_exchange::{CallerToken, DnsExchange, ExchangeError};
use std::alloc::Global;
use std::sync::Wait;

/// A holder of an exchange, with a token of it.
#[derive(Drop)]
pub(crate) struct Caller<D: Draws + Drop, W: Wait + Copy> {
    rt: W,
    exchange: DnsExchange<D>,
    token: CallerToken,
    ghost own: { token.line ≡ exchange },
}

// What a call without a value is answered.
fn done(done: Result<(), ExchangeError>) -> Result<Answer, NoMemory> {
    match done {
        Ok(()) => Ok(Answer::Nothing),
        Err(error) => refused(&NetError::from(error)),
    }
}

impl<D: Draws + Drop, W: Wait + Copy> Caller<D, W> {
    /// The first caller of an exchange with the settings of the plain machine, and so many live requests at most. Its token was split
    /// and joined again.
    pub(crate) fn first(
        rt: W,
        alloc: Global,
        draws: D,
        maximum: usize,
    ) -> Result<Caller<D, W>, NoMemory> {
        let mux = multiplexer(alloc, draws, maximum);
        let Ok((exchange, token)) = DnsExchange::from_stream(&rt, alloc, mux) else {
            return Err(NoMemory);
        };
        let Ok((token, other)) = exchange.split(token) else {
            unreachable!()
        };
        let token = exchange.join(token, other);
        Ok(Caller {
            rt,
            exchange,
            token,
        })
    }

    /// This caller, and another one beside it.
    pub(crate) fn beside(self) -> Result<(Caller<D, W>, Caller<D, W>), NoMemory> {
        let other = self.exchange.share()?;
        let Caller {
            rt,
            exchange,
            token,
        } = self;
        let Ok((token, new)) = exchange.split(token) else {
            unreachable!()
        };
        let first = Caller {
            rt,
            exchange,
            token,
        };
        let second = Caller {
            rt,
            exchange: other,
            token: new,
        };
        Ok((first, second))
    }

    fn send(&mut self, alloc: Global, moment: u64) -> Result<Answer, NoMemory> {
        let request = request(alloc);
        let sent = self
            .exchange
            .send(&self.rt, alloc, &mut self.token, &request, moment);
        match sent {
            Ok(RequestId(number)) => Ok(Answer::Sent(number)),
            Err(error) => refused(&NetError::from(error)),
        }
    }

    fn arrive(&mut self, alloc: Global, id: u16, mark: u8) -> Result<Answer, NoMemory> {
        let response = response_with(id, mark);
        let arrived = self
            .exchange
            .arrive(&self.rt, alloc, &mut self.token, &response);
        match arrived {
            Ok(arrival) => Ok(Answer::Arrived(arrival)),
            Err(error) => refused(&NetError::from(error)),
        }
    }

    fn take(&mut self, alloc: Global, number: u64) -> Result<Answer, NoMemory> {
        let id = RequestId(number);
        match self.exchange.take(&self.rt, alloc, &mut self.token, id) {
            Ok(taken) => Ok(given(&taken)),
            Err(error) => refused(&NetError::from(error)),
        }
    }

    fn cancel(&mut self, alloc: Global, number: u64) -> Result<Answer, NoMemory> {
        let id = RequestId(number);
        done(self.exchange.cancel(&self.rt, alloc, &mut self.token, id))
    }
}

impl<D: Draws + Drop, W: Wait + Copy> Machine for Caller<D, W> {
    fn answer(&mut self, alloc: Global, event: Event) -> Result<Answer, NoMemory> {
        match event {
            Event::Send(moment) => self.send(alloc, moment),
            Event::Arrive(id, mark) => self.arrive(alloc, id, mark),
            Event::Take(number) => self.take(alloc, number),
            Event::Pop => Ok(outbound(&self.exchange.pop_outbound(&self.rt, &mut self.token))),
            Event::Cancel(number) => self.cancel(alloc, number),
            Event::Tick(now) => done(self.exchange.tick(&self.rt, alloc, &mut self.token, now)),
            Event::Close => done(
                self.exchange
                    .close(&self.rt, alloc, &mut self.token, IoKind::UnexpectedEof),
            ),
        }
    }
}
