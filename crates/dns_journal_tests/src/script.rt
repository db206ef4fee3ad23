//! What is done with a journaled multiplexer, and what it answers.
ghost use Rattle.std.specs.Prelude.{◌≡◌, ◌≤◌, true, length, IfSome};

use dns_handle::{IoKind, NetError};
use dns_journal::{ExchangeError, JournaledCore, RecordedDraws, Refusal};
use dns_multiplexer::{
    Arrival, BufDnsStreamHandle, ListDraws, MultiplexerCore, RequestId, SerialMessage, Taken,
};
use dns_record::Octets;
use std::alloc::Global;
use std::net::{IpAddr, Ipv4Addr, SocketAddr};
use std::process::Abort;

/// What a call is answered.
#[derive(Clone, Copy, PartialEq, Eq)]
pub(crate) enum Answer {
    Done,
    /// The request has the number.
    Sent(u64),
    Full,
    Busy,
    TooLong,
    NoConnections,
    /// A response with the id.
    Response(u16),
    Fault(IoKind),
    Pending,
    Ended,
    Other,
}

/// What is done. Requests go by their numbers.
#[derive(Clone, Copy)]
pub(crate) enum Step {
    /// So many ticks, each of which is done.
    Ticks(u64),
    Tick(Answer),
    /// A request of so many bytes.
    Send(usize, Answer),
    SendTooLong(Answer),
    /// The message that is popped has the id.
    Pop(Option<u16>),
    /// So many arrivals of so many bytes, each of which is done.
    Arrivals(u64, usize),
    Arrive(usize, Answer),
    /// A response with the id.
    Respond(u16, Answer),
    Take(u64, Answer),
    Cancel(u64, Answer),
    Close(IoKind, Answer),
}

/// A script by its name: as many live requests as may be, and what is done.
pub(crate) struct Script {
    pub(crate) name: &'static str,
    pub(crate) maximum: usize,
    pub(crate) steps: &'static [Step],
}

/// What was tried held; the message names it.
pub(crate) fn check(rt: &impl Abort, what: &str, held: bool)
    ensures { held ≡ true }
{
    assert!(rt; held, "{what}");
}

fn server() -> SocketAddr {
    SocketAddr::new(IpAddr::V4(Ipv4Addr::new(127, 0, 0, 1)), 53)
}

fn answer_by(refusal: Refusal) -> Answer {
    match refusal {
        Refusal::HistoryFull => Answer::Full,
        Refusal::NoMemory => Answer::Other,
    }
}

fn done(answer: Result<(), Refusal>) -> Answer {
    match answer {
        Ok(()) => Answer::Done,
        Err(refusal) => answer_by(refusal),
    }
}

fn of_error(error: &NetError) -> Answer {
    match error {
        NetError::Busy => Answer::Busy,
        NetError::NoConnections => Answer::NoConnections,
        NetError::Proto(_) => Answer::TooLong,
        NetError::Io(kind) => Answer::Fault(*kind),
        _ => Answer::Other,
    }
}

fn sent(answer: &Result<RequestId, ExchangeError>) -> Answer {
    match answer {
        Ok(id) => Answer::Sent(id.0),
        Err(ExchangeError::HistoryFull) => Answer::Full,
        Err(ExchangeError::Net(error)) => of_error(error),
        Err(ExchangeError::NoMemory) => Answer::Other,
    }
}

fn arrived(answer: &Result<Arrival, Refusal>) -> Answer {
    match answer {
        Ok(Arrival::Queued(id)) => Answer::Sent(id.0),
        Ok(_) => Answer::Done,
        Err(refusal) => answer_by(*refusal),
    }
}

fn taken(answer: &Result<Taken, Refusal>) -> Answer {
    match answer {
        Ok(Taken::Item(Ok(response))) => Answer::Response(response.message.id),
        Ok(Taken::Item(Err(error))) => of_error(error),
        Ok(Taken::Pending) => Answer::Pending,
        Ok(Taken::Ended) => Answer::Ended,
        Err(refusal) => answer_by(*refusal),
    }
}

/// The id under which a message goes out.
fn id_of(message: &SerialMessage) -> Option<u16> {
    match message.bytes.as_slice() {
        [high, low, ..] => Some(u16::from_be_bytes([*high, *low])),
        _ => None,
    }
}

/// Bytes that are no message.
fn zeros(rt: &impl Abort, alloc: Global, len: usize) -> Octets {
    let bytes = vec![in alloc; 0u8; len].expect(rt, "memory");
    Octets::from_vec(bytes)
}

fn response(rt: &impl Abort, alloc: Global, id: u16) -> Octets {
    let [high, low] = id.to_be_bytes();
    let bytes = [high, low, 0x80, 0, 0, 0, 0, 0, 0, 0, 0, 0];
    Octets::from_slice(alloc, &bytes).expect(rt, "memory")
}

/// A journaled multiplexer, and its draws.
#[derive(Drop)]
struct Tried {
    core: JournaledCore,
    draws: RecordedDraws<ListDraws>,
}

impl Tried {
    /// Draws the ids 7, 7, 8, 9 and then 0.
    fn new(rt: &impl Abort, alloc: Global, maximum: usize) -> Tried {
        let (handle, queue) = BufDnsStreamHandle::new(alloc, server());
        let mut core = MultiplexerCore::new(alloc, handle, queue);
        core.set_max_active_requests(maximum);
        let ids = Vec::from_slice(alloc, &[7, 7, 8, 9]).expect(rt, "memory");
        let draws = ListDraws::new(ids, Vec::new(alloc));
        Tried {
            core: JournaledCore::new(alloc, core).expect(rt, "memory"),
            draws: RecordedDraws::new(alloc, draws),
        }
    }

    fn send(&mut self, alloc: Global, request: Option<Octets>) -> Answer
        requires { IfSome request (λ bytes. 2 ≤ length bytes) }
    {
        sent(&self.core.send(alloc, &mut self.draws, request, 0))
    }

    /// A request of so many bytes, two at least.
    fn send_of(&mut self, rt: &impl Abort, alloc: Global, len: usize) -> Answer {
        let request = zeros(rt, alloc, len);
        check(rt, "a request", request.len() >= 2);
        self.send(alloc, Some(request))
    }

    fn ticks(&mut self, alloc: Global, count: u64) -> bool {
        for _ in 0..count {
            if self.core.tick(alloc, 0).is_err() {
                return false;
            }
        }
        true
    }

    fn arrivals(&mut self, rt: &impl Abort, alloc: Global, count: u64, len: usize) -> bool {
        for _ in 0..count {
            if self.core.arrive(alloc, zeros(rt, alloc, len)).is_err() {
                return false;
            }
        }
        true
    }

    fn pops(&mut self, id: Option<u16>) -> bool {
        match self.core.pop_outbound() {
            None => id.is_none(),
            Some(message) => id == id_of(&message),
        }
    }

    /// Whether a step goes as it says.
    fn goes(&mut self, rt: &impl Abort, alloc: Global, step: Step) -> bool {
        match step {
            Step::Ticks(count) => self.ticks(alloc, count),
            Step::Tick(answer) => done(self.core.tick(alloc, 0)) == answer,
            Step::Send(len, answer) => self.send_of(rt, alloc, len) == answer,
            Step::SendTooLong(answer) => self.send(alloc, None) == answer,
            Step::Pop(id) => self.pops(id),
            Step::Arrivals(count, len) => self.arrivals(rt, alloc, count, len),
            Step::Arrive(len, answer) => {
                arrived(&self.core.arrive(alloc, zeros(rt, alloc, len))) == answer
            }
            Step::Respond(id, answer) => {
                arrived(&self.core.arrive(alloc, response(rt, alloc, id))) == answer
            }
            Step::Take(number, answer) => taken(&self.core.take(alloc, RequestId(number)))
                == answer,
            Step::Cancel(number, answer) => {
                done(self.core.cancel(alloc, RequestId(number))) == answer
            }
            Step::Close(fault, answer) => done(self.core.close(alloc, fault)) == answer,
        }
    }
}

/// Each step of the script goes as it says.
pub(crate) fn check_script(rt: &impl Abort, alloc: Global, script: &Script) {
    let mut tried = Tried::new(rt, alloc, script.maximum);
    for step in script.steps {
        check(rt, script.name, tried.goes(rt, alloc, *step));
    }
}
