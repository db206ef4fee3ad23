//! The core of a multiplexer: which event brought an item to a request.
use crate::heard::{Heard, heard_error, heard_reply};
use crate::parts::{check, draws_of, query, response_bytes, server};
use dns_handle::IoKind;
use dns_mux::{
    Arrival, BufDnsStreamHandle, ListDraws, MultiplexerCore, RequestId, Taken, encoded_request,
};
use dns_record::Octets;
use std::alloc::Global;
use std::process::Abort;

/// What is done with a core. Requests go by their numbers.
#[derive(Clone, Copy)]
enum Step {
    /// A request is sent, and gets the number.
    Send(u64),
    /// A request that is too long is sent.
    SendTooLong,
    /// A message with an id comes by an event.
    Arrive(u16, u64, Arrival),
    /// What waits for a request, and the event that brought it.
    Take(u64, Heard, Option<u64>),
    Cancel(u64),
    /// The connection ends by an event.
    Close(u64),
}

/// The requests have the ids 11, 12 and 20.
const STEPS: &[Step] = &[
    Step::Send(0),
    Step::Send(1),
    Step::SendTooLong,
    Step::Arrive(12, 7, Arrival::Queued(RequestId(1))),
    Step::Arrive(11, 9, Arrival::Queued(RequestId(0))),
    Step::Arrive(11, 10, Arrival::Queued(RequestId(0))),
    Step::Arrive(14, 11, Arrival::Stranger),
    Step::Take(0, Heard::Id(11), Some(9)),
    Step::Send(2),
    Step::Arrive(20, 12, Arrival::Queued(RequestId(2))),
    Step::Cancel(2),
    Step::Take(2, Heard::Ended, None),
    Step::Close(15),
    Step::Take(0, Heard::Id(11), Some(10)),
    Step::Take(0, Heard::Fault(IoKind::UnexpectedEof), Some(15)),
    Step::Take(0, Heard::Ended, None),
    Step::Take(1, Heard::Id(12), Some(7)),
    Step::Take(1, Heard::Fault(IoKind::UnexpectedEof), Some(15)),
    Step::Take(1, Heard::Ended, None),
];

fn core(alloc: Global) -> MultiplexerCore {
    let (handle, queue) = BufDnsStreamHandle::new(alloc, server());
    MultiplexerCore::new(alloc, handle, queue)
}

/// Whether a request is sent, and gets the number.
fn is_sent(
    rt: &impl Abort,
    alloc: Global,
    core: &mut MultiplexerCore,
    draws: &mut ListDraws,
    number: u64,
) -> bool {
    let request = encoded_request(&query(alloc)).expect(rt, "memory");
    match core.send(alloc, draws, request, 0) {
        Ok(id) => id == RequestId(number),
        Err(_) => false,
    }
}

fn is_too_long(alloc: Global, core: &mut MultiplexerCore, draws: &mut ListDraws) -> bool {
    match core.send(alloc, draws, None, 0) {
        Ok(_) => false,
        Err(error) => heard_error(&error) == Heard::TooLong,
    }
}

/// What becomes of a response that comes by an event.
fn arrived(
    rt: &impl Abort,
    alloc: Global,
    core: &mut MultiplexerCore,
    id: u16,
    event: u64,
) -> Arrival {
    let bytes = Octets::from_slice(alloc, &response_bytes(id)).expect(rt, "memory");
    check(rt, "a short message", bytes.len() < 65536);
    core.arrive(alloc, bytes, event).expect(rt, "memory")
}

/// What waits for a request, and the event that brought it.
fn taken(core: &mut MultiplexerCore, number: u64) -> (Heard, Option<u64>) {
    let (taken, event) = core.take(RequestId(number));
    let heard = match &taken {
        Taken::Item(reply) => heard_reply(reply),
        Taken::Pending => Heard::Pending,
        Taken::Ended => Heard::Ended,
    };
    (heard, event)
}

fn goes(
    rt: &impl Abort,
    alloc: Global,
    core: &mut MultiplexerCore,
    draws: &mut ListDraws,
    step: Step,
) -> bool {
    match step {
        Step::Send(number) => is_sent(rt, alloc, core, draws, number),
        Step::SendTooLong => is_too_long(alloc, core, draws),
        Step::Arrive(id, event, became) => arrived(rt, alloc, core, id, event) == became,
        Step::Take(number, heard, event) => taken(core, number) == (heard, event),
        Step::Cancel(number) => {
            core.cancel(RequestId(number));
            true
        }
        Step::Close(event) => {
            core.close(IoKind::UnexpectedEof, event);
            true
        }
    }
}

#[test]
fn a_core_says_which_event_brought_an_item(rt: HostRuntime) {
    let alloc = rt.alloc();
    let mut core = core(alloc);
    // One is drawn for the request that is too long.
    let mut draws = draws_of(&rt, alloc, &[11, 12, 19, 20]);
    for step in STEPS {
        check(
            &rt,
            "a step",
            goes(&rt, alloc, &mut core, &mut draws, *step),
        );
    }
}
