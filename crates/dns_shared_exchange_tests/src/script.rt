//! What one caller does, and what it hears.
use crate::caller::{Caller, draws_of};
use crate::heard::Heard;
use crate::parts::{check, request_of, response_bytes};
use dns_handle::IoKind;
use dns_multiplexer::ListDraws;
use std::alloc::Global;
use std::process::Abort;
use std::sync::Wait;

/// What is done, and what it answers. Requests go by their numbers.
#[derive(Clone, Copy)]
pub(crate) enum Step {
    /// So many ticks at 0, each of which is done.
    Ticks(u64),
    Tick(u64, Heard),
    /// A request of so many bytes, 12 or from 23 on, at a moment.
    Send(usize, u64, Heard),
    /// The message that is popped has the id, or there is none.
    Pop(Option<u16>),
    /// So many arrivals of so many bytes that are no message, each of which is done.
    Arrivals(u64, usize),
    Arrive(usize, Heard),
    /// A response with the id.
    Respond(u16, Heard),
    /// The next message that is to be sent comes back as it is.
    Echo(Heard),
    Take(u64, Heard),
    Cancel(u64, Heard),
    Close(IoKind, Heard),
}

/// A script by its name: how many requests may be live, how many messages wait beside one more, the ids that are drawn, and what is
/// done.
pub(crate) struct Script {
    pub(crate) name: &'static str,
    pub(crate) maximum: usize,
    pub(crate) size: usize,
    pub(crate) ids: &'static [u16],
    pub(crate) steps: &'static [Step],
}

fn are_ticked<W: Abort + Wait>(
    rt: &W,
    alloc: Global,
    caller: &mut Caller<ListDraws>,
    count: u64,
) -> bool {
    for _ in 0..count {
        if caller.tick(rt, alloc, 0) != Heard::Done {
            return false;
        }
    }
    true
}

fn arrived<W: Abort + Wait>(
    rt: &W,
    alloc: Global,
    caller: &mut Caller<ListDraws>,
    len: usize,
) -> Heard {
    let bytes = vec![in alloc; 0u8; len].expect(rt, "memory");
    caller.arrive(rt, alloc, &bytes)
}

fn are_arrived<W: Abort + Wait>(
    rt: &W,
    alloc: Global,
    caller: &mut Caller<ListDraws>,
    count: u64,
    len: usize,
) -> bool {
    for _ in 0..count {
        if arrived(rt, alloc, caller, len) == Heard::Full {
            return false;
        }
    }
    true
}

// The next message that is to be sent comes back.
fn echoed<W: Abort + Wait>(rt: &W, alloc: Global, caller: &mut Caller<ListDraws>) -> Heard {
    let message = caller.popped(rt).expect(rt, "a message");
    caller.arrive(rt, alloc, message.bytes.as_slice())
}

// Whether a step goes as it says.
fn goes<W: Abort + Wait>(
    rt: &W,
    alloc: Global,
    caller: &mut Caller<ListDraws>,
    step: Step,
) -> bool {
    match step {
        Step::Ticks(count) => are_ticked(rt, alloc, caller, count),
        Step::Tick(now, heard) => caller.tick(rt, alloc, now) == heard,
        Step::Send(len, now, heard) => {
            caller.send(rt, alloc, &request_of(rt, alloc, len), now) == heard
        }
        Step::Pop(id) => caller.pop(rt) == id,
        Step::Arrivals(count, len) => are_arrived(rt, alloc, caller, count, len),
        Step::Arrive(len, heard) => arrived(rt, alloc, caller, len) == heard,
        Step::Respond(id, heard) => caller.arrive(rt, alloc, &response_bytes(id)) == heard,
        Step::Echo(heard) => echoed(rt, alloc, caller) == heard,
        Step::Take(number, heard) => caller.take(rt, alloc, number) == heard,
        Step::Cancel(number, heard) => caller.cancel(rt, alloc, number) == heard,
        Step::Close(fault, heard) => caller.close(rt, alloc, fault) == heard,
    }
}

/// Each step of the script goes as it says.
pub(crate) fn check_script<W: Abort + Wait>(rt: &W, alloc: Global, script: &Script) {
    let draws = draws_of(rt, alloc, script.ids);
    let mut caller = Caller::first(rt, alloc, script.maximum, script.size, draws);
    for step in script.steps {
        check(rt, script.name, goes(rt, alloc, &mut caller, *step));
    }
}
