//! Threads over one exchange: each gets its own, and a turn ends before any response comes.
use crate::caller::{Caller, TRIES, draws_of};
use crate::heard::Heard;
use crate::parts::{asking, check, query, response_bytes, type_asked};
use crate::told::Told;
use dns_multiplexer::{Draws, ListDraws, RandDraws, SerialMessage, Taken};
use std::alloc::Global;
use std::process::Abort;
use std::sync::atomic::{AtomicU64, Ordering};
use std::sync::{Mutex, Wait};
use std::thread;
use std::thread::Threads;

/// So many callers ask.
const CALLERS: u16 = 4;

/// So many requests each of them makes.
const REQUESTS: u16 = 1000;

// Sends request 0, tells the id of its message by a word, and waits for the response.
fn ask_first<W: Abort + Wait>(
    rt: &W,
    alloc: Global,
    mut caller: Caller<ListDraws>,
    told: &Told,
) -> bool {
    if caller.send(rt, alloc, &query(alloc), 0) != Heard::Of(0) {
        return false;
    }
    let Some(id) = caller.pop(rt) else {
        return false;
    };
    told.store(u64::from(id).saturating_add(1));
    matches!(caller.wait(rt, alloc, 0), Taken::Item(Ok(response)) if response.message.id == id)
}

// The id that a word tells, once it does.
fn heard_id(told: &Told) -> Option<u16> {
    for _ in 0..TRIES {
        let found = told.load();
        if found != 0 {
            return u16::try_from(found.saturating_sub(1)).ok();
        }
        thread::yield_now();
    }
    None
}

// Once request 0 is sent, sends request 1, and only then hands the response to request 0 over.
fn respond_later<W: Abort + Wait>(
    rt: &W,
    alloc: Global,
    mut caller: Caller<ListDraws>,
    told: &Told,
) -> bool {
    let Some(id) = heard_id(told) else {
        return false;
    };
    caller.send(rt, alloc, &query(alloc), 0) == Heard::Of(1)
        && caller.arrive(rt, alloc, &response_bytes(id)) == Heard::Of(0)
}

fn both_go_on<R: Threads + Wait + Abort + Sync>(rt: &R, alloc: Global) -> bool {
    let draws = draws_of(rt, alloc, &[7, 8]);
    let (one, other) = Caller::first(rt, alloc, 32, 32, draws).beside(rt);
    let told = Told::new(rt, alloc);
    let (first, second) = thread::join(
        rt,
        || ask_first(rt, alloc, one, &told),
        || respond_later(rt, alloc, other, &told),
    );
    first && second
}

#[test]
fn while_one_waits_for_its_response_another_sends(rt: HostRuntime) {
    check(&rt, "both", both_go_on(&rt, rt.alloc()));
}

/// Messages on their way, in no order, and how many were handed over.
#[derive(Drop)]
struct Wire {
    messages: Mutex<Vec<SerialMessage>>,
    handed: AtomicU64,
}

impl Wire {
    fn new(alloc: Global) -> Wire {
        Wire {
            messages: Mutex::new(Vec::new(alloc)),
            handed: AtomicU64::new(0),
        }
    }

    // How many were handed over, once they are more than so many.
    fn more_than(&self, count: u64) -> u64 {
        for _ in 0..TRIES.saturating_mul(100) {
            let found = self.handed.load(Ordering::SeqCst);
            if found > count {
                return found;
            }
            thread::yield_now();
        }
        count
    }
}

/// A caller, and the first of the types that it asks for.
#[derive(Drop)]
struct Job {
    caller: Caller<RandDraws>,
    first: u16,
}

// What comes for a request. It is asked for again once more was handed over.
fn awaited<W: Abort + Wait>(
    rt: &W,
    alloc: Global,
    caller: &mut Caller<RandDraws>,
    wire: &Wire,
    number: u64,
) -> Option<u16> {
    let mut seen = wire.handed.load(Ordering::SeqCst);
    for _ in 0..TRIES {
        match caller.taken(rt, alloc, number) {
            Taken::Item(Ok(response)) => return type_asked(&response),
            Taken::Pending => seen = wire.more_than(seen),
            _ => return None,
        }
    }
    None
}

// Asks for a type, moves a message to the wire, its own or another's, and waits: whether what comes is of that type.
fn is_answered<W: Abort + Wait>(
    rt: &W,
    alloc: Global,
    caller: &mut Caller<RandDraws>,
    wire: &Wire,
    asked: u16,
) -> bool {
    let Heard::Of(number) = caller.send(rt, alloc, &asking(rt, alloc, asked), 0) else {
        return false;
    };
    let message = caller.popped(rt).expect(rt, "a message");
    wire.messages.lock(rt).push(message).expect(rt, "memory");
    let answer = awaited(rt, alloc, caller, wire, number);
    caller.cancel(rt, alloc, number) == Heard::Done && answer == Some(asked)
}

// How many of a job's requests are answered.
fn answered<W: Abort + Wait>(rt: &W, alloc: Global, mut job: Job, wire: &Wire) -> u64 {
    let mut count: u64 = 0;
    for number in 0..REQUESTS {
        let asked = job.first.saturating_add(number);
        let is_so = is_answered(rt, alloc, &mut job.caller, wire, asked);
        count = count.saturating_add(u64::from(is_so));
    }
    count
}

// A message of the wire, whichever.
fn taken_off<W: Wait>(rt: &W, random: &mut RandDraws, wire: &Wire) -> Option<SerialMessage> {
    let mut waiting = wire.messages.lock(rt);
    let messages = &mut *waiting;
    let len = messages.len();
    if len == 0 {
        return None;
    }
    Some(messages.swap_remove(usize::from(random.id()) % len))
}

// Hands over what is on the wire, whichever first, until so many came: how many did.
fn delivered<W: Abort + Wait>(
    rt: &W,
    alloc: Global,
    mut caller: Caller<RandDraws>,
    wire: &Wire,
    wanted: u64,
) -> u64 {
    let mut random = RandDraws::from_seed(2);
    let mut count: u64 = 0;
    for _ in 0..TRIES.saturating_mul(100) {
        if count >= wanted {
            break;
        }
        match taken_off(rt, &mut random, wire) {
            None => thread::yield_now(),
            Some(message) => {
                let heard = caller.arrive(rt, alloc, message.bytes.as_slice());
                count = count.saturating_add(u64::from(matches!(heard, Heard::Of(_))));
                wire.handed.store(count, Ordering::SeqCst);
            }
        }
    }
    count
}

// A job for each caller, and one more caller.
fn jobs_of<W: Abort + Wait>(rt: &W, alloc: Global) -> (Vec<Job>, Caller<RandDraws>) {
    let mut last = Caller::first(rt, alloc, 32, 32, RandDraws::from_seed(1));
    let mut jobs = Vec::new(alloc);
    for number in 0..CALLERS {
        let (one, other) = last.beside(rt);
        last = one;
        let first = number.saturating_mul(REQUESTS);
        let job = Job {
            caller: other,
            first,
        };
        jobs.push(job).expect(rt, "memory");
    }
    (jobs, last)
}

fn sum(counts: &[u64]) -> u64 {
    let mut all: u64 = 0;
    for count in counts {
        all = all.saturating_add(*count);
    }
    all
}

// How many requests of all callers are answered, and how many messages were handed over.
fn served<R: Threads + Wait + Abort + Sync>(rt: &R, alloc: Global) -> (u64, u64) {
    let wire = Wire::new(alloc);
    let (jobs, last) = jobs_of(rt, alloc);
    let wanted = u64::from(CALLERS).saturating_mul(u64::from(REQUESTS));
    let (counts, handed) = thread::join(
        rt,
        || thread::map_vec(rt, jobs, &|job| answered(rt, alloc, job, &wire)),
        || delivered(rt, alloc, last, &wire, wanted),
    );
    (sum(&counts.expect(rt, "memory")), handed)
}

#[test]
fn each_of_four_callers_gets_its_own(rt: HostRuntime) {
    check(
        &rt,
        "4,000 responses",
        served(&rt, rt.alloc()) == (4000, 4000),
    );
}
