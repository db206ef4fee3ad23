//! Requests from their send to their end, many times: by a multiplexer alone, and through tokens.

use crate::caller::Caller;
use crate::counts::sum;
use crate::few_ids::FewIds;
use crate::machine::{Machine, Timed};
use crate::measured::multiplexer;
use crate::plain_mux::{Answer, Event, MAXIMUM};
use crate::wire::TRIES;
use dns_multiplexer::DnsMultiplexer;
use dns_record::NoMemory;
use std::alloc::Global;
use std::sync::Wait;
use std::thread;
use std::thread::Threads;
use std::time::Clock;

// Draws of all ids.
fn draws() -> FewIds {
    FewIds::from_seed(1, u16::MAX)
}

fn alone(alloc: Global) -> DnsMultiplexer<FewIds> {
    multiplexer(alloc, draws(), MAXIMUM)
}

// Whether a response comes for a request. Another thread may have its message, so it may have to wait.
fn is_answered<M: Machine>(alloc: Global, machine: &mut M, number: u64) -> Result<bool, NoMemory> {
    for _ in 0..TRIES {
        match machine.answer(alloc, Event::Take(number))? {
            Answer::Pending => thread::yield_now(),
            Answer::Response(_) => return Ok(true),
            _ => break,
        }
    }
    Ok(false)
}

// Sends a request, takes a message out and hands a response to it over, takes the own response and ends the request: five calls
// where nobody else calls. Whether the response came.
fn round<M: Machine>(alloc: Global, machine: &mut M) -> Result<bool, NoMemory> {
    let Answer::Sent(number) = machine.answer(alloc, Event::Send(0))? else {
        return Ok(false);
    };
    if let Answer::Popped(id) = machine.answer(alloc, Event::Pop)? {
        let _ = machine.answer(alloc, Event::Arrive(id, 0))?;
    }
    let answered = is_answered(alloc, machine, number)?;
    let _ = machine.answer(alloc, Event::Cancel(number))?;
    Ok(answered)
}

// The same so many times: how often the response came.
fn rounds<M: Machine>(alloc: Global, machine: &mut M, count: u32) -> Result<u64, NoMemory> {
    let mut answered: u64 = 0;
    for _ in 0..count {
        answered = answered.saturating_add(u64::from(round(alloc, machine)?));
    }
    Ok(answered)
}

/// How many of so many requests a multiplexer alone answers.
pub(crate) fn rounds_alone(alloc: Global, count: u32) -> Result<u64, NoMemory> {
    rounds(alloc, &mut alone(alloc), count)
}

// The same by a caller.
fn rounds_by<W: Wait + Copy>(alloc: Global, mut caller: Caller<FewIds, W>, count: u32) -> u64 {
    rounds(alloc, &mut caller, count).unwrap_or(0)
}

// So many callers of one exchange, at least one.
fn callers<W: Wait + Copy>(
    rt: W,
    alloc: Global,
    count: u32,
) -> Result<Vec<Caller<FewIds, W>>, NoMemory> {
    let mut last = Caller::first(rt, alloc, draws(), MAXIMUM)?;
    let mut callers = Vec::new(alloc);
    for _ in 1..count {
        let (one, other) = last.beside()?;
        last = one;
        callers.push(other)?;
    }
    callers.push(last)?;
    Ok(callers)
}

/// How many of so many requests by each of so many threads are answered through tokens of one exchange.
pub(crate) fn rounds_shared<T: Threads + Wait + Copy + Send + Sync>(
    rt: T,
    alloc: Global,
    threads: u32,
    count: u32,
) -> Result<u64, NoMemory> {
    let callers = callers(rt, alloc, threads)?;
    let counts = thread::map_vec(&rt, callers, &|caller| rounds_by(alloc, caller, count))?;
    Ok(sum(&counts))
}

/// How many of so many ticks are done through a token.
pub(crate) fn ticks<W: Wait + Copy>(rt: W, alloc: Global, count: u32) -> Result<u64, NoMemory> {
    let mut caller = Caller::first(rt, alloc, draws(), MAXIMUM)?;
    let mut done: u64 = 0;
    for _ in 0..count {
        let answer = caller.answer(alloc, Event::Tick(0))?;
        done = done.saturating_add(u64::from(answer == Answer::Nothing));
    }
    Ok(done)
}

/// How many of so many requests a multiplexer alone answers, and nanoseconds of the longest call.
pub(crate) fn longest_alone(
    alloc: Global,
    clock: &impl Clock,
    count: u32,
) -> Result<(u64, u64), NoMemory> {
    let mut timed = Timed::new(alone(alloc), clock);
    let answered = rounds(alloc, &mut timed, count)?;
    Ok((answered, timed.longest))
}

/// The same through a token.
pub(crate) fn longest_shared<W: Wait + Copy>(
    rt: W,
    alloc: Global,
    clock: &impl Clock,
    count: u32,
) -> Result<(u64, u64), NoMemory> {
    let caller = Caller::first(rt, alloc, draws(), MAXIMUM)?;
    let mut timed = Timed::new(caller, clock);
    let answered = rounds(alloc, &mut timed, count)?;
    Ok((answered, timed.longest))
}
