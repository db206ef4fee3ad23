//! Random events, played on a multiplexer or through a token, and on the plain machine beside it.

use crate::caller::Caller;
use crate::few_ids::FewIds;
use crate::machine::Machine;
use crate::measured::multiplexer;
use crate::plain_mux::{Event, MAXIMUM, Plain};
use dns_multiplexer::{Draws, RandDraws};
use dns_record::NoMemory;
use std::alloc::Global;
use std::sync::Wait;

/// So many events are played on one pair of machines at most.
const MOST_EVENTS: u32 = 600;

/// What stands beside the plain machine.
#[derive(Clone, Copy)]
pub(crate) enum Beside {
    /// A multiplexer.
    Multiplexer,
    /// A multiplexer that is called through a token.
    Exchange,
}

/// How the events of a pair ended.
#[derive(Clone, Copy)]
enum Played {
    /// All up to this number were answered alike, and it is the next.
    UpTo(u32),
    /// The event with this number wasn't.
    Different(u32),
}

// The next event. After a close nothing is sent. A number is one of the last requests', or of the one that isn't sent yet, and a moment
// is up to 300 milliseconds later.
fn next_event(random: &mut RandDraws, plain: &Plain<FewIds>) -> Event {
    let number = plain.count().saturating_sub(u64::from(random.id() % 8));
    let moment = plain.now.saturating_add(u64::from(random.id() % 300));
    match random.id() % 200 {
        0..=49 if !plain.is_closed => Event::Send(moment),
        0..=109 => Event::Arrive(random.id() % 4, (random.id() % 16) as u8),
        110..=159 => Event::Take(number),
        160..=163 => Event::Cancel(number),
        164..=173 => Event::Tick(moment),
        174 => Event::Close,
        _ => Event::Pop,
    }
}

// Plays events up to a number on a pair, from another one. A closed one is played on for some events.
fn play_on<M: Machine>(
    alloc: Global,
    random: &mut RandDraws,
    machine: &mut M,
    plain: &mut Plain<FewIds>,
    first: u32,
    end: u32,
) -> Result<Played, NoMemory> {
    for number in first..end {
        let event = next_event(random, plain);
        let real = machine.answer(alloc, event)?;
        if real != plain.answer(event)? {
            return Ok(Played::Different(number));
        }
        if plain.is_closed && random.id() % 20 == 0 {
            return Ok(Played::UpTo(number.saturating_add(1)));
        }
    }
    Ok(Played::UpTo(end))
}

// Draws of ids below four.
fn draws(seed: u64) -> FewIds {
    FewIds::from_seed(seed, 3)
}

// The same on a new pair, both with the same draws of ids.
fn play<W: Wait + Copy>(
    rt: W,
    alloc: Global,
    beside: Beside,
    random: &mut RandDraws,
    seed: u64,
    first: u32,
    end: u32,
) -> Result<Played, NoMemory> {
    let mut plain = Plain::new(alloc, draws(seed));
    if let Beside::Exchange = beside {
        let mut caller = Caller::first(rt, alloc, draws(seed), MAXIMUM)?;
        return play_on(alloc, random, &mut caller, &mut plain, first, end);
    }
    let mut mux = multiplexer(alloc, draws(seed), MAXIMUM);
    play_on(alloc, random, &mut mux, &mut plain, first, end)
}

/// The first of so many events that is answered otherwise, counted from 0, by as many pairs as these take: the first one's draws have the
/// seed. None where all are answered alike.
pub(crate) fn first_difference<W: Wait + Copy>(
    rt: W,
    alloc: Global,
    beside: Beside,
    seed: u64,
    count: u32,
) -> Result<Option<u32>, NoMemory> {
    let mut random = RandDraws::from_seed(seed);
    let mut seed = seed;
    let mut first: u32 = 0;
    for _ in 0..count {
        if first >= count {
            break;
        }
        let end = count.min(first.saturating_add(MOST_EVENTS));
        match play(rt, alloc, beside, &mut random, seed, first, end)? {
            Played::Different(number) => return Ok(Some(number)),
            Played::UpTo(next) => first = next,
        }
        seed = u64::from(random.id());
    }
    Ok(None)
}
