//! Callers in threads of their own over one exchange, each of which keeps what it did.

use crate::caller::Caller;
use crate::history::{Log, Step, is_history, responses};
use crate::machine::Machine;
use crate::plain_mux::{Answer, Event, MAXIMUM, Plain};
use crate::wire::{TRIES, Wire};
use dns_multiplexer::{Draws, ListDraws, RandDraws};
use dns_record::NoMemory;
use std::alloc::Global;
use std::sync::Wait;
use std::thread;
use std::thread::Threads;

/// So many callers ask.
const CALLERS: u16 = 4;

/// So many requests each of them makes.
const REQUESTS: u16 = 1_000;

/// How many requests all callers make.
const ALL_REQUESTS: u32 = 4_000;

/// A caller, with what it did.
#[derive(Drop)]
struct Player<D: Draws + Drop, W: Wait + Copy> {
    caller: Caller<D, W>,
    steps: Vec<Step>,
}

impl<D: Draws + Drop, W: Wait + Copy> Machine for Player<D, W> {
    fn answer(&mut self, alloc: Global, event: Event) -> Result<Answer, NoMemory> {
        let answer = self.caller.answer(alloc, event)?;
        self.steps.push(Step { event, answer })?;
        Ok(answer)
    }
}

// The ids from 0 on, each once.
fn ids(alloc: Global) -> Result<ListDraws, NoMemory> {
    let mut ids = Vec::new(alloc);
    for id in 0..CALLERS.saturating_mul(REQUESTS) {
        ids.push(id)?;
    }
    Ok(ListDraws::new(ids, Vec::new(alloc)))
}

// Takes what comes for a request. It asks again once more was handed over.
fn wait<M: Machine>(
    alloc: Global,
    player: &mut M,
    wire: &Wire,
    number: u64,
) -> Result<(), NoMemory> {
    let mut seen = wire.handed();
    for _ in 0..ALL_REQUESTS {
        if player.answer(alloc, Event::Take(number))? != Answer::Pending {
            break;
        }
        seen = wire.more_than(seen);
    }
    Ok(())
}

// Sends a request, lets a message go out, its own or another's, and waits.
fn ask<M: Machine, W: Wait>(
    rt: &W,
    alloc: Global,
    player: &mut M,
    wire: &Wire,
) -> Result<(), NoMemory> {
    let Answer::Sent(number) = player.answer(alloc, Event::Send(0))? else {
        return Ok(());
    };
    if let Answer::Popped(id) = player.answer(alloc, Event::Pop)? {
        wire.put(rt, id)?;
    }
    wait(alloc, player, wire, number)?;
    let _ = player.answer(alloc, Event::Cancel(number))?;
    Ok(())
}

// What a caller did that made all its requests.
fn asked<D: Draws + Drop, W: Wait + Copy>(
    rt: &W,
    alloc: Global,
    mut player: Player<D, W>,
    wire: &Wire,
) -> Result<Log, NoMemory> {
    for _ in 0..REQUESTS {
        ask(rt, alloc, &mut player, wire)?;
    }
    let Player { caller: _, steps } = player;
    Ok(Log::new(steps))
}

// Hands a response to a message on its way over, if there is one. Whether there was.
fn hand_over<M: Machine, W: Wait>(
    rt: &W,
    alloc: Global,
    player: &mut M,
    wire: &Wire,
    random: &mut RandDraws,
) -> Result<bool, NoMemory> {
    let Some(id) = wire.take(rt, random) else {
        return Ok(false);
    };
    let _ = player.answer(alloc, Event::Arrive(id, (id % 16) as u8))?;
    Ok(true)
}

// What a caller did that handed over a response to each request.
fn answered<D: Draws + Drop, W: Wait + Copy>(
    rt: &W,
    alloc: Global,
    mut player: Player<D, W>,
    wire: &Wire,
    seed: u64,
) -> Result<Log, NoMemory> {
    let mut random = RandDraws::from_seed(seed);
    let mut count: u64 = 0;
    for _ in 0..TRIES {
        if count >= u64::from(ALL_REQUESTS) {
            break;
        }
        if hand_over(rt, alloc, &mut player, wire, &mut random)? {
            count = count.saturating_add(1);
            wire.tell(count);
        } else {
            thread::yield_now();
        }
    }
    let Player { caller: _, steps } = player;
    Ok(Log::new(steps))
}

/// Callers of one exchange, and one more.
type Players<W> = (Vec<Player<ListDraws, W>>, Player<ListDraws, W>);

// Callers that did nothing yet.
fn players<W: Wait + Copy>(rt: W, alloc: Global) -> Result<Players<W>, NoMemory> {
    let mut last = Caller::first(rt, alloc, ids(alloc)?, MAXIMUM)?;
    let mut players = Vec::new(alloc);
    for _ in 0..CALLERS {
        let (one, caller) = last.beside()?;
        last = one;
        players.push(Player {
            caller,
            steps: Vec::new(alloc),
        })?;
    }
    let last = Player {
        caller: last,
        steps: Vec::new(alloc),
    };
    Ok((players, last))
}

// What all callers did, the one who hands responses over last.
fn logs_of(
    asked: Vec<Result<Log, NoMemory>>,
    answered: Result<Log, NoMemory>,
) -> Result<Vec<Log>, NoMemory> {
    let mut logs = Vec::new(*asked.allocator());
    for log in asked {
        logs.push(log?)?;
    }
    logs.push(answered?)?;
    Ok(logs)
}

// What callers did beside each other.
fn played<T: Threads + Wait + Copy + Send + Sync>(
    rt: T,
    alloc: Global,
    seed: u64,
) -> Result<Vec<Log>, NoMemory> {
    let wire = Wire::new(alloc);
    let (players, last) = players(rt, alloc)?;
    let (asked, answered) = thread::join(
        &rt,
        || thread::map_vec(&rt, players, &|player| asked(&rt, alloc, player, &wire)),
        || answered(&rt, alloc, last, &wire, seed),
    );
    logs_of(asked?, answered)
}

/// Four callers with a thousand requests each, and one who hands responses over, act side by side: how many responses the four were given,
/// if what all did is one history, and else none.
pub(crate) fn responses_alike<T: Threads + Wait + Copy + Send + Sync>(
    rt: T,
    alloc: Global,
    seed: u64,
) -> Result<u64, NoMemory> {
    let mut logs = played(rt, alloc, seed)?;
    let mut plain = Plain::new(alloc, ids(alloc)?);
    let alike = is_history(&mut plain, &mut logs)?;
    Ok(if alike { responses(&logs) } else { 0 })
}
