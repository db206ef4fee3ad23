//! Random calls, played on caches and on the plain list beside them.

use crate::entries::keys_of;
use dns_cache::CacheKey;
use dns_multiplexer::{Draws, RandDraws};
use dns_record::NoMemory;
use std::alloc::Global;

/// So many calls are played on one set of caches at most.
const MOST_CALLS: u32 = 600;

/// So many keys there are.
const KEYS: u16 = 7;

/// A capacity is below this: so there are caches that keep nothing, and some that keep all but one key.
const CAPACITIES: u16 = 7;

/// A moment is below this.
const MOMENTS: u16 = 16;

/// What a call is about: a key with its number, a moment, the value where an entry is put in, and a number by which players choose
/// among their calls.
#[derive(Clone, Copy)]
pub(crate) struct Call<'a> {
    pub(crate) key: &'a CacheKey,
    pub(crate) number: usize,
    pub(crate) moment: u64,
    pub(crate) value: u32,
    pub(crate) choice: u16,
}

/// Caches, and the plain list beside them.
pub(crate) trait Players {
    /// Those of a capacity, without entries.
    fn of(alloc: Global, capacity: usize) -> Result<Self, NoMemory>;

    /// Puts an entry of the call into each.
    fn insert(&mut self, alloc: Global, call: Call) -> Result<(), NoMemory>;

    /// Whether all give one answer for the call's key, and have given entries as often.
    fn get_alike(&mut self, alloc: Global, call: Call) -> Result<bool, NoMemory>;
}

// The next call, on one of the keys.
fn next_call<'a>(random: &mut RandDraws, keys: &'a [CacheKey], value: u32) -> Option<Call<'a>> {
    let number = usize::from(random.id() % KEYS);
    let moment = u64::from(random.id() % MOMENTS);
    let choice = random.id();
    let key = keys.get(number)?;
    Some(Call {
        key,
        number,
        moment,
        value,
        choice,
    })
}

// The first of the calls with numbers from one up to another that not all players answer alike.
fn difference_on<P: Players>(
    alloc: Global,
    random: &mut RandDraws,
    players: &mut P,
    keys: &[CacheKey],
    first: u32,
    end: u32,
) -> Result<Option<u32>, NoMemory> {
    for value in first..end {
        let Some(call) = next_call(random, keys, value) else {
            return Ok(Some(value));
        };
        if random.id() % 2 == 0 {
            players.insert(alloc, call)?;
        } else if !players.get_alike(alloc, call)? {
            return Ok(Some(value));
        }
    }
    Ok(None)
}

// The same on new players of one capacity.
fn difference_with<P: Players + Drop>(
    alloc: Global,
    random: &mut RandDraws,
    capacity: usize,
    keys: &[CacheKey],
    first: u32,
    end: u32,
) -> Result<Option<u32>, NoMemory> {
    let mut players = P::of(alloc, capacity)?;
    difference_on(alloc, random, &mut players, keys, first, end)
}

// The first of so many calls that isn't answered alike, by as many players as these take.
fn difference_by<P: Players + Drop>(
    alloc: Global,
    random: &mut RandDraws,
    keys: &[CacheKey],
    count: u32,
) -> Result<Option<u32>, NoMemory> {
    let mut capacity: usize = 0;
    let mut first: u32 = 0;
    for _ in 0..count {
        if first >= count {
            break;
        }
        let end = count.min(first.saturating_add(MOST_CALLS));
        let difference = difference_with::<P>(alloc, random, capacity, keys, first, end)?;
        if difference.is_some() {
            return Ok(difference);
        }
        capacity = usize::from(random.id() % CAPACITIES);
        first = end;
    }
    Ok(None)
}

/// The first of so many calls that the players answer otherwise, counted from 0; none where they answer all alike.
pub(crate) fn first_difference<P: Players + Drop>(
    alloc: Global,
    seed: u64,
    count: u32,
) -> Result<Option<u32>, NoMemory> {
    let keys = keys_of(alloc, u32::from(KEYS))?;
    let mut random = RandDraws::from_seed(seed);
    difference_by::<P>(alloc, &mut random, &keys, count)
}
