//! Requests that seats of a forwarder answer side by side, with a validator each over one shared cache.

use crate::shared_lookups::validator;
use crate::texts::push_line;
use dns_cache::DefaultHasher;
use dns_evidence::Verifier;
use dns_handle::{NetError, Protocol};
use dns_link::FixedClock;
use dns_ports::ListPort;
use dns_record::{NoMemory, Octets};
use dns_recorded::Recorded;
use dns_seats::{OpenGate, Seat, serve};
use dns_shared_cache::{DefaultSharedCache, SharedCache};
use std::alloc::Global;
use std::sync::Wait;
use std::thread::Threads;
use std::time::{Clock, Duration, Instant};

/// A verifier that accepts everything: threads share it.
#[derive(Drop)]
struct Accepting;

impl Verifier for Accepting {
    ghost use Rattle.std.specs.Prelude.{true};

    ghost answers = { λ v. record { supports = λ a. true; accepts = λ a key bytes signature. true } };

    fn supports(&self, _algorithm: u8) -> bool {
        true
    }

    fn accepts(&self, _algorithm: u8, _key: &[u8], _bytes: &[u8], _signature: &[u8]) -> bool {
        true
    }

    fn same(&self, _other: &Accepting) -> bool {
        true
    }
}

/// A query for the root's name servers, with AD.
const REQUEST: &[u8] = b"\0\x07\x01\x20\0\x01\0\0\0\0\0\0\0\0\x02\0\x01";

/// So many requests a seat has in a round.
const ROUND: u32 = 1000;

/// A seat in memory.
type ListSeat<T> = Seat<ListPort, Recorded, Accepting, FixedClock, DefaultHasher, T>;

// A port with the requests of a round.
fn port(alloc: Global) -> Result<ListPort, NoMemory> {
    let mut requests = Vec::new(alloc);
    for _ in 0..ROUND {
        requests.push(Octets::from_slice(alloc, REQUEST)?)?;
    }
    Ok(ListPort::new(requests, Vec::new(alloc)))
}

// A seat with the requests of a round, over a holder of the cache.
fn seat<T: Wait + Copy>(
    alloc: Global,
    cache: &DefaultSharedCache<Accepting, T>,
) -> Result<ListSeat<T>, NetError> {
    Ok(Seat {
        port: port(alloc)?,
        validator: validator(alloc, cache, Accepting)?,
        clock: FixedClock::new(1000),
        protocol: Protocol::Udp,
        depth: 26,
    })
}

// So many seats.
fn seats<T: Wait + Copy>(
    alloc: Global,
    cache: &DefaultSharedCache<Accepting, T>,
    number: u32,
) -> Result<Vec<ListSeat<T>>, NetError> {
    let mut all = Vec::new(alloc);
    for _ in 0..number {
        all.push(seat(alloc, cache)?)?;
    }
    Ok(all)
}

/// What seats did.
#[derive(Clone, Copy)]
struct Done {
    /// How many replies they sent.
    replies: u64,
    /// How long `serve` took. Making seats and requests, and freeing exchanges, aren't part of it.
    nanoseconds: u64,
}

impl Done {
    // This and what was done in a further round.
    fn and(self, next: Done) -> Done {
        Done {
            replies: self.replies.saturating_add(next.replies),
            nanoseconds: self.nanoseconds.saturating_add(next.nanoseconds),
        }
    }
}

const NOTHING: Done = Done {
    replies: 0,
    nanoseconds: 0,
};

// Nanoseconds since a moment; 0 where the clock fails.
fn nanoseconds_since(start: Option<Instant>, clock: &impl Clock) -> u64 {
    let Some(start) = start else {
        return 0;
    };
    let taken = start.elapsed(clock).unwrap_or(Duration::ZERO);
    u64::try_from(taken.as_nanos()).unwrap_or(u64::MAX)
}

// What so many seats do in a round.
fn serve_round<T: Threads + Wait + Copy + Send + Sync>(
    clock: &impl Clock,
    rt: T,
    alloc: Global,
    cache: &DefaultSharedCache<Accepting, T>,
    number: u32,
) -> Result<Done, NetError> {
    let seats = seats(alloc, cache, number)?;
    let start = Instant::now(clock).ok();
    let served = serve(&rt, alloc, seats, ROUND, &OpenGate)?;
    let nanoseconds = nanoseconds_since(start, clock);
    let mut replies: u64 = 0;
    for one in &served {
        let told = one.seat.port.replies().map_or(0, |replies| replies.len());
        replies = replies.saturating_add(told as u64);
    }
    Ok(Done {
        replies,
        nanoseconds,
    })
}

// The same in so many rounds, behind one that fills the cache.
fn serve_rounds<T: Threads + Wait + Copy + Send + Sync>(
    clock: &impl Clock,
    rt: T,
    alloc: Global,
    rounds: u32,
    number: u32,
) -> Result<Done, NetError> {
    let cache = SharedCache::new(rt, alloc, 1_000, Accepting)?;
    serve_round(clock, rt, alloc, &cache, number)?;
    let mut done = NOTHING;
    for _ in 0..rounds {
        done = done.and(serve_round(clock, rt, alloc, &cache, number)?);
    }
    Ok(done)
}

/// How many replies so many seats over one cache send in so many rounds, in each of which a thousand requests come to each. Behind the text
/// it puts a line with the nanoseconds that `serve` took in these rounds.
pub(crate) fn served<T: Threads + Wait + Copy + Send + Sync>(
    clock: &impl Clock,
    rt: T,
    alloc: Global,
    rounds: u32,
    number: u32,
    text: &mut Vec<u8>,
) -> Result<u64, NoMemory> {
    let done = serve_rounds(clock, rt, alloc, rounds, number).unwrap_or(NOTHING);
    push_line(text, b"nanoseconds ", done.nanoseconds)?;
    Ok(done.replies)
}
