//! Seats that are served side by side.
ghost use Rattle.std.specs.Prelude.{◌≡◌, ◌≤◌, ◌<◌, ℕ, IfOk, length, map, slice_index_or, vec_len};
ghost use Rattle.dns_seats.specs.Serving.{ErrorsHaveFaults, IsServed};
ghost use Rattle.dns_seats.specs.Turns.{Answered, Comes, Goes, Next};

use crate::gate::Gate;
use crate::seat::{Ended, Seat, Served};
use crate::work::{Work, run_all};
use dns_cache::ValidationCache;
use dns_evidence::Verifier;
use dns_handle::DnsHandle;
use dns_link::Clock;
use dns_ports::{Port, PortFault};
use dns_record::{NoMemory, Octets};
use dns_respond::{Exchanged, respond};
use dns_shared_cache::SharedCache;
use std::alloc::{AllocError, Global};
use std::hash::BuildHasher;
use std::sync::Wait;
use std::thread::Threads;

// The next request of a port, or why there is none.
fn receive<P: Port>(port: &mut P) -> Result<Octets, Ended>
    ensures { Comes P.Port port.old port.new result }
{
    match port.receive() {
        Ok(Some(request)) => Ok(request),
        Ok(None) => Err(Ended::Closed),
        Err(PortFault::Io(kind)) => Err(Ended::Port(kind)),
        Err(PortFault::NoMemory) => Err(Ended::NoMemory),
    }
}

// Sends a reply, where there is one.
fn send<P: Port>(port: &mut P, reply: &Option<Octets>) -> Result<(), Ended>
    ensures { Goes P.Port port.old port.new reply.now result }
{
    match reply {
        None => Ok(()),
        Some(bytes) => match port.reply(bytes.as_slice()) {
            Ok(()) => Ok(()),
            Err(kind) => Err(Ended::Port(kind)),
        },
    }
}

// The next request of a seat, answered, whose reply is still to be sent; or why the seat ends.
#[tactic(auto, using(crate::proofs::SeatLemmas::exchange_of))]
fn answer_next<P, H, V, K, S, T>(
    alloc: Global,
    seat: &mut Seat<P, H, V, K, S, T>,
) -> Result<Exchanged, Ended>
where
    P: Port + Drop,
    H: DnsHandle + Drop,
    V: Verifier + Drop,
    K: Clock + Drop,
    S: BuildHasher + Drop,
    T: Wait + Copy,
    ensures { Answered P.Port H.DnsHandle V.Verifier ⟦<SharedCache<V, S, T> as ValidationCache>⟧ seat.old seat.new result }
{
    let request = receive(&mut seat.port)?;
    let now = seat.clock.now();
    let (protocol, depth) = (seat.protocol, seat.depth);
    let validator = &mut seat.validator;
    match respond(alloc, validator, request.as_slice(), protocol, depth, now) {
        Ok(exchange) => Ok(exchange),
        Err(NoMemory) => Err(Ended::NoMemory),
    }
}

/// Which request of which seat it is, both numbers from 0.
#[derive(Clone, Copy)]
struct Turn {
    seat: u32,
    number: u32,
}

// One exchange more of a seat, kept behind the others, also where its reply isn't sent; or why the seat ends.
fn serve_next<P, H, V, K, S, T, G>(
    alloc: Global,
    seat: &mut Seat<P, H, V, K, S, T>,
    exchanges: &mut Vec<Exchanged>,
    turn: Turn,
    gate: &G,
) -> Result<(), Ended>
where
    P: Port + Drop,
    H: DnsHandle + Drop,
    V: Verifier + Drop,
    K: Clock + Drop,
    S: BuildHasher + Drop,
    T: Wait + Copy,
    G: Gate,
    ensures { Next P.Port H.DnsHandle V.Verifier ⟦<SharedCache<V, S, T> as ValidationCache>⟧
        seat.old seat.new exchanges.old.items exchanges.new.items result }
{
    // No reply may go that no exchange tells.
    if exchanges.try_reserve(1).is_err() {
        return Err(Ended::NoMemory);
    }
    gate.pass(turn.seat, turn.number);
    let exchange = answer_next(alloc, seat)?;
    let sent = send(&mut seat.port, &exchange.reply);
    let Ok(()) = exchanges.push(exchange) else {
        unreachable!()
    };
    sent
}

/// A seat with its number.
#[derive(Drop)]
struct Job<
    P: Port + Drop,
    H: DnsHandle + Drop,
    V: Verifier + Drop,
    K: Clock + Drop,
    S: BuildHasher + Drop,
    T: Wait + Copy,
> {
    number: u32,
    seat: Seat<P, H, V, K, S, T>,
}

// Serves a seat: so many requests, unless it ends before.
fn serve_seat<P, H, V, K, S, T, G>(
    alloc: Global,
    job: Job<P, H, V, K, S, T>,
    count: u32,
    gate: &G,
) -> Served<P, H, V, K, S, T>
where
    P: Port + Drop,
    H: DnsHandle + Drop,
    V: Verifier + Drop,
    K: Clock + Drop,
    S: BuildHasher + Drop,
    T: Wait + Copy,
    G: Gate,
    ensures { IsServed P.Port H.DnsHandle V.Verifier ⟦<SharedCache<V, S, T> as ValidationCache>⟧ count job.seat result }
{
    let Job { number, mut seat } = job;
    let mut exchanges = Vec::new(alloc);
    for next in 0..count {
        let turn = Turn {
            seat: number,
            number: next,
        };
        match serve_next(alloc, &mut seat, &mut exchanges, turn, gate) {
            Ok(()) => {}
            Err(ended) => {
                return Served {
                    seat,
                    exchanges,
                    ended,
                };
            }
        }
    }
    Served {
        seat,
        exchanges,
        ended: Ended::Count,
    }
}

impl<P, H, V, K, S, T> Work for Job<P, H, V, K, S, T>
where
    P: Port + Drop,
    H: DnsHandle + Drop,
    V: Verifier + Drop,
    K: Clock + Drop,
    S: BuildHasher + Drop,
    T: Wait + Copy,
{
    type Done = Served<P, H, V, K, S, T>;

    ghost becomes = { λ job count served. IsServed P.Port H.DnsHandle V.Verifier ⟦<SharedCache<V, S, T> as ValidationCache>⟧
        count job.seat served };

    fn run<G: Gate>(self, alloc: Global, count: u32, gate: &G) -> Served<P, H, V, K, S, T> {
        serve_seat(alloc, self, count, gate)
    }
}

// The seats with their numbers.
fn numbered<P, H, V, K, S, T>(
    alloc: Global,
    seats: Vec<Seat<P, H, V, K, S, T>>,
) -> Result<Vec<Job<P, H, V, K, S, T>>, NoMemory>
where
    P: Port + Drop,
    H: DnsHandle + Drop,
    V: Verifier + Drop,
    K: Clock + Drop,
    S: BuildHasher + Drop,
    T: Wait + Copy,
    ensures { IfOk result (λ v. map (λ j. j.seat) v.items ≡ seats.items) }
{
    let mut jobs = Vec::with_capacity(alloc, seats.len())?;
    let mut number = 0u32;
    for seat in seats {
        jobs.push(Job { number, seat })?;
        number = number.saturating_add(1);
    }
    Ok(jobs)
}

// Serves the seats of jobs side by side.
fn serve_jobs<P, H, V, K, S, T, G, R>(
    rt: &R,
    alloc: Global,
    jobs: Vec<Job<P, H, V, K, S, T>>,
    count: u32,
    gate: &G,
) -> Result<Vec<Served<P, H, V, K, S, T>>, AllocError>
where
    P: Port + Drop + Send,
    H: DnsHandle + Drop + Send,
    V: Verifier + Drop + Send + Sync,
    K: Clock + Drop + Send,
    S: BuildHasher + Drop + Send + Sync,
    S::Hasher: Send + Sync,
    T: Wait + Copy + Send + Sync,
    G: Gate + Sync,
    R: Threads + Sync,
    ensures len { IfOk result (λ v. vec_len v ≡ vec_len jobs) }
    ensures each { IfOk result (λ v. (i : ℕ) (j : _) (served : _) → i < length jobs.items
        → IsServed P.Port H.DnsHandle V.Verifier ⟦<SharedCache<V, S, T> as ValidationCache>⟧ count
        (slice_index_or jobs.items i j).seat (slice_index_or v.items i served)) }
{
    let served = run_all(rt, alloc, jobs, count, gate)?;
    Ok(served)
}

/// Serves seats side by side, each so many requests at the most, one after another, and gives them back in their order. Where no thread
/// can be made, seats are served one after another. The clock of a seat is read once for each request that came.
///
/// The only error is that memory ran out before all seats were served; no seat comes back then.
pub fn serve<P, H, V, K, S, T, G, R>(
    rt: &R,
    alloc: Global,
    seats: Vec<Seat<P, H, V, K, S, T>>,
    count: u32,
    gate: &G,
) -> Result<Vec<Served<P, H, V, K, S, T>>, NoMemory>
where
    P: Port + Drop + Send,
    H: DnsHandle + Drop + Send,
    V: Verifier + Drop + Send + Sync,
    K: Clock + Drop + Send,
    S: BuildHasher + Drop + Send + Sync,
    S::Hasher: Send + Sync,
    T: Wait + Copy + Send + Sync,
    G: Gate + Sync,
    R: Threads + Sync,
    requires { count ≤ 1000 }

    // Each seat comes back, in its place.
    ensures len { IfOk result (λ v. vec_len v ≡ vec_len seats) }

    // What came and went at each seat, and why it ended.
    ensures each { IfOk result (λ v. (i : ℕ) (seat : _) (served : _) → i < length seats.items
        → IsServed P.Port H.DnsHandle V.Verifier ⟦<SharedCache<V, S, T> as ValidationCache>⟧ count
        (slice_index_or seats.items i seat) (slice_index_or v.items i served)) }

    // No more exchanges come to an upstream's error than faults were met by the seat's handle.
    ensures errors { IfOk result (λ v. (i : ℕ) (seat : _) (served : _) → i < length seats.items
        → ErrorsHaveFaults H.DnsHandle (slice_index_or seats.items i seat) (slice_index_or v.items i served)) }
{
    let jobs = numbered(alloc, seats)?;
    let served = serve_jobs(rt, alloc, jobs, count, gate)?;
    Ok(served)
}
