//! Seats that are served, and what is told of them.
ghost use Rattle.std.specs.Prelude.{◌≡◌, ◌≤◌, ◌<◌, ◌∷◌, [], All, map, IfOk, Some, length, vec_len};
ghost use Rattle.dns_forward_run.specs.Retired.{AreBack, AreNew, met_by, with_ports};
ghost use Rattle.dns_forward_run.specs.Judging.{Judging, TellsAnswered};
ghost use Rattle.dns_forward_run.specs.Settings.{AreSilent, JudgeAlike, carried_by, seats_carried, seats_judging, seats_met};
ghost use Rattle.dns_forward_run.specs.Steps.{HasLine, WasAnswered, line_by, lines_by, served_carried, served_met};
ghost use Rattle.dns_listener.specs.Listening.{TellsPorts, with_port};

use crate::lines::{SeatLine, line_of, with_line};
use dns_cache::AcceptedBy;
use dns_evidence::Verifier;
use dns_handle::DnsHandle;
use dns_link::Clock;
use dns_listener::Listener;
use dns_ports::Port;
use dns_record::NoMemory;
use dns_seats::{OpenGate, Seat, Served, serve};
use std::alloc::Global;
use std::hash::BuildHasher;
use std::sync::Wait;
use std::thread::Threads;

/// Serves seats whose ports weren't used before, side by side, each so many requests at the most.
pub(crate) fn serve_all<P, H, V, K, S, T, R>(
    rt: &R,
    alloc: Global,
    seats: Vec<Seat<P, H, V, K, S, T>>,
    count: u32,
) -> Result<Vec<Served<P, H, V, K, S, T>>, NoMemory>
where
    P: Port + Drop + Send,
    H: DnsHandle + Drop + Send,
    V: Verifier + Drop + Send + Sync,
    K: Clock + Drop + Send,
    S: BuildHasher + Drop + Send + Sync,
    S::Hasher: Send + Sync,
    T: Wait + Copy + Send + Sync,
    R: Threads + Sync,
    requires bound { count ≤ 1000 }
    requires unused { AreNew (seats_met P.Port seats.items) }
    requires silent { AreSilent (seats_carried P.Port seats.items) }
    ensures len { IfOk result (λ v. vec_len v ≡ vec_len seats) }
    ensures each { IfOk result (λ v. All (HasLine P.Port count) v.items) }
    ensures answered { IfOk result (λ v. (by : Judging) → JudgeAlike by (seats_judging seats.items)
        → All (WasAnswered P.Port by) v.items) }
{
    let served = serve(rt, alloc, seats, count, &OpenGate)?;
    Ok(served)
}

/// Gives the port of a seat that was served back. The line of the seat, if it has one, and its handle.
pub(crate) fn retire_seat<N, H, V, K, S, T>(
    served: Served<N::Port, H, V, K, S, T>,
    listen: &mut N,
) -> (Option<SeatLine>, H)
where
    N: Listener,
    H: DnsHandle + Drop,
    V: Verifier + Drop,
    K: Clock + Drop,
    S: BuildHasher + Drop,
    T: Wait + Copy,
    ensures line { result.0 ≡ line_by served }
    ensures back { N.counts listen.new ≡ with_port (N.counts listen.old) (met_by N.Port.Port served.seat.port) }
    ensures told { TellsPorts (N.told listen.old) (carried_by N.Port.Port served.seat.port ∷ []) (N.told listen.new) }
{
    let Served {
        seat,
        exchanges,
        ended,
    } = served;
    let Seat {
        port,
        validator,
        clock: _,
        protocol: _,
        depth: _,
    } = seat;
    listen.retire(port);
    (line_of(exchanges.len(), ended), validator.into_inner())
}

/// Gives the ports of seats that were served back, in order. Their lines, unless one has none.
#[tactic(auto, using(crate::proofs::JudgedLemmas::tells_none))]
fn retire_seats<N, H, V, K, S, T>(
    alloc: Global,
    served: Vec<Served<N::Port, H, V, K, S, T>>,
    listen: &mut N,
) -> Result<Vec<SeatLine>, NoMemory>
where
    N: Listener,
    H: DnsHandle + Drop,
    V: Verifier + Drop,
    K: Clock + Drop,
    S: BuildHasher + Drop,
    T: Wait + Copy,
    ensures lines { IfOk result (λ lines. map Some lines.items ≡ lines_by served.items) }
    ensures back { N.counts listen.new ≡ with_ports (N.counts listen.old) (served_met N.Port.Port served.items) }
    ensures told { TellsPorts (N.told listen.old) (served_carried N.Port.Port served.items) (N.told listen.new) }
{
    let mut lines = Ok(Vec::new(alloc));
    for one in served {
        let (line, _) = retire_seat(one, listen);
        lines = with_line(lines, line);
    }
    lines
}

/// Serves seats whose ports weren't used before, side by side, each so many requests at the most, and gives their ports back. Their
/// lines, in order; the only error is that memory ran out, also for one of them.
pub(crate) fn serve_and_retire<N, H, V, K, S, T, R>(
    rt: &R,
    alloc: Global,
    seats: Vec<Seat<N::Port, H, V, K, S, T>>,
    count: u32,
    listen: &mut N,
) -> Result<Vec<SeatLine>, NoMemory>
where
    N: Listener,
    N::Port: Send,
    H: DnsHandle + Drop + Send,
    V: Verifier + Drop + Send + Sync,
    K: Clock + Drop + Send,
    S: BuildHasher + Drop + Send + Sync,
    S::Hasher: Send + Sync,
    T: Wait + Copy + Send + Sync,
    R: Threads + Sync,
    requires bound { count ≤ 1000 }
    requires some { 0 < length seats.items }
    requires unused { AreNew (seats_met N.Port.Port seats.items) }
    requires silent { AreSilent (seats_carried N.Port.Port seats.items) }
    ensures len { IfOk result (λ lines. length lines.items ≡ length seats.items) }
    ensures back { IfOk result (λ lines. AreBack count lines.items (N.counts listen.old) (N.counts listen.new)) }
    ensures answered { IfOk result (λ lines. (by : Judging) → JudgeAlike by (seats_judging seats.items)
        → TellsAnswered by (N.told listen.old) (N.told listen.new)) }
{
    let served = serve_all(rt, alloc, seats, count)?;
    let lines = retire_seats(alloc, served, listen)?;
    Ok(lines)
}
