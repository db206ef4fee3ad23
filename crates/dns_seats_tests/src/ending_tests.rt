//! How seats end: by the count, by a None, at a fault of their port; and that a fault at one changes nothing at the others.
use crate::given::{ListSeat, cache, is_served, port, seat_at};
use crate::rows::check_held;
use dns_handle::IoKind;
use dns_ports::ListPort;
use dns_seats::{Ended, OpenGate, serve};
use std::alloc::Global;
use std::process::Abort;
use std::sync::Wait;
use std::thread::Threads;

/// What is shown, how many requests come, which calls of the port fail, how many are to be served, the end, how many exchanges there are,
/// and how many of their replies weren't sent.
struct Row(
    &'static str,
    usize,
    &'static [u64],
    u32,
    Ended,
    usize,
    usize,
);

#[rattlefmt::skip]
const ROWS: &[Row] = &[
    Row("no request is to be served", 2, &[0], 0, Ended::Count, 0, 0),
    Row("as many as are to be served", 4, &[], 3, Ended::Count, 3, 0),
    Row("as many as come, and no more is waited for", 3, &[6], 3, Ended::Count, 3, 0),
    Row("fewer come", 3, &[], 4, Ended::Closed, 3, 0),
    Row("none comes", 0, &[], 4, Ended::Closed, 0, 0),
    Row("the port fails as it is to give the first", 3, &[0], 3, Ended::Port(IoKind::Other), 0, 0),
    Row("the port fails as it is to take the second reply", 3, &[3], 3, Ended::Port(IoKind::Other), 2, 1),
    Row("the port fails as it is to take the last reply", 3, &[5], 3, Ended::Port(IoKind::Other), 3, 1),
    Row("a request without a reply counts", 8, &[], 7, Ended::Count, 7, 0),
    Row("and takes no call of the port", 8, &[13], 8, Ended::Port(IoKind::Other), 7, 0),
];

fn rows() -> &'static [Row] {
    ROWS
}

// Whether one seat, served, ends as a row says.
fn ends<R: Threads + Wait + Abort + Copy + Send + Sync>(rt: R, alloc: Global, row: &Row) -> bool {
    let cache = cache(rt, alloc);
    let mut seats = Vec::new(alloc);
    let given = port(&rt, alloc, row.1, row.2);
    seats
        .push(seat_at(rt, alloc, &cache, given, 1000))
        .expect(&rt, "memory");
    let count = row.3.min(1000);
    let served = serve(&rt, alloc, seats, count, &OpenGate).expect(&rt, "memory");
    let first = served.first().expect(&rt, "a seat");
    is_served(&rt, first, row.4, row.5, row.6)
}

#[test]
fn a_seat_ends_by_the_count_by_a_none_or_at_a_fault(rt: HostRuntime) {
    for row in rows() {
        check_held(&rt, row.0, ends(rt, rt.alloc(), row));
    }
}

/// How many requests come to each of three seats, with their replies 15 calls of its port.
const COME: usize = 8;

// The port of a seat, which fails at this call where the seat is the one in the middle.
fn port_of(rt: &impl Abort, alloc: Global, number: u32, fails: u64) -> ListPort {
    if number == 1 {
        port(rt, alloc, COME, &[fails])
    } else {
        port(rt, alloc, COME, &[])
    }
}

// Three seats, of which the one in the middle has a port that fails at this call.
fn three<R: Wait + Abort + Copy>(rt: R, alloc: Global, fails: u64) -> Vec<ListSeat<R>> {
    let cache = cache(rt, alloc);
    let mut seats = Vec::new(alloc);
    for number in 0..3u32 {
        let given = port_of(&rt, alloc, number, fails);
        let seat = seat_at(rt, alloc, &cache, given, 1000);
        seats.push(seat).expect(&rt, "memory");
    }
    seats
}

// How the seat in the middle ends whose port fails at this call, from 0: its end, its exchanges, and how many of their replies weren't
// sent. The seventh of each eight requests has no reply.
fn end_at(fails: u64) -> (Ended, usize, usize) {
    let call = fails as usize;
    if call > 15 {
        return (Ended::Closed, 8, 0);
    }
    let fault = Ended::Port(IoKind::Other);
    match call {
        13 => (fault, 7, 0),
        14 => (fault, 8, 1),
        15 => (fault, 8, 0),
        _ if call % 2 == 0 => (fault, call / 2, 0),
        _ => (fault, call / 2 + 1, 1),
    }
}

// Whether a fault at this call ends the seat in the middle, and leaves the others whole.
fn is_alone<R: Threads + Wait + Abort + Copy + Send + Sync>(
    rt: R,
    alloc: Global,
    fails: u64,
) -> bool {
    let seats = three(rt, alloc, fails);
    let served = serve(&rt, alloc, seats, 1000, &OpenGate).expect(&rt, "memory");
    let (ended, exchanges, unsent) = end_at(fails);
    let mut all = served.len() == 3;
    for (number, seat) in served.iter().enumerate() {
        let held = if number == 1 {
            is_served(&rt, seat, ended, exchanges, unsent)
        } else {
            is_served(&rt, seat, Ended::Closed, COME, 0)
        };
        all = held && all;
    }
    all
}

#[test]
fn a_fault_at_one_seat_leaves_the_others_whole(rt: HostRuntime) {
    for fails in 0..20u64 {
        check_held(&rt, "three seats", is_alone(rt, rt.alloc(), fails));
    }
}
