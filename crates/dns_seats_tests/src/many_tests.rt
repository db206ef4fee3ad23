//! Many requests, to several seats over one cache.
use crate::given::{ListSeat, cache, is_served, port, seat_at};
use crate::rows::check_held;
use dns_seats::{Ended, OpenGate, serve};
use std::alloc::Global;
use std::process::Abort;
use std::sync::Wait;
use std::thread::Threads;

/// How many requests each seat is served.
const MANY: usize = 1000;

fn four<R: Wait + Abort + Copy>(rt: R, alloc: Global) -> Vec<ListSeat<R>> {
    let cache = cache(rt, alloc);
    let mut seats = Vec::new(alloc);
    for _ in 0..4u32 {
        let given = port(&rt, alloc, MANY, &[]);
        let seat = seat_at(rt, alloc, &cache, given, 1000);
        seats.push(seat).expect(&rt, "memory");
    }
    seats
}

fn are_served<R: Threads + Wait + Abort + Copy + Send + Sync>(rt: R, alloc: Global) -> bool {
    let served = serve(&rt, alloc, four(rt, alloc), 1000, &OpenGate).expect(&rt, "memory");
    let mut all = served.len() == 4;
    for seat in &served {
        all = is_served(&rt, seat, Ended::Count, MANY, 0) && all;
    }
    all
}

#[test]
fn four_seats_over_one_cache_answer_a_thousand_requests_each(rt: HostRuntime) {
    check_held(&rt, "4,000 replies", are_served(rt, rt.alloc()));
}
