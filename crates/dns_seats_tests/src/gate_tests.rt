//! The gate: seats are served side by side, each request passes it, and none does where none is to be served.
use crate::given::{ListSeat, cache, is_served, port, seat_at};
use crate::rows::check_held;
use dns_seats::{Ended, Gate, serve};
use std::alloc::Global;
use std::process::Abort;
use std::sync::Wait;
use std::sync::atomic::{AtomicU64, Ordering};
use std::thread::{self, Threads};

/// So often the gate lets the seat that it holds look anew.
const TURNS: u32 = 1_000_000;

/// Holds the first request of seat 0 until seat 1 comes for its second request, so after it has sent its first reply. It counts how many
/// passed, adds up their seats and their numbers, and tells whether the wait was in vain.
#[derive(Drop)]
struct Holding {
    passed: AtomicU64,
    seats: AtomicU64,
    numbers: AtomicU64,
    freed: AtomicU64,
    vain: AtomicU64,
}

impl Holding {
    fn new() -> Holding {
        Holding {
            passed: AtomicU64::new(0),
            seats: AtomicU64::new(0),
            numbers: AtomicU64::new(0),
            freed: AtomicU64::new(0),
            vain: AtomicU64::new(0),
        }
    }

    // Waits for seat 1.
    fn hold(&self) {
        for _ in 0..TURNS {
            if self.freed.load(Ordering::SeqCst) != 0 {
                return;
            }
            thread::yield_now();
        }
        self.vain.store(1, Ordering::SeqCst);
    }
}

impl Gate for Holding {
    fn pass(&self, seat: u32, number: u32) {
        self.passed.fetch_add(1, Ordering::SeqCst);
        self.seats.fetch_add(u64::from(seat), Ordering::SeqCst);
        self.numbers.fetch_add(u64::from(number), Ordering::SeqCst);
        if seat == 0 && number == 0 {
            self.hold();
        }
        if seat == 1 && number == 1 {
            self.freed.store(1, Ordering::SeqCst);
        }
    }
}

// Two seats, to each of which so many requests come.
fn two<R: Wait + Abort + Copy>(rt: R, alloc: Global, come: usize) -> Vec<ListSeat<R>> {
    let cache = cache(rt, alloc);
    let mut seats = Vec::new(alloc);
    for _ in 0..2u32 {
        let given = port(&rt, alloc, come, &[]);
        let seat = seat_at(rt, alloc, &cache, given, 1000);
        seats.push(seat).expect(&rt, "memory");
    }
    seats
}

// Whether both seats are served so many requests.
fn are_served<R: Threads + Wait + Abort + Copy + Send + Sync>(
    rt: R,
    alloc: Global,
    gate: &Holding,
    count: u32,
) -> bool {
    let served = serve(&rt, alloc, two(rt, alloc, 3), count.min(1000), gate).expect(&rt, "memory");
    let mut all = served.len() == 2;
    for seat in &served {
        all = is_served(&rt, seat, Ended::Count, count as usize, 0) && all;
    }
    all
}

#[test]
fn a_seat_that_waits_holds_no_other_up(rt: HostRuntime) {
    let gate = Holding::new();
    check_held(&rt, "both", are_served(rt, rt.alloc(), &gate, 3));
    check_held(&rt, "held", gate.vain.load(Ordering::SeqCst) == 0);
    check_held(&rt, "each request", gate.passed.load(Ordering::SeqCst) == 6);
    check_held(
        &rt,
        "three of seat 1",
        gate.seats.load(Ordering::SeqCst) == 3,
    );
    check_held(&rt, "up to 2", gate.numbers.load(Ordering::SeqCst) == 6);
}

#[test]
fn nothing_passes_where_no_request_is_to_be_served(rt: HostRuntime) {
    let gate = Holding::new();
    check_held(&rt, "both", are_served(rt, rt.alloc(), &gate, 0));
    check_held(&rt, "none", gate.passed.load(Ordering::SeqCst) == 0);
}
