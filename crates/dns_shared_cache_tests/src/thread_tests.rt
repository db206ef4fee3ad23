//! Threads over one shared cache: each finds what it put in, and lookups side by side answer alike.
use crate::given::{Lists, anchors_of, ask, validator_over, verifier_of};
use crate::numbered::{entry, key, value_of};
use crate::rows::check_held;
use dns_cache::{DefaultHasher, ValidationCache};
use dns_evidence::Listed;
use dns_model::Proof;
use dns_shared_cache::SharedCache;
use std::alloc::Global;
use std::process::Abort;
use std::sync::Wait;
use std::thread;
use std::thread::Threads;

const THREADS: usize = 4;

const KEYS: u32 = 100;

/// A holder of the one cache, and the number of the first of its keys.
#[derive(Drop)]
struct Job<R: Wait + Copy> {
    holder: SharedCache<Listed, DefaultHasher, R>,
    first: u32,
}

// Puts an entry in for each of a job's keys and gets it then: how often it was that of the key.
fn hits_of<R: Wait + Abort + Copy>(rt: R, alloc: Global, mut job: Job<R>) -> u64 {
    let mut found: u64 = 0;
    for number in 0..KEYS {
        let number = job.first.saturating_add(number);
        let next = entry(key(&rt, alloc, number), 10, number);
        job.holder.insert(alloc, next).expect(&rt, "memory");
        let wanted = key(&rt, alloc, number);
        let given = job.holder.get(alloc, &wanted, 9).expect(&rt, "memory");
        let is_so = given.is_some_and(|entry| entry.key == wanted
            && value_of(&entry) == Some(number));
        found = found.saturating_add(u64::from(is_so));
    }
    if found == job.holder.hits() { found } else { 0 }
}

// A job for each thread, over one cache.
fn jobs_over<R: Wait + Abort + Copy>(rt: R, alloc: Global) -> Vec<Job<R>> {
    let verifier = verifier_of(&rt, alloc, Lists::Nothing);
    let cache = SharedCache::new(rt, alloc, 400, verifier).expect(&rt, "memory");
    let mut jobs = Vec::new(alloc);
    for number in 0..THREADS {
        let holder = cache.share().expect(&rt, "memory");
        let first = (number as u32).saturating_mul(KEYS);
        jobs.push(Job { holder, first }).expect(&rt, "memory");
    }
    jobs
}

fn hits_of_all<R: Threads + Wait + Abort + Copy + Send + Sync>(rt: R, alloc: Global) -> u64 {
    let jobs = jobs_over(rt, alloc);
    let hits = thread::map_vec(&rt, jobs, &|job| hits_of(rt, alloc, job)).expect(&rt, "memory");
    let mut all: u64 = 0;
    for found in &hits {
        all = all.saturating_add(*found);
    }
    all
}

#[test]
fn each_of_four_threads_finds_what_it_put_in(rt: HostRuntime) {
    check_held(&rt, "400 hits", hits_of_all(rt, rt.alloc()) == 400);
}

// Whether a lookup by a holder finds the root's name servers Secure.
fn is_secure<R: Wait + Abort + Copy>(
    rt: R,
    alloc: Global,
    holder: SharedCache<Listed, DefaultHasher, R>,
) -> bool {
    let anchors = anchors_of(&rt, alloc, true);
    let verifier = verifier_of(&rt, alloc, Lists::Servers);
    let mut validator = validator_over(&rt, alloc, anchors, verifier, holder);
    let response = ask(&rt, alloc, &mut validator, 1000);
    matches!(response.message.answers.first(), Some(record) if record.proof == Proof::Secure)
}

fn are_secure<R: Threads + Wait + Abort + Copy + Send + Sync>(rt: R, alloc: Global) -> bool {
    let verifier = verifier_of(&rt, alloc, Lists::Servers);
    let one = SharedCache::new(rt, alloc, 100, verifier).expect(&rt, "memory");
    let other = one.share().expect(&rt, "memory");
    let (first, second) = thread::join(
        &rt,
        move || is_secure(rt, alloc, one),
        move || is_secure(rt, alloc, other),
    );
    first && second
}

#[test]
fn lookups_side_by_side_are_secure(rt: HostRuntime) {
    check_held(&rt, "both", are_secure(rt, rt.alloc()));
}
