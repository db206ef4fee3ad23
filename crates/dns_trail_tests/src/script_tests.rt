//! Calls of a cache, one after the other, on both caches.

use crate::parts::{check_row, key, put, value_of};
use dns_cache::{
    Acceptance, AcceptedBy, CacheKey, Entry, ListCache, LruValidationCache, ValidationCache,
};
use dns_evidence::Listed;
use std::alloc::Global;
use std::process::Abort;

/// A call, and what it has to answer.
enum Step {
    /// The entry of a key is put in, with when it expires and what tells it from others.
    Puts(u8, u64, u32),
    /// The entry of a key is looked for at a moment: that one, or there is none.
    Gets(u8, u64, Option<u32>),
}

use Step::{Gets, Puts};

/// What it shows, the capacity of a cache, its calls, and how often it was hit then.
struct Script(&'static str, usize, &'static [Step], u64);

#[rattlefmt::skip]
const SCRIPTS: &[Script] = &[
    Script("the least recently used of two falls off", 2, &[
        Puts(1, 9, 11), Puts(2, 9, 12), Gets(1, 0, Some(11)), Puts(3, 9, 13), Gets(2, 0, None),
        Puts(4, 9, 14), Gets(1, 0, None), Gets(3, 0, Some(13)), Gets(4, 0, Some(14)),
    ], 3),
    Script("an entry isn't given at the moment at which it expires, and stays", 2, &[
        Puts(1, 10, 11), Gets(1, 10, None), Gets(1, 9, Some(11)),
    ], 1),
    Script("one that isn't given doesn't move", 2, &[
        Puts(1, 10, 11), Puts(2, 10, 12), Gets(1, 10, None), Puts(3, 10, 13), Gets(1, 0, None), Gets(2, 0, Some(12)),
    ], 1),
    Script("capacity 0 keeps nothing", 0, &[Puts(1, 10, 11), Gets(1, 0, None)], 0),
    Script("of two results of one key the later one stays", 2, &[
        Puts(1, 10, 11), Puts(2, 10, 12), Puts(1, 10, 13), Gets(1, 0, Some(13)), Gets(2, 0, Some(12)),
    ], 2),
];

/// The value of an entry that is given, which goes.
fn value_in(given: Option<Entry>) -> Option<u32> {
    value_of(&given?)
}

/// The same of one that nobody's acceptance is known of.
fn unknown_value_in(given: Option<(Entry, Acceptance)>) -> Option<u32> {
    match &given {
        Some((entry, Acceptance::Unknown)) => value_of(entry),
        _ => None,
    }
}

/// What a cache gives for a key: by `get`, or by `get_for` for a verifier.
fn given<C: AcceptedBy<Listed>>(
    rt: &impl Abort,
    alloc: Global,
    cache: &mut C,
    key: &CacheKey,
    now: u64,
    verifier: Option<&Listed>,
) -> Option<u32> {
    match verifier {
        None => value_in(cache.get(alloc, key, now).expect(rt, "memory")),
        Some(verifier) => {
            let given = cache.get_for(alloc, key, now, verifier);
            unknown_value_in(given.expect(rt, "memory"))
        }
    }
}

/// What it gives for a key is what is wanted.
fn gets<C: AcceptedBy<Listed>>(
    rt: &impl Abort,
    alloc: Global,
    cache: &mut C,
    number: u8,
    now: u64,
    verifier: Option<&Listed>,
    want: Option<u32>,
) -> bool {
    let key = key(rt, alloc, number, 0);
    let given = given(rt, alloc, cache, &key, now, verifier);
    given == want
}

/// The step is answered so.
fn plays<C: AcceptedBy<Listed>>(
    rt: &impl Abort,
    alloc: Global,
    cache: &mut C,
    step: &Step,
    verifier: Option<&Listed>,
) -> bool {
    match step {
        Puts(number, expires, value) => {
            let key = key(rt, alloc, *number, 0);
            put(rt, alloc, cache, key, *expires, *value);
            true
        }
        Gets(number, now, want) => gets(rt, alloc, cache, *number, *now, verifier, *want),
    }
}

/// Each step is.
fn all_played<C: AcceptedBy<Listed>>(
    rt: &impl Abort,
    alloc: Global,
    cache: &mut C,
    steps: &[Step],
    verifier: Option<&Listed>,
) -> bool {
    for step in steps {
        if !plays(rt, alloc, cache, step, verifier) {
            return false;
        }
    }
    true
}

fn list_plays(rt: &impl Abort, alloc: Global, script: &Script, verifier: Option<&Listed>) -> bool {
    let mut cache = ListCache::new(alloc, script.1);
    let played = all_played(rt, alloc, &mut cache, script.2, verifier);
    let is_hit = cache.hits() == script.3;
    played && is_hit
}

fn lru_plays(rt: &impl Abort, alloc: Global, script: &Script, verifier: Option<&Listed>) -> bool {
    let mut cache = LruValidationCache::new(alloc, script.1).expect(rt, "memory");
    let played = all_played(rt, alloc, &mut cache, script.2, verifier);
    let is_hit = cache.hits() == script.3;
    played && is_hit
}

/// Both caches play: by `get`, and by `get_for`, for a verifier that accepts nothing.
fn both_play(rt: &impl Abort, alloc: Global, script: &Script) -> bool {
    let verifier = Listed::new(alloc);
    let asker = Some(&verifier);
    let by_get = list_plays(rt, alloc, script, None) && lru_plays(rt, alloc, script, None);
    let by_get_for = list_plays(rt, alloc, script, asker) && lru_plays(rt, alloc, script, asker);
    by_get && by_get_for
}

fn scripts() -> &'static [Script] {
    SCRIPTS
}

#[test]
fn caches_are_lists_by_use_and_know_of_no_acceptance(rt: HostRuntime) {
    for script in scripts() {
        check_row(&rt, script.0, both_play(&rt, rt.alloc(), script));
    }
}
