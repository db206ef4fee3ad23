//! Calls of a shelf, one after the other: it is the list of a cache.
use crate::given::{Lists, verifier_of};
use crate::numbered::{entry, key, value_of};
use crate::rows::check_held;
use dns_cache::CacheKey;
use dns_evidence::Listed;
use dns_shared_cache::Shelf;
use std::alloc::Global;
use std::process::Abort;

/// A call, and what it has to answer.
enum Step {
    /// The entry of a key is put in, with when it expires and what tells it from others.
    Puts(u32, u64, u32),
    /// The entry of a key is looked for at a moment: that one, or there is none.
    Gets(u32, u64, Option<u32>),
}

use Step::{Gets, Puts};

/// What it shows, the capacity of a shelf, its calls, and how often it was hit then.
struct Script(&'static str, usize, &'static [Step], u64);

#[rattlefmt::skip]
const SCRIPTS: &[Script] = &[
    Script("the least recently used of two falls off", 2, &[
        Puts(1, 9, 11), Puts(2, 9, 12), Gets(1, 0, Some(11)), Puts(3, 9, 13), Gets(2, 0, None), Gets(3, 0, Some(13)), Gets(1, 0, Some(11)),
    ], 3),
    Script("an entry isn't given at the moment at which it expires, and stays", 2, &[
        Puts(1, 10, 11), Gets(1, 10, None), Gets(1, 9, Some(11)),
    ], 1),
    Script("one that isn't given doesn't move", 2, &[
        Puts(1, 10, 11), Puts(2, 10, 12), Gets(1, 10, None), Puts(3, 10, 13), Gets(1, 0, None), Gets(2, 0, Some(12)),
    ], 1),
    Script("capacity 0 keeps nothing", 0, &[Puts(1, 10, 11), Gets(1, 0, None)], 0),
    Script("of two results of one key the later one stays", 2, &[
        Puts(1, 10, 11), Puts(2, 10, 12), Puts(1, 10, 13), Gets(1, 0, Some(13)), Gets(2, 0, Some(12)),
    ], 2),
];

fn scripts() -> &'static [Script] {
    SCRIPTS
}

// The entry of a key is the one that is wanted, or there is none, by a plain get or by one for the shelf's own verifier.
fn gives(
    rt: &impl Abort,
    alloc: Global,
    shelf: &mut Shelf<Listed>,
    key: &CacheKey,
    now: u64,
    wanted: Option<u32>,
    is_for: bool,
) -> bool {
    let given = if is_for {
        let verifier = verifier_of(rt, alloc, Lists::Servers);
        let given = shelf
            .get_for(alloc, key, now, &verifier)
            .expect(rt, "memory");
        given.map(|pair| pair.0)
    } else {
        shelf.get(alloc, key, now).expect(rt, "memory")
    };
    match given {
        Some(entry) => wanted.is_some() && value_of(&entry) == wanted && entry.key == *key,
        None => wanted.is_none(),
    }
}

fn is_done(
    rt: &impl Abort,
    alloc: Global,
    shelf: &mut Shelf<Listed>,
    step: &Step,
    is_for: bool,
) -> bool {
    match step {
        Puts(number, expires, value) => {
            let next = entry(key(rt, alloc, *number), *expires, *value);
            shelf.insert(alloc, next).expect(rt, "memory");
            true
        }
        Gets(number, now, wanted) => {
            let key = key(rt, alloc, *number);
            gives(rt, alloc, shelf, &key, *now, *wanted, is_for)
        }
    }
}

fn are_done(rt: &impl Abort, alloc: Global, script: &Script, is_for: bool) -> bool {
    let verifier = verifier_of(rt, alloc, Lists::Servers);
    let mut shelf = Shelf::new(alloc, script.1, verifier).expect(rt, "memory");
    let mut all = true;
    for step in script.2 {
        all = is_done(rt, alloc, &mut shelf, step, is_for) && all;
    }
    all && shelf.hits() == script.3
}

#[test]
fn a_shelf_is_a_list_by_use(rt: HostRuntime) {
    for script in scripts() {
        check_held(&rt, script.0, are_done(&rt, rt.alloc(), script, false));
        check_held(&rt, script.0, are_done(&rt, rt.alloc(), script, true));
    }
}
