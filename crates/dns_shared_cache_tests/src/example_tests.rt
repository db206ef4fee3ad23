//! The example that stands with the first holder of a shared cache, word for word.
use crate::given::{Lists, Offer, entry_of, verifier_of};
use crate::rows::check_held;
use dns_cache::{Entry, ValidationCache};
use dns_evidence::Listed;
use dns_record::NoMemory;
use dns_shared_cache::SharedCache;
use std::alloc::Global;
use std::process::Abort;
use std::sync::Wait;

fn is_seen_by_another<T: Wait + Copy>(
    rt: T,
    alloc: Global,
    verifier: Listed,
    entry: Entry,
    now: u64,
) -> Result<bool, NoMemory> {
    let key = entry.key.try_clone()?;
    let mut first = SharedCache::new(rt, alloc, 1000, verifier)?;
    let mut other = first.share()?;
    first.insert(alloc, entry)?;
    let given = other.get(alloc, &key, now)?;
    Ok(given.is_some())
}

/// Whether what is Secure up to 2000 is seen at a moment.
fn is_seen_at<R: Wait + Abort + Copy>(rt: R, alloc: Global, now: u64) -> bool {
    let verifier = verifier_of(&rt, alloc, Lists::Servers);
    let entry = entry_of(&rt, alloc, Offer::Secure, 2000);
    is_seen_by_another(rt, alloc, verifier, entry, now).expect(&rt, "memory")
}

#[test]
fn the_example_of_a_shared_cache_shows_an_entry_to_both(rt: HostRuntime) {
    check_held(&rt, "at 1000", is_seen_at(rt, rt.alloc(), 1000));
    check_held(&rt, "at 2000", !is_seen_at(rt, rt.alloc(), 2000));
}
