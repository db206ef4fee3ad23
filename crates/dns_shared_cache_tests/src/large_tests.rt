//! Much is kept and copied.
use crate::given::{Lists, verifier_of};
use crate::numbered::{entry, long_key};
use crate::rows::check_held;
use dns_cache::{AcceptedBy, CacheKey, ValidationCache};
use dns_evidence::Listed;
use dns_shared_cache::{SharedCache, Shelf};
use std::alloc::Global;
use std::hash::{BuildHasherDefault, FoldHasher};
use std::process::Abort;
use std::sync::Wait;

const MANY: u32 = 70_000;

fn is_kept(rt: &impl Abort, alloc: Global, key: &CacheKey) -> bool {
    let verifier = verifier_of(rt, alloc, Lists::Nothing);
    let hasher: BuildHasherDefault<FoldHasher> = BuildHasherDefault::new();
    let made = Shelf::with_hasher(alloc, usize::MAX, verifier, hasher);
    let mut shelf = made.expect(rt, "memory");
    let copy = key.try_clone().expect(rt, "memory");
    shelf.insert(alloc, entry(copy, 9, 5)).expect(rt, "memory");
    let given = shelf.get(alloc, key, 0).expect(rt, "memory");
    let asker = verifier_of(rt, alloc, Lists::Nothing);
    let with = shelf.get_for(alloc, key, 0, &asker).expect(rt, "memory");
    given.is_some() && with.is_some()
}

fn is_shared<R: Wait + Abort + Copy>(rt: R, alloc: Global, key: &CacheKey) -> bool {
    let verifier = verifier_of(&rt, alloc, Lists::Nothing);
    let hasher: BuildHasherDefault<FoldHasher> = BuildHasherDefault::new();
    let made = SharedCache::with_hasher(rt, alloc, usize::MAX, verifier, hasher);
    let mut cache = made.expect(&rt, "memory");
    let mut other = cache.share().expect(&rt, "memory");
    let copy = key.try_clone().expect(&rt, "memory");
    cache.insert(alloc, entry(copy, 9, 5)).expect(&rt, "memory");
    let asker = verifier_of(&rt, alloc, Lists::Nothing);
    let given = other.get_for(alloc, key, 0, &asker).expect(&rt, "memory");
    given.is_some() && other.hits() == 1
}

#[test]
fn a_set_of_70_000_records_stands_on_a_shelf(rt: HostRuntime) {
    let key = long_key(&rt, rt.alloc(), 1, MANY);
    check_held(&rt, "on a shelf", is_kept(&rt, rt.alloc(), &key));
}

#[test]
fn a_set_of_70_000_records_is_shared(rt: HostRuntime) {
    let key = long_key(&rt, rt.alloc(), 1, MANY);
    check_held(&rt, "in a shared cache", is_shared(rt, rt.alloc(), &key));
}
