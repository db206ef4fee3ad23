//! Much is kept and copied.

use crate::parts::{check_row, key, put};
use dns_cache::{CacheKey, ListCache, LruValidationCache, ValidationCache};
use std::alloc::Global;
use std::hash::{BuildHasherDefault, FoldHasher};
use std::process::Abort;

const MANY: usize = 70_000;

fn is_kept<C: ValidationCache>(
    rt: &impl Abort,
    alloc: Global,
    cache: &mut C,
    key: &CacheKey,
) -> bool {
    let copy = key.try_clone().expect(rt, "memory");
    put(rt, alloc, cache, copy, 9, 5);
    let given = cache.get(alloc, key, 0).expect(rt, "memory");
    let entry = given.expect(rt, "an entry");
    entry.key == *key && entry.key.set.records.len() > MANY
}

fn list_keeps(rt: &impl Abort, alloc: Global, key: &CacheKey) -> bool {
    let mut cache = ListCache::new(alloc, usize::MAX);
    is_kept(rt, alloc, &mut cache, key)
}

fn lru_keeps(rt: &impl Abort, alloc: Global, key: &CacheKey) -> bool {
    let mut cache = LruValidationCache::new(alloc, usize::MAX).expect(rt, "memory");
    is_kept(rt, alloc, &mut cache, key)
}

fn both_keep(rt: &impl Abort, alloc: Global) -> bool {
    let key = key(rt, alloc, 1, MANY);
    list_keeps(rt, alloc, &key) && lru_keeps(rt, alloc, &key)
}

#[test]
fn a_set_of_70_000_records_is_kept(rt: HostRuntime) {
    check_row(&rt, "70,001 records", both_keep(&rt, rt.alloc()));
}

fn gives_none(rt: &impl Abort, alloc: Global) -> bool {
    let hasher: BuildHasherDefault<FoldHasher> = BuildHasherDefault::new();
    let made = LruValidationCache::with_hasher(alloc, usize::MAX, hasher);
    let mut cache = made.expect(rt, "memory");
    let key = key(rt, alloc, 1, 0);
    let given = cache.get(alloc, &key, 0).expect(rt, "memory");
    given.is_none()
}

#[test]
fn the_greatest_capacity_takes_no_room_at_first(rt: HostRuntime) {
    check_row(&rt, "the greatest usize", gives_none(&rt, rt.alloc()));
}
