//! One thing done with a cache, or with the map that it stands on, many times.

use crate::entries::{chain_of, keys_of, secure_entry};
use crate::form::{Form, Work};
use dns_cache::{CacheKey, DefaultHasher, LruValidationCache, ValidationCache};
use dns_evidence::Chain;
use dns_record::NoMemory;
use lru::LruCache;
use std::alloc::Global;
use std::hash::BuildHasherDefault;
use std::num::NonZeroUsize;

/// What holds something for a key.
trait Store {
    /// Puts something in for a key.
    fn fill(&mut self, alloc: Global, key: &CacheKey, chain: &Chain) -> Result<(), NoMemory>;

    /// Whether it gives something for a key.
    fn find(&mut self, alloc: Global, key: &CacheKey) -> Result<bool, NoMemory>;
}

impl Store for LruValidationCache {
    fn fill(&mut self, alloc: Global, key: &CacheKey, chain: &Chain) -> Result<(), NoMemory> {
        let entry = secure_entry(key, chain)?;
        self.insert(alloc, entry)
    }

    fn find(&mut self, alloc: Global, key: &CacheKey) -> Result<bool, NoMemory> {
        Ok(self.get(alloc, key, 0)?.is_some())
    }
}

impl Store for LruCache<CacheKey, u64, DefaultHasher> {
    fn fill(&mut self, _alloc: Global, key: &CacheKey, _chain: &Chain) -> Result<(), NoMemory> {
        let key = key.try_clone()?;
        self.put(key, 1)?;
        Ok(())
    }

    fn find(&mut self, _alloc: Global, key: &CacheKey) -> Result<bool, NoMemory> {
        Ok(self.get(key).is_some())
    }
}

// Makes an entry and frees it.
fn copy(key: &CacheKey, chain: &Chain) -> Result<(), NoMemory> {
    let _ = secure_entry(key, chain)?;
    Ok(())
}

// Does what is asked for with each key once: how often it went well.
fn pass<S: Store>(
    alloc: Global,
    work: Work,
    store: &mut S,
    keys: &[CacheKey],
    chain: &Chain,
) -> Result<u64, NoMemory> {
    let mut count: u64 = 0;
    for key in keys {
        let mut held = true;
        match work {
            Work::Get | Work::MapGet => held = store.find(alloc, key)?,
            Work::Insert | Work::MapPut => store.fill(alloc, key, chain)?,
            _ => copy(key, chain)?,
        }
        count = count.saturating_add(u64::from(held));
    }
    Ok(count)
}

// Fills the store for each key, and then goes over all keys so many times.
fn passes<S: Store>(
    alloc: Global,
    work: Work,
    store: &mut S,
    keys: &[CacheKey],
    chain: &Chain,
    times: u32,
) -> Result<u64, NoMemory> {
    let _ = pass(alloc, Work::Insert, store, keys, chain)?;
    let mut count: u64 = 0;
    for _ in 0..times {
        count = count.saturating_add(pass(alloc, work, store, keys, chain)?);
    }
    Ok(count)
}

// For gets there is room for all keys, for inserts for all but one, so that none finds its key, and else for none.
fn room(work: Work, keys: usize) -> usize {
    match work {
        Work::Get | Work::MapGet => keys,
        Work::Insert | Work::MapPut => keys.saturating_sub(1),
        _ => 0,
    }
}

// How often it went well on a cache.
fn cache_passes(
    alloc: Global,
    form: Form,
    keys: &[CacheKey],
    chain: &Chain,
) -> Result<u64, NoMemory> {
    let mut cache = LruValidationCache::new(alloc, room(form.work, keys.len()))?;
    passes(alloc, form.work, &mut cache, keys, chain, form.third)
}

// A map for so many keys, made as the cache makes its own.
fn map_for(
    alloc: Global,
    capacity: usize,
) -> Result<LruCache<CacheKey, u64, DefaultHasher>, NoMemory> {
    let mut map = LruCache::unbounded_with_hasher(alloc, BuildHasherDefault::new())?;
    map.resize(NonZeroUsize::new(capacity).unwrap_or(NonZeroUsize::MIN));
    Ok(map)
}

// The same on a map, which keeps no chain.
fn map_passes(
    alloc: Global,
    form: Form,
    keys: &[CacheKey],
    chain: &Chain,
) -> Result<u64, NoMemory> {
    let mut map = map_for(alloc, room(form.work, keys.len()))?;
    passes(alloc, form.work, &mut map, keys, chain, form.second)
}

/// How often it was done with so many keys in so many passes: on a cache, where each entry has a chain of so many links, or on a map.
pub(crate) fn worked_on(alloc: Global, form: Form) -> Result<u64, NoMemory> {
    let is_map = matches!(form.work, Work::MapGet | Work::MapPut);
    let keys = keys_of(alloc, form.first)?;
    let chain = chain_of(alloc, if is_map { 0 } else { form.second })?;
    if is_map {
        map_passes(alloc, form, &keys, &chain)
    } else {
        cache_passes(alloc, form, &keys, &chain)
    }
}
