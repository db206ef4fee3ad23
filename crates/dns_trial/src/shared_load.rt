//! One thing done with a shared cache or with a shelf, many times, by one thread or by several.

use crate::entries::{keys_of, plain_entry, proved_entry, signed_chain};
use crate::form::{Form, Work};
use crate::weighing::Weighing;
use dns_cache::{CacheKey, LruValidationCache, ValidationCache};
use dns_chain_check::accepted_chain;
use dns_evidence::{Chain, Listed};
use dns_record::NoMemory;
use dns_shared_cache::{DefaultSharedCache, SharedCache, Shelf};
use std::alloc::Global;
use std::sync::Wait;
use std::thread;
use std::thread::Threads;

/// How many signatures the chain of six links has that each entry has.
const SIGNATURES: u32 = 4;

// Puts an entry in for each key.
fn fill<C: ValidationCache>(
    alloc: Global,
    cache: &mut C,
    keys: &[CacheKey],
    chain: &Chain,
) -> Result<(), NoMemory> {
    for key in keys {
        let entry = proved_entry(key, u64::MAX, 3600, chain)?;
        cache.insert(alloc, entry)?;
    }
    Ok(())
}

// Gets the entry of each key once: how many were there.
fn get_each<C: ValidationCache>(
    alloc: Global,
    cache: &mut C,
    keys: &[CacheKey],
) -> Result<u64, NoMemory> {
    let mut count: u64 = 0;
    for key in keys {
        let given = cache.get(alloc, key, 0)?;
        count = count.saturating_add(u64::from(given.is_some()));
    }
    Ok(count)
}

// The same in so many passes.
fn get_all<C: ValidationCache>(
    alloc: Global,
    cache: &mut C,
    keys: &[CacheKey],
    passes: u32,
) -> Result<u64, NoMemory> {
    let mut count: u64 = 0;
    for _ in 0..passes {
        count = count.saturating_add(get_each(alloc, cache, keys)?);
    }
    Ok(count)
}

// The same by a holder of its own.
fn get_by_holder<T: Wait + Copy>(
    alloc: Global,
    cache: &DefaultSharedCache<Weighing, T>,
    keys: &[CacheKey],
    passes: u32,
) -> Result<u64, NoMemory> {
    let mut holder = cache.share()?;
    get_all(alloc, &mut holder, keys, passes)
}

// Gets over a cache of one's own: `ENTRIES PASSES 0`.
fn owned_gets(
    alloc: Global,
    keys: &[CacheKey],
    chain: &Chain,
    passes: u32,
) -> Result<u64, NoMemory> {
    let mut cache = LruValidationCache::new(alloc, keys.len())?;
    fill(alloc, &mut cache, keys, chain)?;
    get_all(alloc, &mut cache, keys, passes)
}

// Gets over a shared cache, by so many threads at once: `ENTRIES PASSES THREADS`.
fn shared_gets<T: Threads + Wait + Copy + Send + Sync>(
    rt: T,
    alloc: Global,
    keys: &[CacheKey],
    chain: &Chain,
    passes: u32,
    threads: u32,
) -> Result<u64, NoMemory> {
    let mut cache = SharedCache::new(rt, alloc, keys.len(), Weighing::new(0))?;
    fill(alloc, &mut cache, keys, chain)?;
    let counts = thread::map_indices(
        &rt,
        alloc,
        threads as usize,
        &|_| { get_by_holder(alloc, &cache, keys, passes).unwrap_or(0) },
    )?;
    let mut all: u64 = 0;
    for count in &counts {
        all = all.saturating_add(*count);
    }
    Ok(all)
}

// Inserts into a shelf whose verifier takes so much for a signature.
fn inserts(
    alloc: Global,
    keys: &[CacheKey],
    chain: &Chain,
    passes: u32,
    weight: u32,
) -> Result<u64, NoMemory> {
    let mut shelf = Shelf::new(alloc, keys.len(), Weighing::new(weight))?;
    let mut count: u64 = 0;
    for _ in 0..passes {
        for key in keys {
            shelf.insert(alloc, proved_entry(key, u64::MAX, 3600, chain)?)?;
            count = count.saturating_add(1);
        }
    }
    Ok(count)
}

// The tests of these inserts alone, of entries that are made and dropped.
fn tests(
    alloc: Global,
    keys: &[CacheKey],
    chain: &Chain,
    passes: u32,
    weight: u32,
) -> Result<u64, NoMemory> {
    let verifier = Weighing::new(weight);
    let mut count: u64 = 0;
    for _ in 0..passes {
        for key in keys {
            let _ = proved_entry(key, u64::MAX, 3600, chain)?;
            let held = accepted_chain(alloc, &verifier, chain)?;
            count = count.saturating_add(u64::from(held));
        }
    }
    Ok(count)
}

// A list of so many signatures.
fn listed(alloc: Global, signatures: u32) -> Result<Listed, NoMemory> {
    let mut listed = Listed::new(alloc);
    listed.support(13);
    for number in 0..signatures {
        listed.accept(13, b"\xaa\xbb", &number.to_be_bytes(), b"\xc0\xde")?;
    }
    Ok(listed)
}

// Gets from a shelf for another list of as many signatures, which each get compares with the shelf's own.
fn gets_for(
    alloc: Global,
    keys: &[CacheKey],
    passes: u32,
    signatures: u32,
) -> Result<u64, NoMemory> {
    let mut shelf = Shelf::new(alloc, keys.len(), listed(alloc, signatures)?)?;
    let asker = listed(alloc, signatures)?;
    for key in keys {
        shelf.insert(alloc, plain_entry(key, u64::MAX, 3600)?)?;
    }
    let mut count: u64 = 0;
    for _ in 0..passes {
        for key in keys {
            let given = shelf.get_for(alloc, key, 0, &asker)?;
            count = count.saturating_add(u64::from(given.is_some()));
        }
    }
    Ok(count)
}

/// How often it was done, with so many keys in so many passes, by so many threads or with so much for a signature.
pub(crate) fn shared_work<T: Threads + Wait + Copy + Send + Sync>(
    rt: T,
    alloc: Global,
    form: Form,
) -> Result<u64, NoMemory> {
    let keys = keys_of(alloc, form.first)?;
    let chain = signed_chain(alloc, SIGNATURES)?;
    match form.work {
        Work::SharedGet if form.third == 0 => owned_gets(alloc, &keys, &chain, form.second),
        Work::SharedGet => shared_gets(rt, alloc, &keys, &chain, form.second, form.third),
        Work::ShelfInsert => inserts(alloc, &keys, &chain, form.second, form.third),
        Work::ShelfTest => tests(alloc, &keys, &chain, form.second, form.third),
        _ => gets_for(alloc, &keys, form.second, form.third),
    }
}
