//! A cache that finds a key by its hash.

ghost use Rattle.std.specs.Prelude.{◌≡◌, ◌<◌, [], true, None, Some, IfOk, find, nat_lt, if◌then◌else◌};
ghost use Rattle.std.specs.List.{IsDistinct};
ghost use Rattle.std.specs.Map.{keys_of};
ghost use Rattle.dns_rules.specs.CacheKeys.{key_eq};
ghost use Rattle.dns_cache.specs.CacheLists.{is_hit};
ghost use Rattle.dns_cache.specs.KeptEntries.{entries_of, entry_of};

use crate::acceptance::of_nobody;
use crate::kept::Kept;
use crate::{Acceptance, AcceptedBy, CacheKey, DefaultHasher, Entry, ValidationCache};
use dns_evidence::Verifier;
use dns_record::NoMemory;
use lru::LruCache;
use std::alloc::Global;
use std::hash::{BuildHasher, BuildHasherDefault};
use std::marker::Model;
use std::num::NonZeroUsize;

/// The cache that a validator has unless it is given another one.
pub type DefaultCache = LruValidationCache;

/// A cache that finds a key by its hash. It takes room as entries come.
pub struct LruValidationCache<S: BuildHasher = DefaultHasher> {
    kept: LruCache<CacheKey, Kept, S>,
    capacity: usize,
    hits: u64,
}

impl<S: BuildHasher> Model for LruValidationCache<S> {
    ghost use Rattle.dns_cache.specs.CacheLists.{CountedList};
    ghost use Rattle.dns_cache.specs.KeptEntries.{IsCacheMap, listed};

    ghost Value = { CountedList };

    ghost view = { λ c. record { list = listed c.kept.entries c.capacity; hits = c.hits } };

    ghost invariant = { λ c. IsCacheMap c.kept c.capacity };
}

impl<S: BuildHasher + Drop> Drop for LruValidationCache<S> {
    fn drop(self) {
        let LruValidationCache {
            kept: _,
            capacity: _,
            hits: _,
        } = self;
    }
}

impl LruValidationCache<DefaultHasher> {
    /// A cache without entries, which keeps so many at the most; with capacity 0 it keeps nothing.
    ///
    /// The seed of its hasher is known. Whoever can choose records can choose keys that fall together under it: for a cache that
    /// serves more than one lookup take `with_hasher` with a `RandomState`.
    pub fn new(alloc: Global, capacity: usize) -> Result<LruValidationCache, NoMemory>
        ensures { IfOk result (λ c. c ≡ record { list = record { entries = []; capacity = capacity }; hits = 0 }) }
    {
        LruValidationCache::with_hasher(alloc, capacity, BuildHasherDefault::new())
    }
}

impl<S: BuildHasher + Drop> LruValidationCache<S> {
    /// The same, with a hasher of one's own.
    pub fn with_hasher(
        alloc: Global,
        capacity: usize,
        hasher: S,
    ) -> Result<LruValidationCache<S>, NoMemory>
        ensures { IfOk result (λ c. c ≡ record { list = record { entries = []; capacity = capacity }; hits = 0 }) }
    {
        let kept = empty_map(alloc, capacity, hasher)?;
        Ok(LruValidationCache {
            kept,
            capacity,
            hits: 0,
        })
    }

    /// How many entries it keeps at the most.
    pub fn capacity(&self) -> usize
        ensures { result ≡ self.now.list.capacity }
    {
        self.capacity
    }

    /// How often a call gave an entry; it stops at the greatest `u64`.
    pub fn hits(&self) -> u64
        ensures { result ≡ self.now.hits }
    {
        self.hits
    }
}

impl<S: BuildHasher + Drop> ValidationCache for LruValidationCache<S> {
    ghost hits = { λ c. c.hits };

    ghost told = { λ c. Some c.list };

    fn get(&mut self, _alloc: Global, key: &CacheKey, now: u64) -> Result<Option<Entry>, NoMemory> {
        match copy_of_hit(&self.kept, key, now)? {
            Some(found) => {
                self.kept.promote(key);
                self.hits = self.hits.saturating_add(1);
                Ok(Some(found))
            }
            None => Ok(None),
        }
    }

    fn insert(&mut self, _alloc: Global, entry: Entry) -> Result<(), NoMemory> {
        if self.capacity == 0 {
            return Ok(());
        }
        let (key, kept) = entry.into_parts();
        self.kept.put(key, kept)?;
        Ok(())
    }
}

impl<S: BuildHasher + Drop, V: Verifier> AcceptedBy<V> for LruValidationCache<S> {
    ghost knows_nobody = { λ _. true };

    fn get_for(
        &mut self,
        alloc: Global,
        key: &CacheKey,
        now: u64,
        _verifier: &V,
    ) -> Result<Option<(Entry, Acceptance)>, NoMemory> {
        Ok(of_nobody(self.get(alloc, key, now)?))
    }
}

// A map without pairs, of this capacity unless that is 0.
fn empty_map<S: BuildHasher + Drop>(
    alloc: Global,
    capacity: usize,
    hasher: S,
) -> Result<LruCache<CacheKey, Kept, S>, NoMemory>
    ensures entries { IfOk result (λ m. m.entries ≡ []) }
    ensures capacity { IfOk result (λ m. 0 < capacity → m.cap ≡ capacity) }
{
    let mut map = LruCache::unbounded_with_hasher(alloc, hasher)?;
    // A map without a bound takes room as pairs come, one made with a bound all of it at once.
    map.resize(NonZeroUsize::new(capacity).unwrap_or(NonZeroUsize::MIN));
    Ok(map)
}

// A copy of the entry of this key, if it doesn't expire by the moment.
fn copy_of_hit<S: BuildHasher>(
    kept: &LruCache<CacheKey, Kept, S>,
    key: &CacheKey,
    now: u64,
) -> Result<Option<Entry>, NoMemory>
    requires { IsDistinct key_eq (keys_of kept.now.entries) }
    ensures { IfOk result (λ found. found ≡ find (is_hit key.now now) (entries_of kept.now.entries)) }
{
    match kept.peek(key) {
        Some(found) => copy_of_live(found, key, now),
        None => Ok(None),
    }
}

// A copy of an entry with its key, if it doesn't expire by the moment.
fn copy_of_live(kept: &Kept, key: &CacheKey, now: u64) -> Result<Option<Entry>, NoMemory>
    ensures { IfOk result (λ found. found
        ≡ (if nat_lt now kept.now.expires then Some (entry_of (key.now, kept.now)) else None)) }
{
    if now < kept.expires {
        Ok(Some(kept.entry(key)?))
    } else {
        Ok(None)
    }
}
