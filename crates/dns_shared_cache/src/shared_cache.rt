//! Holders of one shelf under a lock.

ghost use Rattle.std.specs.Prelude.{◌≡◌, IfOk};

use crate::Shelf;
use crossbeam_utils::Backoff;
use dns_cache::{Acceptance, AcceptedBy, CacheKey, DefaultHasher, Entry, ValidationCache};
use dns_evidence::Verifier;
use dns_record::NoMemory;
use std::alloc::Global;
use std::hash::{BuildHasher, BuildHasherDefault};
use std::sync::{Arc, Mutex, MutexGuard, Wait};

/// How often a call tries for the lock before it sleeps. A turn is mostly over sooner than the system wakes a thread.
const TRIES: u32 = 200;

/// A holder of a cache that others may hold too, in this thread or in others (RFC 4035, 4.5). A `Shelf` lies under a lock: a call of a
/// holder gets the lock, calls the shelf, and lets the lock go. So it may wait for other holders, and keeps the runtime for that.
///
/// Whatever the others do, a Secure entry that it gives with `Kept` has a chain that the asker's verifier accepts by itself.
#[derive(Drop)]
pub struct SharedCache<V: Verifier + Drop, S: BuildHasher + Drop, T: Wait + Copy> {
    shelf: Arc<Mutex<Shelf<V, S>>, Global>,
    rt: T,
    hits: u64,
}

/// A holder of a shelf whose hasher has a seed that is known.
pub type DefaultSharedCache<V, T> = SharedCache<V, DefaultHasher, T>;

impl<V: Verifier + Drop, T: Wait + Copy> SharedCache<V, DefaultHasher, T> {
    /// The first holder of a shelf without entries, which keeps so many at the most; with capacity 0 it keeps nothing.
    ///
    /// The seed of the hasher is known. Whoever can choose records can choose keys that fall together under it: a cache that serves
    /// several clients wants `with_hasher` with a `RandomState`.
    ///
    /// What one holder puts in, another gets as long as it isn't up:
    ///
    /// ```
    /// fn is_seen_by_another<T: Wait + Copy>(
    ///     rt: T,
    ///     alloc: Global,
    ///     verifier: Listed,
    ///     entry: Entry,
    ///     now: u64,
    /// ) -> Result<bool, NoMemory> {
    ///     let key = entry.key.try_clone()?;
    ///     let mut first = SharedCache::new(rt, alloc, 1000, verifier)?;
    ///     let mut other = first.share()?;
    ///     first.insert(alloc, entry)?;
    ///     let given = other.get(alloc, &key, now)?;
    ///     Ok(given.is_some())
    /// }
    /// ```
    pub fn new(
        rt: T,
        alloc: Global,
        capacity: usize,
        verifier: V,
    ) -> Result<DefaultSharedCache<V, T>, NoMemory>
        ensures { IfOk result (λ c. c.hits ≡ 0) }
    {
        SharedCache::with_hasher(rt, alloc, capacity, verifier, BuildHasherDefault::new())
    }
}

impl<V: Verifier + Drop, S: BuildHasher + Drop, T: Wait + Copy> SharedCache<V, S, T> {
    /// The same, with a hasher of one's own.
    pub fn with_hasher(
        rt: T,
        alloc: Global,
        capacity: usize,
        verifier: V,
        hasher: S,
    ) -> Result<SharedCache<V, S, T>, NoMemory>
        ensures { IfOk result (λ c. c.hits ≡ 0) }
    {
        let shelf = Shelf::with_hasher(alloc, capacity, verifier, hasher)?;
        let shelf = Arc::new(alloc, Mutex::new(shelf))?;
        Ok(SharedCache { shelf, rt, hits: 0 })
    }

    /// Another holder of the same shelf, which has given nothing yet.
    pub fn share(&self) -> Result<SharedCache<V, S, T>, NoMemory>
        ensures { IfOk result (λ c. c.hits ≡ 0) }
    {
        let shelf = Arc::try_clone(&self.shelf)?;
        Ok(SharedCache {
            shelf,
            rt: self.rt,
            hits: 0,
        })
    }

    /// How often a call on this holder gave an entry; it stops at the greatest `u64`.
    pub fn hits(&self) -> u64
        ensures { result ≡ self.now.hits }
    {
        self.hits
    }
}

impl<V: Verifier + Drop, S: BuildHasher + Drop, T: Wait + Copy> ValidationCache
    for SharedCache<V, S, T> {
    ghost use Rattle.std.specs.Prelude.{None};

    ghost hits = { λ c. c.hits };

    ghost told = { λ _. None };

    fn get(&mut self, alloc: Global, key: &CacheKey, now: u64) -> Result<Option<Entry>, NoMemory> {
        let given = locked(&self.shelf, &self.rt).get(alloc, key, now)?;
        match given {
            Some(found) => {
                self.hits = self.hits.saturating_add(1);
                Ok(Some(found))
            }
            None => Ok(None),
        }
    }

    fn insert(&mut self, alloc: Global, entry: Entry) -> Result<(), NoMemory> {
        locked(&self.shelf, &self.rt).insert(alloc, entry)
    }
}

impl<V: Verifier + Drop, S: BuildHasher + Drop, T: Wait + Copy> AcceptedBy<V>
    for SharedCache<V, S, T> {
    fn get_for(
        &mut self,
        alloc: Global,
        key: &CacheKey,
        now: u64,
        verifier: &V,
    ) -> Result<Option<(Entry, Acceptance)>, NoMemory> {
        let given = locked(&self.shelf, &self.rt).get_for(alloc, key, now, verifier)?;
        match given {
            Some(found) => {
                self.hits = self.hits.saturating_add(1);
                Ok(Some(found))
            }
            None => Ok(None),
        }
    }
}

// The shelf, once no other holder has it.
fn locked<'a, V: Verifier + Drop, S: BuildHasher + Drop, T: Wait>(
    shelf: &'a Mutex<Shelf<V, S>>,
    rt: &T,
) -> MutexGuard<'a, Shelf<V, S>> {
    let backoff = Backoff::new();
    for _ in 0..TRIES {
        if let Some(guard) = shelf.try_lock() {
            return guard;
        }
        backoff.snooze();
    }
    shelf.lock(rt)
}
