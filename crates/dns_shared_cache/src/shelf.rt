//! A cache beside the verifier that accepts what it keeps.

ghost use Rattle.std.specs.Prelude.{◌≡◌, ◌≢◌, [], true, IfOk, Some};
ghost use Rattle.dns_cache.specs.CacheLists.{hit};
ghost use Rattle.dns_cache.specs.Caches.{GivesHit, KeptIsAccepted, LeftByGet, entry_given, hits_after};
ghost use Rattle.dns_cache.specs.declared.acceptance.Acceptance.TheVariants.{Kept, Unknown};
ghost use Rattle.dns_evidence.specs.Verifiers.{AnswerAlike};
ghost use Rattle.dns_shared_cache.specs.Shelves.{LeftByOffer, SaysWhose, are_accepted, is_accepted as is_accepted_by, is_kept};

use dns_cache::{Acceptance, CacheKey, DefaultHasher, Entry, LruValidationCache, ValidationCache};
use dns_chain_check::{accepted_chain, mark_of};
use dns_evidence::Verifier;
use dns_model::Proof;
use dns_record::NoMemory;
use std::alloc::Global;
use std::hash::{BuildHasher, BuildHasherDefault};

/// A cache (RFC 4035, 4.5) and a verifier in one value. Each Secure entry that it keeps has a chain that the verifier accepts by itself,
/// whoever trusts its first keys and whenever. Its type says so: this holds of each shelf, whatever was done with it.
#[derive(Drop)]
pub struct Shelf<V: Verifier + Drop, S: BuildHasher + Drop = DefaultHasher> {
    cache: LruValidationCache<S>,
    verifier: V,
    ghost accepted: { are_accepted (V.answers verifier) cache.list.entries ≡ true },
}

impl<V: Verifier + Drop> Shelf<V, DefaultHasher> {
    /// A shelf without entries, which keeps so many at the most; with capacity 0 it keeps nothing.
    ///
    /// The seed of its hasher is known. Whoever can choose records can choose keys that fall together under it: for a shelf that
    /// serves more than one lookup take `with_hasher` with a `RandomState`.
    pub fn new(alloc: Global, capacity: usize, verifier: V) -> Result<Shelf<V>, NoMemory>
        ensures cache { IfOk result (λ s. s.cache ≡ record { list = record { entries = []; capacity = capacity }; hits = 0 }) }
        ensures verifier { IfOk result (λ s. s.verifier ≡ verifier) }
    {
        Shelf::with_hasher(alloc, capacity, verifier, BuildHasherDefault::new())
    }
}

impl<V: Verifier + Drop, S: BuildHasher + Drop> Shelf<V, S> {
    /// The same, with a hasher of one's own.
    pub fn with_hasher(
        alloc: Global,
        capacity: usize,
        verifier: V,
        hasher: S,
    ) -> Result<Shelf<V, S>, NoMemory>
        ensures cache { IfOk result (λ s. s.cache ≡ record { list = record { entries = []; capacity = capacity }; hits = 0 }) }
        ensures verifier { IfOk result (λ s. s.verifier ≡ verifier) }
    {
        let cache = LruValidationCache::with_hasher(alloc, capacity, hasher)?;
        Ok(Shelf { cache, verifier })
    }

    /// How often a call gave an entry; it stops at the greatest `u64`.
    pub fn hits(&self) -> u64
        ensures { result ≡ self.now.cache.hits }
    {
        self.cache.hits()
    }

    /// The entry of this key, if it doesn't expire at the moment, in seconds since 1970, or before; a copy in memory of its own. It
    /// becomes the most recently used. After an error, which is out of memory, the entries are those from before, of which that one
    /// may have become the most recently used.
    pub fn get(
        &mut self,
        alloc: Global,
        key: &CacheKey,
        now: u64,
    ) -> Result<Option<Entry>, NoMemory>
        ensures given { GivesHit key.now now result }
        ensures found { IfOk result (λ found. found ≡ hit key.now now self.old.cache.list) }
        ensures after { LeftByGet key.now now (Some self.old.cache.list) (Some self.new.cache.list) result }
        ensures hits { self.new.cache.hits ≡ hits_after self.old.cache.hits result }
        ensures verifier { self.new.verifier ≡ self.old.verifier }
    {
        self.cache.get(alloc, key, now)
    }

    /// As `get`, with whose acceptance the entry's chain has: `Kept` exactly where `same` of the shelf's verifier is true of this one,
    /// and else `Other`, whatever the entry's mark. Of a Secure entry with `Kept` this verifier accepts the chain by itself.
    pub fn get_for(
        &mut self,
        alloc: Global,
        key: &CacheKey,
        now: u64,
        verifier: &V,
    ) -> Result<Option<(Entry, Acceptance)>, NoMemory>
        ensures given { GivesHit key.now now (entry_given result) }
        ensures found { IfOk (entry_given result) (λ found. found ≡ hit key.now now self.old.cache.list) }
        ensures after { LeftByGet key.now now (Some self.old.cache.list) (Some self.new.cache.list) (entry_given result) }
        ensures hits { self.new.cache.hits ≡ hits_after self.old.cache.hits (entry_given result) }
        ensures verifier { self.new.verifier ≡ self.old.verifier }
        ensures whose { SaysWhose (V.says_same self.old.verifier verifier.now) result }
        ensures accepted { KeptIsAccepted (V.answers verifier.now) result }
    {
        match self.cache.get(alloc, key, now)? {
            Some(entry) => Ok(Some((entry, whose(&self.verifier, verifier)))),
            None => Ok(None),
        }
    }

    /// Keeps the entry as the most recently used, in place of one of the same key; where there are more than there may be, the least
    /// recently used goes. A Secure entry whose chain the shelf's verifier doesn't accept changes nothing, and is no error. After an
    /// error, which is out of memory, nothing has changed.
    pub fn insert(&mut self, alloc: Global, entry: Entry) -> Result<(), NoMemory>
        ensures after { LeftByOffer (V.answers self.old.verifier) entry self.old.cache.list self.new.cache.list result }
        ensures hits { self.new.cache.hits ≡ self.old.cache.hits }
        ensures verifier { self.new.verifier ≡ self.old.verifier }
    {
        // A shelf that keeps nothing needn't ask its verifier.
        if self.cache.capacity() != 0 && !is_accepted(alloc, &self.verifier, &entry)? {
            return Ok(());
        }
        self.cache.insert(alloc, entry)
    }
}

// The verifier accepts by itself the chain of an entry that is Secure. Of any other it is asked nothing.
fn is_accepted<V: Verifier>(alloc: Global, verifier: &V, entry: &Entry) -> Result<bool, NoMemory>
    ensures { IfOk result (λ b. b ≡ is_accepted_by (V.answers verifier.now) entry.now) }
{
    if mark_of(&entry.result) != Proof::Secure {
        return Ok(true);
    }
    match &entry.chain {
        Some(chain) => accepted_chain(alloc, verifier, chain),
        None => Ok(false),
    }
}

// Whose acceptance a verifier's chains have for the other.
fn whose<V: Verifier>(verifier: &V, other: &V) -> Acceptance
    ensures known { result ≢ Unknown }
    ensures says { V.says_same verifier.now other.now (is_kept result) }
    ensures alike { result ≡ Kept → AnswerAlike (V.answers verifier.now) (V.answers other.now) }
{
    if verifier.same(other) {
        Acceptance::Kept
    } else {
        Acceptance::Other
    }
}
