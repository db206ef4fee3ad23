//! What a cache of validation's results is (RFC 4035, 4.5).

ghost use Rattle.std.specs.Prelude.{◌≡◌, ℕ, Option, IfSome};
ghost use Rattle.dns_cache.specs.CacheLists.{CacheList, IsCacheList};
ghost use Rattle.dns_cache.specs.Caches.{GivesHit, GivesHitOf, LeftByGet, LeftByInsert, hits_after};

use crate::{CacheKey, Entry};
use dns_record::NoMemory;
use std::alloc::Global;

/// What keeps what was found of sets (RFC 4035, 4.5).
pub trait ValidationCache {
    /// How often `get` gave an entry; it stops at the greatest `u64`.
    ghost hits: { Self → ℕ };

    /// The entries, the most recently used first, and how many there may be, where the cache tells them.
    ghost told: { Self → Option CacheList };

    /// The entry of this key, if it doesn't expire at the moment, in seconds since 1970, or before; a copy in memory of its own.
    /// It becomes the most recently used. After an error, which is out of memory, the entries are those from before, of
    /// which that one may have become the most recently used.
    fn get(&mut self, alloc: Global, key: &CacheKey, now: u64) -> Result<Option<Entry>, NoMemory>
        ensures given { GivesHit key.now now result }
        ensures found { GivesHitOf (told self.old) key.now now result }
        ensures after { LeftByGet key.now now (told self.old) (told self.new) result }
        ensures hits { hits self.new ≡ hits_after (hits self.old) result }
        ensures listed_before { IfSome (told self.old) IsCacheList }
        ensures listed { IfSome (told self.new) IsCacheList };

    /// Keeps the entry as the most recently used, in place of one of the same key. Where there are more than there may be, the
    /// least recently used goes. After an error, which is out of memory, nothing has changed.
    fn insert(&mut self, alloc: Global, entry: Entry) -> Result<(), NoMemory>
        ensures after { LeftByInsert entry (told self.old) (told self.new) result }
        ensures hits { hits self.new ≡ hits self.old }
        ensures listed_before { IfSome (told self.old) IsCacheList }
        ensures listed { IfSome (told self.new) IsCacheList };
}
