//! A cache that is the list of its entries.

ghost use Rattle.std.specs.Prelude.{◌≡◌, ◌∷◌, ◌<◌, [], true, Some, OnOk, OnErr, length, position, remove, slice_index_or, take};
ghost use Rattle.std.specs.List.{IsDistinct};
ghost use Rattle.dns_cache.specs.CacheLists.{IsCacheList, has_key, is_hit, without};

use crate::acceptance::of_nobody;
use crate::{Acceptance, AcceptedBy, CacheKey, Entry, ValidationCache};
use dns_evidence::Verifier;
use dns_record::NoMemory;
use std::alloc::Global;
use std::marker::Model;

/// A cache that is the list of its entries, and goes over it at each call. It serves small capacities, and says what any other
/// cache does.
#[derive(Drop)]
pub struct ListCache {
    entries: Vec<Entry>,
    capacity: usize,
    hits: u64,
}

impl Model for ListCache {
    ghost use Rattle.dns_cache.specs.CacheLists.{CountedList, IsCacheList};

    ghost Value = { CountedList };

    ghost view = { λ c. record { list = record { entries = c.entries.items; capacity = c.capacity }; hits = c.hits } };

    ghost invariant = { λ c. IsCacheList (record { entries = c.entries.items; capacity = c.capacity }) };
}

impl ListCache {
    /// A cache without entries, which keeps so many at the most; with capacity 0 it keeps nothing.
    pub fn new(alloc: Global, capacity: usize) -> ListCache
        ensures { result ≡ record { list = record { entries = []; capacity = capacity }; hits = 0 } }
    {
        ListCache {
            entries: Vec::new(alloc),
            capacity,
            hits: 0,
        }
    }

    /// How often a call gave an entry; it stops at the greatest `u64`.
    pub fn hits(&self) -> u64
        ensures { result ≡ self.now.hits }
    {
        self.hits
    }
}

impl ValidationCache for ListCache {
    ghost hits = { λ c. c.hits };

    ghost told = { λ c. Some c.list };

    fn get(&mut self, _alloc: Global, key: &CacheKey, now: u64) -> Result<Option<Entry>, NoMemory> {
        match hit_place(&self.entries, key, now) {
            Some(place) => {
                let found = self.entries[place].try_clone()?;
                move_to_front(&mut self.entries, place);
                self.hits = self.hits.saturating_add(1);
                Ok(Some(found))
            }
            None => Ok(None),
        }
    }

    fn insert(&mut self, _alloc: Global, entry: Entry) -> Result<(), NoMemory> {
        put_in_front(&mut self.entries, self.capacity, entry)?;
        Ok(())
    }
}

impl<V: Verifier> AcceptedBy<V> for ListCache {
    ghost knows_nobody = { λ _. true };

    fn get_for(
        &mut self,
        alloc: Global,
        key: &CacheKey,
        now: u64,
        _verifier: &V,
    ) -> Result<Option<(Entry, Acceptance)>, NoMemory> {
        Ok(of_nobody(self.get(alloc, key, now)?))
    }
}

// The place of the entry of this key, if it doesn't expire by the moment.
fn hit_place(entries: &[Entry], key: &CacheKey, now: u64) -> Option<usize>
    ensures { result ≡ position (is_hit key.now now) entries.now }
{
    entries
        .iter()
        .position(|entry| *key == entry.key && now < entry.expires)
}

// The place of the entry of this key.
fn place_of(entries: &[Entry], key: &CacheKey) -> Option<usize>
    ensures { result ≡ position (has_key key.now) entries.now }
{
    entries.iter().position(|entry| *key == entry.key)
}

// The entry at a place becomes the first.
fn move_to_front(entries: &mut Vec<Entry>, place: usize)
    requires { place < length entries.old.items }
    ensures { (d : _) → entries.new.items ≡ slice_index_or entries.old.items place d ∷ remove entries.old.items place }
{
    rotate_to_front(entries.as_mut_slice(), place);
}

// The same in a slice.
fn rotate_to_front(entries: &mut [Entry], place: usize)
    requires { place < length entries.old }
    ensures { (d : _) → entries.new ≡ slice_index_or entries.old place d ∷ remove entries.old place }
{
    entries[..place + 1].rotate_right(1);
}

// The entry becomes the first, in place of one of its key; then the first ones stay, as many as may. Where memory runs out
// nothing has changed.
fn put_in_front(entries: &mut Vec<Entry>, capacity: usize, entry: Entry) -> Result<(), NoMemory>
    requires { IsCacheList (record { entries = entries.old.items; capacity = capacity }) }
    ensures ok { OnOk result (entries.new.items ≡ take capacity (entry ∷ without entry.key entries.old.items)) }
    ensures err { OnErr result (entries.new.items ≡ entries.old.items) }
{
    let place = place_of(entries, &entry.key);
    entries.insert(0, entry)?;
    match place {
        Some(place) => {
            entries.remove(place + 1);
        }
        None => entries.truncate(capacity),
    }
    Ok(())
}
