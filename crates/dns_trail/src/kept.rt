//! Entries that were kept before a lookup, which are found by their keys.

ghost use Rattle.std.specs.Prelude.{◌≡◌, IfOk};
ghost use Rattle.dns_trail.specs.Indexed.{AreKeyed, HaveKey};

use crate::places::{Places, add_place, places_of};
use dns_cache::{CacheKey, Entry};
use dns_record::NoMemory;
use std::alloc::Global;
use std::collections::BTreeMap;
use std::marker::Model;

/// Entries, and where those with a key stand.
#[derive(Drop)]
pub(crate) struct KeptEntries<'a> {
    entries: &'a [Entry],
    places: Places<CacheKey>,
}

impl<'a> Model for KeptEntries<'a> {
    ghost use Rattle.std.specs.Prelude.{List};
    ghost use Rattle.dns_rules.specs.CacheEntries.{EntryValue};
    ghost use Rattle.dns_trail.specs.Indexed.{AreKeyed};

    ghost Value = { List EntryValue };

    ghost view = { λ k. k.entries.now };

    ghost invariant = { λ k. AreKeyed k.places k.entries.now };
}

impl<'a> KeptEntries<'a> {
    /// These entries.
    pub(crate) fn of(alloc: Global, entries: &'a [Entry]) -> Result<KeptEntries<'a>, NoMemory>
        ensures { IfOk result (λ k. k ≡ entries.now) }
    {
        let places = places_of_entries(alloc, entries)?;
        Ok(KeptEntries { entries, places })
    }

    /// All of them, in order.
    pub(crate) fn as_slice(&self) -> &[Entry]
        ensures { result.now ≡ self.now }
    {
        self.entries
    }

    /// The places of those with a key.
    pub(crate) fn places_with(&self, key: &CacheKey) -> &[usize]
        ensures { HaveKey key.now result.now self.now }
    {
        places_of(&self.places, key)
    }
}

// The places of entries, by their keys.
fn places_of_entries(alloc: Global, entries: &[Entry]) -> Result<Places<CacheKey>, NoMemory>
    ensures { IfOk result (λ p. AreKeyed p entries.now) }
{
    let mut places = BTreeMap::new(alloc);
    'each: for (place, entry) in entries.iter().enumerate() {
        let key = key_of_entry(entry)?;
        add_place(alloc, &mut places, key, place)?;
    }
    Ok(places)
}

// The key of an entry, in memory of its own.
fn key_of_entry(entry: &Entry) -> Result<CacheKey, NoMemory>
    ensures { IfOk result (λ k. k ≡ entry.now.key) }
{
    entry.key.try_clone()
}
