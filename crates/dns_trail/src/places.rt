//! Where elements of a list stand, by their keys: the judged sets of a step by the owner and type of their records, so that an equal
//! set is found without a walk.

ghost use Rattle.std.specs.Prelude.{◌≡◌, IfOk, OnOk};
ghost use Rattle.dns_rules.specs.ChainedSets.{bare};
ghost use Rattle.dns_trail.specs.Indexed.{AreIndexed};
ghost use Rattle.dns_trail.specs.Places.{AddedPlace, places_under};
ghost use Rattle.dns_trail.specs.SetKeys.{trail_key_of, key_of_record as key_in};

use dns_evidence::ChainedSet;
use dns_record::{NoMemory, Octets, Record, RecordSet};
use std::alloc::Global;
use std::collections::BTreeMap;

/// The owner and type of a set's first record as a key of an ordered map. The owner's bytes are folded once, so that
/// two keys are compared in one pass; and no choice of names makes a search longer, as it would where a hash can be
/// foreseen.
#[derive(PartialEq, Eq, PartialOrd, Ord, Drop)]
pub(crate) struct SetKey {
    /// The wire form, with A to Z as a to z.
    owner: Octets,
    record_type: u16,
}

/// The places of sets in a list.
pub(crate) type PlacesByKey = Places<SetKey>;

/// The places of elements in a list.
pub(crate) type Places<K> = BTreeMap<K, Vec<usize>>;

impl SetKey {
    /// The key of a set.
    pub(crate) fn of(alloc: Global, set: &RecordSet) -> Result<SetKey, NoMemory>
        ensures { IfOk result (λ k. k ≡ trail_key_of set.now) }
    {
        match set.records.first() {
            Some(first) => SetKey::of_record(alloc, first),
            None => Ok(SetKey {
                owner: Octets::from_vec(Vec::new(alloc)),
                record_type: 0,
            }),
        }
    }

    // The key of a set with this record first.
    fn of_record(alloc: Global, first: &Record) -> Result<SetKey, NoMemory>
        ensures { IfOk result (λ k. k ≡ key_in first.now) }
    {
        let mut owner = Vec::with_capacity(alloc, first.name.wire().len())?;
        first.name.push_folded(&mut owner)?;
        Ok(SetKey {
            owner: Octets::from_vec(owner),
            record_type: first.record_type.0,
        })
    }
}

/// The places under a key.
pub(crate) fn places_of<'a, K: Ord>(places: &'a Places<K>, key: &K) -> &'a [usize]
    ensures { result.now ≡ places_under K.cmp places.now key.now }
{
    match places.get(key) {
        Some(there) => there.as_slice(),
        None => &[],
    }
}

/// Puts a place behind the others of its key.
pub(crate) fn add_place<K: Ord + Drop>(
    alloc: Global,
    places: &mut Places<K>,
    key: K,
    place: usize,
) -> Result<(), NoMemory>
    ensures { OnOk result (AddedPlace K.cmp places.old places.new key place) }
{
    if let Some(there) = places.get_mut(&key) {
        there.push(place)?;
        return Ok(());
    }
    let mut first = Vec::new(alloc);
    first.push(place)?;
    places.insert(key, first)?;
    Ok(())
}

/// The places of judged sets.
pub(crate) fn places_of_sets(alloc: Global, sets: &[ChainedSet]) -> Result<PlacesByKey, NoMemory>
    ensures { IfOk result (λ p. AreIndexed p (bare sets.now)) }
{
    let mut places = BTreeMap::new(alloc);
    'each: for (place, chained) in sets.iter().enumerate() {
        let key = key_of_set(alloc, chained)?;
        add_place(alloc, &mut places, key, place)?;
    }
    Ok(places)
}

// The key of a judged set.
fn key_of_set(alloc: Global, chained: &ChainedSet) -> Result<SetKey, NoMemory>
    ensures { IfOk result (λ k. k ≡ trail_key_of chained.now.judged.set) }
{
    SetKey::of(alloc, &chained.judged.set)
}
