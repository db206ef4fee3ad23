//! What was given out to be kept. The last of a key is found among few by a walk, and among more by its place.

ghost use Rattle.std.specs.Prelude.{◌≡◌, ◌∷◌, ◌++◌, [], List, Some, IfOk, IfSome, OnOk, length, reverse};
ghost use Rattle.std.specs.BTreeMap.{Updates, get as get_in};
ghost use Rattle.dns_rules.specs.CacheKeys.{key_eq};
ghost use Rattle.dns_cache.specs.KeyOrder.{key_cmp};
ghost use Rattle.dns_validation.specs.Machine.{MadeValue, made_by as made_of, origin_by as origin_by_made, origin_of as origin_in};
ghost use Rattle.dns_validation.specs.MadePlaces.{ArePlaces, origin_at as origin_at_place};

use dns_cache::{CacheKey, Entry};
use dns_chain_check::{mark_of, sig_of};
use dns_model::{MarkOrigin, Proof};
use dns_record::NoMemory;
use std::alloc::Global;
use std::collections::BTreeMap;
use std::marker::Model;

// The most that are walked. Most lookups give out no more sets, and a place for each would take a copy of its key.
const FEW: usize = 16;

/// What was given out of one set.
#[derive(Drop)]
pub(crate) struct Made {
    key: CacheKey,
    /// The step that found it.
    number: u32,
    mark: Proof,
    /// The place of the signature that decided.
    sig: Option<u32>,
}

impl Model for Made {
    ghost use Rattle.dns_validation.specs.Machine.{MadeValue};

    ghost Value = { MadeValue };

    ghost view = { λ m. record { key = m.key; number = m.number; mark = m.mark; sig = m.sig } };
}

/// What was given out of all sets.
#[derive(Drop)]
pub(crate) struct MadeList {
    /// The last one last.
    all: Vec<Made>,
    /// Where the last one of each key stands; None of few.
    places: Option<BTreeMap<CacheKey, usize>>,
}

impl Model for MadeList {
    ghost use Rattle.std.specs.Prelude.{List, IfSome, reverse};
    ghost use Rattle.dns_validation.specs.Machine.{MadeValue};
    ghost use Rattle.dns_validation.specs.MadePlaces.{ArePlaces};

    ghost Value = { List MadeValue };

    ghost view = { λ l. reverse l.all.items };

    ghost invariant = { λ l. IfSome l.places (λ places. ArePlaces places l.all.items) };
}

impl MadeList {
    /// Nothing was given out.
    pub(crate) fn new(alloc: Global) -> MadeList
        ensures { result ≡ [] }
    {
        MadeList {
            all: Vec::new(alloc),
            places: None,
        }
    }

    /// One more.
    pub(crate) fn push(&mut self, made: Made) -> Result<(), NoMemory>
        ensures { OnOk result (self.new ≡ made ∷ self.old) }
    {
        let places = more_places(self.places.take(), &made, self.all.len())?;
        self.all.push(made)?;
        self.places = places_of_many(places, &self.all)?;
        Ok(())
    }

    /// The last step that gave out the key of an entry, where it found the same; else the entry was kept before.
    pub(crate) fn origin_of(&self, entry: &Entry) -> MarkOrigin
        ensures { result ≡ origin_in self.now entry.now }
    {
        match &self.places {
            Some(places) => found_origin(places, &self.all, entry),
            None => walked_origin(&self.all, entry),
        }
    }
}

// The places with that of one more, where there are places.
fn more_places(
    places: Option<BTreeMap<CacheKey, usize>>,
    made: &Made,
    place: usize,
) -> Result<Option<BTreeMap<CacheKey, usize>>, NoMemory>
    ensures { IfOk result (λ o. (all : List MadeValue) → place ≡ length all
        → IfSome places (λ old. ArePlaces old all) → IfSome o (λ new. ArePlaces new (all ++ made.now ∷ []))) }
{
    match places {
        Some(places) => {
            let more = with_place(places, made, place)?;
            Ok(Some(more))
        }
        None => Ok(None),
    }
}

// Gives the key of one that was given out another place.
fn with_place(
    places: BTreeMap<CacheKey, usize>,
    made: &Made,
    place: usize,
) -> Result<BTreeMap<CacheKey, usize>, NoMemory>
    ensures { IfOk result (λ new. Updates key_cmp places new made.now.key (Some place)) }
{
    let mut places = places;
    places.insert(made.key.try_clone()?, place)?;
    Ok(places)
}

// The places of all, where there are more than few.
fn places_of_many(
    places: Option<BTreeMap<CacheKey, usize>>,
    all: &Vec<Made>,
) -> Result<Option<BTreeMap<CacheKey, usize>>, NoMemory>
    requires { IfSome places (λ places. ArePlaces places all.now.items) }
    ensures { IfOk result (λ o. IfSome o (λ places. ArePlaces places all.now.items)) }
{
    if places.is_none() && all.len() > FEW {
        Ok(Some(places_of(*all.allocator(), all)?))
    } else {
        Ok(places)
    }
}

// The places of all.
fn places_of(alloc: Global, all: &[Made]) -> Result<BTreeMap<CacheKey, usize>, NoMemory>
    ensures { IfOk result (λ places. ArePlaces places all.now) }
{
    let mut places = BTreeMap::new(alloc);
    'each: for (place, made) in all.iter().enumerate() {
        places = with_place(places, made, place)?;
    }
    Ok(places)
}

// The origin of an entry, by the last one that has its key.
fn walked_origin(mut all: &[Made], entry: &Entry) -> MarkOrigin
    ensures { result ≡ origin_in (reverse all.entry.now) entry.now }
{
    'all: while let Some((made, earlier)) = all.split_last() {
        if has_key(made, entry) {
            return origin_by(made, entry);
        }
        all = earlier;
    }
    MarkOrigin::Cache
}

// Its key is that of an entry.
fn has_key(made: &Made, entry: &Entry) -> bool
    ensures { result ≡ key_eq made.now.key entry.now.key }
{
    made.key == entry.key
}

// The origin of an entry, by the place of its key.
fn found_origin(places: &BTreeMap<CacheKey, usize>, all: &[Made], entry: &Entry) -> MarkOrigin
    ensures { result ≡ origin_at_place all.now entry.now (get_in key_cmp places.now entry.now.key) }
{
    match places.get(&entry.key) {
        Some(place) => origin_at(all, *place, entry),
        None => MarkOrigin::Cache,
    }
}

// The origin of an entry whose key has this place.
fn origin_at(all: &[Made], place: usize, entry: &Entry) -> MarkOrigin
    ensures { result ≡ origin_at_place all.now entry.now (Some place) }
{
    match all.get(place) {
        Some(made) => origin_by(made, entry),
        None => MarkOrigin::Cache,
    }
}

// The step, where it found the same of the set.
fn origin_by(made: &Made, entry: &Entry) -> MarkOrigin
    ensures { result ≡ origin_by_made made.now entry.now }
{
    if made.mark == mark_of(&entry.result) && made.sig == sig_of(&entry.result) {
        MarkOrigin::Repeat(made.number)
    } else {
        MarkOrigin::Cache
    }
}

/// What the step with a number gives out of a set.
pub(crate) fn made_by(number: u32, entry: &Entry) -> Result<Made, NoMemory>
    ensures { IfOk result (λ m. m ≡ made_of number entry.now) }
{
    let key = entry.key.try_clone()?;
    Ok(Made {
        key,
        number,
        mark: mark_of(&entry.result),
        sig: sig_of(&entry.result),
    })
}
