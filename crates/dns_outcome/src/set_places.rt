//! Where the set of a record stands in a list of sets.
ghost use Rattle.std.specs.Prelude.{◌≡◌, ℕ, None, IfOk, OnOk};
ghost use Rattle.dns_model.specs.Names.{Labels};
ghost use Rattle.dns_model.specs.SoundAnswers.{section_eq, set_rtype as set_rtype_of};
ghost use Rattle.dns_rules.specs.ChainedSets.{bare};
ghost use Rattle.dns_outcome.specs.SetPlaces.{ArePlacedIn, is_readable, place_at_key, place_of, with_place, with_judged};

use crate::set_key::SetKey;
use dns_evidence::{ChainedSet, MarkedSet};
use dns_model::Section;
use dns_rdata::Rrsig;
use dns_record::{Name, NoMemory, Record, RecordType};
use std::alloc::Global;
use std::collections::BTreeMap;

/// The places of sets in a list, by owner and type, so that a record's set is found without a walk. Contracts see it as the
/// place of each owner, folded, and type.
#[derive(Drop)]
pub struct SetPlaces {
    places: BTreeMap<SetKey, usize>,
}

impl SetPlaces {
    // No set has a place.
    pub(crate) fn new(alloc: Global) -> SetPlaces
        ensures { (owner : Labels) (rtype : ℕ) → place_of result owner rtype ≡ None }
    {
        SetPlaces {
            places: BTreeMap::new(alloc),
        }
    }

    /// The place of the set of an owner and type.
    pub fn get(&self, owner: &Name, record_type: RecordType) -> Option<usize>
        ensures { result ≡ place_of self.now owner.now record_type.0 }
    {
        self.at_key(&SetKey::of(owner, record_type))
    }

    // The place of the set of a key.
    fn at_key(&self, key: &SetKey) -> Option<usize>
        ensures { result ≡ place_at_key self.now key.now }
    {
        self.places.get(key).copied()
    }

    /// Gives a set's owner and type a place, unless they have one.
    pub(crate) fn add(
        &mut self,
        owner: &Name,
        record_type: RecordType,
        place: usize,
    ) -> Result<(), NoMemory>
        ensures { OnOk result ((o : Labels) (k : ℕ) → place_of self.new o k
            ≡ with_place (place_of self.old) owner.now record_type.0 place o k) }
    {
        let key = SetKey::of(owner, record_type);
        match self.at_key(&key) {
            Some(_) => Ok(()),
            None => {
                self.places.insert(key, place)?;
                Ok(())
            }
        }
    }

    /// The place of a record's set.
    pub(crate) fn of_record(&self, met: &Record) -> Option<usize>
        ensures { result ≡ place_of self.now met.now.owner met.now.rtype }
    {
        self.get(&met.name, met.record_type)
    }

    /// Gives a record's set a place, unless it has one.
    pub(crate) fn add_record(&mut self, met: &Record, place: usize) -> Result<(), NoMemory>
        ensures { OnOk result ((o : Labels) (k : ℕ) → place_of self.new o k
            ≡ with_place (place_of self.old) met.now.owner met.now.rtype place o k) }
    {
        self.add(&met.name, met.record_type, place)
    }
}

/// The places of the sets of a section.
pub fn judged_places(
    alloc: Global,
    sets: &[ChainedSet],
    section: Section,
) -> Result<SetPlaces, NoMemory>
    ensures { IfOk result (λ p. ArePlacedIn p section (bare sets.now)) }
{
    let mut places = SetPlaces::new(alloc);
    for (place, set) in sets.iter().enumerate() {
        add_judged(&mut places, section, &set.judged, place)?;
    }
    Ok(places)
}

// Gives a set of the section its place.
fn add_judged(
    places: &mut SetPlaces,
    section: Section,
    judged: &MarkedSet,
    place: usize,
) -> Result<(), NoMemory>
    ensures { OnOk result ((o : Labels) (k : ℕ) → place_of places.new o k
        ≡ with_judged (place_of places.old) section judged.now place o k) }
{
    if !is_section(judged.section, section) {
        return Ok(());
    }
    places.add(&judged.set.name, judged.set.record_type, place)
}

// Whether sections are one.
fn is_section(one: Section, other: Section) -> bool
    ensures { result ≡ section_eq one other }
{
    one == other
}

/// The type of the set that a record belongs to, or that it covers as a signature; and whether it is one that can be read.
pub fn set_rtype(of: &Record) -> (RecordType, bool)
    ensures rtype { result.0.0 ≡ set_rtype_of of.now }
    ensures readable { result.1 ≡ is_readable of.now }
{
    match Rrsig::of(of) {
        Some(sig) => (sig.type_covered, true),
        None => (of.record_type, false),
    }
}
