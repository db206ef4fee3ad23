//! How the records of a message are grouped into RRsets (RFC 2181, 5), with no mark from outside.
ghost use Rattle.std.specs.Prelude.{◌≡◌, ◌++◌, IfOk, OnOk, map};
ghost use Rattle.dns_model.specs.Sections.{sets_of};
ghost use Rattle.dns_model.specs.SoundAnswers.{told_by, in_section};
ghost use Rattle.dns_rules.specs.Marking.{cleared, cleared_message};
ghost use Rattle.dns_rules.specs.Asking.{judged_at, judged_part, is_judged_at as is_judged_at_depth};
ghost use Rattle.dns_outcome.specs.Joining.{joined_by, met_by, handed, with_record as record_added, with_signature as signature_added};
ghost use Rattle.dns_model.specs.RecordViews.{rrsig_of};
ghost use Rattle.dns_outcome.specs.SetPlaces.{ArePlaces, place_of, place_covered};

use crate::set_places::SetPlaces;
use dns_evidence::PlacedSet;
use dns_message::Message;
use dns_model::{Proof, Section};
use dns_rdata::Rrsig;
use dns_record::{NoMemory, Record, RecordSet, RecordType};
use std::alloc::Global;

/// Takes every mark off the records of a message, so that none from outside is believed.
pub fn clear_marks(message: &mut Message)
    ensures { message.new ≡ cleared_message message.old }
{
    clear(&mut message.answers);
    clear(&mut message.authorities);
    clear(&mut message.additionals);
}

/// The RRsets of the three sections of a message that are judged at a depth, in order of first appearance (RFC 2181, 5):
/// all at depth 0, below it those of the types by which others are judged.
pub fn judged_part(alloc: Global, depth: u16, message: &Message) -> Result<Vec<PlacedSet>, NoMemory>
    ensures { IfOk result (λ v. v.items ≡ judged_part depth (told_by message.now)) }
{
    let mut placed = Vec::new(alloc);
    place_section(alloc, &mut placed, depth, Section::Answer, &message.answers)?;
    place_section(
        alloc,
        &mut placed,
        depth,
        Section::Authority,
        &message.authorities,
    )?;
    place_section(
        alloc,
        &mut placed,
        depth,
        Section::Additional,
        &message.additionals,
    )?;
    Ok(placed)
}

// Takes the marks off records.
#[tactic(auto, using(std::proofs::lemmas::List::Edits::map_over_more))]
fn clear(records: &mut [Record])
    ensures { records.new ≡ map cleared records.old }
{
    for next in records.iter_mut() {
        clear_one(next);
    }
}

/// Takes the mark off a record.
pub fn clear_one(next: &mut Record)
    ensures { next.new ≡ cleared next.old }
{
    next.proof = Proof::Indeterminate;
}

// Adds a record to the set.
fn add_record(set: &mut RecordSet, next: Record) -> Result<(), NoMemory>
    ensures { OnOk result (set.new ≡ record_added next set.old) }
{
    set.records.push(next)?;
    Ok(())
}

// Adds a signature to the set.
fn add_signature(set: &mut RecordSet, next: Record) -> Result<(), NoMemory>
    ensures { OnOk result (set.new ≡ signature_added next set.old) }
{
    set.rrsigs.push(next)?;
    Ok(())
}

// Puts a record that is no signature into the set of its owner and type, or into a set of its own.
fn join(
    alloc: Global,
    sets: &mut Vec<RecordSet>,
    places: &mut SetPlaces,
    met: &Record,
) -> Result<(), NoMemory>
    requires { ArePlaces places.old sets.old.items }
    ensures sets { OnOk result (sets.new.items ≡ joined_by met.now sets.old.items) }
    ensures places { OnOk result (ArePlaces places.new sets.new.items) }
{
    let next = met.try_clone()?;
    match places.of_record(met) {
        Some(place) => {
            add_record(&mut sets[place], next)?;
            Ok(())
        }
        None => {
            places.add_record(met, sets.len())?;
            let own = RecordSet::of(alloc, next)?;
            sets.push(own)?;
            Ok(())
        }
    }
}

// Meets the next record of a section: a signature joins no set.
fn meet(
    alloc: Global,
    sets: &mut Vec<RecordSet>,
    places: &mut SetPlaces,
    met: &Record,
) -> Result<(), NoMemory>
    requires { ArePlaces places.old sets.old.items }
    ensures sets { OnOk result (sets.new.items ≡ met_by met.now sets.old.items) }
    ensures places { OnOk result (ArePlaces places.new sets.new.items) }
{
    if met.record_type == RecordType::RRSIG {
        return Ok(());
    }
    join(alloc, sets, places, met)
}

// Gives a signature that can be read to the set that it covers.
fn give(sets: &mut Vec<RecordSet>, places: &SetPlaces, met: &Record) -> Result<(), NoMemory>
    requires { ArePlaces places.now sets.old.items }
    ensures sets { OnOk result (sets.new.items ≡ handed met.now sets.old.items) }
    ensures places { OnOk result (ArePlaces places.now sets.new.items) }
{
    match covered_place(places, met) {
        Some(place) => {
            let next = met.try_clone()?;
            add_signature(&mut sets[place], next)?;
            Ok(())
        }
        None => Ok(()),
    }
}

// The place of the set that a signature covers.
fn covered_place(places: &SetPlaces, met: &Record) -> Option<usize>
    ensures { result ≡ place_covered (place_of places.now) met.now.owner (rrsig_of met.now) }
{
    let sig = Rrsig::of(met)?;
    places.get(&met.name, sig.type_covered)
}

/// The RRsets of a section, in order of first appearance, with their signatures (RFC 2181, 5). The only error is that memory ran out.
// Signatures come second, since one may stand before its set.
pub fn sets_in(alloc: Global, section: &[Record]) -> Result<Vec<RecordSet>, NoMemory>
    ensures { IfOk result (λ v. v.items ≡ sets_of section.now) }
{
    let mut sets = Vec::new(alloc);
    let mut places = SetPlaces::new(alloc);
    'records: for met in section {
        meet(alloc, &mut sets, &mut places, met)?;
    }
    'signatures: for met in section {
        give(&mut sets, &places, met)?;
    }
    Ok(sets)
}

// Whether a type's sets are judged at a depth.
fn is_judged_at(depth: u16, record_type: RecordType) -> bool
    ensures { result ≡ is_judged_at_depth depth record_type.0 }
{
    depth == 0
        || record_type == RecordType::DNSKEY
        || record_type == RecordType::DS
        || record_type == RecordType::NSEC
        || record_type == RecordType::NSEC3
        || record_type == RecordType::SOA
}

// Adds the sets of a section that are judged at a depth.
fn place_all(
    into: &mut Vec<PlacedSet>,
    depth: u16,
    section: Section,
    sets: Vec<RecordSet>,
) -> Result<(), NoMemory>
    ensures { OnOk result (into.new.items ≡ into.old.items ++ judged_at depth (map (in_section section) sets.items)) }
{
    for set in sets {
        if is_judged_at(depth, set.record_type) {
            into.push(PlacedSet { section, set })?;
        }
    }
    Ok(())
}

// Adds the sets of a section's records that are judged at a depth.
fn place_section(
    alloc: Global,
    into: &mut Vec<PlacedSet>,
    depth: u16,
    section: Section,
    records: &[Record],
) -> Result<(), NoMemory>
    ensures { OnOk result (into.new.items ≡ into.old.items
        ++ judged_at depth (map (in_section section) (sets_of records.now))) }
{
    let sets = sets_in(alloc, records)?;
    place_all(into, depth, section, sets)
}
