//! Whether the authority section leaves no more than Insecure to be expected of a response (RFC 4035, 4.3).
ghost use Rattle.std.specs.Prelude.{◌≡◌, false, not, ◌||◌, IfOk};
ghost use Rattle.std.specs.List.{list_any, list_all, find};
ghost use Rattle.std.specs.Option.{option_map_or};
ghost use Rattle.dns_model.specs.declared.section.Section.TheVariants.{Authority};
ghost use Rattle.dns_model.specs.Sections.{is_signature as is_signature_record};
ghost use Rattle.dns_model.specs.SoundAnswers.{told_by};
ghost use Rattle.dns_rules.specs.ChainedSets.{bare};
ghost use Rattle.dns_rules.specs.Delegations.{is_insecure as is_insecure_mark};
ghost use Rattle.dns_rules.specs.Marking.{is_about};
ghost use Rattle.dns_rules.specs.Outcome.{is_insecure_record as is_insecure_record_in, is_insecure_authority as is_told_insecure};
ghost use Rattle.dns_outcome.specs.SetPlaces.{ArePlacedIn};

use crate::{SetPlaces, judged_places, set_rtype};
use dns_evidence::ChainedSet;
use dns_message::Message;
use dns_model::{Proof, Section};
use dns_record::{NoMemory, Query, Record, RecordType};
use std::alloc::Global;

/// Whether there are records beside signatures, and each of them is Insecure with an owner at or above the name that is asked.
pub(crate) fn is_insecure_authority(
    alloc: Global,
    query: &Query,
    message: &Message,
    sets: &[ChainedSet],
) -> Result<bool, NoMemory>
    ensures { IfOk result (λ b. b ≡ is_told_insecure query.now (told_by message.now) (bare sets.now)) }
{
    if !has_unsigned(&message.authorities) {
        return Ok(false);
    }
    let places = judged_places(alloc, sets, Section::Authority)?;
    Ok(are_insecure(query, &message.authorities, sets, &places))
}

// Whether a record is a signature.
fn is_signature(found: &Record) -> bool
    ensures { result ≡ is_signature_record found.now }
{
    found.record_type == RecordType::RRSIG
}

// Whether there is a record that is no signature.
fn has_unsigned(records: &[Record]) -> bool
    ensures { result ≡ list_any (λ r. not (is_signature_record r)) records.now }
{
    for found in records {
        if !is_signature(found) {
            return true;
        }
    }
    false
}

// Whether each record that is no signature is Insecure, with an owner at or above the name that is asked.
fn are_insecure(query: &Query, records: &[Record], sets: &[ChainedSet], places: &SetPlaces) -> bool
    requires { ArePlacedIn places.now Authority (bare sets.now) }
    ensures { result ≡ list_all (λ r. is_signature_record r || is_insecure_record_in query.now (bare sets.now) r)
        records.now }
{
    for found in records {
        if !is_signature(found) && !is_insecure_record(query, sets, places, found) {
            return false;
        }
    }
    true
}

// Whether the set of a record is Insecure, with an owner at or above the name that is asked.
fn is_insecure_record(
    query: &Query,
    sets: &[ChainedSet],
    places: &SetPlaces,
    found: &Record,
) -> bool
    requires { ArePlacedIn places.now Authority (bare sets.now) }
    ensures { result ≡ is_insecure_record_in query.now (bare sets.now) found.now }
{
    found.name.zone_of(&query.name) && is_insecure_set(sets, places, found)
}

// Whether the set of a record is Insecure.
fn is_insecure_set(sets: &[ChainedSet], places: &SetPlaces, found: &Record) -> bool
    requires { ArePlacedIn places.now Authority (bare sets.now) }
    ensures { result
        ≡ option_map_or (λ judged. is_insecure_mark judged.mark)
        (find (is_about Authority found.now) (bare sets.now)) false }
{
    let (record_type, _) = set_rtype(found);
    match places.get(&found.name, record_type) {
        Some(place) => is_insecure(&sets[place]),
        None => false,
    }
}

// Whether a set is marked Insecure.
fn is_insecure(set: &ChainedSet) -> bool
    ensures { result ≡ is_insecure_mark set.now.judged.mark }
{
    set.judged.mark == Proof::Insecure
}
