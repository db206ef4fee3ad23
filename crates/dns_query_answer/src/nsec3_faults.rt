//! What NSEC3 records leave open of what a response denies, in words (RFC 5155, 8.3 to 8.8).
ghost use Rattle.std.specs.Prelude.{◌≡◌, ◌++◌, ◌∷◌, [], is_some, IfOk, OnOk};
ghost use Rattle.std.specs.List.{filter_map, find};
ghost use Rattle.std.specs.Option.{option_map_or};
ghost use Rattle.dns_rules.specs.Denying.{owned_nsec3};
ghost use Rattle.dns_rules.specs.Nsec3Covering.{nsec3_matches};
ghost use Rattle.dns_rules.specs.Nsec3Verdict.{covering_name, hashed, parameters_of};
ghost use Rattle.dns_query_answer.specs.Nsec3Faults.{matched_ancestor as ancestor_matched, nsec3_absent_fault, nsec3_ancestor_fault, nsec3_closer_fault, nsec3_contradicts, nsec3_denied_fault, nsec3_encloser_fault, nsec3_expanded_fault, nsec3_fault, nsec3_hashed_fault, nsec3_name_fault, nsec3_shows_at, nsec3_uncovered, nsec3_undenied, nsec3_unmatched, nsec3_unshown, nsec3_wildcard_fault, nsec3s_in as nsec3s_of};
ghost use Rattle.dns_query_answer.specs.Wildcards.{wildcard_below as wildcard_in};

use crate::wildcards::{expanded_labels, is_plain_answer, wildcard_below};
use crate::words::push_named;
use dns_denial::{Nsec3Parameters, Nsec3Records};
use dns_evidence::Told;
use dns_rdata::Nsec3Record;
use dns_record::{NameRef, NoMemory, Query, Record, ResponseCode};
use dns_text::push_text;
use std::alloc::Global;

// Adds what a record says, if it can be read as an NSEC3 record.
fn push_nsec3(nsec3s: &mut Vec<Nsec3Record>, found: &Record) -> Result<(), NoMemory>
    ensures { OnOk result (nsec3s.new.items ≡ nsec3s.old.items ++ filter_map owned_nsec3 (found.now ∷ [])) }
{
    if let Some(nsec3) = Nsec3Record::of(*nsec3s.allocator(), found)? {
        nsec3s.push(nsec3)?;
    }
    Ok(())
}

// The records that can be read as NSEC3 records.
fn nsec3s_in(alloc: Global, records: &[Record]) -> Result<Vec<Nsec3Record>, NoMemory>
    ensures { IfOk result (λ v. v.items ≡ nsec3s_of records.now) }
{
    let mut nsec3s = Vec::new(alloc);
    for found in records {
        push_nsec3(&mut nsec3s, found)?;
    }
    Ok(nsec3s)
}

// ---- words

// Appends that the records don't show it.
fn push_unshown(into: &mut Vec<u8>) -> Result<(), NoMemory>
    ensures { OnOk result (into.new.items ≡ into.old.items ++ nsec3_unshown) }
{
    push_text(into, b": the NSEC3 records don't show it")
}

// Appends that no record covers a name.
#[tactic(auto, unfolding(crate::specs::Nsec3Faults::nsec3_uncovered))]
fn push_uncovered(into: &mut Vec<u8>, name: &NameRef<'_>) -> Result<(), NoMemory>
    ensures { OnOk result (into.new.items ≡ into.old.items ++ nsec3_uncovered name.now) }
{
    push_named(into, b": no NSEC3 record covers ", name)
}

// Appends that the record of a name says something else.
#[tactic(auto, unfolding(crate::specs::Nsec3Faults::nsec3_contradicts))]
fn push_contradicted(into: &mut Vec<u8>, name: &NameRef<'_>) -> Result<(), NoMemory>
    ensures { OnOk result (into.new.items ≡ into.old.items ++ nsec3_contradicts name.now) }
{
    push_named(into, b": that isn't what the NSEC3 record says of ", name)
}

// Appends that no record matches a name or one above it.
#[tactic(auto, unfolding(crate::specs::Nsec3Faults::nsec3_unmatched))]
fn push_unmatched(into: &mut Vec<u8>, name: &NameRef<'_>) -> Result<(), NoMemory>
    ensures { OnOk result (into.new.items ≡ into.old.items ++ nsec3_unmatched name.now) }
{
    push_named(into, b": no NSEC3 record matches a name at or above ", name)
}

// Appends that no record denies what was asked for at a wildcard.
#[tactic(auto, unfolding(crate::specs::Nsec3Faults::nsec3_undenied))]
fn push_undenied(into: &mut Vec<u8>, name: &NameRef<'_>) -> Result<(), NoMemory>
    ensures { OnOk result (into.new.items ≡ into.old.items ++ nsec3_undenied name.now) }
{
    push_named(into, b": no NSEC3 record denies it at ", name)
}

// ---- the wildcard

// Whether the records show that a wildcard isn't there, or that it has no data of the type.
fn is_shown_at(
    by: &Nsec3Parameters<'_>,
    query: &Query,
    code: ResponseCode,
    nsec3s: &[Nsec3Record],
    wildcard: &NameRef<'_>,
) -> bool
    ensures { result ≡ nsec3_shows_at by.now query.now code.0 nsec3s.now wildcard.now }
{
    let hash = by.hash(wildcard);
    if code == ResponseCode::NX_DOMAIN {
        nsec3s.covering(&hash, &mut ()).is_some()
    } else {
        nsec3s.wildcard_denies(&hash, query.query_type, &mut ())
    }
}

// Appends what the records leave open of a wildcard.
#[tactic(auto, unfolding(crate::specs::Nsec3Faults::nsec3_wildcard_fault))]
fn push_wildcard_fault(
    into: &mut Vec<u8>,
    by: &Nsec3Parameters<'_>,
    query: &Query,
    code: ResponseCode,
    nsec3s: &[Nsec3Record],
    wildcard: &NameRef<'_>,
) -> Result<(), NoMemory>
    ensures { OnOk result (into.new.items ≡ into.old.items
        ++ nsec3_wildcard_fault by.now query.now code.0 nsec3s.now wildcard.now) }
{
    if is_shown_at(by, query, code, nsec3s, wildcard) {
        return push_unshown(into);
    }
    if code == ResponseCode::NX_DOMAIN {
        push_uncovered(into, wildcard)
    } else {
        push_undenied(into, wildcard)
    }
}

// Appends what the records leave open of the wildcard below the closest encloser.
fn push_below_encloser(
    into: &mut Vec<u8>,
    by: &Nsec3Parameters<'_>,
    query: &Query,
    code: ResponseCode,
    nsec3s: &[Nsec3Record],
    encloser: &NameRef<'_>,
) -> Result<(), NoMemory>
    ensures { OnOk result (into.new.items ≡ into.old.items
        ++ option_map_or (nsec3_wildcard_fault by.now query.now code.0 nsec3s.now) (wildcard_in encloser.now) nsec3_unshown) }
{
    match wildcard_below(*into.allocator(), encloser)? {
        Some(wildcard) => {
            push_wildcard_fault(into, by, query, code, nsec3s, &wildcard.borrowed())
        }
        None => push_unshown(into),
    }
}

// ---- the closest encloser

// Whether a record covers a name.
fn is_covered(by: &Nsec3Parameters<'_>, nsec3s: &[Nsec3Record], name: &NameRef<'_>) -> bool
    ensures { result ≡ is_some (covering_name by.now nsec3s.now name.now) }
{
    nsec3s.covering(&by.hash(name), &mut ()).is_some()
}

// Appends what the records leave open of the name with one label more than the closest encloser, and of the wildcard there.
#[tactic(auto, unfolding(crate::specs::Nsec3Faults::nsec3_encloser_fault))]
fn push_encloser_fault(
    into: &mut Vec<u8>,
    by: &Nsec3Parameters<'_>,
    query: &Query,
    code: ResponseCode,
    nsec3s: &[Nsec3Record],
    encloser: &NameRef<'_>,
) -> Result<(), NoMemory>
    ensures { OnOk result (into.new.items ≡ into.old.items
        ++ nsec3_encloser_fault by.now query.now code.0 nsec3s.now encloser.now) }
{
    let closer = query
        .name
        .borrowed()
        .last_labels(encloser.label_count() + 1);
    if is_covered(by, nsec3s, &closer) {
        push_below_encloser(into, by, query, code, nsec3s, encloser)
    } else {
        push_uncovered(into, &closer)
    }
}

// The longest name above a name that a record matches, at or below the zone.
fn matched_ancestor<'a>(
    by: &Nsec3Parameters<'_>,
    zone: &NameRef<'_>,
    nsec3s: &[Nsec3Record],
    name: &NameRef<'a>,
) -> Option<NameRef<'a>>
    ensures { result ≡ ancestor_matched by.now zone.now nsec3s.now name.now }
{
    let (_, above) = name.split_first()?;
    if !zone.zone_of(&above) {
        return None;
    }
    match nsec3s.matching(&by.hash(&above), &mut ()) {
        Some(_) => Some(above),
        None => matched_ancestor(by, zone, nsec3s, &above),
    }
}

// ---- the name

// Appends what the records of a zone leave open of a name that is denied.
fn push_ancestor_fault(
    into: &mut Vec<u8>,
    by: &Nsec3Parameters<'_>,
    query: &Query,
    code: ResponseCode,
    nsec3s: &[Nsec3Record],
    zone: &NameRef<'_>,
) -> Result<(), NoMemory>
    ensures { OnOk result (into.new.items ≡ into.old.items ++ nsec3_ancestor_fault by.now query.now code.0 nsec3s.now
        (ancestor_matched by.now zone.now nsec3s.now query.now.owner)) }
{
    let name = query.name.borrowed();
    match matched_ancestor(by, zone, nsec3s, &name) {
        Some(encloser) => push_encloser_fault(into, by, query, code, nsec3s, &encloser),
        None => push_unmatched(into, &name),
    }
}

// Appends what the records leave open of a name that is denied, by the zone that the first one is of.
fn push_denied_fault(
    into: &mut Vec<u8>,
    by: &Nsec3Parameters<'_>,
    query: &Query,
    code: ResponseCode,
    nsec3s: &[Nsec3Record],
) -> Result<(), NoMemory>
    ensures { OnOk result (into.new.items ≡ into.old.items ++ nsec3_denied_fault by.now query.now code.0 nsec3s.now) }
{
    match nsec3s {
        [first, ..] => {
            let zone = first.owner.borrowed().parent();
            push_ancestor_fault(into, by, query, code, nsec3s, &zone)
        }
        [] => push_unshown(into),
    }
}

// Appends what the records leave open of a name with one label more than the wildcard that an answer was made from.
#[tactic(auto, unfolding(crate::specs::Nsec3Faults::nsec3_closer_fault))]
fn push_closer_fault(
    into: &mut Vec<u8>,
    by: &Nsec3Parameters<'_>,
    nsec3s: &[Nsec3Record],
    closer: &NameRef<'_>,
) -> Result<(), NoMemory>
    ensures { OnOk result (into.new.items ≡ into.old.items ++ nsec3_closer_fault by.now nsec3s.now closer.now) }
{
    if is_covered(by, nsec3s, closer) {
        push_unshown(into)
    } else {
        push_uncovered(into, closer)
    }
}

// The same by how many labels the wildcard has.
fn push_expanded_fault(
    into: &mut Vec<u8>,
    by: &Nsec3Parameters<'_>,
    query: &Query,
    nsec3s: &[Nsec3Record],
    labels: u8,
) -> Result<(), NoMemory>
    ensures { OnOk result (into.new.items ≡ into.old.items ++ nsec3_expanded_fault by.now query.now nsec3s.now labels) }
{
    let name = query.name.borrowed();
    if labels < name.label_count() {
        push_closer_fault(into, by, nsec3s, &name.last_labels(labels + 1))
    } else {
        push_unshown(into)
    }
}

// Appends what the records leave open of a name that none matches.
fn push_absent_fault(
    into: &mut Vec<u8>,
    by: &Nsec3Parameters<'_>,
    query: &Query,
    code: ResponseCode,
    nsec3s: &[Nsec3Record],
    labels: Option<u8>,
) -> Result<(), NoMemory>
    ensures { OnOk result (into.new.items ≡ into.old.items
        ++ nsec3_absent_fault by.now query.now code.0 nsec3s.now labels) }
{
    match labels {
        Some(labels) => push_expanded_fault(into, by, query, nsec3s, labels),
        None => push_denied_fault(into, by, query, code, nsec3s),
    }
}

// Appends what the records leave open of the name that was asked for.
fn push_name_fault(
    into: &mut Vec<u8>,
    by: &Nsec3Parameters<'_>,
    query: &Query,
    code: ResponseCode,
    nsec3s: &[Nsec3Record],
    labels: Option<u8>,
) -> Result<(), NoMemory>
    ensures { OnOk result (into.new.items ≡ into.old.items ++ nsec3_name_fault by.now query.now code.0 nsec3s.now labels
        (find (nsec3_matches (hashed by.now query.now.owner)) nsec3s.now)) }
{
    let name = query.name.borrowed();
    match nsec3s.matching(&by.hash(&name), &mut ()) {
        Some(_) => push_contradicted(into, &name),
        None => push_absent_fault(into, by, query, code, nsec3s, labels),
    }
}

// The same, by how names are hashed.
fn push_hashed_fault(
    into: &mut Vec<u8>,
    query: &Query,
    code: ResponseCode,
    nsec3s: &[Nsec3Record],
    labels: Option<u8>,
) -> Result<(), NoMemory>
    ensures { OnOk result (into.new.items ≡ into.old.items
        ++ nsec3_hashed_fault query.now code.0 nsec3s.now labels (parameters_of nsec3s.now)) }
{
    match nsec3s.parameters() {
        Some(by) => push_name_fault(into, &by, query, code, nsec3s, labels),
        None => push_unshown(into),
    }
}

/// Appends what the NSEC3 records of a response leave open of what it denies.
#[tactic(auto, unfolding(crate::specs::Nsec3Faults::nsec3_fault))]
pub(crate) fn push_nsec3_fault(
    into: &mut Vec<u8>,
    query: &Query,
    told: &Told,
) -> Result<(), NoMemory>
    ensures { OnOk result (into.new.items ≡ into.old.items ++ nsec3_fault query.now told.now.0) }
{
    if is_plain_answer(query, told) {
        return push_unshown(into);
    }
    let nsec3s = nsec3s_in(*into.allocator(), &told.authorities)?;
    push_hashed_fault(
        into,
        query,
        told.code,
        &nsec3s,
        expanded_labels(query, &told.answers),
    )
}
