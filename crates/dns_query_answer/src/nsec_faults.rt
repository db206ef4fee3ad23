//! What NSEC records leave open of what a response denies, in words (RFC 4035, 3.1.3, 5.3.4 and 5.4; RFC 4592, 3.3.1).
ghost use Rattle.std.specs.Prelude.{◌≡◌, ◌++◌, ◌∷◌, [], IfOk, OnOk};
ghost use Rattle.std.specs.List.{filter_map, find};
ghost use Rattle.dns_model.specs.Names.{common_ancestor as ancestor_of};
ghost use Rattle.dns_rules.specs.Denying.{owned_nsec};
ghost use Rattle.dns_rules.specs.NsecVerdict.{closest_encloser as encloser_of, is_owned_by};
ghost use Rattle.dns_query_answer.specs.NsecFaults.{nsec_below, nsec_contradicts, nsec_covered_fault, nsec_fault, nsec_name_fault, nsec_shows_at, nsec_uncovered, nsec_undenied, nsec_unshown, nsec_wildcard_fault, nsecs_in as nsecs_of};

use crate::wildcards::{has_answer, is_plain_answer, wildcard_below};
use crate::words::push_named;
use dns_denial::{NsecFind, NsecRecords};
use dns_evidence::Told;
use dns_rdata::NsecRecord;
use dns_record::{Name, NameRef, NoMemory, Query, Record, ResponseCode};
use dns_text::push_text;
use std::alloc::Global;

// Adds what a record says, if it can be read as an NSEC record.
fn push_nsec(nsecs: &mut Vec<NsecRecord>, found: &Record) -> Result<(), NoMemory>
    ensures { OnOk result (nsecs.new.items ≡ nsecs.old.items ++ filter_map owned_nsec (found.now ∷ [])) }
{
    if let Some(nsec) = NsecRecord::of(*nsecs.allocator(), found)? {
        nsecs.push(nsec)?;
    }
    Ok(())
}

// The records that can be read as NSEC records.
fn nsecs_in(alloc: Global, records: &[Record]) -> Result<Vec<NsecRecord>, NoMemory>
    ensures { IfOk result (λ v. v.items ≡ nsecs_of records.now) }
{
    let mut nsecs = Vec::new(alloc);
    for found in records {
        push_nsec(&mut nsecs, found)?;
    }
    Ok(nsecs)
}

// ---- words

// Appends that the records don't show it.
fn push_unshown(into: &mut Vec<u8>) -> Result<(), NoMemory>
    ensures { OnOk result (into.new.items ≡ into.old.items ++ nsec_unshown) }
{
    push_text(into, b": the NSEC records don't show it")
}

// Appends that no record covers a name.
#[tactic(auto, unfolding(crate::specs::NsecFaults::nsec_uncovered))]
fn push_uncovered(into: &mut Vec<u8>, name: &Name) -> Result<(), NoMemory>
    ensures { OnOk result (into.new.items ≡ into.old.items ++ nsec_uncovered name.now) }
{
    push_named(into, b": no NSEC record covers ", &name.borrowed())
}

// Appends that the record of a name says something else.
#[tactic(auto, unfolding(crate::specs::NsecFaults::nsec_contradicts))]
fn push_contradicted(into: &mut Vec<u8>, name: &Name) -> Result<(), NoMemory>
    ensures { OnOk result (into.new.items ≡ into.old.items ++ nsec_contradicts name.now) }
{
    push_named(
        into,
        b": that isn't what the NSEC record says of ",
        &name.borrowed(),
    )
}

// Appends that a name exists, since there are names below it.
#[tactic(auto, unfolding(crate::specs::NsecFaults::nsec_below))]
fn push_below(into: &mut Vec<u8>, name: &Name) -> Result<(), NoMemory>
    ensures { OnOk result (into.new.items ≡ into.old.items ++ nsec_below name.now) }
{
    push_named(into, b": there are names below ", &name.borrowed())
}

// Appends that no record denies what was asked for at a wildcard.
#[tactic(auto, unfolding(crate::specs::NsecFaults::nsec_undenied))]
fn push_undenied(into: &mut Vec<u8>, name: &Name) -> Result<(), NoMemory>
    ensures { OnOk result (into.new.items ≡ into.old.items ++ nsec_undenied name.now) }
{
    push_named(into, b": no NSEC record denies it at ", &name.borrowed())
}

// ---- the wildcard

// Whether the records show that a wildcard isn't there, or that it has no data of the type.
fn is_shown_at(query: &Query, code: ResponseCode, nsecs: &[NsecRecord], wildcard: &Name) -> bool
    ensures { result ≡ nsec_shows_at query.now code.0 nsecs.now wildcard.now }
{
    let name = wildcard.borrowed();
    if code == ResponseCode::NX_DOMAIN {
        nsecs.covering(&name, &mut ()).is_some()
    } else {
        nsecs.wildcard_denies(&name, query.query_type, &mut ())
    }
}

// Appends what the records leave open of a wildcard.
#[tactic(auto, unfolding(crate::specs::NsecFaults::nsec_wildcard_fault))]
fn push_wildcard_fault(
    into: &mut Vec<u8>,
    query: &Query,
    code: ResponseCode,
    nsecs: &[NsecRecord],
    wildcard: &Name,
) -> Result<(), NoMemory>
    ensures { OnOk result (into.new.items ≡ into.old.items
        ++ nsec_wildcard_fault query.now code.0 nsecs.now wildcard.now) }
{
    if is_shown_at(query, code, nsecs, wildcard) {
        return push_unshown(into);
    }
    if code == ResponseCode::NX_DOMAIN {
        push_uncovered(into, wildcard)
    } else {
        push_undenied(into, wildcard)
    }
}

// ---- the closest encloser

// The longest of a name and its ancestors that is at or above another name.
fn common_ancestor<'a>(name: &NameRef<'a>, other: &NameRef<'_>) -> NameRef<'a>
    ensures { result ≡ ancestor_of name.now other.now }
{
    match name.split_first() {
        Some((_, above)) => {
            if name.zone_of(other) {
                name.copy()
            } else {
                common_ancestor(&above, other)
            }
        }
        None => name.copy(),
    }
}

// The longest ancestor of a name that must exist where a record covers it.
#[tactic(auto, unfolding(dns_rules::specs::NsecVerdict::closest_encloser))]
fn closest_encloser<'a>(name: &NameRef<'a>, nsec: &NsecRecord) -> NameRef<'a>
    ensures { result ≡ encloser_of name.now nsec.now }
{
    let by_owner = common_ancestor(name, &nsec.owner.borrowed());
    let by_next = common_ancestor(name, &nsec.next.borrowed());
    if by_owner.label_count() < by_next.label_count() {
        by_next
    } else {
        by_owner
    }
}

// ---- the name

// Appends what the records leave open of a name that one covers.
#[tactic(auto, unfolding(crate::specs::NsecFaults::nsec_covered_fault))]
fn push_covered_fault(
    into: &mut Vec<u8>,
    query: &Query,
    code: ResponseCode,
    answers: bool,
    nsecs: &[NsecRecord],
    nsec: &NsecRecord,
) -> Result<(), NoMemory>
    ensures { OnOk result (into.new.items ≡ into.old.items
        ++ nsec_covered_fault query.now code.0 answers nsecs.now nsec.now) }
{
    let name = query.name.borrowed();
    if name.strictly_above(&nsec.next.borrowed()) {
        return push_below(into, &query.name);
    }
    if answers {
        return push_unshown(into);
    }
    match wildcard_below(*into.allocator(), &closest_encloser(&name, nsec))? {
        Some(wildcard) => push_wildcard_fault(into, query, code, nsecs, &wildcard),
        None => push_unshown(into),
    }
}

// Appends what the records leave open of the name that was asked for.
fn push_name_fault(
    into: &mut Vec<u8>,
    query: &Query,
    code: ResponseCode,
    answers: bool,
    nsecs: &[NsecRecord],
) -> Result<(), NoMemory>
    ensures { OnOk result (into.new.items ≡ into.old.items
        ++ nsec_name_fault query.now code.0 answers nsecs.now (find (is_owned_by query.now.owner) nsecs.now)) }
{
    match nsecs.of_name(&query.name.borrowed(), &mut ()) {
        NsecFind::Owned(_) => push_contradicted(into, &query.name),
        NsecFind::Covered(nsec) => push_covered_fault(into, query, code, answers, nsecs, nsec),
        NsecFind::Nothing => push_uncovered(into, &query.name),
    }
}

/// Appends what the NSEC records of a response leave open of what it denies.
#[tactic(auto, unfolding(crate::specs::NsecFaults::nsec_fault))]
pub(crate) fn push_nsec_fault(
    into: &mut Vec<u8>,
    query: &Query,
    told: &Told,
) -> Result<(), NoMemory>
    ensures { OnOk result (into.new.items ≡ into.old.items ++ nsec_fault query.now told.now.0) }
{
    if is_plain_answer(query, told) {
        return push_unshown(into);
    }
    let nsecs = nsecs_in(*into.allocator(), &told.authorities)?;
    push_name_fault(
        into,
        query,
        told.code,
        has_answer(query, &told.answers),
        &nsecs,
    )
}
