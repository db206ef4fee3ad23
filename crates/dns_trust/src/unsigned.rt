//! What a zone leaves to its unsigned sets, by the answer to the ask for its DS set (RFC 4035, 4.3 and 5.2; RFC 5155, 8.9).

ghost use Rattle.std.specs.Prelude.{◌≡◌, ◌||◌, [], None, IfOk, if◌then◌else◌};
ghost use Rattle.std.specs.List.{list_any, find};
ghost use Rattle.std.specs.Option.{option_map, option_copied};
ghost use Rattle.dns_rules.specs.ChainedSets.{bare};
ghost use Rattle.dns_rules.specs.Delegations.{ZoneVerdict, zone_verdict, verdict_without_ds, is_ds_set_of, shows_no_ds as shows_none, shows_no_ds_by_hash, shows_unsigned_cut as shows_cut, is_insecure_above as is_above, is_readable_ds as is_readable, is_supported_ds as is_supported};
ghost use Rattle.dns_rules.specs.ListedTypes.{is_unsigned_cut as is_cut};
ghost use Rattle.dns_model.specs.declared.proof.Proof.TheVariants.{Insecure, Bogus};
ghost use Rattle.dns_trust.specs.Unsigned.{unsupported_mark};
ghost use Rattle.dns_trust.specs.ZoneRows.{row_of};
ghost use Rattle.dns_rules.specs.Unsigned.{unsigned_mark};
ghost use Rattle.dns_trust.specs.Verdicts.{listed};

use crate::{ZoneRow, is_supported_ds, zone_row};
use dns_denial::verify_nsec3_insecure_delegation;
use dns_denying::nsec3_denials;
use dns_evidence::{ChainedSet, MarkedSet, PlacedSet, Verifier};
use dns_model::{Proof, Section};
use dns_rdata::{Ds, Nsec};
use dns_record::{DNSClass, Name, NoMemory, Record, RecordType};
use std::alloc::Global;

/// An unsigned set with the mark that its zone leaves to it. It has no chain.
pub fn unsigned_set(alloc: Global, placed: PlacedSet, mark: Proof) -> ChainedSet
    ensures judged { result.judged ≡ record { section = placed.section; set = placed.set; mark = mark; sig = None } }
    ensures chain { result.chain ≡ [] }
{
    let PlacedSet { section, set } = placed;
    let judged = MarkedSet {
        section,
        set,
        mark,
        sig: None,
    };
    ChainedSet {
        judged,
        chain: Vec::new(alloc),
    }
}

/// What a zone leaves to the sets in it that are unsigned, by the judged sets of the answer to the ask for its DS set; None where
/// the ask failed or was refused: Insecure where no more can be expected, and else Bogus (RFC 4035, 4.3 and 5.2; RFC 5155, 8.9).
pub fn zone_mark<V: Verifier>(
    alloc: Global,
    verifier: &V,
    class: DNSClass,
    zone: &Name,
    answer: &Option<Vec<ChainedSet>>,
) -> Result<Proof, NoMemory>
    ensures { IfOk result (λ mark. mark ≡ (unsigned_mark (zone_verdict (V.answers verifier.now) class.0 zone.now
        (option_map bare (listed answer.now)))).mark) }
{
    let row = zone_row(alloc, verifier, class, zone, answer)?;
    Ok(mark_of_row(row))
}

/// The same by the row of the zone's DS verdict that holds.
pub fn mark_of_row(row: ZoneRow) -> Proof
    ensures { (verdict : ZoneVerdict) → row ≡ row_of verdict → result ≡ (unsigned_mark verdict).mark }
{
    match row {
        ZoneRow::Unsupported | ZoneRow::ShownAbsent => Proof::Insecure,
        ZoneRow::Unanswered | ZoneRow::Signed | ZoneRow::NotShown => Proof::Bogus,
    }
}

/// What a Secure DS set without a supported record leaves to the unsigned sets of its zone.
pub(crate) fn mark_by_unsupported(records: &[Record]) -> Proof
    ensures { result ≡ unsupported_mark records.now }
{
    if has_readable(records) {
        Proof::Insecure
    } else {
        Proof::Bogus
    }
}

/// What an answer without a DS set of the zone leaves to its unsigned sets.
pub(crate) fn mark_without_ds(
    alloc: Global,
    zone: &Name,
    sets: &[ChainedSet],
) -> Result<Proof, NoMemory>
    ensures { IfOk result (λ mark. mark ≡ (unsigned_mark (verdict_without_ds zone.now (bare sets.now))).mark) }
{
    if is_insecure_without_ds(zone, sets) {
        return Ok(Proof::Insecure);
    }
    mark_by_hashes(alloc, zone, sets)
}

// What its Secure NSEC3 records leave to them (RFC 5155, 8.9).
fn mark_by_hashes(alloc: Global, zone: &Name, sets: &[ChainedSet]) -> Result<Proof, NoMemory>
    ensures { IfOk result
        (λ mark. mark ≡ (if shows_no_ds_by_hash zone.now (bare sets.now) then Insecure else Bogus)) }
{
    let nsec3s = nsec3_denials(alloc, sets)?;
    if verify_nsec3_insecure_delegation(zone, &nsec3s) {
        Ok(Proof::Insecure)
    } else {
        Ok(Proof::Bogus)
    }
}

// The answer shows that the delegation has no DS, or an Insecure set of the zone or above it.
fn is_insecure_without_ds(zone: &Name, sets: &[ChainedSet]) -> bool
    ensures { result ≡ list_any (λ c. shows_none zone.now c.judged || is_above zone.now c.judged) sets.now }
{
    for set in sets {
        if shows_no_ds(zone, &set.judged) || is_insecure_above(zone, &set.judged) {
            return true;
        }
    }
    false
}

/// Some record is a DS that is supported.
pub(crate) fn has_supported<V: Verifier>(verifier: &V, records: &[Record]) -> bool
    ensures { result ≡ list_any (is_supported (V.answers verifier.now)) records.now }
{
    for read in records {
        if is_supported_ds(verifier, read) {
            return true;
        }
    }
    false
}

/// Some record can be read as a DS.
pub(crate) fn has_readable(records: &[Record]) -> bool
    ensures { result ≡ list_any is_readable records.now }
{
    for read in records {
        if Ds::of(read).is_some() {
            return true;
        }
    }
    false
}

// A Secure NSEC of the zone in the authority section shows that its delegation has no DS.
fn shows_no_ds(zone: &Name, judged: &MarkedSet) -> bool
    ensures { result ≡ shows_none zone.now judged.now }
{
    let set = &judged.set;
    judged.section == Section::Authority
        && judged.mark == Proof::Secure
        && *zone == set.name
        && set.record_type == RecordType::NSEC
        && has_unsigned_cut(&set.records)
}

// Some record shows a delegation to an unsigned zone.
fn has_unsigned_cut(records: &[Record]) -> bool
    ensures { result ≡ list_any shows_cut records.now }
{
    for next in records {
        if shows_unsigned_cut(next) {
            return true;
        }
    }
    false
}

/// An NSEC shows a delegation to an unsigned zone: NS is among its types, DS and SOA aren't (RFC 4035, 5.2). False where its
/// rdata can't be read; whether the record is of type NSEC, and of whom, the caller has tested.
pub fn shows_unsigned_cut(next: &Record) -> bool
    ensures { result ≡ shows_cut next.now }
{
    match Nsec::read(next.rdata.as_slice()) {
        Some(nsec) => is_unsigned_cut(&nsec),
        None => false,
    }
}

// The types are those of such a delegation.
fn is_unsigned_cut(nsec: &Nsec<'_>) -> bool
    ensures { result ≡ is_cut nsec.now.types }
{
    let types = &nsec.types;
    types.contains(RecordType::NS)
        && !types.contains(RecordType::DS)
        && !types.contains(RecordType::SOA)
}

// A set that is Insecure, at the zone or above it.
fn is_insecure_above(zone: &Name, judged: &MarkedSet) -> bool
    ensures { result ≡ is_above zone.now judged.now }
{
    judged.mark == Proof::Insecure && judged.set.name.zone_of(zone)
}

/// The first DS set of a zone in the answer section.
pub(crate) fn ds_set_of<'a>(
    class: DNSClass,
    zone: &Name,
    sets: &'a [ChainedSet],
) -> Option<&'a ChainedSet>
    ensures { option_copied result ≡ find (λ c. is_ds_set_of class.0 zone.now c.judged) sets.now }
{
    for chained in sets {
        if is_ds_set(class, zone, &chained.judged) {
            return Some(chained);
        }
    }
    None
}

// The set is a DS set of the zone in the answer section.
fn is_ds_set(class: DNSClass, zone: &Name, judged: &MarkedSet) -> bool
    ensures { result ≡ is_ds_set_of class.0 zone.now judged.now }
{
    let set = &judged.set;
    judged.section == Section::Answer
        && *zone == set.name
        && set.record_type == RecordType::DS
        && class == set.dns_class
}
