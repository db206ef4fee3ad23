//! Which row of the DS verdict of a zone holds (RFC 4035, 5.2).

ghost use Rattle.std.specs.Prelude.{◌≡◌, IfOk};
ghost use Rattle.std.specs.Option.{option_map};
ghost use Rattle.dns_rules.specs.ChainedSets.{bare};
ghost use Rattle.dns_rules.specs.Delegations.{verdict_by_ds, verdict_without_ds, zone_verdict};
ghost use Rattle.dns_trust.specs.Verdicts.{listed};
ghost use Rattle.dns_model.specs.declared.proof.Proof.TheVariants.{Secure};
ghost use Rattle.dns_model.specs.Names.{Labels};
ghost use Rattle.dns_trust.specs.ZoneRows.{absence_row, row_of, unsupported_row};

use crate::unsigned::{ds_set_of, has_readable, has_supported, mark_without_ds};
use dns_evidence::{ChainedSet, Verifier};
use dns_model::Proof;
use dns_record::{DNSClass, Name, NoMemory, Record};
use std::alloc::Global;

/// Which row of the DS verdict of a zone holds (RFC 4035, 5.2).
#[derive(Clone, Copy, Debug, PartialEq, Eq, Hash)]
pub enum ZoneRow {
    /// The ask for its DS set failed or was refused.
    Unanswered,
    /// It has a Secure DS set with a supported record.
    Signed,
    /// It has a Secure DS set, of which some record can be read, and none is supported.
    Unsupported,
    /// It is shown that it has no DS, or a set at the zone or above it is Insecure.
    ShownAbsent,
    /// Neither is shown.
    NotShown,
}

/// The row that holds, by the judged sets of the answer to the ask for the zone's DS set; None where the ask failed or was
/// refused.
pub fn zone_row<V: Verifier>(
    alloc: Global,
    verifier: &V,
    class: DNSClass,
    zone: &Name,
    answer: &Option<Vec<ChainedSet>>,
) -> Result<ZoneRow, NoMemory>
    ensures { IfOk result (λ row. row ≡ row_of (zone_verdict (V.answers verifier.now) class.0 zone.now
        (option_map bare (listed answer.now)))) }
{
    let Some(sets) = answer else {
        return Ok(ZoneRow::Unanswered);
    };
    match ds_set_of(class, zone, sets) {
        Some(found) => Ok(row_by_set(verifier, zone, found)),
        None => row_without_ds(alloc, zone, sets),
    }
}

// By the DS set of the zone.
fn row_by_set<V: Verifier>(verifier: &V, zone: &Name, found: &ChainedSet) -> ZoneRow
    ensures { result ≡ row_of (verdict_by_ds (V.answers verifier.now) zone.now found.now.judged.mark
        found.now.judged.set.records) }
{
    match found.judged.mark {
        Proof::Secure => row_by_ds(verifier, found.judged.set.records.as_slice()),
        Proof::Insecure | Proof::Bogus | Proof::Indeterminate => ZoneRow::NotShown,
    }
}

// By the records of the zone's DS set, which is Secure.
fn row_by_ds<V: Verifier>(verifier: &V, records: &[Record]) -> ZoneRow
    ensures { (zone : Labels) → result ≡ row_of (verdict_by_ds (V.answers verifier.now) zone Secure records.now) }
{
    if has_supported(verifier, records) {
        ZoneRow::Signed
    } else {
        row_by_unsupported(records)
    }
}

// By a Secure DS set without a supported record.
fn row_by_unsupported(records: &[Record]) -> ZoneRow
    ensures { result ≡ unsupported_row records.now }
{
    if has_readable(records) {
        ZoneRow::Unsupported
    } else {
        ZoneRow::NotShown
    }
}

// By an answer without a DS set of the zone.
#[tactic(auto, using(crate::proofs::ByRow::absence_rows))]
fn row_without_ds(alloc: Global, zone: &Name, sets: &[ChainedSet]) -> Result<ZoneRow, NoMemory>
    ensures { IfOk result (λ row. row ≡ row_of (verdict_without_ds zone.now (bare sets.now))) }
{
    Ok(row_of_absence(mark_without_ds(alloc, zone, sets)?))
}

// By what such an answer leaves to unsigned sets.
fn row_of_absence(mark: Proof) -> ZoneRow
    ensures { result ≡ absence_row mark }
{
    match mark {
        Proof::Insecure => ZoneRow::ShownAbsent,
        Proof::Secure | Proof::Bogus | Proof::Indeterminate => ZoneRow::NotShown,
    }
}
