//! The mark of a DNSKEY set, by trust anchors and then by the DS verdict of its owner (RFC 4035, 5.2).

ghost use Rattle.std.specs.Prelude.{◌≡◌, ◌<◌, length, true, Some};
ghost use Rattle.std.specs.Option.{option_map};
ghost use Rattle.std.specs.List.{filter};
ghost use Rattle.dns_rules.specs.Delegations.{is_supported_ds};
ghost use Rattle.dns_model.specs.Gives.{Gives};
ghost use Rattle.dns_model.specs.Chains.{judge};
ghost use Rattle.dns_rules.specs.KeySets.{needs_ds, keys_outcome, outcome_by_verdict, outcome_by_ds};
ghost use Rattle.dns_trust.specs.Judge.{judge_of};
ghost use Rattle.dns_cache.specs.Kinds.{out_of_memory};
ghost use Rattle.dns_marks.specs.KeyMarks.{keys_mark};
ghost use Rattle.dns_cache.specs.Proofs.{proved_by as proved_under};
ghost use Rattle.dns_marks.specs.ZoneVerdicts.{zone_verdict_value};
ghost use Rattle.dns_marks.specs.declared.key_marks.KeysMark.TheVariants.{Done};

use crate::ZoneVerdict;
use crate::rrset_proof::{proved_by, proved_whole};
use dns_cache::{ProofError, ProofErrorKind, RrsetProof};
use dns_evidence::Verifier;
use dns_model::Proof;
use dns_record::{Record, RecordSet};
use dns_trust::{
    AnchoredRow, DsIndex, Judge, MatchedRow, SignedBy, TrustAnchors, anchored_row, matched_row,
};
use std::alloc::Global;

/// How far a DNSKEY set is judged.
pub enum KeysMark {
    /// The DS verdict of its owner decides, and wasn't handed in.
    NeedDs,
    /// It is judged.
    Done(RrsetProof),
}

// By hand, so that a function that lets one go calls this.
impl Drop for KeysMark {
    fn drop(self) {
        match self {
            KeysMark::NeedDs => {}
            KeysMark::Done(_) => {}
        }
    }
}

/// The mark of a DNSKEY set with a key at a moment in seconds since 1970, by trust anchors and then by the DS verdict of its
/// owner, if that is known (RFC 4035, 5.2).
pub fn mark_keys<V: Verifier>(
    alloc: Global,
    verifier: &V,
    anchors: &TrustAnchors,
    set: &RecordSet,
    zone: Option<&ZoneVerdict>,
    now: u64,
) -> Result<KeysMark, ProofError>
    requires record { 0 < length set.now.records }
    ensures { Gives (λ mark. mark) out_of_memory result
        (keys_mark now set.now
        (keys_outcome (judge (V.answers verifier.now) anchors.now now) set.now
        (option_map (λ z. zone_verdict_value z.now) zone.entry))) }
{
    let judge = Judge {
        verifier,
        anchors,
        moment: now,
    };
    match anchored_row(alloc, &judge, set)? {
        AnchoredRow::Signed(by) => Ok(signed(set, &by, now)),
        AnchoredRow::Whole => Ok(KeysMark::Done(proved_whole())),
        AnchoredRow::Root => {
            let name = set.name.try_clone()?;
            let kind = ProofErrorKind::DnskeyNotFound { name };
            Err(ProofError::new(Proof::Bogus, kind))
        }
        AnchoredRow::NeedsDs => match zone {
            Some(zone) => marked_by_zone(alloc, &judge, set, zone),
            None => Ok(KeysMark::NeedDs),
        },
    }
}

// Signed by a key of it.
fn signed(set: &RecordSet, by: &SignedBy<'_>, now: u64) -> KeysMark
    ensures { result ≡ Done (proved_under now set.now by.now.signature.now (Some by.now.place)) }
{
    KeysMark::Done(proved_by(now, set, by.signature, Some(by.place)))
}

// The mark of a key set by the DS verdict of its owner.
fn marked_by_zone<V: Verifier>(
    alloc: Global,
    judge: &Judge<'_, V>,
    set: &RecordSet,
    zone: &ZoneVerdict,
) -> Result<KeysMark, ProofError>
    requires { needs_ds (judge_of V.answers judge.now) set.now ≡ true }
    ensures { Gives (λ mark. mark) out_of_memory result
        (keys_mark judge.now.moment set.now
        (outcome_by_verdict (judge_of V.answers judge.now) set.now (Some (zone_verdict_value zone.now)))) }
{
    match zone {
        ZoneVerdict::Signed(ds) => marked_by_ds(alloc, judge, set, ds),
        ZoneVerdict::Insecure(kind) => { Err(ProofError::new(Proof::Insecure, kind.try_clone()?)) }
        ZoneVerdict::Bogus(kind) => { Err(ProofError::new(Proof::Bogus, kind.try_clone()?)) }
    }
}

// The mark of a key set by DS records of its owner, of which the supported ones count.
fn marked_by_ds<V: Verifier>(
    alloc: Global,
    judge: &Judge<'_, V>,
    set: &RecordSet,
    ds: &[Record],
) -> Result<KeysMark, ProofError>
    requires { needs_ds (judge_of V.answers judge.now) set.now ≡ true }
    ensures { Gives (λ mark. mark) out_of_memory result
        (keys_mark judge.now.moment set.now
        (outcome_by_ds (judge_of V.answers judge.now) set.now
        (filter (is_supported_ds (V.answers judge.now.verifier.now)) ds.now))) }
{
    let index = DsIndex::of_supported(alloc, judge.verifier, &set.name, ds)?;
    match matched_row(alloc, judge, set, &index)? {
        MatchedRow::Signed(by) => Ok(signed(set, &by, judge.moment)),
        MatchedRow::Whole => Ok(KeysMark::Done(proved_whole())),
        MatchedRow::Neither => {
            let name = set.name.try_clone()?;
            let kind = ProofErrorKind::DsRecordsButNoDnskey { name };
            Err(ProofError::new(Proof::Bogus, kind))
        }
    }
}
