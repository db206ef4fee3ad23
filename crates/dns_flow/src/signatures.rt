//! The first signatures of a set, of which each that may count asks for its signer's keys before it is tested, until one proves
//! the set (RFC 4035, 5.3).

ghost use Rattle.std.specs.Prelude.{◌≡◌, ◌++◌, ◌∷◌, [], false, drop, is_some, length, map, slice_get, IfOk, OnOk};
ghost use Rattle.std.specs.Option.{option_and_then, option_copied, option_map, option_map_or};
ghost use Rattle.dns_rules.specs.Asking.{ask_of};
ghost use Rattle.dns_rules.specs.ChainedSets.{chained_by as set_by, chained_verdict as verdict_by};
ghost use Rattle.dns_rules.specs.Marks.{is_skipped};
ghost use Rattle.dns_trust.specs.Judge.{judge_of};
ghost use Rattle.dns_trust.specs.Verdicts.{listed, verdict_value};
ghost use Rattle.dns_flow.specs.Phases.{Marked, first_signatures as first_of, after_signature as after_sig, after_verdict as verdict_leads, signature_need as need_of, try_from as tried_from};
ghost use Rattle.dns_flow.specs.Values.{Keeps, need_value, phase_value};

use crate::phases::{Need, Phase, asks, set_of};
use dns_evidence::{ChainedSet, PlacedSet, Verifier};
use dns_rdata::Rrsig;
use dns_record::{NoMemory, Query, Record, RecordSet};
use dns_trust::{
    Judge, SetSignature, Verdict, chained_by, chained_verdict, first_signatures, is_skipped_read,
    key_query,
};
use std::alloc::Global;

/// Behind these verdicts the first signature that asks; without one the verdicts decide.
pub(crate) fn try_from(
    query: &Query,
    placed: PlacedSet,
    mut verdicts: Vec<Verdict>,
) -> Result<Phase, NoMemory>
    ensures { IfOk result (λ p. phase_value p ≡ tried_from query.now placed (map verdict_value verdicts.items)
        (drop (length verdicts.items) (first_of placed.set))) }
{
    'signatures: while skips_next(query, &placed, &verdicts) {
        verdicts.push(Verdict::Failed)?;
    }
    if has_next(&placed, &verdicts) {
        Ok(Phase::Trying(placed, verdicts))
    } else {
        marked_by(placed, verdicts)
    }
}

// The verdicts decide.
fn marked_by(placed: PlacedSet, verdicts: Vec<Verdict>) -> Result<Phase, NoMemory>
    ensures { IfOk result (λ p. phase_value p ≡ Marked (set_by placed (map verdict_value verdicts.items))) }
{
    let set = chained_by(placed, verdicts)?;
    Ok(Phase::Marked(set))
}

// There is a signature behind those with verdicts, and it isn't asked for.
fn skips_next(query: &Query, placed: &PlacedSet, verdicts: &Vec<Verdict>) -> bool
    ensures { result ≡ option_map_or (is_skipped query.now placed.now.set)
        (slice_get (first_of placed.now.set) (length verdicts.now.items)) false }
{
    let set = set_of(placed);
    let Some(sig) = signature_at(set, verdicts.len()) else {
        return false;
    };
    match Rrsig::of(sig) {
        Some(read) => is_skipped_read(query, set, &read),
        None => true,
    }
}

// There is a signature behind those with verdicts.
fn has_next(placed: &PlacedSet, verdicts: &Vec<Verdict>) -> bool
    ensures { result ≡ is_some (slice_get (first_of placed.now.set) (length verdicts.now.items)) }
{
    signature_at(set_of(placed), verdicts.len()).is_some()
}

// The signature at a place, if it is one of those that are tried.
fn signature_at(set: &RecordSet, place: usize) -> Option<&Record>
    ensures { option_copied result ≡ slice_get (first_of set.now) place }
{
    first_signatures(set).get(place)
}

/// What the next signature of a set asks.
pub(crate) fn signature_need(
    alloc: Global,
    placed: PlacedSet,
    verdicts: Vec<Verdict>,
) -> Result<Need, NoMemory>
    ensures need { IfOk result (λ n. need_value n ≡ need_of placed (map verdict_value verdicts.items)
        (option_and_then (ask_of placed.set) (slice_get (first_of placed.set) (length verdicts.items)))) }
    ensures keeps { IfOk result (λ n. Keeps (Phase.Trying placed verdicts) n) }
{
    let question = question_at(alloc, set_of(&placed), verdicts.len())?;
    match question {
        Some(question) => Ok(asks(question, true, Phase::Trying(placed, verdicts))),
        None => {
            let set = chained_by(placed, verdicts)?;
            Ok(Need::SetEnds(set))
        }
    }
}

/// The question for the keys of the signer of the signature at a place.
pub(crate) fn question_at(
    alloc: Global,
    set: &RecordSet,
    place: usize,
) -> Result<Option<Query>, NoMemory>
    ensures { IfOk result (λ q. q ≡ option_and_then (ask_of set.now) (slice_get (first_of set.now) place)) }
{
    let Some(sig) = signature_at(set, place) else {
        return Ok(None);
    };
    let Some(read) = Rrsig::of(sig) else {
        return Ok(None);
    };
    let question = key_query(alloc, set, &read)?;
    Ok(Some(question))
}

/// Where the answer to the ask of the next signature leads its set.
pub(crate) fn after_signature<V: Verifier>(
    alloc: Global,
    judge: &Judge<'_, V>,
    query: &Query,
    placed: PlacedSet,
    verdicts: Vec<Verdict>,
    answer: &Option<Vec<ChainedSet>>,
) -> Result<Phase, NoMemory>
    ensures { IfOk result (λ p. phase_value p ≡ after_sig (judge_of V.answers judge.now) query.now placed
        (map verdict_value verdicts.items) (listed answer.now)
        (slice_get (first_of placed.set) (length verdicts.items))) }
{
    match verdict_at(alloc, judge, set_of(&placed), verdicts.len(), answer)? {
        Some(verdict) => after_verdict(query, placed, verdicts, verdict),
        None => marked_by(placed, verdicts),
    }
}

// Where the verdict of one signature more leads its set: nothing more is asked where it proves the set.
fn after_verdict(
    query: &Query,
    placed: PlacedSet,
    verdicts: Vec<Verdict>,
    verdict: Verdict,
) -> Result<Phase, NoMemory>
    ensures { IfOk result (λ p. phase_value p
        ≡ verdict_leads query.now placed (map verdict_value verdicts.items) (verdict_value verdict)) }
{
    let proved = verdict.is_proved();
    let mut verdicts = verdicts;
    verdicts.push(verdict)?;
    if proved {
        marked_by(placed, verdicts)
    } else {
        try_from(query, placed, verdicts)
    }
}

// The verdict of the signature at a place.
fn verdict_at<V: Verifier>(
    alloc: Global,
    judge: &Judge<'_, V>,
    set: &RecordSet,
    place: usize,
    answer: &Option<Vec<ChainedSet>>,
) -> Result<Option<Verdict>, NoMemory>
    ensures { IfOk result (λ v. option_map verdict_value v ≡ option_map
        (λ r. verdict_by (judge_of V.answers judge.now) set.now r (listed answer.now))
        (slice_get (first_of set.now) place)) }
{
    match signature_at(set, place) {
        Some(sig) => {
            let verdict = verdict_of(alloc, judge, set, sig, answer)?;
            Ok(Some(verdict))
        }
        None => Ok(None),
    }
}

// The verdict of a signature. One that can't be read fails.
#[tactic(auto, using(crate::proofs::Tries::unread_verdict))]
fn verdict_of<V: Verifier>(
    alloc: Global,
    judge: &Judge<'_, V>,
    set: &RecordSet,
    sig: &Record,
    answer: &Option<Vec<ChainedSet>>,
) -> Result<Verdict, NoMemory>
    ensures { IfOk result (λ v. verdict_value v
        ≡ verdict_by (judge_of V.answers judge.now) set.now sig.now (listed answer.now)) }
{
    let Some(read) = Rrsig::of(sig) else {
        return Ok(Verdict::Failed);
    };
    let signature = SetSignature {
        set,
        sig,
        read: &read,
    };
    chained_verdict(alloc, judge, &signature, answer)
}
