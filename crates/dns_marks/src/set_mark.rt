//! The mark of a set that isn't DNSKEY, by the answers to the asks of its signatures (RFC 4035, 4.3 and 5.3).

ghost use Rattle.std.specs.Prelude.{◌≡◌, ◌+◌, ◌≤◌, ◌<◌, length, take, slice_get, IfOk, OnOk};
ghost use Rattle.std.specs.List.{list_all, filter_map, zip};
ghost use Rattle.std.specs.Option.{option_copied};
ghost use Rattle.dns_model.specs.Gives.{Gives};
ghost use Rattle.dns_rules.specs.Marks.{most_signatures};
ghost use Rattle.dns_cache.specs.Kinds.{kind_value, out_of_memory};
ghost use Rattle.dns_marks.specs.KeySignatures.{Unless};
ghost use Rattle.dns_marks.specs.Tested.{of_set_answers};
ghost use Rattle.dns_marks.specs.SetMarks.{key_answer_value, set_calls, answer_calls};
ghost use Rattle.dns_marks.specs.SetMarks.{set_proof, deciding_proof, answer_proofs, answer_proof, proof_at as proof_of_mark, no_proof as cause_of, is_skipped_answer, failed_ask as failed_question};

use crate::tested::SetAnswers;
use crate::verify_rrsig_with_keys;
use dns_cache::{ProofError, ProofErrorKind, RrsetProof};
use dns_evidence::{Steps, Verifier};
use dns_model::Proof;
use dns_record::{NoMemory, Query, Record, RecordSet, clone_records};
use dns_trust::first_signatures;
use std::alloc::Global;
use std::sync::ledger::Ledger;

/// What came of the ask for the keys of a signature's signer.
pub enum KeyAnswer {
    /// The signature wasn't asked for.
    Skipped,
    /// The ask, by this question, failed or was refused.
    Failed(Query),
    /// The records of the answer, each with its mark.
    Keys(Vec<Record>),
}

// By hand, so that a function that lets one go calls this.
impl Drop for KeyAnswer {
    fn drop(self) {
        match self {
            KeyAnswer::Skipped => {}
            KeyAnswer::Failed(_) => {}
            KeyAnswer::Keys(_) => {}
        }
    }
}

impl KeyAnswer {
    /// An equal answer in memory of its own.
    pub fn try_clone(&self) -> Result<KeyAnswer, NoMemory>
        ensures { IfOk result (λ answer. key_answer_value answer ≡ key_answer_value self.now) }
    {
        match self {
            KeyAnswer::Skipped => Ok(KeyAnswer::Skipped),
            KeyAnswer::Failed(query) => Ok(KeyAnswer::Failed(query.try_clone()?)),
            KeyAnswer::Keys(keys) => Ok(KeyAnswer::Keys(clone_records(keys)?)),
        }
    }
}

/// The mark of a set that isn't DNSKEY and has a record and a signature, at a moment in seconds since 1970, by the answers to the
/// asks of its first eight signatures, one for each in order (RFC 4035, 4.3 and 5.3). The first signature that is
/// Secure decides, else the first that is Insecure. A step is counted for each call of the verifier's `accepts`, up to
/// the first signature that is Secure: two for a signature at the most.
pub fn mark_rrset<V: Verifier, L: Ledger>(
    alloc: Global,
    verifier: &V,
    set: &RecordSet,
    answers: &[KeyAnswer],
    now: u64,
    steps: &mut Steps<L>,
) -> Result<RrsetProof, ProofError>
    requires record { 0 < length set.now.records }
    requires signed { 0 < length set.now.signatures }
    requires answered { length answers.now ≡ length (take most_signatures set.now.signatures) }
    ensures proof { Gives (λ p. p) out_of_memory result (set_proof (V.answers verifier.now) now set.now answers.now) }
    ensures calls { Unless out_of_memory result (steps.new ≡ steps.old
        + set_calls (V.answers verifier.now) now set.now (zip (take most_signatures set.now.signatures) answers.now)) }
    ensures most { steps.new ≤ steps.old + 16 }
{
    let set_answers = SetAnswers {
        verifier,
        set,
        answers,
        moment: now,
    };
    if let Some(found) = deciding(alloc, &set_answers, steps)? {
        return Ok(found);
    }
    let kind = no_proof(set, answers)?;
    Err(ProofError::new(Proof::Bogus, kind))
}

// What the signature that decides proves.
fn deciding<V: Verifier, L: Ledger>(
    alloc: Global,
    set_answers: &SetAnswers<'_, V>,
    steps: &mut Steps<L>,
) -> Result<Option<RrsetProof>, NoMemory>
    requires record { 0 < length set_answers.now.set.now.records }
    requires answered { length set_answers.now.answers.now ≡ length (take most_signatures set_answers.now.set.now.signatures) }
    ensures proof { IfOk result (λ p. p ≡ deciding_proof (of_set_answers V.answers set_answers.now answer_proofs
        (take most_signatures set_answers.now.set.now.signatures) set_answers.now.answers.now)) }
    ensures calls { OnOk result (steps.new ≡ steps.old + of_set_answers V.answers set_answers.now set_calls
        (zip (take most_signatures set_answers.now.set.now.signatures) set_answers.now.answers.now)) }
    ensures most { steps.new ≤ steps.old + 16 }
{
    let signatures = first_signatures(set_answers.set);
    let answers = set_answers.answers;
    let mut excuse = None;
    for (place, answer) in answers.iter().enumerate() {
        let sig = &signatures[place];
        let found = proof_by_answer(alloc, set_answers, sig, answer, steps)?;
        if let Some(found) = proof_at(Proof::Secure, place as u32, &found) {
            return Ok(Some(found));
        }
        excuse = excuse.or(proof_at(Proof::Insecure, place as u32, &found));
    }
    Ok(excuse)
}

// What a signature proves by the answer to its ask.
fn proof_by_answer<V: Verifier, L: Ledger>(
    alloc: Global,
    set_answers: &SetAnswers<'_, V>,
    sig: &Record,
    answer: &KeyAnswer,
    steps: &mut Steps<L>,
) -> Result<Option<RrsetProof>, NoMemory>
    requires record { 0 < length set_answers.now.set.now.records }
    ensures proof { IfOk result (λ p. p ≡ of_set_answers V.answers set_answers.now answer_proof sig.now answer.now) }
    ensures calls { OnOk result
        (steps.new ≡ steps.old + of_set_answers V.answers set_answers.now answer_calls sig.now answer.now) }
    ensures most { steps.new ≤ steps.old + 2 }
{
    match answer {
        KeyAnswer::Skipped | KeyAnswer::Failed(_) => Ok(None),
        KeyAnswer::Keys(keys) => verify_rrsig_with_keys(
            alloc,
            set_answers.verifier,
            keys,
            sig,
            set_answers.set,
            set_answers.moment,
            steps,
        ),
    }
}

// A proof of a mark, as that of the signature at a place.
fn proof_at(mark: Proof, place: u32, found: &Option<RrsetProof>) -> Option<RrsetProof>
    ensures { result ≡ proof_of_mark mark place found.now }
{
    match found {
        Some(found) if found.proof == mark => Some(RrsetProof {
            proof: found.proof,
            adjusted_ttl: found.adjusted_ttl,
            rrsig_index: Some(place),
        }),
        _ => None,
    }
}

// Why no signature decides.
fn no_proof(set: &RecordSet, answers: &[KeyAnswer]) -> Result<ProofErrorKind, NoMemory>
    ensures { IfOk result (λ k. kind_value k ≡ cause_of set.now answers.now) }
{
    if are_skipped(answers) {
        return Ok(ProofErrorKind::RrsigsNotPresent {
            name: set.name.try_clone()?,
            record_type: set.record_type,
        });
    }
    if let Some(query) = first_failed(answers) {
        return Ok(ProofErrorKind::Net {
            query: query.try_clone()?,
        });
    }
    Ok(ProofErrorKind::RrsigsUnverified {
        name: set.name.try_clone()?,
        record_type: set.record_type,
    })
}

// No signature was asked for.
fn are_skipped(answers: &[KeyAnswer]) -> bool
    ensures { result ≡ list_all is_skipped_answer answers.now }
{
    for answer in answers {
        if !is_skipped(answer) {
            return false;
        }
    }
    true
}

// The signature wasn't asked for.
fn is_skipped(answer: &KeyAnswer) -> bool
    ensures { result ≡ is_skipped_answer answer.now }
{
    matches!(answer, KeyAnswer::Skipped)
}

// The question of the first ask that failed.
fn first_failed(answers: &[KeyAnswer]) -> Option<&Query>
    ensures { option_copied result ≡ slice_get (filter_map failed_question answers.now) 0 }
{
    for answer in answers {
        if let Some(query) = failed_ask(answer) {
            return Some(query);
        }
    }
    None
}

// The question of an ask that failed.
fn failed_ask(answer: &KeyAnswer) -> Option<&Query>
    ensures { option_copied result ≡ failed_question answer.now }
{
    match answer {
        KeyAnswer::Failed(query) => Some(query),
        KeyAnswer::Skipped | KeyAnswer::Keys(_) => None,
    }
}
