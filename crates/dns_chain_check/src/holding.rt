//! Whether what an entry says of a set still holds.

ghost use Rattle.std.specs.Prelude.{◌≡◌, IfOk, slice_get};
ghost use Rattle.std.specs.Option.{option_and_then, option_copied};
ghost use Rattle.dns_cache.specs.Caches.{HasAccepted};
ghost use Rattle.dns_rules.specs.CacheEntries.{mark_of as mark_in, sig_of as sig_in};
ghost use Rattle.dns_rules.specs.Serving.{has_place as has_place_in, still_holds as holds_in};
ghost use Rattle.dns_chain_check.specs.KeptChains.{fitting_chain as fitting_in};
ghost use Rattle.dns_trust.specs.Judge.{judge_of};

use crate::chain_end::ends_by;
use crate::{check_chain, is_trusted};
use dns_cache::{Entry, ProofError, RrsetProof};
use dns_evidence::{Chain, PlacedSet, Verifier};
use dns_model::Proof;
use dns_record::{NoMemory, Record, RecordSet};
use dns_trust::Judge;
use std::alloc::Global;

/// Whether what an entry says of its set holds of this one, by a judge: where it says Secure, a signature at whose place it says that one
/// decided is there, and its chain is justified by the judge's anchors, verifier and moment, ends at the set, and names that signature,
/// or is a key set where none decided; any other mark holds as it was found (RFC 4035, 4.5, 5.3.1 and 5.3.3). The only error is out of
/// memory.
#[tactic(auto, using(crate::proofs::FittingLemmas::fitting_decides))]
pub fn still_holds<V: Verifier>(
    alloc: Global,
    judge: &Judge<'_, V>,
    placed: &PlacedSet,
    kept: &Entry,
) -> Result<bool, NoMemory>
    ensures { IfOk result (λ b. b ≡ holds_in (judge_of V.answers judge.now) placed.now kept.now) }
{
    if mark_of(&kept.result) != Proof::Secure {
        return Ok(true);
    }
    match fitting_chain(&placed.set, kept) {
        Some(chain) => check_chain(alloc, judge.anchors, judge.verifier, judge.moment, chain),
        None => Ok(false),
    }
}

/// The same of an entry whose chain, where it says Secure, the judge's verifier accepts by itself: of the chain only anchors and moment
/// are tested then, and nothing is put to the verifier.
#[tactic(auto, using(crate::proofs::FittingLemmas::fitting_decides))]
pub fn still_trusted<V: Verifier>(judge: &Judge<'_, V>, placed: &PlacedSet, kept: &Entry) -> bool
    requires accepted { HasAccepted (V.answers judge.now.verifier.now) kept.now }
    ensures { result ≡ holds_in (judge_of V.answers judge.now) placed.now kept.now }
{
    if mark_of(&kept.result) != Proof::Secure {
        return true;
    }
    match fitting_chain(&placed.set, kept) {
        Some(chain) => is_trusted(judge.anchors, judge.moment, chain),
        None => false,
    }
}

// The entry's chain, where the place that it names is that of a signature of the set, and the chain ends at the set by that signature.
#[tactic(auto, using(crate::proofs::FittingLemmas::unplaced))]
fn fitting_chain<'a>(set: &RecordSet, kept: &'a Entry) -> Option<&'a Chain>
    ensures { option_copied result ≡ fitting_in set.now kept.now }
{
    let place = sig_of(&kept.result);
    if !has_place(set, place) {
        return None;
    }
    let chain = kept.chain.as_ref()?;
    if ends_by(&chain.links, set, signature_at(set, place)) {
        Some(chain)
    } else {
        None
    }
}

/// The mark that was found.
pub fn mark_of(found: &Result<RrsetProof, ProofError>) -> Proof
    ensures { result ≡ mark_in found.now }
{
    match found {
        Ok(proof) => proof.proof,
        Err(error) => error.proof,
    }
}

/// The place of the signature that decided, among those of the set; none where there is an error.
pub fn sig_of(found: &Result<RrsetProof, ProofError>) -> Option<u32>
    ensures { result ≡ sig_in found.now }
{
    match found {
        Ok(proof) => proof.rrsig_index,
        Err(_) => None,
    }
}

// A place, where there is one, is that of a signature of the set.
fn has_place(set: &RecordSet, place: Option<u32>) -> bool
    ensures { result ≡ has_place_in set.now place }
{
    match place {
        Some(place) => set.rrsigs.get(place as usize).is_some(),
        None => true,
    }
}

// The signature of a set at a place.
fn signature_at(set: &RecordSet, place: Option<u32>) -> Option<&Record>
    ensures { option_copied result ≡ option_and_then (slice_get set.now.signatures) place }
{
    set.rrsigs.get(place? as usize)
}
