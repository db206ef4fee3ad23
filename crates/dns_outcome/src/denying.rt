//! What the Secure NSEC or NSEC3 records of the authority section make of a response (RFC 4035, 5.4; RFC 5155, 8).
ghost use Rattle.std.specs.Prelude.{◌≡◌, ◌<◌, IfOk};
ghost use Rattle.dns_model.specs.SoundAnswers.{told_by};
ghost use Rattle.dns_rules.specs.ChainedSets.{bare};
ghost use Rattle.dns_rules.specs.Denying.{denying, denials, hash_denying, hashed_denials};
ghost use Rattle.dns_rules.specs.Nsec3Verdict.{nsec3_verdict};
ghost use Rattle.dns_rules.specs.NsecVerdict.{nsec_verdict};
ghost use Rattle.dns_rules.specs.Outcome.{one_signer as one_signer_of, answered as answered_in, secure_denial as denial_of, outcome_by_nsec_verdict as told_by_verdict, outcome_by_denials as told_by_denials, outcome_by_hashed_denials as told_by_hashes};
ghost use Rattle.dns_outcome.specs.Outcome.{outcome_value};

use crate::Outcome;
use crate::answering::answered;
use dns_denial::{verify_nsec, verify_nsec3};
use dns_denial_index::{Nsec3Index, NsecIndex};
use dns_denying::{nsec_denials, nsec3_denials, one_signer};
use dns_evidence::{ChainedSet, Limits, Steps};
use dns_message::Message;
use dns_model::{Answered, Denial, Proof};
use dns_rdata::{Nsec3Record, NsecRecord};
use dns_record::{Name, NoMemory, Query, RecordType, ResponseCode};
use std::alloc::Global;
use std::marker::Brand;
use std::sync::ledger::{Blank, Ledger};

// The most records of which no index is made: making one costs more than to go over them two or three times, as a verdict does.
const FEW: usize = 16;

/// How a step ends by the NSEC records that deny existence: they are to be made by one zone, and prove what is denied.
pub(crate) fn outcome_by_denials(
    alloc: Global,
    query: &Query,
    message: &Message,
    sets: &[ChainedSet],
) -> Result<Outcome, NoMemory>
    ensures { IfOk result (λ o. outcome_value o ≡ told_by_denials query.now (told_by message.now).code
        (answered_in query.now (told_by message.now) (bare sets.now)) (denials (bare sets.now))
        (one_signer_of (denying (bare sets.now)))) }
{
    let Some(signer) = one_signer(RecordType::NSEC, sets) else {
        return Ok(Outcome::Denied(Proof::Bogus));
    };
    let zone = signer.to_name(alloc)?;
    let nsecs = nsec_denials(alloc, sets)?;
    let how = answered(query, message, sets);
    let proof = verdict_of(query, &zone, message.response_code, how, nsecs)?;
    Ok(outcome_by_nsec_verdict(how, proof))
}

// The verdict on the records, by an index of them. Few are gone over, and so are more than an index has numbers for.
fn verdict_of(
    query: &Query,
    zone: &Name,
    code: ResponseCode,
    how: Answered,
    nsecs: Vec<NsecRecord>,
) -> Result<Proof, NoMemory>
    ensures { IfOk result (λ proof. proof ≡ nsec_verdict query.now zone.now code.0 how nsecs.items) }
{
    if nsecs.len() <= FEW || nsecs.len() > u32::MAX as usize {
        return Ok(verify_nsec(query, zone, code, how, &nsecs));
    }
    let index = NsecIndex::new(nsecs)?;
    Ok(verdict_by_search::<Brand>(query, zone, code, how, &index, Blank::new(1)))
}

// The verdict of an index, whose steps nobody reads.
fn verdict_by_search<L: Ledger>(
    query: &Query,
    zone: &Name,
    code: ResponseCode,
    how: Answered,
    index: &NsecIndex,
    blank: Blank,
) -> Proof
    requires name { blank.name ≡ L.name }
    requires parts { blank.parts ≡ L.parts }
    requires some { 0 < blank.parts }
    ensures { result ≡ nsec_verdict query.now zone.now code.0 how index.now }
{
    let mut steps = Steps::<L>::new(blank);
    index.verify(query, zone, code, how, &mut steps)
}

/// The same by NSEC3 records, whose iterations are limited (RFC 9276, 3.2).
pub(crate) fn outcome_by_hashed_denials(
    alloc: Global,
    limits: &Limits,
    query: &Query,
    message: &Message,
    sets: &[ChainedSet],
) -> Result<Outcome, NoMemory>
    ensures { IfOk result (λ o. outcome_value o ≡ told_by_hashes limits.now query.now (told_by message.now).code
        (answered_in query.now (told_by message.now) (bare sets.now)) (hashed_denials (bare sets.now))
        (one_signer_of (hash_denying (bare sets.now)))) }
{
    let Some(signer) = one_signer(RecordType::NSEC3, sets) else {
        return Ok(Outcome::Denied(Proof::Bogus));
    };
    let zone = signer.to_name(alloc)?;
    let nsec3s = nsec3_denials(alloc, sets)?;
    let how = answered(query, message, sets);
    let code = message.response_code;
    let proof = hashed_verdict_of(limits, query, &zone, code, how, nsec3s)?;
    Ok(outcome_by_nsec_verdict(how, proof))
}

// The verdict on NSEC3 records, likewise.
fn hashed_verdict_of(
    limits: &Limits,
    query: &Query,
    zone: &Name,
    code: ResponseCode,
    how: Answered,
    nsec3s: Vec<Nsec3Record>,
) -> Result<Proof, NoMemory>
    ensures { IfOk result (λ proof. proof
        ≡ nsec3_verdict query.now zone.now code.0 how nsec3s.items limits.now.soft limits.now.hard) }
{
    if nsec3s.len() <= FEW || nsec3s.len() > u32::MAX as usize {
        let proof = verify_nsec3(query, zone, code, how, &nsec3s, limits.soft, limits.hard);
        return Ok(proof);
    }
    let index = Nsec3Index::new(nsec3s)?;
    let blank = Blank::new(1);
    Ok(hashed_verdict_by_search::<Brand>(limits, query, zone, code, how, &index, blank))
}

// The verdict of an index of NSEC3 records, whose steps nobody reads.
fn hashed_verdict_by_search<L: Ledger>(
    limits: &Limits,
    query: &Query,
    zone: &Name,
    code: ResponseCode,
    how: Answered,
    index: &Nsec3Index,
    blank: Blank,
) -> Proof
    requires name { blank.name ≡ L.name }
    requires parts { blank.parts ≡ L.parts }
    requires some { 0 < blank.parts }
    ensures { result ≡ nsec3_verdict query.now zone.now code.0 how index.now limits.now.soft limits.now.hard }
{
    let mut steps = Steps::<L>::new(blank);
    index.verify(query, zone, code, how, limits.soft, limits.hard, &mut steps)
}

// How a step ends by the verdict on its records: only a Secure one gives the answer.
fn outcome_by_nsec_verdict(how: Answered, proof: Proof) -> Outcome
    ensures { outcome_value result ≡ told_by_verdict how proof }
{
    if proof == Proof::Secure {
        Outcome::Given(secure_denial(how))
    } else {
        Outcome::Denied(proof)
    }
}

// What a Secure verdict says of the answer.
fn secure_denial(how: Answered) -> Denial
    ensures { result ≡ denial_of how }
{
    match how {
        Answered::No => Denial::Absent(Proof::Secure),
        Answered::Plain => Denial::None,
        Answered::Expanded(_) => Denial::Expanded(Proof::Secure),
    }
}
