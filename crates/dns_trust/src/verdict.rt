//! What one signature does for its set, by the answer to the ask for its signer's keys (RFC 4035, 5.3).

ghost use Rattle.std.specs.Prelude.{◌≡◌, IfOk, List, Some, map};
ghost use Rattle.std.specs.List.{find};
ghost use Rattle.std.specs.Option.{option_copied, option_map};
ghost use Rattle.dns_model.specs.Chains.{LinkValue};
ghost use Rattle.dns_rules.specs.Marks.{counted_keys, key_question, is_key_set_of, may_be_signed as may_be_signed_by, is_proved as is_proof, shows_insecure};
ghost use Rattle.dns_rules.specs.ChainedSets.{with_chain, chained_verdict};
ghost use Rattle.dns_rules.specs.MarkParts.{by_insecure_key, is_skipped_read};
ghost use Rattle.dns_evidence.specs.Link.{link_value};
ghost use Rattle.dns_trust.specs.Judge.{judge_of};
ghost use Rattle.dns_trust.specs.SetSignatures.{IsRead};
ghost use Rattle.dns_trust.specs.Verdicts.{verdict_value, links_of, listed, chained_by_set, chained_by_secure};

use crate::chains::signed_chain;
use crate::counted::{first_good, has_key_of};
use crate::{Judge, SetSignature, is_never_expanded, is_right_below_signer, signer_fits};
use dns_evidence::{ChainedSet, Link, MarkedSet, Verifier};
use dns_model::{Proof, Section};
use dns_rdata::Rrsig;
use dns_record::{DNSClass, NameRef, NoMemory, Query, Record, RecordSet, RecordType};
use std::alloc::Global;

/// What one signature does for its set.
pub enum Verdict {
    /// It makes the set Secure, by these links.
    Proved(Vec<Link>),
    /// It shows that no more than Insecure can be expected.
    Insecure,
    /// Neither.
    Failed,
}

// By hand, so that a function that lets one go calls this.
impl Drop for Verdict {
    fn drop(self) {
        match self {
            Verdict::Proved(_) => {}
            Verdict::Insecure => {}
            Verdict::Failed => {}
        }
    }
}

impl Verdict {
    /// Whether it makes the set Secure.
    pub fn is_proved(&self) -> bool
        ensures { result ≡ is_proof (verdict_value self.now).verdict }
    {
        matches!(self, Verdict::Proved(_))
    }

    /// Whether it shows that no more than Insecure can be expected.
    pub fn shows_insecure(&self) -> bool
        ensures { result ≡ shows_insecure (verdict_value self.now).verdict }
    {
        matches!(self, Verdict::Insecure)
    }

    /// The links by which it makes the set Secure; None where it doesn't.
    pub(crate) fn into_links(self) -> Option<Vec<Link>>
        ensures { option_map (λ v. map link_value v.items) result ≡ links_of (verdict_value self) }
    {
        match self {
            Verdict::Proved(links) => Some(links),
            Verdict::Insecure => None,
            Verdict::Failed => None,
        }
    }
}

/// The verdict of a signature of a set that isn't DNSKEY, with the judged sets of the answer to its ask; None where the ask
/// failed or was refused (RFC 4035, 5.3).
pub fn chained_verdict<V: Verifier>(
    alloc: Global,
    judge: &Judge<'_, V>,
    signature: &SetSignature<'_>,
    answer: &Option<Vec<ChainedSet>>,
) -> Result<Verdict, NoMemory>
    requires { IsRead signature.now }
    ensures { IfOk result (λ v. verdict_value v ≡ chained_verdict (judge_of V.answers judge.now)
        signature.now.set.now signature.now.sig.now (listed answer.now)) }
{
    let Some(sets) = answer else {
        return Ok(Verdict::Failed);
    };
    let SetSignature { set, read, .. } = *signature;
    if !may_be_signed(set, read) {
        return Ok(Verdict::Failed);
    }
    let Some(keys) = key_set_of(set.dns_class, &read.signer, sets) else {
        return Ok(Verdict::Failed);
    };
    by_key_set(alloc, judge, signature, keys)
}

// The verdict by the key set that was asked for.
fn by_key_set<V: Verifier>(
    alloc: Global,
    judge: &Judge<'_, V>,
    signature: &SetSignature<'_>,
    keys: &ChainedSet,
) -> Result<Verdict, NoMemory>
    requires { IsRead signature.now }
    ensures { IfOk result (λ v. verdict_value v ≡ chained_by_set (judge_of V.answers judge.now)
        signature.now.set.now signature.now.sig.now signature.now.read.now.signer keys.now) }
{
    match keys.judged.mark {
        Proof::Secure => {
            let records = keys.judged.set.records.as_slice();
            by_secure_keys(alloc, judge, signature, &keys.chain, records)
        }
        Proof::Insecure => {
            let read = signature.read;
            Ok(by_insecure_keys(&read.signer, &keys.judged.set.records))
        }
        Proof::Bogus | Proof::Indeterminate => Ok(Verdict::Failed),
    }
}

// The verdict by the counted keys of a Secure key set.
fn by_secure_keys<V: Verifier>(
    alloc: Global,
    judge: &Judge<'_, V>,
    signature: &SetSignature<'_>,
    chain: &Vec<Link>,
    keys: &[Record],
) -> Result<Verdict, NoMemory>
    requires { IsRead signature.now }
    ensures { IfOk result (λ v. verdict_value v ≡ chained_by_secure (judge_of V.answers judge.now)
        signature.now (map link_value chain.now.items) (counted_keys signature.now.read.now.signer keys.now)) }
{
    match first_good(alloc, judge, signature, keys)? {
        Some(key) => {
            let links = signed_chain(alloc, signature.set, signature.sig, chain, key)?;
            Ok(Verdict::Proved(links))
        }
        None => Ok(Verdict::Failed),
    }
}

// The verdict by the counted keys of an Insecure key set.
#[tactic(auto, using(crate::proofs::Counts::any_counted))]
fn by_insecure_keys(zone: &NameRef<'_>, keys: &[Record]) -> Verdict
    ensures { (chain : List LinkValue) → verdict_value result ≡
        with_chain (by_insecure_key (counted_keys zone.now keys.now)) chain }
{
    if has_key_of(zone, keys) {
        Verdict::Insecure
    } else {
        Verdict::Failed
    }
}

// The first key set of a zone in the answer section.
fn key_set_of<'a>(
    class: DNSClass,
    signer: &NameRef<'_>,
    sets: &'a [ChainedSet],
) -> Option<&'a ChainedSet>
    ensures { option_copied result ≡ find (λ c. is_key_set_of class.0 signer.now c.judged) sets.now }
{
    for chained in sets {
        if is_key_set(class, signer, &chained.judged) {
            return Some(chained);
        }
    }
    None
}

// The set is a key set of the zone in the answer section.
fn is_key_set(class: DNSClass, signer: &NameRef<'_>, judged: &MarkedSet) -> bool
    ensures { result ≡ is_key_set_of class.0 signer.now judged.now }
{
    let set = &judged.set;
    judged.section == Section::Answer
        && signer.eq_name(&set.name.borrowed())
        && set.record_type == RecordType::DNSKEY
        && class == set.dns_class
}

/// The set is no NSEC or NSEC3 that is expanded from a wildcard, and no NSEC3 elsewhere than right below the signer of this
/// signature (RFC 4035, 5.3.4; RFC 5155, 3).
pub fn may_be_signed(set: &RecordSet, read: &Rrsig<'_>) -> bool
    ensures { result ≡ may_be_signed_by set.now read.now }
{
    is_never_expanded(&set.name, set.record_type, read.labels)
        && is_right_below_signer(&set.name, set.record_type, &read.signer)
}

/// Whether a signature that is read isn't asked for: its signer doesn't fit, or it asks what is being asked.
pub fn is_skipped_read(asked: &Query, set: &RecordSet, read: &Rrsig<'_>) -> bool
    ensures { result ≡ is_skipped_read asked.now set.now (Some read.now) }
{
    let fits = signer_fits(&set.name, set.record_type, &read.signer);
    let is_asked = read.signer.eq_name(&asked.name.borrowed())
        && asked.query_type == RecordType::DNSKEY
        && set.dns_class == asked.query_class;
    !fits || is_asked
}

/// The question for the keys of a signature's signer.
pub fn key_query(alloc: Global, set: &RecordSet, read: &Rrsig<'_>) -> Result<Query, NoMemory>
    ensures { IfOk result (λ q. q ≡ key_question set.now.class read.now.signer) }
{
    Ok(Query {
        name: read.signer.to_name(alloc)?,
        query_type: RecordType::DNSKEY,
        query_class: set.dns_class,
    })
}
