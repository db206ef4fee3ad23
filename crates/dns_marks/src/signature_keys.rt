//! What a signature proves of a set by keys that have a mark each (RFC 4035, 4.3 and 5.3).

ghost use Rattle.std.specs.Prelude.{◌≡◌, ◌+◌, ◌≤◌, ◌<◌, length, Some, IfOk, OnOk};
ghost use Rattle.std.specs.List.{list_any};
ghost use Rattle.dns_model.specs.RecordViews.{dnskey_of};
ghost use Rattle.dns_model.specs.declared.proof.Proof.TheVariants.{Insecure};
ghost use Rattle.dns_rules.specs.Derivation.{proof_eq};
ghost use Rattle.dns_trust.specs.Delegating.{shown};
ghost use Rattle.dns_trust.specs.SetSignatures.{IsRead, IsBuilt};
ghost use Rattle.dns_marks.specs.Tested.{of_tested};
ghost use Rattle.dns_marks.specs.SignatureKeys.{keys_proof, calls_by_keys, calls_in_turn, is_proving as is_proving_key, are_insecure as are_insecure_keys};
ghost use Rattle.dns_marks.specs.KeySignatures.{calls_by_key, is_put as is_put_to};

use crate::rrset_proof::{excused, proved_by_tested};
use crate::signature::ask_verifier;
use crate::tested::Tested;
use dns_cache::RrsetProof;
use dns_evidence::{Steps, Verifier};
use dns_model::Proof;
use dns_rdata::{Dnskey, Rrsig};
use dns_record::{NoMemory, Octets, Record, RecordSet};
use dns_trust::{SetSignature, counted_keys, is_usable, is_valid, may_be_signed, signed_data_once};
use std::alloc::Global;
use std::sync::ledger::Ledger;

/// What a signature proves of a set at a moment in seconds since 1970, by keys that have a mark each (RFC 4035, 4.3 and
/// 5.3): Secure where it is good by a Secure key, else Insecure where all keys are. Of the keys of its signer the first
/// two of each tag count, whatever their marks. None where it proves nothing, and where it can't be read. A step is
/// counted for each call of the verifier's `accepts`, two at the most.
pub fn verify_rrsig_with_keys<V: Verifier, L: Ledger>(
    alloc: Global,
    verifier: &V,
    keys: &[Record],
    sig: &Record,
    set: &RecordSet,
    now: u64,
    steps: &mut Steps<L>,
) -> Result<Option<RrsetProof>, NoMemory>
    requires record { 0 < length set.now.records }
    ensures proof { IfOk result (λ p. p ≡ keys_proof (V.answers verifier.now) now keys.now set.now sig.now) }
    ensures calls { OnOk result
        (steps.new ≡ steps.old + calls_by_keys (V.answers verifier.now) now keys.now set.now sig.now) }
    ensures most { steps.new ≤ steps.old + calls_by_keys (V.answers verifier.now) now keys.now set.now sig.now }
    ensures two { steps.new ≤ steps.old + 2 }
{
    let Some(read) = Rrsig::of(sig) else {
        return Ok(None);
    };
    let signature = SetSignature {
        set,
        sig,
        read: &read,
    };
    let tested = Tested {
        verifier,
        signature,
        moment: now,
    };
    proof_by_keys(alloc, &tested, keys, steps)
}

// The same of a signature that is read; what bounds the steps is that of a tag two keys count.
fn proof_by_keys<V: Verifier, L: Ledger>(
    alloc: Global,
    tested: &Tested<'_, '_, V>,
    keys: &[Record],
    steps: &mut Steps<L>,
) -> Result<Option<RrsetProof>, NoMemory>
    requires { IsRead tested.now.signature }
    ensures proof { IfOk result (λ p. p ≡
        of_tested V.answers tested.now (λ answers now. keys_proof answers now keys.now)) }
    ensures calls { OnOk result (steps.new ≡ steps.old
        + of_tested V.answers tested.now (λ answers now. calls_by_keys answers now keys.now)) }
    ensures most { steps.new ≤ steps.old
        + of_tested V.answers tested.now (λ answers now. calls_by_keys answers now keys.now) }
{
    if !may_be_signed(tested.signature.set, tested.signature.read) {
        return Ok(None);
    }
    let counted = counted_keys(alloc, tested.signature.read, keys)?;
    if is_proved(alloc, tested, &counted, steps)? {
        return Ok(Some(proved_by_tested(tested)));
    }
    if are_insecure(&counted) {
        return Ok(Some(excused()));
    }
    Ok(None)
}

// One of some keys is Secure, and the signature is good by it. The bytes that it is over are built once.
fn is_proved<V: Verifier, L: Ledger>(
    alloc: Global,
    tested: &Tested<'_, '_, V>,
    keys: &[&Record],
    steps: &mut Steps<L>,
) -> Result<bool, NoMemory>
    requires { IsRead tested.now.signature }
    ensures proved { IfOk result (λ b. b ≡
        list_any (of_tested V.answers tested.now is_proving_key) (shown keys.now)) }
    ensures calls { OnOk result
        (steps.new ≡ steps.old + of_tested V.answers tested.now calls_in_turn (shown keys.now)) }
    ensures most { steps.new ≤ steps.old + of_tested V.answers tested.now calls_in_turn (shown keys.now) }
{
    let mut built = None;
    for key in keys {
        let key = *key;
        if is_proving(alloc, tested, key, &mut built, steps)? {
            return Ok(true);
        }
    }
    Ok(false)
}

// The key is Secure, and the signature is good by it. The bytes are built for the first key that the verifier is asked
// about, and kept.
fn is_proving<V: Verifier, L: Ledger>(
    alloc: Global,
    tested: &Tested<'_, '_, V>,
    key: &Record,
    built: &mut Option<Octets>,
    steps: &mut Steps<L>,
) -> Result<bool, NoMemory>
    requires read { IsRead tested.now.signature }
    requires built { IsBuilt tested.now.signature built.old }
    ensures built { OnOk result (IsBuilt tested.now.signature built.new) }
    ensures proving { IfOk result (λ b. b ≡ of_tested V.answers tested.now is_proving_key key.now) }
    ensures calls { OnOk result (steps.new ≡ steps.old + of_tested V.answers tested.now calls_by_key key.now) }
    ensures most { steps.new ≤ steps.old + of_tested V.answers tested.now calls_by_key key.now }
{
    let Some(dnskey) = Dnskey::of(key) else {
        return Ok(false);
    };
    if !is_put(tested, key, &dnskey) {
        return Ok(false);
    }
    let bytes = signed_data_once(alloc, &tested.signature, built.take())?;
    let accepted = ask_verifier(tested, &dnskey, &bytes, steps);
    *built = Some(bytes);
    Ok(accepted)
}

// The verifier is to be asked: the key is Secure and may sign, and signature, set, key and moment fit.
#[tactic(auto, using(crate::proofs::CallLemmas::validity_read))]
fn is_put<V: Verifier>(tested: &Tested<'_, '_, V>, key: &Record, dnskey: &Dnskey<'_>) -> bool
    requires read { IsRead tested.now.signature }
    requires key { dnskey_of key.now ≡ Some dnskey.now }
    ensures { result ≡ of_tested V.answers tested.now is_put_to key.now }
{
    key.proof == Proof::Secure
        && is_valid(&tested.signature, key, tested.moment)
        && is_usable(tested.verifier, dnskey)
}

// There is a key, and all are Insecure.
fn are_insecure(keys: &[&Record]) -> bool
    ensures { result ≡ are_insecure_keys (shown keys.now) }
{
    for key in keys {
        let key = *key;
        if !is_insecure(key) {
            return false;
        }
    }
    !keys.is_empty()
}

// The key is Insecure.
fn is_insecure(key: &Record) -> bool
    ensures { result ≡ proof_eq key.now.proof Insecure }
{
    key.proof == Proof::Insecure
}
