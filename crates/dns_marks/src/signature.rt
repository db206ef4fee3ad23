//! What a signature proves of a set by one key, and why it proves nothing (RFC 4035, 5.3).

ghost use Rattle.std.specs.Prelude.{◌≡◌, ◌+◌, ◌≤◌, ◌<◌, length, true, is_some, IfOk, OnOk, IfSome};
ghost use Rattle.std.specs.Option.{option_map};
ghost use Rattle.dns_model.specs.Gives.{Gives};
ghost use Rattle.dns_model.specs.RecordViews.{rrsig_of, dnskey_of};
ghost use Rattle.dns_handle.specs.Notices.{notice_text};
ghost use Rattle.dns_trust.specs.SetSignatures.{IsRead};
ghost use Rattle.dns_cache.specs.Kinds.{kind_value, out_of_memory};
ghost use Rattle.dns_marks.specs.Misfits.{misfit as misfit_of};
ghost use Rattle.dns_marks.specs.Tested.{of_tested};
ghost use Rattle.dns_marks.specs.KeySignatures.{Unless, validity_at, signature_proof, proof_read, calls_by_key, calls_read, calls_if_supported, fault_cause, key_failure as failure_of, is_verified as is_verified_by};

use crate::rrset_proof::proved_by_tested;
use crate::tested::Tested;
use dns_cache::{ProofError, ProofErrorKind, RrsetProof};
use dns_evidence::{Steps, Verifier};
use dns_handle::Notice;
use dns_model::Proof;
use dns_rdata::{Dnskey, Rrsig, signed_data};
use dns_record::{Name, NoMemory, Octets, Record, RecordSet};
use dns_trust::{KeyFault, RrsigValidity, SetSignature, accepts_signature, key_fault};
use std::alloc::Global;
use std::sync::ledger::Ledger;

/// What a signature proves of a set by one key at a moment in seconds since 1970, the key's own mark among the tests
/// (RFC 4035, 5.3). A step is counted for each call of the verifier's `accepts`.
pub fn verify_rrset_with_dnskey<V: Verifier, L: Ledger>(
    alloc: Global,
    verifier: &V,
    key: &Record,
    sig: &Record,
    set: &RecordSet,
    now: u64,
    steps: &mut Steps<L>,
) -> Result<RrsetProof, ProofError>
    requires key { is_some (dnskey_of key.now) ≡ true }
    requires sig { is_some (rrsig_of sig.now) ≡ true }
    requires record { 0 < length set.now.records }
    ensures proof { IfSome (signature_proof (V.answers verifier.now) now set.now sig.now key.now)
        (λ told. Gives (λ p. p) out_of_memory result told) }
    ensures calls { Unless out_of_memory result
        (steps.new ≡ steps.old + calls_by_key (V.answers verifier.now) now set.now sig.now key.now) }
    ensures most { steps.new ≤ steps.old + calls_by_key (V.answers verifier.now) now set.now sig.now key.now }
{
    let (Some(read), Some(dnskey)) = (Rrsig::of(sig), Dnskey::of(key)) else {
        unreachable!()
    };
    let signature = SetSignature {
        set,
        sig,
        read: &read,
    };
    let tested = Tested {
        verifier,
        signature,
        moment: now,
    };
    verify_read(alloc, &tested, key, &dnskey, steps)
}

// The same of a key and a signature that are read.
fn verify_read<V: Verifier, L: Ledger>(
    alloc: Global,
    tested: &Tested<'_, '_, V>,
    key: &Record,
    dnskey: &Dnskey<'_>,
    steps: &mut Steps<L>,
) -> Result<RrsetProof, ProofError>
    requires { IsRead tested.now.signature }
    ensures proof { Gives (λ p. p) out_of_memory result
        (of_tested V.answers tested.now proof_read key.now tested.now.signature.read.now dnskey.now) }
    ensures calls { Unless out_of_memory result
        (steps.new ≡ steps.old
        + of_tested V.answers tested.now calls_read key.now tested.now.signature.read.now dnskey.now) }
    ensures most { steps.new ≤ steps.old
        + of_tested V.answers tested.now calls_read key.now tested.now.signature.read.now dnskey.now }
{
    if let Some(failure) = key_failure(key, tested.signature.read, dnskey)? {
        return Err(failure);
    }
    if let Some(notice) = misfit(tested, key) {
        return Err(ProofError::new(Proof::Bogus, ProofErrorKind::Msg(notice)));
    }
    if is_verified(alloc, tested, dnskey, steps)? {
        return Ok(proved_by_tested(tested));
    }
    let name = key.name.try_clone()?;
    let read = tested.signature.read;
    let key_tag = read.key_tag;
    let kind = ProofErrorKind::DnsKeyVerifyRrsig { name, key_tag };
    Err(ProofError::new(Proof::Bogus, kind))
}

// The first test that a key fails by itself.
#[tactic(auto, using(crate::proofs::FaultLemmas::failure_by_fault, crate::proofs::FaultLemmas::failure_past_fault))]
fn key_failure(
    key: &Record,
    read: &Rrsig<'_>,
    dnskey: &Dnskey<'_>,
) -> Result<Option<ProofError>, NoMemory>
    ensures { IfOk result (λ f. f ≡ failure_of key.now read.now dnskey.now) }
{
    let key_tag = read.key_tag;
    if key.proof != Proof::Secure {
        let name = key.name.try_clone()?;
        let kind = ProofErrorKind::InsecureDnsKey { name, key_tag };
        return Ok(Some(ProofError::new(key.proof, kind)));
    }
    if let Some(fault) = key_fault(dnskey) {
        let name = key.name.try_clone()?;
        let kind = fault_kind(fault, name, key_tag);
        return Ok(Some(ProofError::new(Proof::Bogus, kind)));
    }
    if dnskey.algorithm != read.algorithm {
        let kind = ProofErrorKind::AlgorithmMismatch {
            rrsig: read.algorithm,
            dnskey: dnskey.algorithm,
        };
        return Ok(Some(ProofError::new(Proof::Bogus, kind)));
    }
    Ok(None)
}

// The cause that names a key's fault.
fn fault_kind(fault: KeyFault, name: Name, key_tag: u16) -> ProofErrorKind
    ensures { kind_value result ≡ fault_cause name key_tag fault }
{
    match fault {
        KeyFault::Revoked => ProofErrorKind::DnsKeyRevoked { name, key_tag },
        KeyFault::NotZoneKey => ProofErrorKind::NotZoneDnsKey { name, key_tag },
    }
}

// The name of the validity, where a signature doesn't fit a set and a key at a moment.
#[tactic(auto, using(crate::proofs::CallLemmas::validity_read))]
fn misfit<V>(tested: &Tested<'_, '_, V>, key: &Record) -> Option<Notice>
    requires { IsRead tested.now.signature }
    ensures { option_map notice_text result
        ≡ misfit_of (validity_at tested.now.moment tested.now.signature.set.now tested.now.signature.sig.now key.now) }
{
    match RrsigValidity::check_read(&tested.signature, key, tested.moment) {
        RrsigValidity::ValidRrsig => None,
        RrsigValidity::ExpiredRrsig => Some(Notice::ExpiredRrsig),
        RrsigValidity::WrongDnskey => Some(Notice::WrongDnskey),
        RrsigValidity::WrongRrsig => Some(Notice::WrongRrsig),
    }
}

// The algorithm is supported, and the verifier accepts the signature of the set as the key's.
fn is_verified<V: Verifier, L: Ledger>(
    alloc: Global,
    tested: &Tested<'_, '_, V>,
    dnskey: &Dnskey<'_>,
    steps: &mut Steps<L>,
) -> Result<bool, NoMemory>
    ensures verified { IfOk result (λ b. b ≡ is_verified_by (V.answers tested.now.verifier.now)
        tested.now.signature.set.now tested.now.signature.read.now dnskey.now) }
    ensures calls { OnOk result
        (steps.new ≡ steps.old + calls_if_supported (V.answers tested.now.verifier.now) dnskey.now) }
    ensures most { steps.new ≤ steps.old + calls_if_supported (V.answers tested.now.verifier.now) dnskey.now }
{
    if !tested.verifier.supports(dnskey.algorithm) {
        return Ok(false);
    }
    let bytes = signed_data(alloc, tested.signature.set, tested.signature.read)?;
    Ok(ask_verifier(tested, dnskey, &bytes, steps))
}

/// The verifier accepts the signature over these bytes as the key's; a step is counted for the call.
pub(crate) fn ask_verifier<V: Verifier, L: Ledger>(
    tested: &Tested<'_, '_, V>,
    dnskey: &Dnskey<'_>,
    bytes: &Octets,
    steps: &mut Steps<L>,
) -> bool
    ensures accepted { result ≡ (V.answers tested.now.verifier.now).accepts
        tested.now.signature.read.now.algorithm dnskey.now.key bytes.now tested.now.signature.read.now.signature }
    ensures calls { steps.new ≡ steps.old + 1 }
{
    steps.tick();
    accepts_signature(tested.verifier, tested.signature.read, dnskey, bytes)
}
