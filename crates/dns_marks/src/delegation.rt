//! Whether DS records match a key, and why none does (RFC 4035, 5.2).

ghost use Rattle.std.specs.Prelude.{◌≡◌, IfOk};
ghost use Rattle.dns_model.specs.Gives.{Gives};
ghost use Rattle.dns_cache.specs.Kinds.{out_of_memory};
ghost use Rattle.dns_marks.specs.Dnskeys.{key_proof, unmatched as cause_of};

use dns_cache::{ProofError, ProofErrorKind};
use dns_evidence::Verifier;
use dns_model::Proof;
use dns_rdata::Dnskey;
use dns_record::{NoMemory, Record};
use dns_trust::matching_ds;
use std::alloc::Global;

/// Secure exactly where one of some DS records matches a key (RFC 4035, 5.2). Of those of its owner, algorithm and tag
/// the first two of the list count, whether or not they are supported. A key that can't be read and one of an algorithm
/// that isn't supported are Insecure, any other that no DS matches is Bogus.
///
/// The mark of a key alone, without the cause:
///
/// ```
/// fn mark_of_key<V: Verifier>(alloc: Global, verifier: &V, key: &Record, ds: &[Record]) -> Proof {
///     match verify_dnskey(alloc, verifier, key, ds) {
///         Ok(proof) => proof,
///         Err(error) => error.proof,
///     }
/// }
/// ```
pub fn verify_dnskey<V: Verifier>(
    _alloc: Global,
    verifier: &V,
    key: &Record,
    ds: &[Record],
) -> Result<Proof, ProofError>
    ensures { Gives (λ proof. proof) out_of_memory result (key_proof (V.answers verifier.now) key.now ds.now) }
{
    match matching_ds(verifier, &key.name, key, ds) {
        Some(_) => Ok(Proof::Secure),
        None => Err(unmatched(verifier, key)?),
    }
}

// Why no DS matches a key.
fn unmatched<V: Verifier>(verifier: &V, key: &Record) -> Result<ProofError, NoMemory>
    ensures { IfOk result (λ e. e ≡ cause_of (V.answers verifier.now) key.now) }
{
    let Some(dnskey) = Dnskey::of(key) else {
        let name = key.name.try_clone()?;
        let kind = ProofErrorKind::ErrorComputingKeyTag { name };
        return Ok(ProofError::new(Proof::Insecure, kind));
    };
    if !verifier.supports(dnskey.algorithm) {
        let kind = ProofErrorKind::UnsupportedKeyAlgorithm;
        return Ok(ProofError::new(Proof::Insecure, kind));
    }
    let name = key.name.try_clone()?;
    let kind = ProofErrorKind::DnsKeyHasNoDs { name };
    Ok(ProofError::new(Proof::Bogus, kind))
}
