//! Whether a signature is good by a key (RFC 4035, 5.3.3).

ghost use Rattle.std.specs.Prelude.{◌≡◌, IfOk, OnOk, Some};
ghost use Rattle.dns_model.specs.RecordViews.{dnskey_of};
ghost use Rattle.dns_model.specs.Serial.{timely};
ghost use Rattle.dns_rules.specs.Validity.{is_good_by as is_good_in, is_good_but_for_revoke as is_good_but_for_revoke_in, is_valid as is_valid_in};
ghost use Rattle.dns_rules.specs.MarkParts.{sig_validity};
ghost use Rattle.dns_trust.specs.Judge.{judge_of};
ghost use Rattle.dns_trust.specs.SetSignatures.{IsRead, bytes_of, IsBuilt, is_good_of};

use crate::{Judge, RrsigValidity, SetSignature, is_usable_but_for_revoke};
use dns_evidence::Verifier;
use dns_rdata::{Dnskey, Rrsig, signed_data};
use dns_record::{NoMemory, Octets, Record, RecordSet};
use std::alloc::Global;

/// Whether a signature of a set is good by a key at a moment: it fits, the key may sign, and the verifier accepts it
/// (RFC 4035, 5.3.3).
#[tactic(auto, using(crate::proofs::Reading::unread_good))]
pub fn is_good_by<V: Verifier>(
    alloc: Global,
    judge: &Judge<'_, V>,
    set: &RecordSet,
    sig: &Record,
    key: &Record,
) -> Result<bool, NoMemory>
    ensures { IfOk result (λ b. b ≡ is_good_in (judge_of V.answers judge.now) set.now sig.now key.now) }
{
    let Some(read) = Rrsig::of(sig) else {
        return Ok(false);
    };
    let signature = SetSignature {
        set,
        sig,
        read: &read,
    };
    let mut built = None;
    is_good_read(alloc, judge, &signature, key, &mut built)
}

/// Whether it is, but for the flag REVOKE of the key, which isn't looked at: a revoked key's own signature counts too (RFC 5011,
/// 2.1).
#[tactic(auto, using(crate::proofs::Reading::unread_but_for_revoke, crate::proofs::Reading::no_key_but_for_revoke))]
pub fn is_good_but_for_revoke<V: Verifier>(
    alloc: Global,
    judge: &Judge<'_, V>,
    set: &RecordSet,
    sig: &Record,
    key: &Record,
) -> Result<bool, NoMemory>
    ensures { IfOk result (λ b. b ≡ is_good_but_for_revoke_in (judge_of V.answers judge.now) set.now sig.now key.now) }
{
    let Some(read) = Rrsig::of(sig) else {
        return Ok(false);
    };
    let Some(dnskey) = Dnskey::of(key) else {
        return Ok(false);
    };
    let signature = SetSignature {
        set,
        sig,
        read: &read,
    };
    let mut built = None;
    is_good_by_read(alloc, judge, &signature, key, &dnskey, &mut built)
}

/// Whether a signature that is read is good by a key. The bytes that it is over are built for the first key that comes so far, and kept.
#[tactic(auto, using(crate::proofs::Reading::read_good))]
pub(crate) fn is_good_read<V: Verifier>(
    alloc: Global,
    judge: &Judge<'_, V>,
    signature: &SetSignature<'_>,
    key: &Record,
    built: &mut Option<Octets>,
) -> Result<bool, NoMemory>
    requires read { IsRead signature.now }
    requires built { IsBuilt signature.now built.old }
    ensures good { IfOk result (λ b. b ≡ is_good_of (judge_of V.answers judge.now) signature.now key.now) }
    ensures built { OnOk result (IsBuilt signature.now built.new) }
{
    let Some(dnskey) = Dnskey::of(key) else {
        return Ok(false);
    };
    if dnskey.is_revoked() {
        return Ok(false);
    }
    is_good_by_read(alloc, judge, signature, key, &dnskey, built)
}

// The same by a key that is read, but for its flag REVOKE.
fn is_good_by_read<V: Verifier>(
    alloc: Global,
    judge: &Judge<'_, V>,
    signature: &SetSignature<'_>,
    key: &Record,
    dnskey: &Dnskey<'_>,
    built: &mut Option<Octets>,
) -> Result<bool, NoMemory>
    requires read { IsRead signature.now }
    requires key { dnskey_of key.now ≡ Some dnskey.now }
    requires built { IsBuilt signature.now built.old }
    ensures good { IfOk result (λ b. b ≡
        is_good_but_for_revoke_in (judge_of V.answers judge.now) signature.now.set.now signature.now.sig.now key.now) }
    ensures built { OnOk result (IsBuilt signature.now built.new) }
{
    if !is_valid(signature, key, judge.moment) {
        return Ok(false);
    }
    if !is_usable_but_for_revoke(judge.verifier, dnskey) {
        return Ok(false);
    }
    let bytes = signed_data_once(alloc, signature, built.take())?;
    let accepted = accepts_signature(judge.verifier, signature.read, dnskey, &bytes);
    *built = Some(bytes);
    Ok(accepted)
}

/// Whether a signature that is read fits its set, a key and a moment in seconds since 1970 (RFC 4035, 5.3.1).
pub fn is_valid(signature: &SetSignature<'_>, key: &Record, now: u64) -> bool
    ensures { result ≡ is_valid_in (sig_validity (λ s. timely s now)
        signature.now.set.now signature.now.sig.now key.now (Some signature.now.read.now)) }
{
    RrsigValidity::check_read(signature, key, now) == RrsigValidity::ValidRrsig
}

/// Whether the verifier accepts a signature over these bytes as a key's (RFC 4035, 5.3.3). It is asked once.
pub fn accepts_signature<V: Verifier>(
    verifier: &V,
    read: &Rrsig<'_>,
    key: &Dnskey<'_>,
    bytes: &Octets,
) -> bool
    ensures { result ≡ (V.answers verifier.now).accepts read.now.algorithm key.now.key bytes.now read.now.signature }
{
    verifier.accepts(read.algorithm, key.key, bytes.as_slice(), read.signature)
}

/// The bytes that a signature of a set is over (RFC 4034, 3.1.8.1): those that were kept, or else built now. Whoever asks several
/// keys for one signature keeps them, and builds them once.
pub fn signed_data_once(
    alloc: Global,
    signature: &SetSignature<'_>,
    built: Option<Octets>,
) -> Result<Octets, NoMemory>
    requires { IsBuilt signature.now built }
    ensures { IfOk result (λ bytes. bytes ≡ bytes_of signature.now) }
{
    match built {
        Some(bytes) => Ok(bytes),
        None => signed_data(alloc, signature.set, signature.read),
    }
}
