//! The first signature of a key set that is good by one of some keys of it, among those that are tried (RFC 4035, 5.3.3).

ghost use Rattle.std.specs.Prelude.{◌≡◌, ◌≤◌, IfOk, length, take};
ghost use Rattle.std.specs.List.{IsDistinct, find};
ghost use Rattle.std.specs.Option.{option_map, option_copied};
ghost use Rattle.dns_rules.specs.Marks.{most_signatures};
ghost use Rattle.dns_trust.specs.Judge.{judge_of};
ghost use Rattle.dns_trust.specs.Delegating.{shown};
ghost use Rattle.dns_trust.specs.SetSignatures.{IsRead, is_good_of};
ghost use Rattle.dns_trust.specs.Signers.{AreOnce, have_one_rdata, signed_value, first_signed_by, signing_key};

use crate::good::is_good_read;
use crate::{Judge, SetSignature};
use dns_evidence::Verifier;
use dns_rdata::Rrsig;
use dns_record::{NoMemory, Record, RecordSet};
use std::alloc::Global;
use std::collections::BTreeSet;

// How many signatures of a set are tried.
const MOST_SIGNATURES: usize = 8;

/// A signature of a key set that is good by a key of it.
#[derive(Drop)]
pub struct SignedBy<'a> {
    /// The place of the signature among the set's signatures.
    pub place: u32,
    /// The signature.
    pub signature: &'a Record,
    /// The key that made it.
    pub key: &'a Record,
}

/// The signatures of a set that are tried: the first eight signatures.
pub fn first_signatures(set: &RecordSet) -> &[Record]
    ensures first { result.now ≡ take most_signatures set.now.signatures }
    ensures few { length result.now ≤ most_signatures }
{
    let signatures = set.rrsigs.as_slice();
    &signatures[..signatures.len().min(MOST_SIGNATURES)]
}

/// Of records with one rdata the first alone. A signature that isn't good by one key is good by none with that rdata.
///
/// The only error is that memory ran out.
pub fn each_once<'a>(alloc: Global, keys: &[&'a Record]) -> Result<Vec<&'a Record>, NoMemory>
    ensures found { IfOk result (λ v. AreOnce (shown v.items) (shown keys.now)) }
    ensures once { IfOk result (λ v. IsDistinct have_one_rdata (shown v.items)) }
{
    let mut seen = BTreeSet::new(alloc);
    let mut once = Vec::new(alloc);
    for key in keys {
        let key = *key;
        let rdata = key.rdata.as_slice();
        if seen.insert(rdata)? {
            once.push(key)?;
        }
    }
    Ok(once)
}

/// The first signature of a set that is good by one of some keys, among its first eight signatures.
pub(crate) fn first_signed<'a, V: Verifier>(
    alloc: Global,
    judge: &Judge<'_, V>,
    set: &'a RecordSet,
    keys: &[&'a Record],
) -> Result<Option<SignedBy<'a>>, NoMemory>
    ensures { IfOk result (λ s. option_map signed_value s ≡
        first_signed_by (judge_of V.answers judge.now) set.now (shown keys.now)
        (take most_signatures set.now.signatures)) }
{
    let signatures = first_signatures(set);
    for (place, signature) in signatures.iter().enumerate() {
        if let Some(key) = signer(alloc, judge, set, signature, keys)? {
            return Ok(Some(SignedBy {
                place: place as u32,
                signature,
                key,
            }));
        }
    }
    Ok(None)
}

// The first of some keys by which a signature of a set is good.
#[tactic(auto, using(crate::proofs::Reading::unread_signer))]
fn signer<'a, V: Verifier>(
    alloc: Global,
    judge: &Judge<'_, V>,
    set: &RecordSet,
    sig: &Record,
    keys: &[&'a Record],
) -> Result<Option<&'a Record>, NoMemory>
    ensures { IfOk result (λ k. option_copied k
        ≡ signing_key (judge_of V.answers judge.now) set.now (shown keys.now) sig.now) }
{
    let Some(read) = Rrsig::of(sig) else {
        return Ok(None);
    };
    let signature = SetSignature {
        set,
        sig,
        read: &read,
    };
    signer_of_read(alloc, judge, &signature, keys)
}

// The same of a signature that is read. The bytes that it is over are built once.
fn signer_of_read<'a, V: Verifier>(
    alloc: Global,
    judge: &Judge<'_, V>,
    signature: &SetSignature<'_>,
    keys: &[&'a Record],
) -> Result<Option<&'a Record>, NoMemory>
    requires { IsRead signature.now }
    ensures { IfOk result (λ k. option_copied k ≡
        find (is_good_of (judge_of V.answers judge.now) signature.now) (shown keys.now)) }
{
    let mut built = None;
    for key in keys {
        let key = *key;
        if is_good_read(alloc, judge, signature, key, &mut built)? {
            return Ok(Some(key));
        }
    }
    Ok(None)
}
