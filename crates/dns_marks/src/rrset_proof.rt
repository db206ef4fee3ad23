//! What is found of a set that is Secure or Insecure, with the ttl that is left to it (RFC 4035, 5.3.3).

ghost use Rattle.std.specs.Prelude.{◌≡◌, None, min, slice_get};
ghost use Rattle.dns_model.specs.SoundAnswers.{ttl_of};
ghost use Rattle.dns_trust.specs.SetSignatures.{IsRead};
ghost use Rattle.dns_cache.specs.Proofs.{proved_by as proved_under, proved_with as proved_with_ttl, proved_whole as proved_by_keys, excused as excused_by_keys};

use crate::tested::Tested;
use dns_cache::RrsetProof;
use dns_model::Proof;
use dns_rdata::Rrsig;
use dns_record::{Record, RecordSet};

/// Secure by a signature, at a moment in seconds since 1970.
pub(crate) fn proved_by(now: u64, set: &RecordSet, sig: &Record, place: Option<u32>) -> RrsetProof
    ensures { result ≡ proved_under now set.now sig.now place }
{
    proved_with(ttl_by(set, Rrsig::ttl_left_by(sig, now)), place)
}

/// The same by a signature that is tested, and so is read; it is the only one.
pub(crate) fn proved_by_tested<V>(tested: &Tested<'_, '_, V>) -> RrsetProof
    requires { IsRead tested.now.signature }
    ensures { result ≡ proved_under tested.now.moment tested.now.signature.set.now tested.now.signature.sig.now None }
{
    let left = tested.signature.read.ttl_left(tested.moment);
    proved_with(ttl_by(tested.signature.set, left), None)
}

// Secure, with this ttl.
fn proved_with(ttl: u32, place: Option<u32>) -> RrsetProof
    ensures { result ≡ proved_with_ttl ttl place }
{
    RrsetProof {
        proof: Proof::Secure,
        adjusted_ttl: Some(ttl),
        rrsig_index: place,
    }
}

/// Secure with no signature.
pub(crate) fn proved_whole() -> RrsetProof
    ensures { result ≡ proved_by_keys }
{
    RrsetProof {
        proof: Proof::Secure,
        adjusted_ttl: None,
        rrsig_index: None,
    }
}

/// Insecure.
pub(crate) fn excused() -> RrsetProof
    ensures { result ≡ excused_by_keys }
{
    RrsetProof {
        proof: Proof::Insecure,
        adjusted_ttl: None,
        rrsig_index: None,
    }
}

// The ttl of a set's first record, or what a signature leaves where that is less.
fn ttl_by(set: &RecordSet, left: u32) -> u32
    ensures { result ≡ min (ttl_of (slice_get set.now.records 0)) left }
{
    set.first_ttl().min(left)
}
