//! The signatures of a trail that a verifier accepts.
ghost use Rattle.std.specs.Prelude.{◌≡◌, [], IfOk};
ghost use Rattle.std.specs.List.{filter};
ghost use Rattle.dns_saved_lookup.specs.Lookups.{accepted_in, is_accepted};

use dns_evidence::{Trail, Verifier};
use dns_questions::trail_questions;
use dns_record::NoMemory;
use dns_session::AcceptedSignature;
use dns_session_lookup::listed_verifier;
use std::alloc::Global;

// Whether a verifier accepts a signature.
fn is_accepted<V: Verifier>(verifier: &V, asked: &AcceptedSignature) -> bool
    ensures { result ≡ is_accepted (V.answers verifier.now) asked.now }
{
    verifier.accepts(
        asked.algorithm,
        asked.key.as_slice(),
        asked.bytes.as_slice(),
        asked.signature.as_slice(),
    )
}

// Keeps those of some signatures that a verifier accepts, in order.
fn keep_accepted<V: Verifier>(verifier: &V, asked: &mut Vec<AcceptedSignature>)
    ensures { asked.new.items ≡ filter (is_accepted (V.answers verifier.now)) asked.old.items }
{
    asked.retain(|next| is_accepted(verifier, next));
}

/// The signatures that a verifier accepts, among those that a trail could put to one that supports these algorithms at a moment, in
/// seconds since 1970: each with the key and the bytes, in the order of the trail, each once. It fails only where memory runs out.
pub fn accepted_signatures<V: Verifier>(
    alloc: Global,
    verifier: &V,
    algorithms: &[u8],
    moment: u64,
    trail: &Trail,
) -> Result<Vec<AcceptedSignature>, NoMemory>
    ensures { IfOk result (λ v. v.items ≡ accepted_in (V.answers verifier.now) algorithms.now moment trail.now) }
{
    let supporting = listed_verifier(alloc, algorithms, Vec::new(alloc))?;
    let mut asked = trail_questions(alloc, &supporting, moment, trail)?;
    keep_accepted(verifier, &mut asked);
    Ok(asked)
}
