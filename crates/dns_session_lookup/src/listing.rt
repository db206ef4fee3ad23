//! A verifier that a session lists.
ghost use Rattle.std.specs.Prelude.{◌≡◌, IfOk, OnOk};
ghost use Rattle.dns_evidence.specs.Listing.{answers_of};
ghost use Rattle.dns_session_lookup.specs.Adding.{with_algorithms, with_accepts};
ghost use Rattle.dns_session_lookup.specs.Verifying.{listing};

use dns_evidence::Listed;
use dns_record::NoMemory;
use dns_session::AcceptedSignature;
use std::alloc::Global;

/// The verifier that supports the algorithms and accepts the signatures that a session lists, algorithm 1 aside.
pub fn listed_verifier(
    alloc: Global,
    algorithms: &[u8],
    accepts: Vec<AcceptedSignature>,
) -> Result<Listed, NoMemory>
    ensures { IfOk result (λ v. answers_of v ≡ answers_of (listing algorithms.now accepts.items)) }
{
    let mut verifier = Listed::new(alloc);
    add_algorithms(&mut verifier, algorithms);
    add_accepts(&mut verifier, accepts)?;
    Ok(verifier)
}

// Supports each algorithm.
#[tactic(auto, unfolding(crate::specs::Adding::with_algorithms))]
fn add_algorithms(verifier: &mut Listed, algorithms: &[u8])
    ensures { verifier.new ≡ with_algorithms verifier.old algorithms.now }
{
    let mut left = algorithms;
    'algorithms: while let Some((algorithm, more)) = left.split_first() {
        verifier.support(*algorithm);
        left = more;
    }
}

// Accepts each signature.
#[tactic(auto, using(crate::proofs::JudgeLemmas::accepts_more), unfolding(crate::specs::Adding::with_accepts))]
fn add_accepts(verifier: &mut Listed, accepts: Vec<AcceptedSignature>) -> Result<(), NoMemory>
    ensures { OnOk result (verifier.new ≡ with_accepts verifier.old accepts.items) }
{
    for next in accepts {
        let AcceptedSignature {
            algorithm,
            key,
            bytes,
            signature,
        } = next;
        verifier.accept_octets(algorithm, key, bytes, signature)?;
    }
    Ok(())
}
