//! What is found of a set: its mark, the ttl that is left to it and the signature that decided (RFC 4035, 5.3.3).

use dns_model::Proof;
use std::marker::Model;

/// What is found of a set that a signature or its keys decide.
#[derive(Clone, Copy)]
pub struct RrsetProof {
    /// The mark of the set.
    pub proof: Proof,
    /// Seconds: the ttl that the signature leaves to the set.
    pub adjusted_ttl: Option<u32>,
    /// The place, among the set's signatures, of the one that decided.
    pub rrsig_index: Option<u32>,
}

impl Model for RrsetProof {
    ghost use Rattle.dns_rules.specs.ProofErrors.{RrsetProofValue};

    ghost Value = { RrsetProofValue };

    ghost view = { λ p. record { proof = p.proof; adjusted_ttl = p.adjusted_ttl; rrsig_index = p.rrsig_index } };

    ghost inverse = { λ p. record { proof = p.proof; adjusted_ttl = p.adjusted_ttl; rrsig_index = p.rrsig_index } };
}
