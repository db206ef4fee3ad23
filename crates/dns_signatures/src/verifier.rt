//! The verifier that computes.
ghost use Rattle.std.specs.Prelude.{◌≡◌};
ghost use Rattle.dns_signatures.specs.Signatures.{all_used, is_same, limited_to, uses, without_sha1};

use crate::ecdsa::{p256_accepts, p384_accepts};
use crate::rsa::rsa_accepts;
use dns_evidence::Verifier;
use edwards_curves::ed25519_accepts;
use std::marker::Model;

/// Verifies signatures by arithmetic: RSA with SHA-1, SHA-256 and SHA-512 (RFC 3110, 5155 and 5702), ECDSA on P-256 and P-384
/// (RFC 6605), and Ed25519 (RFC 8080). Other algorithms aren't supported. It takes no memory and keeps nothing.
#[derive(Clone, Copy)]
pub struct Arithmetic {
    rsa_sha1: bool,
    rsa_sha1_nsec3: bool,
    rsa_sha256: bool,
    rsa_sha512: bool,
    p256: bool,
    p384: bool,
    ed25519: bool,
}

impl Model for Arithmetic {
    ghost use Rattle.dns_signatures.specs.Signatures.{ArithmeticValue};

    ghost Value = { ArithmeticValue };

    ghost view = { λ a. record {
      rsa_sha1 = a.rsa_sha1;
      rsa_sha1_nsec3 = a.rsa_sha1_nsec3;
      rsa_sha256 = a.rsa_sha256;
      rsa_sha512 = a.rsa_sha512;
      p256 = a.p256;
      p384 = a.p384;
      ed25519 = a.ed25519;
    } };

    ghost inverse = { λ a. record {
      rsa_sha1 = a.rsa_sha1;
      rsa_sha1_nsec3 = a.rsa_sha1_nsec3;
      rsa_sha256 = a.rsa_sha256;
      rsa_sha512 = a.rsa_sha512;
      p256 = a.p256;
      p384 = a.p384;
      ed25519 = a.ed25519;
    } };
}

impl Arithmetic {
    /// Uses each algorithm that is computed here.
    pub fn new() -> Arithmetic
        ensures { result ≡ all_used }
    {
        Arithmetic {
            rsa_sha1: true,
            rsa_sha1_nsec3: true,
            rsa_sha256: true,
            rsa_sha512: true,
            p256: true,
            p384: true,
            ed25519: true,
        }
    }

    /// The same without algorithms 5 and 7: SHA-1 is being retired (RFC 8624, 3.1).
    pub fn without_sha1(self) -> Arithmetic
        ensures { result ≡ without_sha1 self }
    {
        Arithmetic {
            rsa_sha1: false,
            rsa_sha1_nsec3: false,
            ..self
        }
    }

    /// The same without algorithms that aren't among these numbers of the registry.
    pub fn limited_to(self, algorithms: &[u8]) -> Arithmetic
        ensures { result ≡ limited_to self algorithms.now }
    {
        Arithmetic {
            rsa_sha1: self.rsa_sha1 && algorithms.contains(&5),
            rsa_sha1_nsec3: self.rsa_sha1_nsec3 && algorithms.contains(&7),
            rsa_sha256: self.rsa_sha256 && algorithms.contains(&8),
            rsa_sha512: self.rsa_sha512 && algorithms.contains(&10),
            p256: self.p256 && algorithms.contains(&13),
            p384: self.p384 && algorithms.contains(&14),
            ed25519: self.ed25519 && algorithms.contains(&15),
        }
    }
}

impl Arithmetic {
    // The other uses the same algorithms.
    fn uses_as(&self, other: &Arithmetic) -> bool
        ensures { result ≡ is_same self.now other.now }
    {
        self.rsa_sha1 == other.rsa_sha1
            && self.rsa_sha1_nsec3 == other.rsa_sha1_nsec3
            && self.rsa_sha256 == other.rsa_sha256
            && self.rsa_sha512 == other.rsa_sha512
            && self.p256 == other.p256
            && self.p384 == other.p384
            && self.ed25519 == other.ed25519
    }
}

impl Verifier for Arithmetic {
    ghost use Rattle.std.specs.Prelude.{◌≡◌};
    ghost use Rattle.dns_signatures.specs.Signatures.{arithmetic_answers, is_same};

    ghost answers = { arithmetic_answers };

    ghost says_same = { λ one other says. says ≡ is_same one other };

    fn supports(&self, algorithm: u8) -> bool {
        match algorithm {
            5 => self.rsa_sha1,
            7 => self.rsa_sha1_nsec3,
            8 => self.rsa_sha256,
            10 => self.rsa_sha512,
            13 => self.p256,
            14 => self.p384,
            15 => self.ed25519,
            _ => false,
        }
    }

    fn accepts(&self, algorithm: u8, key: &[u8], bytes: &[u8], signature: &[u8]) -> bool {
        self.supports(algorithm)
            && match algorithm {
                13 => p256_accepts(key, bytes, signature),
                14 => p384_accepts(key, bytes, signature),
                15 => ed25519_accepts(key, bytes, signature),
                _ => rsa_accepts(algorithm, key, bytes, signature),
            }
    }

    #[tactic(auto, using(crate::proofs::Alike::same_alike))]
    fn same(&self, other: &Arithmetic) -> bool {
        self.uses_as(other)
    }
}
