//! A verifier that accepts each signature, and takes its time.

use dns_evidence::Verifier;
use sha2::{Digest, Sha256};
use std::cell::Cell;

/// What is hashed for a signature.
const BYTES: &[u8; 16384] = &[7; 16384];

/// A verifier that accepts each signature after it has hashed some bytes.
#[derive(Drop)]
pub(crate) struct Weighing {
    weight: u32,
    last: Cell<u8>,
}

impl Weighing {
    /// One that hashes so many bytes, 16,384 at the most.
    pub(crate) fn new(weight: u32) -> Weighing {
        Weighing {
            weight,
            last: Cell::new(0),
        }
    }
}

impl Verifier for Weighing {
    ghost use Rattle.std.specs.Prelude.{true};

    ghost answers = { λ _. record {
      supports = λ algorithm. true;
      accepts = λ algorithm key bytes signature. true;
    } };

    fn supports(&self, _algorithm: u8) -> bool {
        true
    }

    fn accepts(&self, _algorithm: u8, _key: &[u8], _bytes: &[u8], _signature: &[u8]) -> bool {
        if self.weight != 0 {
            self.last.set(hashed(BYTES, self.weight as usize));
        }
        true
    }

    fn same(&self, _other: &Weighing) -> bool {
        true
    }
}

// The first byte of the hash of so many of these bytes.
fn hashed(bytes: &[u8], weight: usize) -> u8 {
    let mut hasher = Sha256::new();
    hasher.update(bytes.get(..weight).unwrap_or(bytes));
    let [first, ..] = hasher.finalize();
    first
}
