//! A verifier that counts its questions.

use dns_evidence::Verifier;
use std::cell::Cell;

/// A verifier that supports each algorithm but 14, accepts a signature that is the key itself, and counts how often it
/// is asked.
#[derive(Drop)]
pub(crate) struct Counting<'a> {
    pub(crate) questions: &'a Cell<u32>,
}

impl<'a> Verifier for Counting<'a> {
    ghost use Rattle.std.specs.Prelude.{◌==◌, not};
    ghost use Rattle.dns_model.specs.Keys.{bytes_eq};

    ghost answers = { λ counting. record {
      supports = λ algorithm. not (algorithm == 14);
      accepts = λ algorithm key bytes signature. bytes_eq key signature;
    } };

    fn supports(&self, algorithm: u8) -> bool {
        algorithm != 14
    }

    fn accepts(&self, _algorithm: u8, key: &[u8], _bytes: &[u8], signature: &[u8]) -> bool {
        self.questions.set(self.questions.get().wrapping_add(1));
        key == signature
    }

    fn same(&self, _other: &Counting<'a>) -> bool {
        false
    }
}
