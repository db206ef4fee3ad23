//! What tests signatures.
ghost use Rattle.std.specs.Prelude.{◌≡◌, ⊤, Bool, IsTrue};
ghost use Rattle.dns_model.specs.Keys.{VerifierAnswers};
ghost use Rattle.dns_evidence.specs.Verifiers.{AnswerAlike};

/// What tests signatures. Its answers depend on nothing but the arguments.
pub trait Verifier {
    /// Which algorithms are supported, and which signatures are accepted.
    ghost answers: { Self → VerifierAnswers };

    /// The algorithm, by its number in the registry, can be tested.
    fn supports(&self, algorithm: u8) -> bool
        ensures { result ≡ (answers self.now).supports algorithm };

    /// The signature over the bytes is the key's, under the algorithm (RFC 4035, 5.3.3).
    fn accepts(&self, algorithm: u8, key: &[u8], bytes: &[u8], signature: &[u8]) -> bool
        ensures { result ≡ (answers self.now).accepts algorithm key.now bytes.now signature.now };

    /// What `same` may answer of two verifiers. Left open it is anything that is true.
    ghost says_same: { Self → Self → Bool → Type 0 } = { λ _ _ _. ⊤ };

    /// The other verifier answers alike; a verifier that can't tell says false.
    fn same(&self, other: &Self) -> bool
        ensures alike { IsTrue result → AnswerAlike (answers self.now) (answers other.now) }
        ensures says { says_same self.now other.now result };
}
