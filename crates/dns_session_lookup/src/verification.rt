//! How the signatures of a session are verified: by those that it lists, or by arithmetic.
ghost use Rattle.std.specs.Prelude.{◌≡◌, IfOk};
ghost use Rattle.dns_session_lookup.specs.Verifying.{answers_by, verifier_answers};

use crate::listing::listed_verifier;
use dns_evidence::{Listed, Verifier};
use dns_record::NoMemory;
use dns_session::AcceptedSignature;
use dns_signatures::Arithmetic;
use std::alloc::Global;

/// How the signatures of a session are verified.
#[derive(Clone, Copy, Debug, PartialEq, Eq)]
pub enum Verification {
    /// Those that the session lists are accepted, under the algorithms that it lists.
    ByList,
    /// They are computed, under the algorithms that the session lists. Its accepted signatures aren't used.
    ByArithmetic,
}

/// What verifies the signatures of a session.
pub enum SessionVerifier {
    /// Those that are listed are accepted.
    Listed(Listed),
    /// They are computed.
    Computed(Arithmetic),
}

// By hand, so that a function that lets one go calls this.
impl Drop for SessionVerifier {
    fn drop(self) {
        match self {
            SessionVerifier::Listed(_) => {}
            SessionVerifier::Computed(_) => {}
        }
    }
}

impl Verifier for SessionVerifier {
    ghost use Rattle.dns_session_lookup.specs.Verifying.{verifier_answers};

    ghost answers = { verifier_answers };

    fn supports(&self, algorithm: u8) -> bool {
        match self {
            SessionVerifier::Listed(listed) => listed.supports(algorithm),
            SessionVerifier::Computed(computed) => computed.supports(algorithm),
        }
    }

    fn accepts(&self, algorithm: u8, key: &[u8], bytes: &[u8], signature: &[u8]) -> bool {
        match self {
            SessionVerifier::Listed(listed) => listed.accepts(algorithm, key, bytes, signature),
            SessionVerifier::Computed(computed) => computed.accepts(
                algorithm, key, bytes, signature,
            ),
        }
    }

    /// Both are of one kind, and those are the same.
    fn same(&self, other: &SessionVerifier) -> bool {
        match (self, other) {
            (SessionVerifier::Listed(one), SessionVerifier::Listed(other)) => one.same(other),
            (SessionVerifier::Computed(one), SessionVerifier::Computed(other)) => one.same(other),
            _ => false,
        }
    }
}

/// What verifies the signatures of a session that lists these algorithms and these accepted signatures.
pub fn session_verifier(
    alloc: Global,
    how: Verification,
    algorithms: &[u8],
    accepts: Vec<AcceptedSignature>,
) -> Result<SessionVerifier, NoMemory>
    ensures { IfOk result (λ v. verifier_answers v ≡ answers_by how algorithms.now accepts.items) }
{
    match how {
        Verification::ByList => {
            let listed = listed_verifier(alloc, algorithms, accepts)?;
            Ok(SessionVerifier::Listed(listed))
        }
        Verification::ByArithmetic => {
            let computed = Arithmetic::new().limited_to(algorithms);
            Ok(SessionVerifier::Computed(computed))
        }
    }
}
