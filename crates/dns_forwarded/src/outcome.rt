//! What a lookup came to.
ghost use Rattle.std.specs.Prelude.{◌≡◌, None, Some, IfOk, IfErr};
ghost use Rattle.dns_forwarded.specs.Outcomes.{outcome_of};

use dns_handle::{DnsError, DnsResponse, NetError};
use dns_model::Proof;
use dns_record::NoMemory;

/// What a lookup came to for the one who had it made (RFC 4035, 5.4 and 5.5).
pub enum Outcome {
    /// Nothing was looked up.
    None,
    /// An answer, with the marks of its records and what it denies.
    Answered(DnsResponse),
    /// A response whose records lack a denial that they need, or have one that doesn't hold, and how far it is proved.
    Denied(DnsResponse, Proof),
    /// Any other error, running out of memory aside.
    Failed(NetError),
}

// By hand, so that a function that lets one go calls this.
impl Drop for Outcome {
    fn drop(self) {
        match self {
            Outcome::None => {}
            Outcome::Answered(_) => {}
            Outcome::Denied(_, _) => {}
            Outcome::Failed(_) => {}
        }
    }
}

impl Outcome {
    /// What the result of a lookup is: Ok is `Answered`, `Dns(Nsec)` is `Denied` with the response in it, and any other error is
    /// `Failed`. The only error is the lookup's own, that memory ran out.
    pub fn of(found: Result<DnsResponse, NetError>) -> Result<Outcome, NoMemory>
        ensures found { IfOk result (λ o. outcome_of found ≡ Some o) }
        ensures none { IfErr result (λ _. outcome_of found ≡ None) }
    {
        match found {
            Ok(response) => Ok(Outcome::Answered(response)),
            Err(NetError::NoMemory) => Err(NoMemory),
            Err(
                NetError::Dns(
                    DnsError::Nsec {
                        query: _,
                        response,
                        proof,
                    },
                ),
            ) => Ok(Outcome::Denied(Box::into_inner(response), proof)),
            Err(error) => Ok(Outcome::Failed(error)),
        }
    }
}
