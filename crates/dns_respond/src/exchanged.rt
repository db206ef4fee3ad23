//! What one exchange was.
use dns_forwarded::Outcome;
use dns_record::Octets;

/// A request, when it came, what its lookup came to, and the reply.
#[derive(Drop)]
pub struct Exchanged {
    /// The bytes of the request.
    pub request: Octets,
    /// The moment at which its question was looked up, in seconds since 1970.
    pub moment: u64,
    /// What the lookup of its question came to, `None` where nothing was looked up.
    pub outcome: Outcome,
    /// The reply in wire form, where there is one.
    pub reply: Option<Octets>,
}
