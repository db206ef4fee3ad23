//! What is asked of a server.
use dns_record::Query;
use dns_trust::TrustAnchors;

/// What is asked of a server, and by what the answer is judged.
#[derive(Drop)]
pub struct Inquiry<V: Drop> {
    /// What is looked up.
    pub query: Query,
    /// How deep asks may go; nothing else is asked for by options.
    pub depth: u16,
    /// The keys that are trusted.
    pub anchors: TrustAnchors,
    /// What tests signatures.
    pub verifier: V,
    /// Seconds.
    pub moment: u64,
}
