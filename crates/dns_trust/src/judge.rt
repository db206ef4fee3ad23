//! By what is judged: a verifier, trust anchors and a moment.

use crate::TrustAnchors;

/// By what signatures and sets are judged.
#[derive(Drop)]
pub struct Judge<'a, V> {
    /// What tests signatures.
    pub verifier: &'a V,
    /// The keys that are trusted without a signature.
    pub anchors: &'a TrustAnchors,
    /// Seconds since 1970.
    pub moment: u64,
}
