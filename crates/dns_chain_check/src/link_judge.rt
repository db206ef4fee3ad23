//! By what links are judged: by a verifier, and by whom and when it is trusted.

ghost use Rattle.std.specs.Prelude.{◌≡◌};
ghost use Rattle.dns_chain_check.specs.LinkJudges.{link_judge};

use dns_evidence::Verifier;
use dns_rdata::{Dnskey, Rrsig};
use dns_record::Name;
use dns_trust::{TrustAnchors, anchored, is_timely};

/// Which keys are trusted without a signature, and when.
#[derive(Drop)]
pub(crate) struct Trust<'a> {
    /// The keys.
    pub(crate) anchors: &'a TrustAnchors,
    /// Seconds since 1970.
    pub(crate) moment: u64,
}

/// By what links are judged: by a verifier, and by whom and when it is trusted, or whoever and whenever that is.
#[derive(Drop)]
pub(crate) struct LinkJudge<'a, V> {
    /// What tests signatures.
    pub(crate) verifier: &'a V,
    /// None where the verifier judges alone.
    pub(crate) trust: Option<Trust<'a>>,
}

impl<'a, V: Verifier> LinkJudge<'a, V> {
    /// A chain may start with this key: it is an anchor, or where nobody says which those are, it can be read.
    pub(crate) fn starts_with(&self, owner: &Name, key: &[u8]) -> bool
        ensures { result ≡ (link_judge V.answers self.now).is_anchored owner.now key.now }
    {
        match &self.trust {
            Some(trust) => anchored(trust.anchors, owner, key),
            None => Dnskey::read(key).is_some(),
        }
    }

    /// The signature counts at the moment, or at some moment.
    pub(crate) fn is_timely(&self, sig: &Rrsig<'_>) -> bool
        ensures { result ≡ (link_judge V.answers self.now).is_timely sig.now }
    {
        match &self.trust {
            Some(trust) => is_timely(sig, trust.moment),
            None => true,
        }
    }
}
