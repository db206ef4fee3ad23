//! What a verifier's acceptance of a chain leaves to test (RFC 4035, 4.4 and 5.3).

ghost use Rattle.std.specs.Prelude.{◌≡◌, false, map};
ghost use Rattle.std.specs.List.{list_all};
ghost use Rattle.std.specs.Option.{option_map_or};
ghost use Rattle.dns_model.specs.Serial.{timely};
ghost use Rattle.dns_model.specs.Views.{rrsig_in};
ghost use Rattle.dns_evidence.specs.Link.{link_value};
ghost use Rattle.dns_chain_check.specs.Trusted.{DecidesAccepted, is_trusted as trusted_chain, is_trusted_link};

use dns_evidence::{Chain, Link};
use dns_rdata::Rrsig;
use dns_record::Rdata;
use dns_trust::{TrustAnchors, anchored, is_timely};

/// Whether the keys that start a chain are anchors, and its signatures count at a moment, in seconds since 1970. Of a chain that a
/// verifier accepts by itself (`accepted_chain`) that alone decides whether it is justified. Any chain may be handed in; no signature
/// is put to a verifier.
pub fn is_trusted(anchors: &TrustAnchors, now: u64, chain: &Chain) -> bool
    ensures value { result ≡ trusted_chain anchors.now now chain.now.links }
    ensures decides { DecidesAccepted anchors.now now chain.now.links result }
{
    are_trusted(anchors, now, &chain.links)
}

// So it is for each of these links, by the facts that they say.
fn are_trusted(anchors: &TrustAnchors, now: u64, links: &[Link]) -> bool
    ensures { result ≡ list_all (is_trusted_link anchors.now now) (map link_value links.now) }
{
    each_trusted(anchors, now, links)
}

// The same of the links as they stand in memory.
fn each_trusted(anchors: &TrustAnchors, now: u64, links: &[Link]) -> bool
    ensures { result ≡ list_all (λ l. is_trusted_link anchors.now now (link_value l)) links.now }
{
    for link in links {
        if !is_link_trusted(anchors, now, link) {
            return false;
        }
    }
    true
}

// A key that starts a chain is an anchor, and a signature counts at the moment.
fn is_link_trusted(anchors: &TrustAnchors, now: u64, link: &Link) -> bool
    ensures { result ≡ is_trusted_link anchors.now now (link_value link.now) }
{
    match link {
        Link::Anchored { owner, key, .. } => anchored(anchors, owner, key.as_slice()),
        Link::Matched { .. } | Link::KeySet { .. } => true,
        Link::Signed { sig, .. } => counts_at(sig, now),
    }
}

// The signature can be read, and counts at the moment.
fn counts_at(sig: &Rdata, now: u64) -> bool
    ensures { result ≡ option_map_or (λ s. timely s now) (rrsig_in sig.now) false }
{
    match Rrsig::read(sig.as_slice()) {
        Some(read) => is_timely(&read, now),
        None => false,
    }
}
