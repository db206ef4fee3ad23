//! Until when what is found of a set is kept (RFC 4035, 4.7 and 5.3.3; RFC 2308, 5).

ghost use Rattle.std.specs.Prelude.{◌≡◌, ◌-◌, ◌^◌, map};
ghost use Rattle.dns_model.specs.SoundAnswers.{signed_ttl};
ghost use Rattle.dns_model.specs.Views.{rrsig_in};
ghost use Rattle.dns_evidence.specs.Link.{link_value};
ghost use Rattle.dns_cache.specs.Expiry.{clamped, expires_at, kept_for as seconds_kept, left_by_chain as seconds_by_chain, left_by_link as seconds_by_link, left_by_links as seconds_by_links};

use crate::{ProofError, RrsetProof};
use dns_evidence::{Chain, Link};
use dns_model::Proof;
use dns_rdata::Rrsig;
use dns_record::RecordSet;
use std::marker::Model;

/// For how many seconds at the most it is kept why a set isn't Secure, that of a Bogus one too, unless a range says otherwise
/// (RFC 4035, 4.7).
pub const BOGUS_CACHE_TTL: u64 = 60;

/// For how many seconds at least and at most something is kept.
#[derive(Clone, Copy)]
pub struct TtlRange {
    /// At least so many.
    pub least: u64,
    /// At most so many, also where that is less.
    pub most: u64,
}

impl Model for TtlRange {
    ghost use Rattle.dns_cache.specs.Expiry.{TtlRangeValue};

    ghost Value = { TtlRangeValue };

    ghost view = { λ r. record { least = r.least; most = r.most } };

    ghost inverse = { λ r. record { least = r.least; most = r.most } };
}

/// For how long results are kept (RFC 4035, 4.7; RFC 2308, 5).
#[derive(Clone, Copy)]
pub struct TtlRanges {
    /// What was found of a set.
    pub positive: TtlRange,
    /// Why nothing was.
    pub negative: TtlRange,
}

impl Model for TtlRanges {
    ghost use Rattle.dns_cache.specs.Expiry.{TtlRangesValue};

    ghost Value = { TtlRangesValue };

    ghost view = { λ r. record { positive = r.positive; negative = r.negative } };

    ghost inverse = { λ r. record { positive = r.positive; negative = r.negative } };
}

impl TtlRange {
    // A ttl, or the end of the range that is nearer to it.
    fn clamp(&self, ttl: u64) -> u64
        ensures { result ≡ clamped self.now ttl }
    {
        ttl.max(self.least).min(self.most)
    }
}

impl TtlRanges {
    /// Errors for 1 to `BOGUS_CACHE_TTL` seconds, all else for as long as its ttl says.
    pub fn new() -> TtlRanges
        ensures { result ≡ record {
          positive = record { least = 0; most = 2 ^ 64 - 1 };
          negative = record { least = 1; most = 60 };
        } }
    {
        TtlRanges {
            positive: TtlRange {
                least: 0,
                most: u64::MAX,
            },
            negative: TtlRange {
                least: 1,
                most: BOGUS_CACHE_TTL,
            },
        }
    }

    /// Until when, in seconds since 1970, that is kept which was found of a set at a moment: for as long as the ttl of its first
    /// record says, as it came, within its range. What is Secure is kept no longer than each signature in its chain is valid, and
    /// no longer than each one's original ttl (RFC 4035, 5.3.3). Moments stop at the greatest `u64`.
    pub fn expires(
        &self,
        now: u64,
        set: &RecordSet,
        found: &Result<RrsetProof, ProofError>,
        chain: &Option<Chain>,
    ) -> u64
        ensures { result ≡ expires_at self.now now set.now found.now chain.now }
    {
        now.saturating_add(self.kept_for(now, set.first_ttl(), found, chain))
    }

    // For how many seconds.
    fn kept_for(
        &self,
        now: u64,
        ttl: u32,
        found: &Result<RrsetProof, ProofError>,
        chain: &Option<Chain>,
    ) -> u64
        ensures { result ≡ seconds_kept self.now now ttl found.now chain.now }
    {
        let ttl = u64::from(ttl);
        match found {
            Err(_) => self.negative.clamp(ttl),
            Ok(proof) => {
                let seconds = self.positive.clamp(ttl);
                if proof.proof == Proof::Secure {
                    left_by_chain(now, seconds, chain)
                } else {
                    seconds
                }
            }
        }
    }
}

// What the links of a chain leave of so many seconds.
fn left_by_chain(now: u64, seconds: u64, chain: &Option<Chain>) -> u64
    ensures { result ≡ seconds_by_chain now seconds chain.now }
{
    match chain {
        Some(chain) => left_by_links(now, seconds, &chain.links),
        None => seconds,
    }
}

// What links leave of so many seconds.
fn left_by_links(now: u64, seconds: u64, links: &[Link]) -> u64
    ensures { result ≡ seconds_by_links now seconds (map link_value links.now) }
{
    let mut left = seconds;
    for link in links {
        left = left_by_link(now, left, link);
    }
    left
}

// What one link leaves of so many seconds.
fn left_by_link(now: u64, seconds: u64, link: &Link) -> u64
    ensures { result ≡ seconds_by_link now seconds (link_value link.now) }
{
    match link {
        Link::Signed { sig, .. } => seconds.min(left_by_signature(now, sig.as_slice())),
        _ => seconds,
    }
}

// The original ttl of a signature, or the seconds that are left to it if those are fewer; none where it can't be read.
fn left_by_signature(now: u64, sig: &[u8]) -> u64
    ensures { result ≡ signed_ttl (rrsig_in sig.now) now }
{
    match Rrsig::read(sig) {
        Some(sig) => u64::from(sig.ttl_left(now)),
        None => 0,
    }
}
