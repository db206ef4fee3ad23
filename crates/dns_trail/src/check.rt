//! Whether a trail is a derivation: its order, and then its steps (RFC 4035, 4.3, 4.5, 5.2 and 5.3).

ghost use Rattle.std.specs.Prelude.{◌≡◌, IfOk};
ghost use Rattle.dns_model.specs.Chains.{judge as judge_by};
ghost use Rattle.dns_rules.specs.CacheEntries.{live};
ghost use Rattle.dns_rules.specs.Derivation.{derivation};

use crate::is_in_order;
use crate::kept::KeptEntries;
use crate::steps::steps_hold;
use dns_cache::Entry;
use dns_evidence::{Limits, Trail, Verifier, effective};
use dns_record::NoMemory;
use dns_trust::{Judge, TrustAnchors};
use std::alloc::Global;

/// Whether a trail is a derivation by these anchors and this verifier at a moment, in seconds since 1970: its asks make
/// a tree that was gone through in order, and each mark and each ending follows from what was told and from the steps
/// before it, or from an entry that was kept before and isn't up at that moment (RFC 4035, 4.3, 4.5, 5.2 and 5.3). A kept entry that
/// says Secure serves only where its chain proves the set by the same anchors, verifier and moment. It takes any trail and any entries.
///
/// Whether the trail of a response shows its marks, where nothing was kept before:
///
/// ```
/// fn is_derived<V: Verifier>(
///     alloc: Global,
///     anchors: &TrustAnchors,
///     verifier: &V,
///     now: u64,
///     response: &DnsResponse,
/// ) -> Result<bool, NoMemory> {
///     let limits = Limits {
///         depth: 26,
///         soft: IterationLimits::DEFAULT.soft,
///         hard: IterationLimits::DEFAULT.hard,
///     };
///     check_trail(alloc, anchors, verifier, now, &limits, &[], &response.trail)
/// }
/// ```
pub fn check_trail<V: Verifier>(
    alloc: Global,
    anchors: &TrustAnchors,
    verifier: &V,
    now: u64,
    limits: &Limits,
    cached: &[Entry],
    trail: &Trail,
) -> Result<bool, NoMemory>
    ensures { IfOk result (λ b. b
        ≡ derivation (judge_by (V.answers verifier.now) anchors.now now) limits.now
        (live now cached.now) trail.now) }
{
    if !is_in_order(&trail.steps) {
        return Ok(false);
    }
    let judge = Judge {
        verifier,
        anchors,
        moment: now,
    };
    let kept = KeptEntries::of(alloc, cached)?;
    steps_hold(alloc, &judge, effective(limits), &kept, &trail.steps)
}
