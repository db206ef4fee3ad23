//! Whether a chain is justified, or accepted by itself: each link holds by those before it (RFC 4035, 5.2 and 5.3).

ghost use Rattle.std.specs.Prelude.{◌≡◌, [], IfOk, IsTrue, map};
ghost use Rattle.dns_model.specs.Chains.{accepted_alone, judge, judge_alone, justified, link_holds, links_hold};
ghost use Rattle.dns_evidence.specs.Link.{link_value};
ghost use Rattle.dns_chain_check.specs.LinkJudges.{link_judge};
ghost use Rattle.dns_chain_check.specs.MoreTrust.{HoldsForMore};
ghost use Rattle.dns_chain_check.specs.Prefixes.{PrefixesHold};

use crate::earlier::Earlier;
use crate::holds::holds;
use crate::indexed::IndexedLink;
use crate::link_judge::{LinkJudge, Trust};
use dns_evidence::{Chain, Link, Verifier};
use dns_record::NoMemory;
use dns_trust::TrustAnchors;
use std::alloc::Global;

/// Whether a chain is justified by trust anchors and a verifier at a moment in seconds since 1970: it has a link, and
/// each link holds by the anchors or by links before it (RFC 4035, 5.2 and 5.3). Any chain may be handed in.
pub fn check_chain<V: Verifier>(
    alloc: Global,
    anchors: &TrustAnchors,
    verifier: &V,
    now: u64,
    chain: &Chain,
) -> Result<bool, NoMemory>
    ensures value { IfOk result (λ b. b ≡ justified (judge (V.answers verifier.now) anchors.now now) chain.now.links) }
    // Where a chain is justified, so is each chain that it begins with.
    ensures prefixes { IfOk result (λ b. IsTrue b →
        PrefixesHold (judge (V.answers verifier.now) anchors.now now) chain.now.links) }
    // It stays so for a verifier that accepts more, and for more anchors.
    ensures more { IfOk result (λ b. IsTrue b → HoldsForMore (V.answers verifier.now) anchors.now now chain.now.links) }
    // And the verifier accepts it by itself, whoever trusts its first keys and whenever.
    ensures alone { IfOk result (λ b. IsTrue b → IsTrue (accepted_alone (V.answers verifier.now) chain.now.links)) }
{
    let trust = Trust {
        anchors,
        moment: now,
    };
    let judge = LinkJudge {
        verifier,
        trust: Some(trust),
    };
    is_justified(alloc, &judge, &chain.links)
}

/// Whether a verifier accepts a chain by itself, whoever trusts its first keys and whenever: it has a link, each key that starts
/// it can be read, and each other link holds by links before it, at whatever moment its signature counts (RFC 4035, 5.2 and 5.3).
/// Any chain may be handed in. What is left for `check_chain` to find are the anchors and the moment.
pub fn accepted_chain<V: Verifier>(
    alloc: Global,
    verifier: &V,
    chain: &Chain,
) -> Result<bool, NoMemory>
    ensures value { IfOk result (λ b. b ≡ accepted_alone (V.answers verifier.now) chain.now.links) }
    // Where a chain is accepted, so is each chain that it begins with.
    ensures prefixes { IfOk result (λ b. IsTrue b → PrefixesHold (judge_alone (V.answers verifier.now)) chain.now.links) }
{
    let judge = LinkJudge {
        verifier,
        trust: None,
    };
    is_justified(alloc, &judge, &chain.links)
}

// There is a link, and each holds by those before it.
fn is_justified<V: Verifier>(
    alloc: Global,
    judge: &LinkJudge<'_, V>,
    links: &[Link],
) -> Result<bool, NoMemory>
    ensures { IfOk result (λ b. b ≡ justified (link_judge V.answers judge.now) (map link_value links.now)) }
{
    if links.is_empty() {
        return Ok(false);
    }
    all_hold(alloc, judge, links)
}

// Each link holds by those before it.
fn all_hold<V: Verifier>(
    alloc: Global,
    judge: &LinkJudge<'_, V>,
    links: &[Link],
) -> Result<bool, NoMemory>
    ensures { IfOk result (λ b. b ≡ links_hold (link_judge V.answers judge.now) [] (map link_value links.now)) }
{
    let mut indexed = Vec::new(alloc);
    for (number, link) in links.iter().enumerate() {
        if !holds_after(alloc, judge, &links[..number], &indexed, link)? {
            return Ok(false);
        }
        indexed.push(IndexedLink::of(alloc, link)?)?;
    }
    Ok(true)
}

// The link holds by the links before it, of which the others are the indexes.
fn holds_after<V: Verifier>(
    alloc: Global,
    judge: &LinkJudge<'_, V>,
    links: &[Link],
    indexed: &[IndexedLink<'_>],
    link: &Link,
) -> Result<bool, NoMemory>
    requires { indexed.now ≡ map link_value links.now }
    ensures { IfOk result (λ b. b
        ≡ link_holds (link_judge V.answers judge.now) (map link_value links.now) (link_value link.now)) }
{
    let earlier = Earlier::of(links, indexed);
    holds(alloc, judge, &earlier, link)
}
