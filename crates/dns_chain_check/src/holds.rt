//! Whether a link holds by links before it (RFC 4035, 5.2 and 5.3).

ghost use Rattle.std.specs.Prelude.{◌≡◌, IfOk};
ghost use Rattle.dns_model.specs.Chains.{link_holds};
ghost use Rattle.dns_evidence.specs.Link.{link_value};
ghost use Rattle.dns_chain_check.specs.LinkJudges.{link_judge};

use crate::earlier::Earlier;
use crate::link_judge::LinkJudge;
use crate::signed::signed_holds;
use dns_evidence::{Link, Verifier};
use dns_record::NoMemory;
use dns_trust::ds_matches;
use std::alloc::Global;

/// The link holds by what a chain may start with, or by links before it (RFC 4035, 5.2 and 5.3).
#[tactic(auto, unfolding(dns_model::specs::Chains::link_holds))]
pub(crate) fn holds<V: Verifier>(
    alloc: Global,
    judge: &LinkJudge<'_, V>,
    earlier: &Earlier<'_, '_>,
    link: &Link,
) -> Result<bool, NoMemory>
    ensures { IfOk result (λ b. b ≡ link_holds (link_judge V.answers judge.now) earlier.now (link_value link.now)) }
{
    match link {
        Link::Anchored { owner, key, .. } => Ok(judge.starts_with(owner, key.as_slice())),
        Link::Matched {
            owner,
            class,
            key,
            ds_link,
            ds,
        } => {
            let shown = earlier.shows_ds(*ds_link, &owner.borrowed(), *class, ds.as_slice());
            Ok(shown && ds_matches(judge.verifier, owner, key.as_slice(), ds.as_slice()))
        }
        Link::KeySet {
            owner,
            class,
            keys,
            links,
        } => {
            let some = !keys.is_empty();
            Ok(some && earlier.shows_all(&owner.borrowed(), *class, keys, links))
        }
        Link::Signed { .. } => signed_holds(alloc, judge, earlier, link),
    }
}
