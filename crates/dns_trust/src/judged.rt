//! The mark of a set that isn't DNSKEY, by the verdicts of its signatures (RFC 4035, 5.3.3).

ghost use Rattle.std.specs.Prelude.{◌≡◌, IfOk, map};
ghost use Rattle.std.specs.List.{position};
ghost use Rattle.dns_evidence.specs.Link.{link_value};
ghost use Rattle.dns_rules.specs.Marks.{is_proved, shows_insecure};
ghost use Rattle.dns_rules.specs.ChainedSets.{bare_verdicts, proved_chain, chained_by};
ghost use Rattle.dns_trust.specs.Verdicts.{verdict_value};

use crate::Verdict;
use dns_evidence::{ChainedSet, Link, MarkedSet, PlacedSet};
use dns_model::Proof;
use dns_record::NoMemory;

/// A set that isn't DNSKEY, judged by the verdicts of its signatures: the first that proves it decides, else the first that
/// shows that no more than Insecure can be expected (RFC 4035, 5.3.3).
#[tactic(auto, unfolding(dns_rules::specs::Marks::judged_by))]
pub fn chained_by(placed: PlacedSet, verdicts: Vec<Verdict>) -> Result<ChainedSet, NoMemory>
    ensures { IfOk result (λ j. j ≡ chained_by placed (map verdict_value verdicts.items)) }
{
    let proved = place_of_proof(&verdicts)?;
    let insecure = place_of_insecure(&verdicts)?;
    let mark = match (proved, insecure) {
        (Some(_), _) => Proof::Secure,
        (None, Some(_)) => Proof::Insecure,
        (None, None) => Proof::Bogus,
    };
    let PlacedSet { section, set } = placed;
    let judged = MarkedSet {
        section,
        set,
        mark,
        sig: proved.or(insecure),
    };
    let chain = chain_of(verdicts);
    Ok(ChainedSet { judged, chain })
}

// The place of the first verdict that proves the set.
fn place_of_proof(verdicts: &[Verdict]) -> Result<Option<u32>, NoMemory>
    ensures { IfOk result (λ p. p ≡ position is_proved (bare_verdicts (map verdict_value verdicts.now))) }
{
    numbered(first_proof(verdicts))
}

// The place of the first verdict that is Insecure.
fn place_of_insecure(verdicts: &[Verdict]) -> Result<Option<u32>, NoMemory>
    ensures { IfOk result (λ p. p ≡ position shows_insecure (bare_verdicts (map verdict_value verdicts.now))) }
{
    numbered(first_insecure(verdicts))
}

// The same as an index.
fn first_proof(verdicts: &[Verdict]) -> Option<usize>
    ensures { result ≡ position (λ v. is_proved (verdict_value v).verdict) verdicts.now }
{
    verdicts.iter().position(Verdict::is_proved)
}

// The same as an index.
fn first_insecure(verdicts: &[Verdict]) -> Option<usize>
    ensures { result ≡ position (λ v. shows_insecure (verdict_value v).verdict) verdicts.now }
{
    verdicts.iter().position(Verdict::shows_insecure)
}

// A place in fewer bits, where it fits.
fn numbered(place: Option<usize>) -> Result<Option<u32>, NoMemory>
    ensures { IfOk result (λ p. p ≡ place) }
{
    let Some(place) = place else {
        return Ok(None);
    };
    match u32::try_from(place) {
        Ok(number) => Ok(Some(number)),
        Err(_) => Err(NoMemory),
    }
}

// The links of the first verdict that proves the set. It goes from the last verdict to the first.
fn chain_of(mut verdicts: Vec<Verdict>) -> Vec<Link>
    ensures { map link_value result.items ≡ proved_chain (map verdict_value verdicts.items) }
{
    let mut chain = Vec::new(*verdicts.allocator());
    while let Some(verdict) = verdicts.pop() {
        if let Some(links) = verdict.into_links() {
            chain = links;
        }
    }
    chain
}
