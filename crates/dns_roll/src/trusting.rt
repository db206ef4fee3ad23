//! Which of some rdatas are trusted keys.
ghost use Rattle.std.specs.Prelude.{◌≡◌, List, None, IfOk, reverse};
ghost use Rattle.std.specs.List.{filter};
ghost use Rattle.dns_anchor_roll.specs.After.{IsAfter, starting};
ghost use Rattle.dns_anchor_roll.specs.Sightings.{SightingValue};
ghost use Rattle.dns_anchor_roll.specs.Trust.{Start, trusted};
ghost use Rattle.dns_roll.specs.RollGrammar.{fall_of};
ghost use Rattle.dns_roll.specs.TrustedText.{is_trusted_key, sightings_in, tells_trust as tells_trust_of, texts_of};

use crate::roll_text::Sight;
use dns_anchor_roll::{AnchorRoll, KeyState, RollError, Sighting, roll};
use dns_evidence::Verifier;
use dns_record::{Name, NoMemory, Rdata};
use std::alloc::Global;

/// A zone's trusted keys after the sightings of sights whose moments don't fall.
pub(crate) fn after_sightings<V: Verifier + Drop>(
    alloc: Global,
    verifier: V,
    zone: Name,
    keys: Vec<Rdata>,
    sights: &[Sight],
    sightings: &[Sighting],
) -> Result<AnchorRoll<V>, NoMemory>
    requires of { sightings.now ≡ sightings_in zone sights.now }
    requires rises { fall_of sights.now ≡ None }
    ensures { IfOk result (λ roll.
        IsAfter V.answers (starting (V.answers verifier) zone keys.items) (reverse sightings.now) roll) }
{
    match roll(alloc, verifier, zone, keys, sightings) {
        Ok(followed) => Ok(followed),
        Err(RollError::NoMemory) => Err(NoMemory),
        Err(RollError::Earlier { last: _ }) => unreachable!(),
    }
}

// Whether a key in a state is trusted.
fn tells_trust(state: Option<KeyState>) -> bool
    ensures { result ≡ tells_trust_of state }
{
    match state {
        Some(KeyState::Valid | KeyState::Missing) => true,
        Some(KeyState::Pending | KeyState::Revoked | KeyState::Removed) => false,
        None => false,
    }
}

// Whether an rdata is a key that counts, and is trusted.
fn is_trusted<V: Verifier + Drop>(followed: &AnchorRoll<V>, rdata: &[u8]) -> bool
    ensures { (start : Start) (list : List SightingValue) → IsAfter V.answers start list followed.now
        → result ≡ is_trusted_key (trusted start list) rdata.now }
{
    tells_trust(followed.state(rdata, 0))
}

/// Those of some rdatas that are trusted keys.
pub(crate) fn trusted_of<'a, V: Verifier + Drop>(
    alloc: Global,
    followed: &AnchorRoll<V>,
    rdatas: &[&'a [u8]],
) -> Result<Vec<&'a [u8]>, NoMemory>
    ensures { IfOk result (λ v. (start : Start) (list : List SightingValue) → IsAfter V.answers start list followed.now
        → texts_of v.items ≡ filter (is_trusted_key (trusted start list)) (texts_of rdatas.now)) }
{
    let mut all = Vec::new(alloc);
    for rdata in rdatas {
        let rdata = *rdata;
        if is_trusted(followed, rdata) {
            all.push(rdata)?;
        }
    }
    Ok(all)
}
