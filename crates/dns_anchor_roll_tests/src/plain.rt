//! The rules as they are said, over a whole list of sightings: slow, and beside no state. Keys are bits of a number.

use crate::parts::D;

/// A signature: the key that made it, whether by its form with the flag REVOKE, and its original ttl.
#[derive(Clone, Copy, Drop)]
pub(crate) struct PlainSignature {
    pub(crate) key: u8,
    pub(crate) revoked: bool,
    pub(crate) ttl: u32,
}

/// A sighting: its keys without the flag REVOKE and with it, and its signatures.
#[derive(Drop)]
pub(crate) struct PlainSighting {
    pub(crate) moment: u64,
    pub(crate) held: u8,
    pub(crate) revoked: u8,
    pub(crate) signatures: Vec<PlainSignature>,
}

/// What a sighting comes to: by which ttl it is accepted, which keys it shows, and which it revokes.
#[derive(Clone, Copy, Drop)]
pub(crate) struct PlainFact {
    pub(crate) moment: u64,
    pub(crate) ttl: Option<u32>,
    pub(crate) shows: u8,
    pub(crate) revokes: u8,
}

fn has(keys: u8, key: u8) -> bool {
    keys & key != 0
}

/// The accepted sighting before these, if there is one, doesn't show the key. These are newest last.
fn may_begin(before: &[PlainFact], key: u8) -> bool {
    for fact in before.iter().rev() {
        if fact.ttl.is_some() {
            return !has(fact.shows, key);
        }
    }
    true
}

/// Each accepted one of these shows the key, up to one that comes when the hold-down of the first is over.
fn comes_through(facts: &[PlainFact], key: u8) -> bool {
    let Some(first) = facts.first() else {
        return false;
    };
    let Some(ttl) = first.ttl else {
        return false;
    };
    let due = first.moment.saturating_add(D.max(u64::from(ttl)));
    for fact in facts {
        if fact.ttl.is_none() {
            continue;
        }
        if !has(fact.shows, key) {
            return false;
        }
        if fact.moment >= due {
            return true;
        }
    }
    false
}

/// A key is trusted after these sightings.
pub(crate) fn is_trusted(facts: &[PlainFact], given: u8, key: u8) -> bool {
    for fact in facts {
        if has(fact.revokes, key) {
            return false;
        }
    }
    if has(given, key) {
        return true;
    }
    for place in 0..facts.len() {
        if may_begin(&facts[..place], key) && comes_through(&facts[place..], key) {
            return true;
        }
    }
    false
}

/// The first eight signatures of a sighting.
fn tried(sighting: &PlainSighting) -> &[PlainSignature] {
    let all = sighting.signatures.as_slice();
    &all[..all.len().min(8)]
}

/// By which ttl a sighting is accepted.
fn accepted_ttl(facts: &[PlainFact], given: u8, sighting: &PlainSighting) -> Option<u32> {
    for signature in tried(sighting) {
        if !signature.revoked
            && has(sighting.held, signature.key)
            && is_trusted(facts, given, signature.key)
        {
            return Some(signature.ttl);
        }
    }
    None
}

/// Which keys a sighting revokes.
fn revoked(facts: &[PlainFact], given: u8, sighting: &PlainSighting, accepted: bool) -> u8 {
    let mut keys = 0;
    for signature in tried(sighting) {
        if signature.revoked
            && has(sighting.revoked, signature.key)
            && (accepted || is_trusted(facts, given, signature.key))
        {
            keys |= signature.key;
        }
    }
    keys
}

/// What one more sighting comes to.
pub(crate) fn fact_of(facts: &[PlainFact], given: u8, sighting: &PlainSighting) -> PlainFact {
    let ttl = accepted_ttl(facts, given, sighting);
    PlainFact {
        moment: sighting.moment,
        ttl,
        shows: sighting.held,
        revokes: revoked(facts, given, sighting, ttl.is_some()),
    }
}
