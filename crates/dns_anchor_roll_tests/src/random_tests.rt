//! Random lists of sightings, by a seed: a roll answers as the rules say over the whole list.

ghost use Rattle.std.specs.Prelude.{◌<◌};

use crate::counting::Counting;
use crate::parts::*;
use crate::plain::{PlainFact, PlainSighting, PlainSignature, fact_of, is_trusted};
use dns_anchor_roll::{AnchorRoll, KeyState, Seen, Sighting};
use dns_rdata::Dnskey;
use dns_record::Name;
use std::alloc::Global;
use std::cell::Cell;
use std::process::Abort;

/// How many lists are tried.
const LISTS: u32 = 10_000;

/// How far moments lie apart: below, at and above a hold-down and its parts.
const GAPS: &[u64] = &[0, 1, D / 2, D - 1, D, D + 1, 3600];

/// Original ttls: none, a usual one, and one above 30 days.
const TTLS: &[u32] = &[0, 3600, 2_592_001];

/// The next number of a row that a seed begins.
fn draw(state: &mut u64) -> u64 {
    *state = state
        .wrapping_mul(6_364_136_223_846_793_005)
        .wrapping_add(1_442_695_040_888_963_407);
    *state >> 33
}

/// A number below a bound.
fn draw_below(state: &mut u64, bound: u64) -> u64
    ensures { 0 < bound → result < bound }
{
    if bound == 0 {
        return 0;
    }
    draw(state) % bound
}

/// The rdata of a key, without the flag REVOKE or with it.
fn form(key: u8, revoked: bool) -> &'static [u8] {
    match (key, revoked) {
        (1, false) => K,
        (1, true) => K_REVOKED,
        (2, false) => N,
        (2, true) => N_REVOKED,
        (_, false) => P,
        (_, true) => P_REVOKED,
    }
}

/// A random signature of a set.
fn draw_signature(state: &mut u64) -> PlainSignature {
    let key = 1u8 << draw_below(state, 3);
    let revoked = draw_below(state, 3) == 0;
    let ttl = TTLS[draw_below(state, 3) as usize];
    PlainSignature { key, revoked, ttl }
}

/// A random sighting, not before a moment; now and then with many signatures.
fn draw_sighting(rt: &impl Abort, alloc: Global, state: &mut u64, after: u64) -> PlainSighting {
    let moment = after.saturating_add(GAPS[draw_below(state, 7) as usize]);
    // Most keys stand in most sets, so that stretches are long.
    let held = (draw_below(state, 8) | draw_below(state, 8)) as u8;
    let revoked = (draw_below(state, 8) & draw_below(state, 8)) as u8;
    let many = draw_below(state, 8) == 0;
    let number = if many { 9 } else { draw_below(state, 4) };
    let mut signatures = Vec::new(alloc);
    for _ in 0..number {
        signatures.push(draw_signature(state)).expect(rt, "memory");
    }
    PlainSighting {
        moment,
        held,
        revoked,
        signatures,
    }
}

/// The same as a sighting of the root's key set.
fn real(rt: &impl Abort, alloc: Global, plain: &PlainSighting) -> Sighting {
    let mut keys: Vec<&[u8]> = Vec::new(alloc);
    for key in &[1u8, 2, 4] {
        if plain.held & *key != 0 {
            keys.push(form(*key, false)).expect(rt, "memory");
        }
        if plain.revoked & *key != 0 {
            keys.push(form(*key, true)).expect(rt, "memory");
        }
    }
    let mut signers: Vec<(&[u8], u32)> = Vec::new(alloc);
    for signature in &plain.signatures {
        let by = form(signature.key, signature.revoked);
        signers.push((by, signature.ttl)).expect(rt, "memory");
    }
    sighting(rt, alloc, plain.moment, &keys, &signers)
}

/// When the first of these revoked a key.
fn revoked_at(facts: &[PlainFact], key: u8) -> Option<u64> {
    for fact in facts {
        if fact.revokes & key != 0 {
            return Some(fact.moment);
        }
    }
    None
}

/// The last accepted of these, which are newest last.
fn last_accepted(facts: &[PlainFact]) -> Option<&PlainFact> {
    for fact in facts.iter().rev() {
        if fact.ttl.is_some() {
            return Some(fact);
        }
    }
    None
}

/// The state of a key after these, at a moment.
fn state_of(facts: &[PlainFact], key: u8, now: u64) -> Option<KeyState> {
    if let Some(moment) = revoked_at(facts, key) {
        let removed = now >= moment.saturating_add(D);
        return Some(if removed {
            KeyState::Removed
        } else {
            KeyState::Revoked
        });
    }
    let shown = match last_accepted(facts) {
        Some(last) => last.shows & key != 0,
        None => false,
    };
    if is_trusted(facts, 1, key) {
        let valid = shown || last_accepted(facts).is_none();
        return Some(if valid {
            KeyState::Valid
        } else {
            KeyState::Missing
        });
    }
    if shown { Some(KeyState::Pending) } else { None }
}

/// Anchors and states of a roll are those of the rules.
fn is_alike(
    rt: &impl Abort,
    alloc: Global,
    roll: &AnchorRoll<Counting<'_>>,
    facts: &[PlainFact],
    now: u64,
) -> bool {
    let root = Name::root(alloc).expect(rt, "memory");
    let anchors = roll.anchors().expect(rt, "memory");
    for key in &[1u8, 2, 4] {
        let rdata = form(*key, false);
        if roll.state(rdata, now) != state_of(facts, *key, now) {
            return false;
        }
        let Some(read) = Dnskey::read(rdata) else {
            return false;
        };
        let trusted = anchors.contains_with_name(&root, read.algorithm, read.key);
        if trusted != is_trusted(facts, 1, *key) {
            return false;
        }
    }
    true
}

/// A roll takes a random list as the rules say.
fn holds(rt: &impl Abort, alloc: Global, state: &mut u64) -> bool {
    let questions = Cell::new(0);
    let counting = Counting {
        questions: &questions,
    };
    let mut roll = roll_of(rt, alloc, counting, &[K]);
    let mut facts: Vec<PlainFact> = Vec::new(alloc);
    let mut last = 0;
    for _ in 0..draw_below(state, 8) {
        let plain = draw_sighting(rt, alloc, state, last);
        last = plain.moment;
        let fact = fact_of(&facts, 1, &plain);
        let want = if fact.ttl.is_some() {
            Seen::Accepted
        } else {
            Seen::Ignored
        };
        if roll.see(&real(rt, alloc, &plain)) != Ok(want) {
            return false;
        }
        facts.push(fact).expect(rt, "memory");
        let now = last.saturating_add(draw_below(state, 2).wrapping_mul(D));
        if !is_alike(rt, alloc, &roll, &facts, now) {
            return false;
        }
    }
    true
}

#[test]
fn random_lists_follow_the_rules(rt: HostRuntime) {
    let mut state = 20_170_711;
    for _ in 0..LISTS {
        check_row(&rt, "a random list", holds(&rt, rt.alloc(), &mut state));
    }
}
