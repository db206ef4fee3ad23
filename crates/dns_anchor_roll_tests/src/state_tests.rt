//! What `see` answers and in which state keys are, row by row (RFC 5011, 2 and 4).

use crate::counting::Counting;
use crate::parts::*;
use dns_anchor_roll::{AnchorRoll, KeyState, RollError, Seen};
use std::alloc::Global;
use std::cell::Cell;
use std::process::Abort;

/// A sighting: its moment, its keys, who signs it, and whether it is accepted.
struct Step(
    u64,
    &'static [&'static [u8]],
    &'static [&'static [u8]],
    bool,
);

/// A key, a moment, and its state then.
struct Wanted(&'static [u8], u64, Option<KeyState>);

/// What it shows, sightings after K was given, states, and the trusted keys.
struct Row(
    &'static str,
    &'static [Step],
    &'static [Wanted],
    &'static [&'static [u8]],
);

const PENDING: Option<KeyState> = Some(KeyState::Pending);

const VALID: Option<KeyState> = Some(KeyState::Valid);

const MISSING: Option<KeyState> = Some(KeyState::Missing);

const REVOKED: Option<KeyState> = Some(KeyState::Revoked);

const REMOVED: Option<KeyState> = Some(KeyState::Removed);

#[rattlefmt::skip]
const ROWS: &[Row] = &[
    Row("nothing is seen", &[], &[Wanted(K, 0, VALID), Wanted(N, 0, None)], &[K]),
    Row("a new key is shown", &[Step(0, &[K, N], &[K], true)],
        &[Wanted(K, 0, VALID), Wanted(N, 0, PENDING), Wanted(N, 9 * D, PENDING), Wanted(N_REVOKED, 0, PENDING), Wanted(N_PLAIN, 0, None)],
        &[K]),
    Row("it comes through its hold-down", &[Step(0, &[K, N], &[K], true), Step(D - 1, &[K, N], &[K], true), Step(D, &[K, N], &[K], true)],
        &[Wanted(K, D, VALID), Wanted(N, D, VALID)], &[K, N]),
    Row("a second is missing", &[Step(0, &[K, N], &[K], true), Step(D - 1, &[K, N], &[K], true)],
        &[Wanted(N, 9 * D, PENDING)], &[K]),
    Row("it is left out", &[Step(0, &[K, N], &[K], true), Step(1, &[K], &[K], true)], &[Wanted(N, 1, None)], &[K]),
    Row("it is left out once trusted", &[Step(0, &[K, N], &[K], true), Step(D, &[K, N], &[K], true), Step(D + 1, &[K], &[K], true)],
        &[Wanted(N, D + 1, MISSING)], &[K, N]),
    Row("a set that a revoked key signs alone", &[Step(0, &[K, N], &[K], true), Step(D, &[K, N], &[K], true),
        Step(D + 1, &[K_REVOKED, N], &[K_REVOKED], false)],
        &[Wanted(K, 0, REVOKED), Wanted(K, D + 1, REVOKED), Wanted(K, 2 * D, REVOKED), Wanted(K, 2 * D + 1, REMOVED),
            Wanted(K_REVOKED, 2 * D + 1, REMOVED), Wanted(N, D + 1, VALID)],
        &[N]),
    Row("no accepted sighting left it out", &[Step(0, &[K, N], &[K], true), Step(D, &[K, N], &[K], true),
        Step(D + 1, &[K_REVOKED], &[K_REVOKED], false)],
        &[Wanted(N, D + 1, VALID)], &[N]),
    Row("an unknown key is revoked", &[Step(1, &[K, N_REVOKED], &[K, N_REVOKED], true)],
        &[Wanted(N, 1, REVOKED), Wanted(N, D, REVOKED), Wanted(N, D + 1, REMOVED)], &[K]),
    Row("the first that revokes counts", &[Step(0, &[K, N], &[K], true), Step(D, &[K, N], &[K], true),
        Step(D + 1, &[K_REVOKED, N], &[K_REVOKED], false), Step(D + 2, &[K, N], &[N], true),
        Step(D + 9, &[K_REVOKED, N], &[N, K_REVOKED], true)],
        &[Wanted(K, 2 * D, REVOKED), Wanted(K, 2 * D + 1, REMOVED)], &[N]),
    Row("a revoked key comes no more", &[Step(0, &[K, N], &[K], true), Step(D, &[K, N], &[K], true),
        Step(D + 1, &[K_REVOKED, N], &[N, K_REVOKED], true), Step(D + 2, &[K, N], &[N], true), Step(3 * D, &[K, N], &[N], true)],
        &[Wanted(K, 3 * D, REMOVED)], &[N]),
    Row("a key in both forms accepts and is revoked", &[Step(0, &[K, N], &[K], true), Step(D, &[K, N], &[K], true),
        Step(D + 1, &[K, K_REVOKED, N], &[K, K_REVOKED], true)],
        &[Wanted(K, D + 1, REVOKED), Wanted(N, D + 1, VALID)], &[N]),
    Row("the flag alone revokes nothing", &[Step(0, &[K_REVOKED, K], &[K], true)], &[Wanted(K, 0, VALID)], &[K]),
    Row("nor does a signature without the flag", &[Step(0, &[K_REVOKED], &[K], false)], &[Wanted(K, 0, VALID)], &[K]),
    Row("an unknown key is revoked in a set that isn't accepted", &[Step(0, &[K, N_REVOKED], &[N_REVOKED], false)],
        &[Wanted(N, 0, None)], &[K]),
    Row("a pending key accepts nothing", &[Step(0, &[K, N], &[K], true), Step(1, &[K, N], &[N], false)],
        &[Wanted(N, 1, PENDING)], &[K]),
    Row("nor does the key that comes by it", &[Step(0, &[K, N], &[K], true), Step(D, &[K, N], &[N], false)],
        &[Wanted(N, D, PENDING)], &[K]),
    Row("an ignored set is no gap", &[Step(0, &[K, N], &[K], true), Step(1, &[K], &[], false), Step(D, &[K, N], &[K], true)],
        &[Wanted(N, D, VALID)], &[K, N]),
    Row("a key without the flag of an entry point accepts nothing", &[Step(0, &[K_PLAIN, N], &[K_PLAIN], false)],
        &[Wanted(N, 0, None)], &[K]),
    Row("the hold-down begins anew", &[Step(0, &[K, N], &[K], true), Step(D - 1, &[K], &[K], true), Step(D, &[K, N], &[K], true),
        Step(2 * D - 1, &[K, N], &[K], true)],
        &[Wanted(N, 2 * D - 1, PENDING)], &[K]),
];

fn rows() -> &'static [Row] {
    ROWS
}

/// Each sighting of a row is accepted or ignored as it says.
fn takes(
    rt: &impl Abort,
    alloc: Global,
    roll: &mut AnchorRoll<Counting<'_>>,
    steps: &[Step],
) -> bool {
    for step in steps {
        let mut signers: Vec<(&[u8], u32)> = Vec::new(alloc);
        for signer in step.2 {
            signers.push((*signer, 3600)).expect(rt, "memory");
        }
        let next = sighting(rt, alloc, step.0, step.1, &signers);
        let want = if step.3 {
            Seen::Accepted
        } else {
            Seen::Ignored
        };
        match roll.see(&next) {
            Ok(seen) => {
                if seen != want {
                    return false;
                }
            }
            Err(_) => return false,
        }
    }
    true
}

/// Each key is in the state that a row says.
fn are_states(roll: &AnchorRoll<Counting<'_>>, all: &[Wanted]) -> bool {
    for wanted in all {
        if roll.state(wanted.0, wanted.1) != wanted.2 {
            return false;
        }
    }
    true
}

#[test]
fn sightings_lead_to_states(rt: HostRuntime) {
    let alloc = rt.alloc();
    for row in rows() {
        let questions = Cell::new(0);
        let counting = Counting {
            questions: &questions,
        };
        let mut roll = roll_of(&rt, alloc, counting, &[K]);
        check_row(&rt, row.0, takes(&rt, alloc, &mut roll, row.1));
        check_row(&rt, row.0, are_states(&roll, row.2));
        let anchors = roll.anchors().expect(&rt, "memory");
        check_row(&rt, row.0, are_anchors(&rt, alloc, &anchors, row.3));
    }
}

#[test]
fn an_earlier_sighting_changes_nothing(rt: HostRuntime) {
    let alloc = rt.alloc();
    let questions = Cell::new(0);
    let counting = Counting {
        questions: &questions,
    };
    let mut roll = roll_of(&rt, alloc, counting, &[K]);
    let late = sighting(&rt, alloc, 5, &[K], &[(K, 3600)]);
    let early = sighting(&rt, alloc, 4, &[K, N], &[(K, 3600)]);
    check_row(&rt, "at 5", roll.see(&late) == Ok(Seen::Accepted));
    check_row(
        &rt,
        "at 4",
        roll.see(&early) == Err(RollError::Earlier { last: 5 }),
    );
    check_row(&rt, "nothing changed", roll.state(N, 5) == None);
    check_row(&rt, "at 5 again", roll.see(&late) == Ok(Seen::Accepted));
}
