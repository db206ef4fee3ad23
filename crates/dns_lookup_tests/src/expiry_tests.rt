//! When what a validation leaves to be kept expires (RFC 4035, 4.7 and 5.3.3).
use crate::given::{MOMENT, anchors_of, options_to, query_of, upstream_of, verifier_of};
use crate::kept_tests::{Given, scene_of};
use crate::rows::check_held;
use dns_cache::{TtlRange, TtlRanges};
use dns_evidence::{IterationLimits, Listed};
use dns_handle::DnsHandle;
use dns_recorded::Recorded;
use dns_trust::Judge;
use dns_validation::{Validation, Wanted};
use std::alloc::Global;
use std::process::Abort;

/// What is looked up, for how many seconds what isn't an error is kept at least and at most, and when each entry expires that is left.
struct Row(&'static str, Given, u64, u64, &'static [u64]);

#[rattlefmt::skip]
const ROWS: &[Row] = &[
    Row("keys and servers, by their ttl and their chain", Given::Servers, 0, u64::MAX, &[4600, 2000]),
    Row("by a range: no signature is in the chain of the keys", Given::Servers, 7200, 7200, &[8200, 2000]),
    Row("an error after a minute", Given::NotAccepted, 0, u64::MAX, &[4600, 1060]),
    Row("where an ask failed, nothing is left", Given::TooDeep, 0, u64::MAX, &[]),
];

#[test]
fn what_is_left_expires(rt: HostRuntime) {
    for row in ROWS {
        check_held(&rt, row.0, expire_so(&rt, rt.alloc(), row));
    }
}

// The entries that are left by what the row's scene trusts expire as the row says.
fn expire_so(rt: &impl Abort, alloc: Global, row: &Row) -> bool {
    let anchors = anchors_of(rt, alloc, scene_of(&row.1));
    let verifier = verifier_of(rt, alloc, scene_of(&row.1));
    let judge = Judge {
        verifier: &verifier,
        anchors: &anchors,
        moment: MOMENT,
    };
    let left = left_by(rt, alloc, judge, row);
    left.as_slice() == row.4
}

// Drives such a validation to its end, where nothing is kept: when each entry expires that it gives out.
fn left_by(rt: &impl Abort, alloc: Global, judge: Judge<'_, Listed>, row: &Row) -> Vec<u64> {
    let scene = scene_of(&row.1);
    let mut ranges = TtlRanges::new();
    ranges.positive = TtlRange {
        least: row.2,
        most: row.3,
    };
    let query = query_of(rt, alloc, scene.name, scene.query_type);
    let (options, limits) = (options_to(scene.depth), IterationLimits::DEFAULT);
    let begun = Validation::new(alloc, judge, query, options, limits, ranges);
    let mut validation = begun.expect(rt, "memory");
    let mut upstream = upstream_of(rt, alloc, scene);
    let mut left = Vec::new(alloc);
    for _ in 0..100_u32 {
        if !goes_on(alloc, &mut upstream, &mut validation) {
            break;
        }
        note(rt, &mut validation, &mut left);
    }
    let _ = validation.into_answer().expect(rt, "an end");
    left
}

// Tells a validation what it wants; false where it wants nothing.
fn goes_on(
    alloc: Global,
    upstream: &mut Recorded,
    validation: &mut Validation<'_, Listed>,
) -> bool {
    match validation.next() {
        None => false,
        Some(Wanted::Reply(ask)) => {
            validation.answer(upstream.send(alloc, ask.request, MOMENT));
            true
        }
        Some(Wanted::Entry(key)) => {
            validation.found(None);
            true
        }
    }
}

// Notes when what it gives out expires, to the last.
fn note(rt: &impl Abort, validation: &mut Validation<'_, Listed>, left: &mut Vec<u64>) {
    for _ in 0..100_u32 {
        match validation.kept() {
            Some(entry) => {
                left.push(entry.expires).expect(rt, "memory");
            }
            None => return,
        }
    }
}
