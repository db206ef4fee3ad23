//! Sets that come again within one lookup (RFC 4035, 4.5): which repeat that of an earlier step, and which are judged anew.
use crate::given::{put_message, put_replies, upstream_of};
use crate::rows::check_held;
use crate::scenes::name_error;
use crate::validating::answer_to;
use dns_evidence::{JudgedSet, Trail};
use dns_model::MarkOrigin;
use dns_record::RecordType;
use dns_recorded::Recorded;
use std::alloc::Global;
use std::process::Abort;

/// The key set of `example.`, with its key twice.
const KEY_TWICE: &[u8] = b"\0\0\x84\0\0\x01\0\x02\0\0\0\0\x07example\0\0\x30\0\x01\
    \x07example\0\0\x30\0\x01\0\0\x0e\x10\0\x05\x01\x01\x03\x0d\xe1\
    \x07example\0\0\x30\0\x01\0\0\x0e\x10\0\x05\x01\x01\x03\x0d\xe1";

/// The replies of a name error by turn: two signatures ask for the keys, and the second time the key comes twice.
fn changing(rt: &impl Abort, alloc: Global) -> Recorded {
    let mut recorded = Recorded::in_turn(alloc);
    put_replies(rt, alloc, &mut recorded, name_error().replies);
    put_message(
        rt,
        alloc,
        &mut recorded,
        "example.",
        RecordType::DNSKEY,
        KEY_TWICE,
    );
    recorded
}

#[test]
fn a_set_that_comes_again_is_served(rt: HostRuntime) {
    let same = upstream_of(&rt, rt.alloc(), name_error());
    let again = repeats(&rt, rt.alloc(), same);
    check_held(&rt, "the same set again", again == Some(true));
    let other = repeats(&rt, rt.alloc(), changing(&rt, rt.alloc()));
    check_held(
        &rt,
        "another set for the same question",
        other == Some(false),
    );
}

// Whether in the trail of a lookup some set repeats that of an earlier step; each such set names no ask, and has a mark of that step.
fn repeats(rt: &impl Abort, alloc: Global, upstream: Recorded) -> Option<bool> {
    let answer = answer_to(rt, alloc, upstream, name_error());
    match &answer {
        Ok(response) => repeats_along(&response.trail),
        Err(_) => None,
    }
}

fn repeats_along(trail: &Trail) -> Option<bool> {
    let mut any = false;
    for step in &trail.steps {
        for set in &step.sets {
            if let MarkOrigin::Repeat(number) = set.origin {
                if !set.asked.is_empty() || !is_as_before(trail, set, number) {
                    return None;
                }
                any = true;
            }
        }
    }
    Some(any)
}

// A step with a number has a set of this owner, type, mark and deciding signature.
fn is_as_before(trail: &Trail, set: &JudgedSet, number: u32) -> bool {
    let Some(step) = trail.steps.get(number as usize) else {
        return false;
    };
    for earlier in &step.sets {
        if is_alike(set, earlier) {
            return true;
        }
    }
    false
}

fn is_alike(set: &JudgedSet, earlier: &JudgedSet) -> bool {
    earlier.owner == set.owner
        && earlier.record_type == set.record_type
        && earlier.mark == set.mark
        && earlier.sig == set.sig
}
