//! Lists of more than fits in 16 bits: none gives up by its number. And lists of signatures in another order.

use crate::parts::*;
use dns_evidence::{Listed, Verifier};
use dns_marks::{KeyAnswer, ZoneVerdict};
use dns_record::RecordType;
use dns_trust::TrustAnchors;
use std::alloc::Global;
use std::process::Abort;

/// What is signed, and its signature. As an array of a function it would be dear to prove.
const SIGNED: &[u8] = &[7; 300];

const SIGNATURE: &[u8] = &[8; 300];

/// A copy of a list of as many signatures has the last one.
fn copy_holds_last(rt: &impl Abort, alloc: Global) -> bool {
    let mut listed = Listed::new(alloc);
    for number in 0..MANY as u32 {
        let accepted = listed.accept(13, &number.to_be_bytes(), SIGNED, SIGNATURE);
        accepted.expect(rt, "memory");
    }
    let copy = listed.try_clone().expect(rt, "memory");
    // The copy stands by itself.
    drop(listed);
    let last = MANY as u32 - 1;
    copy.accepts(13, &last.to_be_bytes(), SIGNED, SIGNATURE)
}

#[test]
fn a_list_holds_70_000_signatures(rt: HostRuntime) {
    check_row(&rt, "of 300 bytes", copy_holds_last(&rt, rt.alloc()));
}

/// Accepts a signature by each of these keys.
fn accept_keys(rt: &impl Abort, listed: &mut Listed, keys: &[&[u8]]) {
    for key in keys {
        let accepted = listed.accept(13, key, b"\x07", b"\x08");
        accepted.expect(rt, "memory");
    }
}

/// Both lists are the same once the other supports algorithm 13, also where it supports algorithm 1, which is never known.
fn become_same(rt: &impl Abort, listed: &mut Listed, other: &mut Listed) -> bool {
    listed.support(13);
    accept_keys(rt, listed, &[KEY, OTHER_KEY, THIRD_KEY]);
    accept_keys(rt, other, &[THIRD_KEY, OTHER_KEY, KEY, KEY]);
    let before = listed.same(other);
    other.support(13);
    other.support(1);
    let same = listed.same(other) && other.same(listed);
    let accepted = other.accept(1, KEY, b"\x07", b"\x08");
    accepted.expect(rt, "memory");
    let is_known = other.supports(1) || other.accepts(1, KEY, b"\x07", b"\x08");
    !before && same && !is_known
}

#[test]
fn lists_are_the_same_in_any_order(rt: HostRuntime) {
    let mut listed = Listed::new(rt.alloc());
    let mut other = Listed::new(rt.alloc());
    let same = become_same(&rt, &mut listed, &mut other);
    check_row(&rt, "another order, and one twice", same);
}

fn is_answer_copied(rt: &impl Abort, alloc: Global) -> bool {
    let keys = many_and_one(rt, alloc, RecordType::DNSKEY, KEY_BESIDE, KEY);
    let answer = KeyAnswer::Keys(keys);
    let copy = answer.try_clone().expect(rt, "memory");
    // The copy stands by itself.
    drop(answer);
    matches!(&copy, KeyAnswer::Keys(keys) if keys.len() == MANY + 1)
}

fn is_verdict_copied(rt: &impl Abort, alloc: Global) -> bool {
    let ds = many_and_one(rt, alloc, RecordType::DS, MISS, DS);
    let verdict = ZoneVerdict::Signed(ds);
    let copy = verdict.try_clone().expect(rt, "memory");
    // The copy stands by itself.
    drop(verdict);
    matches!(&copy, ZoneVerdict::Signed(ds) if ds.len() == MANY + 1)
}

#[test]
fn answers_and_verdicts_of_70_000_records_are_copied(rt: HostRuntime) {
    check_row(&rt, "keys", is_answer_copied(&rt, rt.alloc()));
    check_row(&rt, "DS records", is_verdict_copied(&rt, rt.alloc()));
}

/// A key of this owner is trusted by this algorithm.
fn trusts(
    rt: &impl Abort,
    alloc: Global,
    anchors: &TrustAnchors,
    owner: &str,
    algorithm: u8,
    key: &[u8],
) -> bool {
    let owner = name_of(rt, alloc, owner);
    anchors.contains_with_name(&owner, algorithm, key)
}

/// Each of so many keys is new.
fn trust_all(rt: &impl Abort, alloc: Global, anchors: &mut TrustAnchors) -> bool {
    for number in 0..MANY as u32 {
        if !trust(rt, alloc, anchors, ".", &number.to_be_bytes()) {
            return false;
        }
    }
    true
}

fn copy_trusts_last(rt: &impl Abort, alloc: Global, anchors: &TrustAnchors) -> bool {
    let copy = anchors.try_clone().expect(rt, "memory");
    let last = MANY as u32 - 1;
    trusts(rt, alloc, &copy, ".", 13, &last.to_be_bytes()) && copy.len() == MANY
}

/// Whether a set that trusts a key of `org.` by algorithm 13 trusts it for this owner and this algorithm.
fn is_trusted_for(rt: &impl Abort, alloc: Global, owner: &str, algorithm: u8) -> bool {
    let mut anchors = TrustAnchors::empty(alloc);
    trust(rt, alloc, &mut anchors, "org.", KEY);
    trusts(rt, alloc, &anchors, owner, algorithm, KEY)
}

#[test]
fn a_key_is_trusted_for_its_owner_and_algorithm(rt: HostRuntime) {
    let alloc = rt.alloc();
    check_row(
        &rt,
        "the owner in another case",
        is_trusted_for(&rt, alloc, "oRg.", 13),
    );
    check_row(
        &rt,
        "another algorithm",
        !is_trusted_for(&rt, alloc, "org.", 8),
    );
    check_row(
        &rt,
        "another owner",
        !is_trusted_for(&rt, alloc, "net.", 13),
    );
}

#[test]
fn a_set_of_70_000_anchors_is_copied(rt: HostRuntime) {
    let mut anchors = TrustAnchors::empty(rt.alloc());
    let all_new = anchors.is_empty() && trust_all(&rt, rt.alloc(), &mut anchors);
    let again = trust(&rt, rt.alloc(), &mut anchors, ".", &0u32.to_be_bytes());
    let copied = copy_trusts_last(&rt, rt.alloc(), &anchors);
    check_row(&rt, "of the root", all_new && !again && copied);
}
