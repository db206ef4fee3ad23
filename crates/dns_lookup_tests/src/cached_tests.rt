//! Trails of sets that are served from what was kept (RFC 4035, 4.5): the answer of a walk by DS is kept, and looked up again.
use crate::given::{
    MOMENT, anchors_of, ask_scene, derives, upstream_of, validator_of, verifier_of,
};
use crate::rows::check_held;
use crate::scenes::walk_by_ds;
use dns_cache::{CacheKey, Entry, ListCache, RrsetProof, ValidationCache};
use dns_evidence::{Asked, IterationLimits, Limits, Reply};
use dns_handle::DnsResponse;
use dns_lookup::DnssecDnsHandle;
use dns_model::{MarkOrigin, Proof};
use dns_record::{Record, RecordSet};
use dns_trust::TrustAnchors;
use std::alloc::Global;
use std::process::Abort;

/// What was kept of the set: until when, with how many links of its chain, and whether by its first signature or by none.
struct Kept(u64, usize, bool);

/// What is shown, what was kept, the moment of the second lookup, and whether its trail is a derivation.
struct Row(&'static str, Option<Kept>, u64, bool);

#[rattlefmt::skip]
const ROWS: &[Row] = &[
    Row("served", Some(Kept(1600, 6, true)), 1500, true),
    Row("its time is up", Some(Kept(1500, 6, true)), 1500, false),
    Row("its signature has ended", Some(Kept(9000, 6, true)), 2001, false),
    Row("the chain of another set", Some(Kept(9000, 5, true)), 1500, false),
    Row("another signature", Some(Kept(9000, 6, false)), 1500, false),
    Row("nothing was kept", None, 1500, false),
];

fn rows() -> &'static [Row] {
    ROWS
}

#[test]
fn kept_sets_serve(rt: HostRuntime) {
    for row in rows() {
        let held = is_derivation(&rt, rt.alloc(), row);
        let served = is_served(&rt, rt.alloc(), row, true);
        check_held(&rt, row.0, held == row.3 && served == Some(row.3));
    }
}

#[test]
fn kept_sets_serve_by_their_own_anchors_alone(rt: HostRuntime) {
    let row = rows().first().expect(&rt, "a row");
    let other = is_served(&rt, rt.alloc(), row, false);
    check_held(&rt, "by other anchors", other == Some(false));
}

// What a lookup answers, over no cache.
fn first_response(rt: &impl Abort, alloc: Global) -> DnsResponse {
    let mut validator = validator_of(rt, alloc, walk_by_ds());
    let answer = ask_scene(rt, alloc, &mut validator, walk_by_ds(), MOMENT);
    answer.expect(rt, "an answer")
}

// Whether a lookup over a cache that holds what was kept serves the set from it, with the scene's anchors or with none; else it judges
// the set anew.
fn is_served(rt: &impl Abort, alloc: Global, row: &Row, trusts: bool) -> Option<bool> {
    let response = second_response(rt, alloc, row, trusts);
    is_from_cache(&response)
}

// Whether the first set of the last step is served from the cache; None where it repeats a step.
fn is_from_cache(response: &DnsResponse) -> Option<bool> {
    let set = response.trail.steps.last()?.sets.first()?;
    match set.origin {
        MarkOrigin::Cache => Some(true),
        MarkOrigin::Table => Some(false),
        MarkOrigin::Repeat(_) => None,
    }
}

fn anchors_for(rt: &impl Abort, alloc: Global, trusts: bool) -> TrustAnchors {
    if trusts {
        return anchors_of(rt, alloc, walk_by_ds());
    }
    TrustAnchors::empty(alloc)
}

// A cache of the one entry that was kept, if there is one.
fn holding(rt: &impl Abort, alloc: Global, row: &Row) -> ListCache {
    let mut cache = ListCache::new(alloc, 100);
    if let Some(kept) = &row.1 {
        let response = first_response(rt, alloc);
        let entry = entry_of(rt, alloc, &response, kept);
        cache.insert(alloc, entry).expect(rt, "memory");
    }
    cache
}

fn second_response(rt: &impl Abort, alloc: Global, row: &Row, trusts: bool) -> DnsResponse {
    let cache = holding(rt, alloc, row);
    let upstream = upstream_of(rt, alloc, walk_by_ds());
    let verifier = verifier_of(rt, alloc, walk_by_ds());
    let anchors = anchors_for(rt, alloc, trusts);
    let made = DnssecDnsHandle::with_cache(upstream, anchors, verifier, cache);
    let mut validator = made.expect(rt, "a validator");
    let answer = ask_scene(rt, alloc, &mut validator, walk_by_ds(), row.2);
    answer.expect(rt, "an answer")
}

// Whether the trail of a second lookup whose one set is served is a derivation.
fn is_derivation(rt: &impl Abort, alloc: Global, row: &Row) -> bool {
    let mut response = first_response(rt, alloc);
    let mut all = Vec::new(alloc);
    if let Some(kept) = &row.1 {
        all.push(entry_of(rt, alloc, &response, kept))
            .expect(rt, "memory");
    }
    serve_last(&mut response.trail.steps);
    let limits = Limits {
        depth: 26,
        soft: IterationLimits::DEFAULT.soft,
        hard: IterationLimits::DEFAULT.hard,
    };
    let trail = &response.trail;
    derives(rt, alloc, walk_by_ds(), row.2, &limits, &all, trail)
}

// Makes of a trail that of a lookup whose one set is served: the last step alone stays.
fn serve_last(steps: &mut Vec<Asked>) {
    let last = steps.len().saturating_sub(1);
    if last < steps.len() {
        steps.swap(0, last);
        steps.truncate(1);
    }
    let Some(step) = steps.get_mut(0) else {
        return;
    };
    if let Some(set) = step.sets.get_mut(0) {
        set.origin = MarkOrigin::Cache;
        set.asked.clear();
    }
}

// What was kept of the response's set.
fn entry_of(rt: &impl Abort, alloc: Global, response: &DnsResponse, kept: &Kept) -> Entry {
    let step = response.trail.steps.last().expect(rt, "a step");
    let chain = response.chains.first().expect(rt, "a chain");
    let found = RrsetProof {
        proof: Proof::Secure,
        adjusted_ttl: Some(1000),
        rrsig_index: if kept.2 { Some(0) } else { None },
    };
    let mut chain = chain.try_clone().expect(rt, "memory");
    chain.links.truncate(kept.1);
    let set = set_of(rt, alloc, answers_of(step));
    let key = CacheKey::of(&step.query, &set).expect(rt, "memory");
    Entry::new(key, kept.0, Ok(found), Some(chain))
}

// The answers that a step heard.
fn answers_of(step: &Asked) -> &[Record] {
    match &step.reply {
        Reply::Told(told) => told.answers.as_slice(),
        Reply::Fault => &[],
    }
}

// The set of two records, of which the other is the signature.
fn set_of(rt: &impl Abort, alloc: Global, answers: &[Record]) -> RecordSet {
    check_held(rt, "a record and its signature", answers.len() == 2);
    let first = answers.first().expect(rt, "a record");
    let last = answers.last().expect(rt, "a signature");
    let record = first.try_clone().expect(rt, "memory");
    let mut set = RecordSet::of(alloc, record).expect(rt, "memory");
    let signature = last.try_clone().expect(rt, "memory");
    set.rrsigs.push(signature).expect(rt, "memory");
    set
}
