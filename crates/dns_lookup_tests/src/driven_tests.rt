//! A validation that is driven by hand gives what a lookup gives: the same answer, with the same trail.
use crate::given::{
    Answer, MOMENT, anchors_of, options_to, put_message, query_of, upstream_of, verifier_of,
};
use crate::rows::check_held;
use crate::scenes::{Scene, name_error, unsigned_cut};
use crate::validating::{answer_to, begun};
use dns_cache::{Acceptance, CacheKey, ListCache, TtlRanges, ValidationCache};
use dns_evidence::{IterationLimits, Listed, Verifier};
use dns_handle::{DnsError, DnsHandle, NetError};
use dns_recorded::Recorded;
use dns_report::{Parts, write_report};
use dns_trust::Judge;
use dns_validation::{Validation, Wanted, request_for};
use std::alloc::Global;
use std::process::Abort;

/// A validation of a scene's query, begun with its whole request.
fn begun_by_request<'a>(
    rt: &impl Abort,
    alloc: Global,
    judge: Judge<'a, Listed>,
    scene: &Scene,
) -> Validation<'a, Listed> {
    let query = query_of(rt, alloc, scene.name, scene.query_type);
    let request = request_for(alloc, &query, &options_to(26), true).expect(rt, "memory");
    let (limits, ranges) = (IterationLimits::DEFAULT, TtlRanges::new());
    Validation::by_request(alloc, judge, query, request, limits, ranges).expect(rt, "memory")
}

/// What was kept under a key is told.
fn entry_told(
    rt: &impl Abort,
    alloc: Global,
    cache: &mut ListCache,
    validation: &mut Validation<'_, Listed>,
    key: &CacheKey,
) {
    match cache.get(alloc, key, MOMENT).expect(rt, "memory") {
        Some(entry) => validation.found(Some((entry, Acceptance::Unknown))),
        None => validation.found(None),
    }
}

/// What a validation gives out is kept.
pub(crate) fn keep_all<V: Verifier>(
    rt: &impl Abort,
    alloc: Global,
    cache: &mut ListCache,
    validation: &mut Validation<'_, V>,
) {
    for _ in 0..10_000_u32 {
        match validation.kept() {
            Some(entry) => cache.insert(alloc, entry).expect(rt, "memory"),
            None => return,
        }
    }
}

/// What a validation wants is given to it, and what it gives out is kept; false where it wants nothing.
pub(crate) fn serves(
    rt: &impl Abort,
    alloc: Global,
    upstream: &mut Recorded,
    cache: &mut ListCache,
    validation: &mut Validation<'_, Listed>,
) -> bool {
    match validation.next() {
        None => return false,
        Some(Wanted::Reply(ask)) => {
            validation.answer(upstream.send(alloc, ask.request, MOMENT));
        }
        Some(Wanted::Entry(key)) => {
            entry_told(rt, alloc, cache, validation, &key);
        }
    }
    keep_all(rt, alloc, cache, validation);
    true
}

/// The same, by an upstream and with a cache of its own, until it wants nothing.
fn drive(
    rt: &impl Abort,
    alloc: Global,
    upstream: Recorded,
    validation: &mut Validation<'_, Listed>,
) {
    let mut upstream = upstream;
    let mut cache = ListCache::new(alloc, 1_000);
    for _ in 0..10_000_u32 {
        if !serves(rt, alloc, &mut upstream, &mut cache, validation) {
            break;
        }
    }
}

/// The text of an answer or of a denial, with its trail, and none of another error.
fn text_of(rt: &impl Abort, alloc: Global, answer: &Answer) -> Vec<u8> {
    let response = match answer {
        Ok(response) => response,
        Err(NetError::Dns(DnsError::Nsec { response, .. })) => &**response,
        Err(_) => return Vec::new(alloc),
    };
    write_report(alloc, response, Parts::WithTrail).expect(rt, "memory")
}

/// The same, where there is no other error than that nothing comes in time.
pub(crate) fn reported(rt: &impl Abort, alloc: Global, answer: Answer) -> Vec<u8> {
    let text = text_of(rt, alloc, &answer);
    let answered = !text.is_empty() || matches!(&answer, Err(NetError::Timeout));
    check_held(rt, "it answers, or nothing comes in time", answered);
    text
}

/// The text of what a validation comes to.
pub(crate) fn comes_to(
    rt: &impl Abort,
    alloc: Global,
    validation: Validation<'_, Listed>,
) -> Vec<u8> {
    reported(rt, alloc, validation.into_answer().expect(rt, "an answer"))
}

/// An upstream as a scene says, with a message beside it that answers the scene's query.
fn upstream_with(rt: &impl Abort, alloc: Global, scene: &Scene, message: &[u8]) -> Recorded {
    let mut upstream = upstream_of(rt, alloc, scene);
    if !message.is_empty() {
        put_message(
            rt,
            alloc,
            &mut upstream,
            scene.name,
            scene.query_type,
            message,
        );
    }
    upstream
}

/// The text by hand, of a validation that began with the query or with its whole request.
fn driven(rt: &impl Abort, alloc: Global, scene: &Scene, message: &[u8], whole: bool) -> Vec<u8> {
    let anchors = anchors_of(rt, alloc, scene);
    let verifier = verifier_of(rt, alloc, scene);
    let judge = Judge {
        verifier: &verifier,
        anchors: &anchors,
        moment: MOMENT,
    };
    let mut validation = if whole {
        begun_by_request(rt, alloc, judge, scene)
    } else {
        begun(rt, alloc, judge, scene.name, scene.query_type)
    };
    let upstream = upstream_with(rt, alloc, scene, message);
    drive(rt, alloc, upstream, &mut validation);
    comes_to(rt, alloc, validation)
}

/// The reports by hand and by a lookup are the same.
pub(crate) fn are_same(rt: &impl Abort, alloc: Global, scene: &Scene, message: &[u8]) -> bool {
    let upstream = upstream_with(rt, alloc, scene, message);
    let text = reported(rt, alloc, answer_to(rt, alloc, upstream, scene));
    let by_query = driven(rt, alloc, scene, message, false);
    let by_request = driven(rt, alloc, scene, message, true);
    !text.is_empty()
        && by_query.as_slice() == text.as_slice()
        && by_request.as_slice() == text.as_slice()
}

#[test]
fn a_validation_driven_by_hand_answers_as_a_lookup_does(rt: HostRuntime) {
    let searched = are_same(&rt, rt.alloc(), unsigned_cut(), b"");
    check_held(&rt, "a zone is searched", searched);
    let denied = are_same(&rt, rt.alloc(), name_error(), b"");
    check_held(&rt, "a name is denied", denied);
}
