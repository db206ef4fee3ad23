//! Validations of a scene's query, and lookups over an upstream that they are compared with.
use crate::given::{Answer, MOMENT, anchors_of, options_to, query_of, verifier_of};
use crate::scenes::Scene;
use dns_cache::TtlRanges;
use dns_evidence::{IterationLimits, Listed, Verifier};
use dns_lookup::DnssecDnsHandle;
use dns_record::RecordType;
use dns_recorded::Recorded;
use dns_trust::{Judge, TrustAnchors};
use dns_validation::Validation;
use std::alloc::Global;
use std::process::Abort;

/// How deep the asks of all scenes go.
const DEPTH: u16 = 26;

/// What a lookup over an upstream answers, by these anchors and this verifier, to the query for a name.
pub(crate) fn answer_over(
    rt: &impl Abort,
    alloc: Global,
    upstream: Recorded,
    anchors: TrustAnchors,
    verifier: Listed,
    name: &str,
    query_type: RecordType,
) -> Answer {
    let query = query_of(rt, alloc, name, query_type);
    let made = DnssecDnsHandle::new(alloc, upstream, anchors, verifier);
    let mut validator = made.expect(rt, "memory");
    validator.lookup(alloc, query, options_to(DEPTH), MOMENT)
}

/// What a lookup over an upstream answers to a scene's query, by what the scene trusts.
pub(crate) fn answer_to(
    rt: &impl Abort,
    alloc: Global,
    upstream: Recorded,
    scene: &Scene,
) -> Answer {
    let anchors = anchors_of(rt, alloc, scene);
    let verifier = verifier_of(rt, alloc, scene);
    let (name, query_type) = (scene.name, scene.query_type);
    answer_over(rt, alloc, upstream, anchors, verifier, name, query_type)
}

/// A validation of the query for a name.
pub(crate) fn begun<'a, V: Verifier>(
    rt: &impl Abort,
    alloc: Global,
    judge: Judge<'a, V>,
    name: &str,
    query_type: RecordType,
) -> Validation<'a, V> {
    let query = query_of(rt, alloc, name, query_type);
    let (limits, ranges) = (IterationLimits::DEFAULT, TtlRanges::new());
    Validation::new(alloc, judge, query, options_to(DEPTH), limits, ranges).expect(rt, "memory")
}
