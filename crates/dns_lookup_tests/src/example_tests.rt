//! The examples that stand with a validator, its lookup and the check of a trail, word for word.
use crate::given::{
    MOMENT, anchors_of, ask_scene, query_of, upstream_of, validator_of, verifier_of,
};
use crate::rows::check_held;
use crate::scenes::servers;
use dns_cache::ListCache;
use dns_evidence::{IterationLimits, Limits, Verifier};
use dns_handle::{DnsHandle, DnsRequestOptions, DnsResponse, NetError};
use dns_lookup::DnssecDnsHandle;
use dns_model::Proof;
use dns_record::{Name, NoMemory, Octets, Query, RecordType};
use dns_trail::check_trail;
use dns_trust::TrustAnchors;
use std::alloc::Global;
use std::process::Abort;

fn trusting<H: DnsHandle + Drop, V: Verifier + Drop>(
    alloc: Global,
    upstream: H,
    verifier: V,
    key: Octets,
) -> Result<DnssecDnsHandle<H, V>, NoMemory> {
    let mut anchors = TrustAnchors::empty(alloc);
    let _ = anchors.insert_with_name(Name::root(alloc)?, 13, key)?;
    DnssecDnsHandle::new(alloc, upstream, anchors, verifier)
}

fn over_small_cache<H: DnsHandle + Drop, V: Verifier + Drop>(
    alloc: Global,
    upstream: H,
    anchors: TrustAnchors,
    verifier: V,
) -> Result<DnssecDnsHandle<H, V, ListCache>, NoMemory> {
    DnssecDnsHandle::with_cache(upstream, anchors, verifier, ListCache::new(alloc, 8))
}

fn first_mark<H: DnsHandle + Drop, V: Verifier + Drop>(
    alloc: Global,
    validator: &mut DnssecDnsHandle<H, V>,
    query: Query,
    now: u64,
) -> Result<Option<Proof>, NetError> {
    let response = validator.lookup(alloc, query, DnsRequestOptions::default(), now)?;
    Ok(response.message.answers.first().map(|record| record.proof))
}

fn is_derived<V: Verifier>(
    alloc: Global,
    anchors: &TrustAnchors,
    verifier: &V,
    now: u64,
    response: &DnsResponse,
) -> Result<bool, NoMemory> {
    let limits = Limits {
        depth: 26,
        soft: IterationLimits::DEFAULT.soft,
        hard: IterationLimits::DEFAULT.hard,
    };
    check_trail(alloc, anchors, verifier, now, &limits, &[], &response.trail)
}

/// The mark of the root's name servers by a validator that trusts this key of the root.
fn mark_by_key(rt: &impl Abort, alloc: Global, key: &[u8]) -> Option<Proof> {
    let upstream = upstream_of(rt, alloc, servers());
    let verifier = verifier_of(rt, alloc, servers());
    let key = Octets::from_slice(alloc, key).expect(rt, "memory");
    let made = trusting(alloc, upstream, verifier, key);
    let mut validator = made.expect(rt, "memory");
    let query = query_of(rt, alloc, ".", RecordType::NS);
    let mark = first_mark(alloc, &mut validator, query, MOMENT);
    mark.ok().expect(rt, "an answer")
}

#[test]
fn the_examples_of_a_validator_and_its_lookup_give_a_mark(rt: HostRuntime) {
    let trusted = mark_by_key(&rt, rt.alloc(), b"\xaa\xbb");
    check_held(&rt, "the root's key", trusted == Some(Proof::Secure));
    let other = mark_by_key(&rt, rt.alloc(), b"\xcc\xdd");
    check_held(&rt, "another key", other == Some(Proof::Bogus));
}

/// Whether the second lookup by a validator over a small cache is served from that: it then has one step, and the first has two.
fn is_served(rt: &impl Abort, alloc: Global) -> bool {
    let anchors = anchors_of(rt, alloc, servers());
    let upstream = upstream_of(rt, alloc, servers());
    let verifier = verifier_of(rt, alloc, servers());
    let made = over_small_cache(alloc, upstream, anchors, verifier);
    let mut validator = made.expect(rt, "memory");
    let first = ask_scene(rt, alloc, &mut validator, servers(), MOMENT);
    let second = ask_scene(rt, alloc, &mut validator, servers(), MOMENT);
    let (first, second) = (
        first.expect(rt, "an answer"),
        second.expect(rt, "an answer"),
    );
    first.trail.steps.len() == 2 && second.trail.steps.len() == 1
}

#[test]
fn the_example_of_a_cache_serves_again(rt: HostRuntime) {
    check_held(&rt, "a second lookup", is_served(&rt, rt.alloc()));
}

/// Whether the trail of a lookup at the moment of all scenes is a derivation at this one.
fn is_derived_at(rt: &impl Abort, alloc: Global, now: u64) -> bool {
    let mut validator = validator_of(rt, alloc, servers());
    let response = ask_scene(rt, alloc, &mut validator, servers(), MOMENT);
    let response = response.expect(rt, "an answer");
    let anchors = anchors_of(rt, alloc, servers());
    let verifier = verifier_of(rt, alloc, servers());
    is_derived(alloc, &anchors, &verifier, now, &response).expect(rt, "memory")
}

#[test]
fn the_example_of_a_trail_is_a_derivation_while_its_signature_holds(rt: HostRuntime) {
    check_held(&rt, "at its moment", is_derived_at(&rt, rt.alloc(), MOMENT));
    check_held(&rt, "later", !is_derived_at(&rt, rt.alloc(), 3000));
}
