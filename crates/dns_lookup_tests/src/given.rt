//! What a scene gives: who is trusted, an upstream in memory, and lookups over it. Where memory runs out, the test ends.
use crate::rows::check_held;
use crate::scenes::{Anchored, Recording, Scene};
use dns_cache::{AcceptedBy, Entry};
use dns_evidence::{Limits, Listed, Trail, Verifier};
use dns_handle::{DnsHandle, DnsRequestOptions, DnsResponse, NetError};
use dns_lookup::DnssecDnsHandle;
use dns_message::Message;
use dns_model::Denial;
use dns_record::{DNSClass, Name, Octets, Query, RecordType};
use dns_recorded::Recorded;
use dns_trail::check_trail;
use dns_trust::TrustAnchors;
use std::alloc::Global;
use std::process::Abort;

/// The moment of all scenes, in seconds.
pub(crate) const MOMENT: u64 = 1000;

/// What a lookup answers.
pub(crate) type Answer = Result<DnsResponse, NetError>;

/// Trusts a key.
fn trust(rt: &impl Abort, alloc: Global, anchors: &mut TrustAnchors, given: &Anchored) {
    let owner = Name::from_ascii(alloc, given.0).expect(rt, "a name");
    let key = Octets::from_slice(alloc, given.1).expect(rt, "memory");
    let _ = anchors
        .insert_with_name(owner, 13, key)
        .expect(rt, "memory");
}

/// The keys that a scene trusts.
pub(crate) fn anchors_of(rt: &impl Abort, alloc: Global, scene: &Scene) -> TrustAnchors {
    let mut anchors = TrustAnchors::empty(alloc);
    for given in scene.anchors {
        trust(rt, alloc, &mut anchors, given);
    }
    anchors
}

/// Accepts the signatures of a scene too.
pub(crate) fn accept_all(rt: &impl Abort, verifier: &mut Listed, scene: &Scene) {
    for given in scene.accepts {
        verifier
            .accept(13, given.0, given.1, given.2)
            .expect(rt, "memory");
    }
}

/// The verifier that accepts a scene's signatures.
pub(crate) fn verifier_of(rt: &impl Abort, alloc: Global, scene: &Scene) -> Listed {
    let mut verifier = Listed::new(alloc);
    verifier.support(13);
    accept_all(rt, &mut verifier, scene);
    verifier
}

/// The query for a name.
pub(crate) fn query_of(
    rt: &impl Abort,
    alloc: Global,
    name: &str,
    query_type: RecordType,
) -> Query {
    Query {
        name: Name::from_ascii(alloc, name).expect(rt, "a name"),
        query_type,
        query_class: DNSClass::IN,
    }
}

/// The message that these bytes are.
pub(crate) fn message_of(rt: &impl Abort, alloc: Global, bytes: &[u8]) -> Message {
    check_held(rt, "a message isn't too long", bytes.len() <= 65_535);
    Message::from_vec(alloc, bytes).expect(rt, "a message")
}

/// Puts a message behind the replies that were recorded.
pub(crate) fn put_message(
    rt: &impl Abort,
    alloc: Global,
    recorded: &mut Recorded,
    name: &str,
    query_type: RecordType,
    message: &[u8],
) {
    let query = query_of(rt, alloc, name, query_type);
    let response = DnsResponse {
        message: message_of(rt, alloc, message),
        chains: Vec::new(alloc),
        denial: Denial::None,
        trail: Trail::new(alloc),
    };
    recorded.push(query, Ok(response)).expect(rt, "memory");
}

/// Puts replies behind those that were recorded.
pub(crate) fn put_replies(
    rt: &impl Abort,
    alloc: Global,
    recorded: &mut Recorded,
    replies: &[Recording],
) {
    for given in replies {
        put_message(rt, alloc, recorded, given.0, given.1, given.2);
    }
}

/// An upstream that answers as a scene says.
pub(crate) fn upstream_of(rt: &impl Abort, alloc: Global, scene: &Scene) -> Recorded {
    let mut recorded = Recorded::new(alloc);
    put_replies(rt, alloc, &mut recorded, scene.replies);
    recorded
}

/// Options that ask for nothing but a depth.
pub(crate) fn options_to(depth: u16) -> DnsRequestOptions {
    let mut options = DnsRequestOptions::default();
    options.max_request_depth = depth;
    options
}

/// A validator over the upstream of a scene, by what it trusts.
pub(crate) fn validator_of(
    rt: &impl Abort,
    alloc: Global,
    scene: &Scene,
) -> DnssecDnsHandle<Recorded, Listed> {
    validator_over(rt, alloc, upstream_of(rt, alloc, scene), scene)
}

/// A validator over an upstream, by what a scene trusts.
pub(crate) fn validator_over(
    rt: &impl Abort,
    alloc: Global,
    upstream: Recorded,
    scene: &Scene,
) -> DnssecDnsHandle<Recorded, Listed> {
    let anchors = anchors_of(rt, alloc, scene);
    let verifier = verifier_of(rt, alloc, scene);
    DnssecDnsHandle::new(alloc, upstream, anchors, verifier).expect(rt, "memory")
}

/// What a validator answers at a moment to the query for a name.
pub(crate) fn ask<H: DnsHandle + Drop, V: Verifier + Drop, C: AcceptedBy<V> + Drop>(
    rt: &impl Abort,
    alloc: Global,
    validator: &mut DnssecDnsHandle<H, V, C>,
    name: &str,
    query_type: RecordType,
    depth: u16,
    now: u64,
) -> Answer {
    let query = query_of(rt, alloc, name, query_type);
    validator.lookup(alloc, query, options_to(depth), now)
}

/// The same of a scene's query.
pub(crate) fn ask_scene<H: DnsHandle + Drop, V: Verifier + Drop, C: AcceptedBy<V> + Drop>(
    rt: &impl Abort,
    alloc: Global,
    validator: &mut DnssecDnsHandle<H, V, C>,
    scene: &Scene,
    now: u64,
) -> Answer {
    let (name, query_type, depth) = (scene.name, scene.query_type, scene.depth);
    ask(rt, alloc, validator, name, query_type, depth, now)
}

/// A trail is a derivation at a moment, by what a scene trusts and by what was kept.
pub(crate) fn derives(
    rt: &impl Abort,
    alloc: Global,
    scene: &Scene,
    now: u64,
    limits: &Limits,
    kept: &[Entry],
    trail: &Trail,
) -> bool {
    let anchors = anchors_of(rt, alloc, scene);
    let verifier = verifier_of(rt, alloc, scene);
    let checked = check_trail(alloc, &anchors, &verifier, now, limits, kept, trail);
    checked.expect(rt, "memory")
}
