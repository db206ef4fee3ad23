//! The stored session: who is trusted, a verifier, an upstream in memory, and a validator over a shared cache. Where memory runs out, the
//! test ends.
use crate::scenes::{Recording, servers};
use dns_evidence::{Listed, Trail};
use dns_handle::DnsResponse;
use dns_lookup::DnssecDnsHandle;
use dns_message::Message;
use dns_model::Denial;
use dns_record::{DNSClass, Name, Octets, Query, RecordType};
use dns_recorded::Recorded;
use dns_shared_cache::{DefaultSharedCache, SharedCache};
use dns_trust::TrustAnchors;
use std::alloc::Global;
use std::process::Abort;
use std::sync::Wait;

/// A verifier that accepts the signature of the NS set.
pub(crate) fn verifier_of(rt: &impl Abort, alloc: Global) -> Listed {
    let mut verifier = Listed::new(alloc);
    verifier.support(13);
    for given in servers().accepts {
        verifier
            .accept(13, given.0, given.1, given.2)
            .expect(rt, "memory");
    }
    verifier
}

/// The trusted key of the root.
pub(crate) fn anchors_of(rt: &impl Abort, alloc: Global) -> TrustAnchors {
    let mut anchors = TrustAnchors::empty(alloc);
    let key = Octets::from_slice(alloc, b"\xaa\xbb").expect(rt, "memory");
    let root = Name::root(alloc).expect(rt, "memory");
    let _ = anchors.insert_with_name(root, 13, key).expect(rt, "memory");
    anchors
}

/// A question about the root.
pub(crate) fn query_of(rt: &impl Abort, alloc: Global, query_type: RecordType) -> Query {
    Query {
        name: Name::root(alloc).expect(rt, "memory"),
        query_type,
        query_class: DNSClass::IN,
    }
}

/// A response that nothing is known of but its message.
pub(crate) fn response_of(alloc: Global, message: Message) -> DnsResponse {
    DnsResponse {
        message,
        chains: Vec::new(alloc),
        denial: Denial::None,
        trail: Trail::new(alloc),
    }
}

// Puts a reply behind those that were recorded.
fn put_reply(rt: &impl Abort, alloc: Global, recorded: &mut Recorded, given: &Recording) {
    let bytes = given.2;
    let short = if bytes.len() <= 65_535 { bytes } else { b"" };
    let message = Message::from_vec(alloc, short).expect(rt, "a message");
    recorded
        .push(
            query_of(rt, alloc, given.1),
            Ok(response_of(alloc, message)),
        )
        .expect(rt, "memory");
}

/// An upstream that replies as the session says.
pub(crate) fn upstream_of(rt: &impl Abort, alloc: Global) -> Recorded {
    let mut recorded = Recorded::new(alloc);
    for given in servers().replies {
        put_reply(rt, alloc, &mut recorded, given);
    }
    recorded
}

/// A validator of the session over a holder of a shared cache.
pub(crate) type SharedValidator<T> = DnssecDnsHandle<
    Recorded,
    Listed,
    DefaultSharedCache<Listed, T>,
>;

/// A validator over an upstream, with a shared cache of its own.
pub(crate) fn validator_of<R: Wait + Abort + Copy>(
    rt: R,
    alloc: Global,
    upstream: Recorded,
) -> SharedValidator<R> {
    let cache = SharedCache::new(rt, alloc, 8, verifier_of(&rt, alloc)).expect(&rt, "memory");
    let anchors = anchors_of(&rt, alloc);
    let made = DnssecDnsHandle::with_cache(upstream, anchors, verifier_of(&rt, alloc), cache);
    made.expect(&rt, "a validator")
}
