//! The stored session: who is trusted, verifiers, an upstream in memory, lookups over a cache, and what they keep of the root's NS set.
//! Where memory runs out, the test ends.
use crate::rows::check_held;
use crate::scenes::{Recording, servers};
use dns_cache::{AcceptedBy, CacheKey, Entry, ListCache, RrsetProof, ValidationCache};
use dns_evidence::{Chain, Link, Listed, Trail, Verifier};
use dns_handle::{DnsRequestOptions, DnsResponse};
use dns_lookup::DnssecDnsHandle;
use dns_message::Message;
use dns_model::{Denial, MarkOrigin, Proof, Section};
use dns_record::{DNSClass, Name, Octets, Query, Rdata, RecordSet, RecordType};
use dns_recorded::Recorded;
use dns_trust::TrustAnchors;
use std::alloc::Global;
use std::process::Abort;

/// What a verifier lists.
#[derive(Clone, Copy)]
pub(crate) enum Lists {
    /// Nothing at all.
    Nothing,
    /// The algorithm, and no signature.
    NoSignature,
    /// The algorithm, and the signature of the NS set.
    Servers,
    /// Those, and then a signature of something else.
    ServersAndMore,
    /// The same in another order.
    MoreAndServers,
}

/// Accepts the signature of the NS set too.
fn accept_servers(rt: &impl Abort, verifier: &mut Listed) {
    for given in servers().accepts {
        verifier
            .accept(13, given.0, given.1, given.2)
            .expect(rt, "memory");
    }
}

/// Accepts a signature of something else too.
fn accept_more(rt: &impl Abort, verifier: &mut Listed) {
    verifier
        .accept(13, b"\xaa\xbb", b"something else", b"\xc0\xde")
        .expect(rt, "memory");
}

/// A verifier that lists this.
pub(crate) fn verifier_of(rt: &impl Abort, alloc: Global, lists: Lists) -> Listed {
    let mut verifier = Listed::new(alloc);
    if matches!(lists, Lists::Nothing) {
        return verifier;
    }
    verifier.support(13);
    if matches!(lists, Lists::MoreAndServers) {
        accept_more(rt, &mut verifier);
    }
    if !matches!(lists, Lists::NoSignature) {
        accept_servers(rt, &mut verifier);
    }
    if matches!(lists, Lists::ServersAndMore) {
        accept_more(rt, &mut verifier);
    }
    verifier
}

/// The trusted key of the root, or another one.
pub(crate) fn anchors_of(rt: &impl Abort, alloc: Global, is_ours: bool) -> TrustAnchors {
    let mut anchors = TrustAnchors::empty(alloc);
    let key: &[u8] = if is_ours { b"\xaa\xbb" } else { b"\xcc\xdd" };
    let key = Octets::from_slice(alloc, key).expect(rt, "memory");
    let root = Name::root(alloc).expect(rt, "memory");
    let _ = anchors.insert_with_name(root, 13, key).expect(rt, "memory");
    anchors
}

/// A question about the root.
fn query_of(rt: &impl Abort, alloc: Global, query_type: RecordType) -> Query {
    Query {
        name: Name::root(alloc).expect(rt, "memory"),
        query_type,
        query_class: DNSClass::IN,
    }
}

/// The message that these bytes are.
fn message_of(rt: &impl Abort, alloc: Global, bytes: &[u8]) -> Message {
    check_held(rt, "a message isn't too long", bytes.len() <= 65_535);
    Message::from_vec(alloc, bytes).expect(rt, "a message")
}

/// Puts a reply behind those that were recorded.
fn put_reply(rt: &impl Abort, alloc: Global, recorded: &mut Recorded, given: &Recording) {
    let response = DnsResponse {
        message: message_of(rt, alloc, given.2),
        chains: Vec::new(alloc),
        denial: Denial::None,
        trail: Trail::new(alloc),
    };
    recorded
        .push(query_of(rt, alloc, given.1), Ok(response))
        .expect(rt, "memory");
}

/// An upstream that replies as the session says.
fn upstream_of(rt: &impl Abort, alloc: Global) -> Recorded {
    let mut recorded = Recorded::new(alloc);
    for given in servers().replies {
        put_reply(rt, alloc, &mut recorded, given);
    }
    recorded
}

/// A validator over a cache.
pub(crate) fn validator_over<V: Verifier + Drop, C: AcceptedBy<V> + Drop>(
    rt: &impl Abort,
    alloc: Global,
    anchors: TrustAnchors,
    verifier: V,
    cache: C,
) -> DnssecDnsHandle<Recorded, V, C> {
    let made = DnssecDnsHandle::with_cache(upstream_of(rt, alloc), anchors, verifier, cache);
    made.expect(rt, "a validator")
}

/// What a validator answers at a moment to the query for the root's name servers.
pub(crate) fn ask<V: Verifier + Drop, C: AcceptedBy<V> + Drop>(
    rt: &impl Abort,
    alloc: Global,
    validator: &mut DnssecDnsHandle<Recorded, V, C>,
    now: u64,
) -> DnsResponse {
    let query = query_of(rt, alloc, RecordType::NS);
    let answer = validator.lookup(alloc, query, DnsRequestOptions::default(), now);
    answer.expect(rt, "an answer")
}

/// A lookup: its moment, how many sends it makes, and the mark, the ttl and the origin of the NS set.
pub(crate) struct Lookup(
    pub(crate) u64,
    pub(crate) usize,
    pub(crate) Proof,
    pub(crate) u32,
    pub(crate) MarkOrigin,
);

/// The response is that of the lookup.
fn is_so(response: &DnsResponse, lookup: &Lookup) -> bool {
    let Some(step) = response.trail.steps.last() else {
        return false;
    };
    let (Some(set), Some(record)) = (step.sets.first(), response.message.answers.first()) else {
        return false;
    };
    response.trail.steps.len() == lookup.1
        && set.mark == lookup.2
        && set.origin == lookup.4
        && record.proof == lookup.2
        && record.ttl == lookup.3
}

/// A validator answers a lookup as it says.
pub(crate) fn is_looked_up<V: Verifier + Drop, C: AcceptedBy<V> + Drop>(
    rt: &impl Abort,
    alloc: Global,
    validator: &mut DnssecDnsHandle<Recorded, V, C>,
    lookup: &Lookup,
) -> bool {
    let response = ask(rt, alloc, validator, lookup.0);
    is_so(&response, lookup)
}

/// The key of the NS set.
pub(crate) fn key_of_servers(rt: &impl Abort, alloc: Global) -> CacheKey {
    let reply = servers().replies.first().expect(rt, "a reply");
    let message = message_of(rt, alloc, reply.2);
    let first = message.answers.first().expect(rt, "a record");
    let last = message.answers.last().expect(rt, "a signature");
    let record = first.try_clone().expect(rt, "memory");
    let mut set = RecordSet::of(alloc, record).expect(rt, "memory");
    let signature = last.try_clone().expect(rt, "memory");
    set.rrsigs.push(signature).expect(rt, "memory");
    let query = query_of(rt, alloc, RecordType::NS);
    CacheKey::of(&query, &set).expect(rt, "memory")
}

/// The chain of the NS set, as a lookup finds it: an anchored key, the key set with it, and the signed set.
pub(crate) fn chain_of_servers(rt: &impl Abort, alloc: Global) -> Chain {
    let anchors = anchors_of(rt, alloc, true);
    let verifier = verifier_of(rt, alloc, Lists::Servers);
    let mut validator = validator_over(rt, alloc, anchors, verifier, ListCache::new(alloc, 8));
    let response = ask(rt, alloc, &mut validator, 1000);
    let chain = response.chains.first().expect(rt, "a chain");
    chain.try_clone().expect(rt, "memory")
}

/// A chain of the last link alone.
fn last_link_of_servers(rt: &impl Abort, alloc: Global) -> Chain {
    let mut chain = chain_of_servers(rt, alloc);
    let last = chain.links.pop().expect(rt, "a link");
    chain.links.clear();
    chain.links.push(last).expect(rt, "memory");
    chain
}

/// A chain of one link, to a key that can't be read.
fn unreadable_chain(rt: &impl Abort, alloc: Global) -> Chain {
    let link = Link::Anchored {
        owner: Name::root(alloc).expect(rt, "memory"),
        class: DNSClass::IN,
        key: Rdata::from_slice(alloc, b"\x01\x01").expect(rt, "memory"),
    };
    let mut links = Vec::new(alloc);
    links.push(link).expect(rt, "memory");
    Chain {
        section: Section::Answer,
        links,
    }
}

/// What is found of the NS set.
#[derive(Clone, Copy)]
pub(crate) enum Offer {
    /// It is Secure, and has its chain.
    Secure,
    /// It is Secure, and of its chain only the last link is left.
    LastLink,
    /// It is Secure, and its chain is a link to a key that can't be read.
    Unreadable,
    /// It is Secure, and its chain has no link.
    NoLink,
    /// It is Bogus.
    Bogus,
    /// It is Insecure, with the chain of the last link alone.
    Insecure,
}

// The mark of what is found.
fn proof_of(offer: Offer) -> Proof {
    match offer {
        Offer::Bogus => Proof::Bogus,
        Offer::Insecure => Proof::Insecure,
        _ => Proof::Secure,
    }
}

// The chain of what is found.
fn chain_of(rt: &impl Abort, alloc: Global, offer: Offer) -> Chain {
    match offer {
        Offer::LastLink | Offer::Insecure => last_link_of_servers(rt, alloc),
        Offer::Unreadable => unreadable_chain(rt, alloc),
        Offer::NoLink => Chain {
            section: Section::Answer,
            links: Vec::new(alloc),
        },
        _ => chain_of_servers(rt, alloc),
    }
}

/// What is found of the NS set, to be kept until a moment.
pub(crate) fn entry_of(rt: &impl Abort, alloc: Global, offer: Offer, expires: u64) -> Entry {
    let found = RrsetProof {
        proof: proof_of(offer),
        adjusted_ttl: Some(1000),
        rrsig_index: Some(0),
    };
    let chain = chain_of(rt, alloc, offer);
    Entry::new(key_of_servers(rt, alloc), expires, Ok(found), Some(chain))
}

/// Whether a cache gives the NS set's entry that expires at this moment, or none.
pub(crate) fn gives<C: ValidationCache>(
    rt: &impl Abort,
    alloc: Global,
    cache: &mut C,
    now: u64,
    expires: Option<u64>,
) -> bool {
    let key = key_of_servers(rt, alloc);
    let given = cache.get(alloc, &key, now).expect(rt, "memory");
    match given {
        Some(entry) => expires == Some(entry.expires) && entry.key == key,
        None => expires.is_none(),
    }
}
