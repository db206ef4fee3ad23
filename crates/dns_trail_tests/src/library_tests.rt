//! A lookup with an upstream and a verifier of one's own. docs/LIBRARY.md shows this file up to the tests, as a program.

use crate::parts::check_row;
use dns_chain::{
    DefaultSharedCache, DnssecDnsHandle, IterationLimits, Judge, SharedCache, TrustAnchors,
    TtlRanges, Validation, Verifier, Wanted,
};
use dns_net::{
    DnsError, DnsHandle, DnsRequest, DnsRequestOptions, DnsResponse, Link, NetError, Trail,
};
use dns_wire::{DNSClass, Denial, Message, Name, Octets, Proof, Query, RecordType};
use std::alloc::Global;
use std::sync::Wait;
use std::thread::{self, Threads};

/// The root's NS set with a signature that is good from 900 to 2000, as a message.
const SERVERS: &[u8] =
    b"\0\0\x84\0\0\x01\0\x02\0\0\0\0\0\0\x02\0\x01\0\0\x02\0\x01\0\0\x0e\x10\0\x03\x01a\0\0\0\x2e\0\x01\0\0\x0e\x10\0\x15\0\x02\x0d\0\0\0\x0e\x10\0\0\x07\xd0\0\0\x03\x84\xae\xc9\0\xaa\xbb";

/// The root's key set, as a message.
const KEYS: &[u8] =
    b"\0\0\x84\0\0\x01\0\x01\0\0\0\0\0\0\x30\0\x01\0\0\x30\0\x01\0\0\x0e\x10\0\x06\x01\x01\x03\x0d\xaa\xbb";

/// The bytes that come for a request. A real upstream uses a socket here.
fn exchange(request: &DnsRequest) -> &'static [u8] {
    match request.message.queries.first() {
        Some(query) if query.query_type == RecordType::NS => SERVERS,
        _ => KEYS,
    }
}

/// What becomes of the bytes that come.
fn heard(alloc: Global, bytes: &[u8]) -> Result<DnsResponse, NetError> {
    if bytes.len() > 65_535 {
        return Err(NetError::Truncated);
    }
    let response = DnsResponse {
        message: Message::from_vec(alloc, bytes)?,
        chains: Vec::new(alloc),
        denial: Denial::None,
        trail: Trail::new(alloc),
    };
    Ok(DnsError::from_response(alloc, response)??)
}

/// An upstream of one's own: it counts what it sends, and each error as a fault.
#[derive(Default, Drop)]
struct Upstream {
    sends: u64,
    faults: u64,
}

impl DnsHandle for Upstream {
    ghost use Rattle.std.specs.Prelude.{⊤, None};

    ghost sends = { λ u. u.sends };

    ghost faults = { λ u. u.faults };

    ghost sent = { λ from asked to reply. ⊤ };

    ghost told = { λ u. None };

    fn send(
        &mut self,
        alloc: Global,
        request: DnsRequest,
        _now: u64,
    ) -> Result<DnsResponse, NetError> {
        self.sends = self.sends.saturating_add(1);
        let reply = heard(alloc, exchange(&request));
        if reply.is_err() {
            self.faults = self.faults.saturating_add(1);
        }
        reply
    }

    fn is_using_edns(&self) -> bool {
        true
    }
}

/// A verifier of one's own: under algorithm 13, the one that it supports, a good signature has the bytes of its key.
#[derive(Drop)]
struct KeyItself;

impl Verifier for KeyItself {
    ghost use Rattle.std.specs.Prelude.{◌==◌, nat_eq};
    ghost use Rattle.std.specs.Cmp.Lexicographic.{pointwise};

    ghost answers = { λ v. record { supports = λ a. a == 13; accepts = λ a key bytes signature. pointwise nat_eq key signature } };

    fn supports(&self, algorithm: u8) -> bool {
        algorithm == 13
    }

    fn accepts(&self, _algorithm: u8, key: &[u8], _bytes: &[u8], signature: &[u8]) -> bool {
        key == signature
    }

    fn same(&self, _other: &KeyItself) -> bool {
        true
    }
}

/// The query for the root's name servers.
fn query_of(alloc: Global) -> Result<Query, NetError> {
    Ok(Query {
        name: Name::root(alloc)?,
        query_type: RecordType::NS,
        query_class: DNSClass::IN,
    })
}

/// Trusts the root's key.
fn trust_root(alloc: Global, anchors: &mut TrustAnchors) -> Result<bool, NetError> {
    let key = Octets::from_slice(alloc, b"\xaa\xbb")?;
    Ok(anchors.insert_with_name(Name::root(alloc)?, 13, key)?)
}

/// A validator that trusts the root's key.
fn validator_of(alloc: Global) -> Result<DnssecDnsHandle<Upstream, KeyItself>, NetError> {
    let mut anchors = TrustAnchors::empty(alloc);
    let _ = trust_root(alloc, &mut anchors)?;
    Ok(DnssecDnsHandle::new(alloc, Upstream::default(), anchors, KeyItself)?)
}

/// Looks the root's name servers up at a moment.
fn look_up(alloc: Global, now: u64) -> Result<DnsResponse, NetError> {
    let query = query_of(alloc)?;
    let mut validator = validator_of(alloc)?;
    validator.lookup(alloc, query, DnsRequestOptions::default(), now)
}

/// Sends what a validation asks, and tells it the reply, until it wants nothing more. Nothing is kept.
fn drive(alloc: Global, validation: &mut Validation<'_, KeyItself>, now: u64) {
    let mut upstream = Upstream::default();
    for _ in 0..10_000_u32 {
        match validation.next() {
            None => return,
            Some(Wanted::Reply(asking)) => {
                validation.answer(upstream.send(alloc, asking.request, now));
            }
            Some(Wanted::Entry(_key)) => validation.found(None),
        }
        let _ = validation.kept();
    }
}

/// Looks the root's name servers up at a moment, by a validation that holds no upstream.
fn look_up_by_hand(alloc: Global, now: u64) -> Result<DnsResponse, NetError> {
    let mut anchors = TrustAnchors::empty(alloc);
    let _ = trust_root(alloc, &mut anchors)?;
    let judge = Judge {
        verifier: &KeyItself,
        anchors: &anchors,
        moment: now,
    };
    let query = query_of(alloc)?;
    let options = DnsRequestOptions::default();
    let limits = IterationLimits::DEFAULT;
    let mut validation = Validation::new(alloc, judge, query, options, limits, TtlRanges::new())?;
    drive(alloc, &mut validation, now);
    validation.into_answer().unwrap_or(Err(NetError::Timeout))
}

/// The first record of the answer has this mark.
fn has_mark(response: &DnsResponse, proof: Proof) -> bool {
    matches!(response.message.answers.first(), Some(record) if record.proof == proof)
}

/// The links lead from an anchored key to a signed set.
fn leads_from_anchor(links: &[Link]) -> bool {
    matches!(links.first(), Some(Link::Anchored { .. }))
        && matches!(links.last(), Some(Link::Signed { .. }))
}

/// The first record is Secure, and its set's chain is the only one.
fn is_secure(response: &DnsResponse) -> bool {
    has_mark(response, Proof::Secure)
        && matches!(response.chains.as_slice(), [chain] if leads_from_anchor(chain.links.as_slice()))
}

/// Whether the root's name servers are Secure at a moment.
fn is_secure_at(alloc: Global, now: u64) -> Result<bool, NetError> {
    let response = look_up(alloc, now)?;
    Ok(is_secure(&response))
}

/// The same by hand.
fn is_secure_by_hand(alloc: Global, now: u64) -> Result<bool, NetError> {
    let response = look_up_by_hand(alloc, now)?;
    Ok(is_secure(&response))
}

/// Whether the root's name servers are Secure at a moment, by a validator of its own over one cache.
fn is_secure_over<T: Wait + Copy>(
    alloc: Global,
    cache: &DefaultSharedCache<KeyItself, T>,
    now: u64,
) -> Result<bool, NetError> {
    let mut anchors = TrustAnchors::empty(alloc);
    let _ = trust_root(alloc, &mut anchors)?;
    let holder = cache.share()?;
    let mut validator = DnssecDnsHandle::with_cache(
        Upstream::default(),
        anchors,
        KeyItself,
        holder,
    )?;
    let query = query_of(alloc)?;
    let response = validator.lookup(alloc, query, DnsRequestOptions::default(), now)?;
    Ok(is_secure(&response))
}

/// The same in each of four threads at once.
fn is_secure_in_threads<R: Threads + Wait + Copy + Send + Sync>(
    rt: R,
    alloc: Global,
    now: u64,
) -> Result<bool, NetError> {
    let cache = SharedCache::new(rt, alloc, 1000, KeyItself)?;
    let secure = thread::map_indices(
        &rt,
        alloc,
        4,
        &|_| { is_secure_over(alloc, &cache, now).unwrap_or(false) },
    )?;
    Ok(secure.iter().all(|secure| *secure))
}

/// The same in each of these ways.
fn is_secure_each_way<R: Threads + Wait + Copy + Send + Sync>(
    rt: R,
    alloc: Global,
    now: u64,
) -> Result<bool, NetError> {
    let alone = is_secure_at(alloc, now)? && is_secure_by_hand(alloc, now)?;
    Ok(alone && is_secure_in_threads(rt, alloc, now)?)
}

#[test]
fn a_record_is_secure_by_its_chain_while_its_signature_holds(rt: HostRuntime) {
    let looked_up = is_secure_at(rt.alloc(), 1000).unwrap_or(false);
    check_row(&rt, "at 1000", looked_up);
    let by_hand = is_secure_by_hand(rt.alloc(), 1000).unwrap_or(false);
    check_row(&rt, "by hand", by_hand);
    let in_threads = is_secure_in_threads(rt, rt.alloc(), 1000).unwrap_or(false);
    check_row(&rt, "in four threads", in_threads);
    let each_way = is_secure_each_way(rt, rt.alloc(), 1000).unwrap_or(false);
    check_row(&rt, "each way", each_way);
}

fn is_bogus(alloc: Global) -> Result<bool, NetError> {
    let response = look_up(alloc, 3000)?;
    Ok(has_mark(&response, Proof::Bogus) && response.chains.is_empty())
}

#[test]
fn a_record_is_bogus_and_has_no_chain_later(rt: HostRuntime) {
    check_row(&rt, "at 3000", is_bogus(rt.alloc()).unwrap_or(false));
}
