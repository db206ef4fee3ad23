//! The stored session: a cache, a seat that looks its questions up, and what a seat that was served has told. Where memory runs out, the
//! test ends.
use crate::requests::{case_of, requests};
use crate::rows::check_held;
use crate::scenes::{Recording, servers};
use dns_cache::DefaultHasher;
use dns_evidence::{Listed, Trail};
use dns_handle::{DnsResponse, Protocol};
use dns_link::FixedClock;
use dns_lookup::DnssecDnsHandle;
use dns_message::Message;
use dns_model::Denial;
use dns_ports::ListPort;
use dns_record::{DNSClass, Name, Octets, Query};
use dns_recorded::Recorded;
use dns_respond::Exchanged;
use dns_seats::{Ended, Seat, Served};
use dns_shared_cache::SharedCache;
use dns_trust::TrustAnchors;
use std::alloc::Global;
use std::process::Abort;
use std::sync::Wait;

/// A seat with a port in memory over an upstream in memory.
pub(crate) type ListSeat<R> = Seat<ListPort, Recorded, Listed, FixedClock, DefaultHasher, R>;

/// The same, served.
pub(crate) type ListServed<R> = Served<ListPort, Recorded, Listed, FixedClock, DefaultHasher, R>;

/// A verifier that accepts what the session does.
fn verifier(rt: &impl Abort, alloc: Global) -> Listed {
    let mut verifier = Listed::new(alloc);
    verifier.support(13);
    for given in servers().accepts {
        verifier
            .accept(13, given.0, given.1, given.2)
            .expect(rt, "memory");
    }
    verifier
}

/// The trusted key of the root.
fn anchors(rt: &impl Abort, alloc: Global) -> TrustAnchors {
    let mut anchors = TrustAnchors::empty(alloc);
    let key = Octets::from_slice(alloc, b"\xaa\xbb").expect(rt, "memory");
    let root = Name::root(alloc).expect(rt, "memory");
    let _ = anchors.insert_with_name(root, 13, key).expect(rt, "memory");
    anchors
}

/// Puts a reply behind those that were recorded.
fn put_reply(rt: &impl Abort, alloc: Global, recorded: &mut Recorded, given: &Recording) {
    check_held(rt, "a message isn't too long", given.2.len() <= 65_535);
    let response = DnsResponse {
        message: Message::from_vec(alloc, given.2).expect(rt, "a message"),
        chains: Vec::new(alloc),
        denial: Denial::None,
        trail: Trail::new(alloc),
    };
    let query = Query {
        name: Name::root(alloc).expect(rt, "memory"),
        query_type: given.1,
        query_class: DNSClass::IN,
    };
    recorded.push(query, Ok(response)).expect(rt, "memory");
}

/// An upstream that replies as the session says.
fn upstream(rt: &impl Abort, alloc: Global) -> Recorded {
    let mut recorded = Recorded::new(alloc);
    for given in servers().replies {
        put_reply(rt, alloc, &mut recorded, given);
    }
    recorded
}

/// The first holder of a cache, whose verifier is that of the seats.
pub(crate) fn cache<R: Wait + Abort + Copy>(
    rt: R,
    alloc: Global,
) -> SharedCache<Listed, DefaultHasher, R> {
    SharedCache::new(rt, alloc, 100, verifier(&rt, alloc)).expect(&rt, "memory")
}

/// A seat over the cache, whose clock stands at a moment.
pub(crate) fn seat_at<R: Wait + Abort + Copy>(
    rt: R,
    alloc: Global,
    cache: &SharedCache<Listed, DefaultHasher, R>,
    port: ListPort,
    moment: u64,
) -> ListSeat<R> {
    let holder = cache.share().expect(&rt, "memory");
    let made = DnssecDnsHandle::with_cache(
        upstream(&rt, alloc),
        anchors(&rt, alloc),
        verifier(&rt, alloc),
        holder,
    );
    Seat {
        port,
        validator: made.expect(&rt, "a validator"),
        clock: FixedClock::new(moment),
        protocol: Protocol::Udp,
        depth: 26,
    }
}

/// A port to which so many requests come, whose calls with these numbers fail.
pub(crate) fn port(rt: &impl Abort, alloc: Global, count: usize, fails: &[u64]) -> ListPort {
    let mut failing = Vec::new(alloc);
    for number in fails {
        failing.push(*number).expect(rt, "memory");
    }
    ListPort::new(requests(rt, alloc, count), failing)
}

/// The exchange is that of the case with this number at 1000.
fn is_of_case(rt: &impl Abort, exchange: &Exchanged, number: usize) -> bool {
    let case = case_of(rt, number);
    let reply = match &exchange.reply {
        None => b"".as_slice(),
        Some(bytes) => bytes.as_slice(),
    };
    exchange.request.as_slice() == case.1 && exchange.moment == 1000 && reply == case.2
}

/// The replies that a port took are those of exchanges, one for each that has one.
fn are_replies(replies: &[Octets], exchanges: &[Exchanged]) -> bool {
    let mut number = 0usize;
    for exchange in exchanges {
        if let Some(reply) = &exchange.reply {
            if replies.get(number) != Some(reply) {
                return false;
            }
            number = number.saturating_add(1);
        }
    }
    number == replies.len()
}

/// A seat ended so after so many exchanges, which are those of the cases in order, and so many of its replies were sent.
pub(crate) fn is_served<R: Wait + Abort + Copy>(
    rt: &R,
    served: &ListServed<R>,
    ended: Ended,
    count: usize,
    unsent: usize,
) -> bool {
    let exchanges = served.exchanges.as_slice();
    let mut all = served.ended == ended && exchanges.len() == count && unsent <= count;
    for (number, exchange) in exchanges.iter().enumerate() {
        all = is_of_case(rt, exchange, number) && all;
    }
    let told = served.seat.port.replies().expect(rt, "told replies");
    let sent = exchanges.get(..count.saturating_sub(unsent)).unwrap_or(&[]);
    all && are_replies(told, sent)
}
