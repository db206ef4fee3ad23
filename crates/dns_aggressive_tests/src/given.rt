//! What tests share: records, chains and responses.
use dns_evidence::{Chain, Link, Trail};
use dns_handle::DnsResponse;
use dns_message::Message;
use dns_model::{Denial, Proof, Section};
use dns_rdata::{base32hex_encode, nsec3_hash_of};
use dns_record::{DNSClass, Name, Query, Rdata, Record, RecordType};
use std::alloc::Global;
use std::process::Abort;

pub(crate) const A: u16 = 1;

pub(crate) const NS: u16 = 2;

pub(crate) const SOA: u16 = 6;

pub(crate) const MX: u16 = 15;

pub(crate) const TXT: u16 = 16;

pub(crate) const DS: u16 = 43;

/// What was tried held; the message names it.
pub(crate) fn check(rt: &impl Abort, what: &str, held: bool) {
    assert!(rt; held, "{what}");
}

pub(crate) fn name(rt: &impl Abort, alloc: Global, text: &str) -> Name {
    Name::from_ascii(alloc, text).expect(rt, "a name")
}

pub(crate) fn query(rt: &impl Abort, alloc: Global, text: &str, record_type: u16) -> Query {
    Query {
        name: name(rt, alloc, text),
        query_type: RecordType(record_type),
        query_class: DNSClass::IN,
    }
}

/// How names are hashed: hash algorithm, flags, iterations and salt.
#[derive(Clone, Copy)]
pub(crate) struct Way {
    pub(crate) algorithm: u8,
    pub(crate) flags: u8,
    pub(crate) iterations: u16,
    pub(crate) salt: &'static [u8],
}

/// Bytes for an rdata. A row that is too long ends its test.
pub(crate) fn rdata(rt: &impl Abort, alloc: Global, bytes: &[u8]) -> Rdata {
    if bytes.len() > 65_535 {
        rt.panic("a long rdata");
    }
    Rdata::from_slice(alloc, bytes).expect(rt, "memory")
}

fn push_all(rt: &impl Abort, into: &mut Vec<u8>, bytes: &[u8]) {
    into.extend_from_slice(bytes).expect(rt, "memory");
}

/// The bit of a type in its byte, by its number.
const BITS: &[u8] = &[0x80, 0x40, 0x20, 0x10, 8, 4, 2, 1];

/// A type bitmap of types below 64 (RFC 4034, 4.1.2).
fn push_bitmap(rt: &impl Abort, into: &mut Vec<u8>, types: &[u16]) {
    let mut bits = [0u8; 8];
    let mut len = 0;
    for one in types {
        let place = (*one as usize / 8) % 8;
        bits[place] |= BITS[*one as usize % 8];
        len = len.max(place + 1);
    }
    if 0 < len && len <= 8 {
        push_all(rt, into, &[0, len as u8]);
        push_all(rt, into, &bits[..len]);
    }
}

/// The rdata of an NSEC record.
pub(crate) fn nsec(rt: &impl Abort, alloc: Global, next: &str, types: &[u16]) -> Rdata {
    let mut bytes = Vec::new(alloc);
    push_all(rt, &mut bytes, name(rt, alloc, next).wire());
    push_bitmap(rt, &mut bytes, types);
    rdata(rt, alloc, &bytes)
}

/// The rdata of an NSEC3 record, whose next hash is that of a name.
pub(crate) fn nsec3(rt: &impl Abort, alloc: Global, next: &str, types: &[u16], way: Way) -> Rdata {
    let next = name(rt, alloc, next);
    let hash = nsec3_hash_of(way.salt, &next.borrowed(), way.iterations);
    let mut bytes = Vec::new(alloc);
    push_all(rt, &mut bytes, &[way.algorithm, way.flags]);
    push_all(rt, &mut bytes, way.iterations.to_be_bytes().as_slice());
    push_all(rt, &mut bytes, &[way.salt.len().min(255) as u8]);
    push_all(rt, &mut bytes, way.salt);
    push_all(rt, &mut bytes, &[20]);
    push_all(rt, &mut bytes, hash.as_slice());
    push_bitmap(rt, &mut bytes, types);
    rdata(rt, alloc, &bytes)
}

/// The name right below a zone whose label is the hash of a name.
pub(crate) fn hashed_owner(
    rt: &impl Abort,
    alloc: Global,
    text: &str,
    zone: &str,
    way: Way,
) -> Name {
    let owner = name(rt, alloc, text);
    let hash = nsec3_hash_of(way.salt, &owner.borrowed(), way.iterations);
    let label = base32hex_encode(&hash);
    let below = name(rt, alloc, zone);
    below.prepend_label(label.as_slice()).expect(rt, "a label")
}

/// A Secure record of class IN.
pub(crate) fn secure(owner: Name, record_type: u16, ttl: u32, rdata: Rdata) -> Record {
    Record {
        name: owner,
        record_type: RecordType(record_type),
        dns_class: DNSClass::IN,
        ttl,
        rdata,
        proof: Proof::Secure,
    }
}

/// The rdata of a signature by a zone, which can be read and says nothing else.
fn signature(rt: &impl Abort, alloc: Global, zone: &str) -> Rdata {
    let mut bytes = Vec::new(alloc);
    push_all(rt, &mut bytes, &[0; 18]);
    push_all(rt, &mut bytes, name(rt, alloc, zone).wire());
    rdata(rt, alloc, &bytes)
}

/// A chain that ends at a record's set, signed by a zone.
pub(crate) fn chain(
    rt: &impl Abort,
    alloc: Global,
    section: Section,
    met: &Record,
    zone: &str,
) -> Chain {
    let link = Link::Signed {
        owner: met.name.try_clone().expect(rt, "memory"),
        class: DNSClass::IN,
        record_type: met.record_type,
        rdatas: Vec::new(alloc),
        sig: signature(rt, alloc, zone),
        key_link: 0,
        key: rdata(rt, alloc, b""),
    };
    let mut links = Vec::new(alloc);
    links.push(link).expect(rt, "memory");
    Chain { section, links }
}

/// A response without records.
pub(crate) fn empty(alloc: Global) -> DnsResponse {
    DnsResponse {
        message: Message::query(alloc),
        chains: Vec::new(alloc),
        denial: Denial::None,
        trail: Trail::new(alloc),
    }
}

/// Adds a record to the authority section, and a chain for its set.
pub(crate) fn add(
    rt: &impl Abort,
    alloc: Global,
    response: &mut DnsResponse,
    met: Record,
    zone: &str,
) {
    let link = chain(rt, alloc, Section::Authority, &met, zone);
    response.chains.push(link).expect(rt, "memory");
    response.message.authorities.push(met).expect(rt, "memory");
}
