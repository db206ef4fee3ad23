//! What tests share: the assertion on a row, and records, sets, links, keys and entries.

use dns_cache::{CacheKey, Entry, RrsetProof, ValidationCache};
use dns_evidence::Link;
use dns_model::Proof;
use dns_record::{DNSClass, Name, Query, Rdata, Record, RecordSet, RecordType};
use std::alloc::Global;
use std::process::Abort;

/// What was tried on a row held; the message names the row.
pub(crate) fn check_row(rt: &impl Abort, row: &str, held: bool) {
    assert!(rt; held, "{row}");
}

/// The name of this text.
pub(crate) fn name_of(rt: &impl Abort, alloc: Global, text: &str) -> Name {
    Name::from_ascii(alloc, text).expect(rt, "a name")
}

/// The rdata of these bytes. One that is too long fails its test.
pub(crate) fn rdata(rt: &impl Abort, alloc: Global, bytes: &[u8]) -> Rdata {
    if bytes.len() > 65535 {
        rt.panic("a long rdata");
    }
    Rdata::from_slice(alloc, bytes).expect(rt, "memory")
}

/// A record of class IN.
pub(crate) fn record(
    rt: &impl Abort,
    alloc: Global,
    owner: &str,
    record_type: RecordType,
    ttl: u32,
    bytes: &[u8],
) -> Record {
    Record {
        name: name_of(rt, alloc, owner),
        record_type,
        dns_class: DNSClass::IN,
        ttl,
        rdata: rdata(rt, alloc, bytes),
        proof: Proof::Indeterminate,
    }
}

/// A link to a trusted key of the root.
pub(crate) fn anchored(rt: &impl Abort, alloc: Global, key: &[u8]) -> Link {
    Link::Anchored {
        owner: name_of(rt, alloc, "."),
        class: DNSClass::IN,
        key: rdata(rt, alloc, key),
    }
}

/// The question for the addresses of a name.
pub(crate) fn query(rt: &impl Abort, alloc: Global, name: &str) -> Query {
    Query {
        name: name_of(rt, alloc, name),
        query_type: RecordType::A,
        query_class: DNSClass::IN,
    }
}

/// So many addresses of ttl 1 more.
fn put_addresses(rt: &impl Abort, alloc: Global, records: &mut Vec<Record>, number: usize) {
    for _ in 0..number {
        let next = record(rt, alloc, ".", RecordType::A, 1, &[192, 0, 2, 2]);
        records.push(next).expect(rt, "memory");
    }
}

/// A set of an address, which ends with this byte, and of so many more of ttl 1.
pub(crate) fn addresses(
    rt: &impl Abort,
    alloc: Global,
    number: u8,
    ttl: u32,
    more: usize,
) -> RecordSet {
    let bytes = &[192, 0, 2, number];
    let first = record(rt, alloc, "example.", RecordType::A, ttl, bytes);
    let mut set = RecordSet::of(alloc, first).expect(rt, "memory");
    put_addresses(rt, alloc, &mut set.records, more);
    set
}

/// The key of a set in the answer to a question.
pub(crate) fn key_of(rt: &impl Abort, query: Query, set: RecordSet) -> CacheKey {
    CacheKey::of(&query, &set).expect(rt, "memory")
}

/// A key for each number, of a set with so many addresses more.
pub(crate) fn key(rt: &impl Abort, alloc: Global, number: u8, more: usize) -> CacheKey {
    let query = query(rt, alloc, "example.");
    key_of(rt, query, addresses(rt, alloc, number, 3600, more))
}

/// An entry of a key is put in. Its value tells it from others.
pub(crate) fn put<C: ValidationCache>(
    rt: &impl Abort,
    alloc: Global,
    cache: &mut C,
    key: CacheKey,
    expires: u64,
    value: u32,
) {
    let found = RrsetProof {
        proof: Proof::Insecure,
        adjusted_ttl: Some(value),
        rrsig_index: None,
    };
    let entry = Entry::new(key, expires, Ok(found), None);
    cache.insert(alloc, entry).expect(rt, "memory");
}

/// The value of an entry that was put in.
pub(crate) fn value_of(entry: &Entry) -> Option<u32> {
    match &entry.result {
        Ok(proof) => proof.adjusted_ttl,
        Err(_) => None,
    }
}
