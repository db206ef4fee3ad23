//! Keys by a number, and entries of them that aren't Secure. Where memory runs out, the test ends.
use dns_cache::{CacheKey, Entry, RrsetProof};
use dns_model::Proof;
use dns_record::{DNSClass, Name, Query, Rdata, Record, RecordSet, RecordType};
use std::alloc::Global;
use std::process::Abort;

/// An address whose bytes are a number.
fn address(rt: &impl Abort, alloc: Global, number: u32) -> Record {
    Record {
        name: Name::from_ascii(alloc, "example.").expect(rt, "a name"),
        record_type: RecordType::A,
        dns_class: DNSClass::IN,
        ttl: 3600,
        rdata: Rdata::from_slice(alloc, &number.to_be_bytes()).expect(rt, "memory"),
        proof: Proof::Indeterminate,
    }
}

/// A set of an address, which is the number, and of so many more.
fn addresses(rt: &impl Abort, alloc: Global, number: u32, more: u32) -> RecordSet {
    let first = address(rt, alloc, number);
    let mut set = RecordSet::of(alloc, first).expect(rt, "memory");
    let next = address(rt, alloc, number);
    for _ in 0..more {
        let copy = next.try_clone().expect(rt, "memory");
        set.records.push(copy).expect(rt, "memory");
    }
    set
}

/// The key with a number, of a set with so many addresses more.
pub(crate) fn long_key(rt: &impl Abort, alloc: Global, number: u32, more: u32) -> CacheKey {
    let query = Query {
        name: Name::from_ascii(alloc, "example.").expect(rt, "a name"),
        query_type: RecordType::A,
        query_class: DNSClass::IN,
    };
    CacheKey {
        query,
        set: addresses(rt, alloc, number, more),
    }
}

/// The key with a number.
pub(crate) fn key(rt: &impl Abort, alloc: Global, number: u32) -> CacheKey {
    long_key(rt, alloc, number, 0)
}

/// An entry of a key that isn't Secure; its value tells it from others.
pub(crate) fn entry(key: CacheKey, expires: u64, value: u32) -> Entry {
    let found = RrsetProof {
        proof: Proof::Insecure,
        adjusted_ttl: Some(value),
        rrsig_index: None,
    };
    Entry::new(key, expires, Ok(found), None)
}

/// The value of an entry.
pub(crate) fn value_of(entry: &Entry) -> Option<u32> {
    match &entry.result {
        Ok(found) => found.adjusted_ttl,
        Err(_) => None,
    }
}
