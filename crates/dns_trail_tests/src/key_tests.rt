//! What tells the keys of a cache apart (RFC 4035, 4.5).

use crate::parts::{check_row, key_of, name_of, query, record};
use dns_cache::{CacheKey, KeyHasher};
use dns_model::Proof;
use dns_record::{DNSClass, Record, RecordSet, RecordType};
use std::alloc::Global;
use std::hash::{BuildHasher, BuildHasherDefault, FoldHasher, Hasher};
use std::process::Abort;

/// A set in the answer to a question: its addresses end with the two bytes, and its signature is the third.
struct Row {
    shows: &'static str,
    name: &'static str,
    owner: &'static str,
    ends: [u8; 3],
    ttl: u32,
    proof: Proof,
    /// The key is that of the first row.
    same: bool,
}

const FIRST: Row = Row {
    shows: "the same",
    name: "www.example.",
    owner: "www.example.",
    ends: [1, 2, 3],
    ttl: 3600,
    proof: Proof::Indeterminate,
    same: true,
};

const OTHER: Row = Row {
    same: false,
    ..FIRST
};

#[rattlefmt::skip]
const ROWS: &[Row] = &[
    FIRST,
    Row { shows: "another ttl", ttl: 60, ..FIRST },
    Row { shows: "another mark", proof: Proof::Secure, ..FIRST },
    Row { shows: "another case of the name that is asked for", name: "WWW.example.", ..FIRST },
    Row { shows: "another name that is asked for", name: "ftp.example.", ..OTHER },
    Row { shows: "another case of the owner", owner: "WWW.example.", ..OTHER },
    Row { shows: "another order of the records", ends: [2, 1, 3], ..OTHER },
    Row { shows: "another byte of the signature", ends: [1, 2, 4], ..OTHER },
];

/// A record of the set.
fn push_record(
    rt: &impl Abort,
    alloc: Global,
    records: &mut Vec<Record>,
    row: &Row,
    record_type: RecordType,
    bytes: &[u8],
) {
    let mut next = record(rt, alloc, row.owner, record_type, row.ttl, bytes);
    next.proof = row.proof;
    records.push(next).expect(rt, "memory");
}

fn set_of(rt: &impl Abort, alloc: Global, row: &Row) -> RecordSet {
    let [first, last, signature] = row.ends;
    let a = RecordType::A;
    let mut records = Vec::new(alloc);
    push_record(rt, alloc, &mut records, row, a, &[192, 0, 2, first]);
    push_record(rt, alloc, &mut records, row, a, &[192, 0, 2, last]);
    let mut rrsigs = Vec::new(alloc);
    push_record(rt, alloc, &mut rrsigs, row, RecordType::RRSIG, &[signature]);
    RecordSet {
        name: name_of(rt, alloc, row.owner),
        record_type: RecordType::A,
        dns_class: DNSClass::IN,
        records,
        rrsigs,
    }
}

fn key_by(rt: &impl Abort, alloc: Global, row: &Row) -> CacheKey {
    let query = query(rt, alloc, row.name);
    key_of(rt, query, set_of(rt, alloc, row))
}

fn hash_of(key: &CacheKey) -> u64 {
    let hasher: BuildHasherDefault<FoldHasher> = BuildHasherDefault::new();
    hasher.hash_one(key)
}

/// Equality, order and hash say whether two keys are one.
fn are_told(one: &CacheKey, two: &CacheKey, same: bool) -> bool {
    (*one == *two) == same
        && one.cmp(two).is_eq() == same
        && two.cmp(one) == one.cmp(two).reverse()
        && (hash_of(one) == hash_of(two)) == same
}

/// The key of the row is that of the first one, or another.
fn is_told(rt: &impl Abort, alloc: Global, row: &Row) -> bool {
    let one = key_by(rt, alloc, &FIRST);
    let two = key_by(rt, alloc, row);
    are_told(&one, &two, row.same)
}

#[test]
fn keys_go_by_question_and_bytes(rt: HostRuntime) {
    for row in ROWS {
        check_row(&rt, row.shows, is_told(&rt, rt.alloc(), row));
    }
}

/// Bytes and what the hasher gives of them, by the same rule in Python.
const HASHES: &[(&[u8], u64)] = &[
    (b"", 16250260098581018180),
    (b"abc", 10889107159515471811),
    (b"abcdefgh", 15932757752889890954),
    (b"abcdefghijklmnopqrs", 2872629128562810798),
];

fn key_hash_of(bytes: &[u8]) -> u64 {
    let mut hasher = KeyHasher::default();
    hasher.write(bytes);
    hasher.finish()
}

#[test]
fn bytes_are_hashed_as_words_of_eight(rt: HostRuntime) {
    for (bytes, hash) in HASHES {
        check_row(&rt, "a hash", key_hash_of(bytes) == *hash);
    }
}
