//! Which DS records match a key, and what is found of one that none matches (RFC 4035, 5.2).

use crate::counting::Counting;
use crate::parts::*;
use crate::wanted::reads;
use dns_cache::ProofError;
use dns_evidence::Verifier;
use dns_marks::verify_dnskey;
use dns_model::Proof;
use dns_record::{Record, RecordType};
use dns_trust::DsIndex;
use std::alloc::Global;
use std::process::Abort;

/// What it shows; a key of `example.` by its type and rdata; DS records by owner and rdata; and what is found of the
/// key.
struct Row(
    &'static str,
    RecordType,
    &'static [u8],
    &'static [(&'static str, &'static [u8])],
    &'static str,
);

const DNSKEY: RecordType = RecordType::DNSKEY;

/// A DS like `DS` by SHA-1, and one of another tag.
const DS_BY_SHA_1: &[u8] =
    b"\xae\xc9\x0d\x01\x27\xbc\x0b\x58\x7d\x1b\xc9\x5c\x0b\x12\x5b\x70\x53\x28\x4e\x20\x4d\x35\x28\x0c";

const DS_BESIDE: &[u8] = b"\xae\xc8\x0d\x02\x00";

const NONE: &str = "Bogus: dnskey has no ds: example.";

const UNREADABLE: &str = "Insecure: internal error computing the key tag for: example.";

#[rattlefmt::skip]
const ROWS: &[Row] = &[
    Row("a DS of SHA-256 matches", DNSKEY, KEY, &[("example.", DS)], "Secure"),
    Row("a DS of SHA-1 matches", DNSKEY, KEY, &[("example.", DS_BY_SHA_1)], "Secure"),
    Row("the owner's case doesn't count", DNSKEY, KEY, &[("EXAMPLE.", DS)], "Secure"),
    Row("a DS of another owner doesn't match", DNSKEY, KEY, &[("other.", DS)], NONE),
    Row("a DS of another key doesn't match", DNSKEY, OTHER_KEY, &[("example.", DS)], NONE),
    Row("no DS is there", DNSKEY, KEY, &[], NONE),
    Row("the second DS of an algorithm and a tag counts", DNSKEY, KEY, &[("example.", MISS), ("example.", DS)],
        "Secure"),
    Row("the third doesn't", DNSKEY, KEY, &[("example.", MISS), ("example.", UNSUPPORTED_DS), ("example.", DS)], NONE),
    Row("those of another owner and another tag aren't counted", DNSKEY, KEY,
        &[("other.", MISS), ("example.", DS_BESIDE), ("example.", DS)], "Secure"),
    Row("a key that is too short can't be read", DNSKEY, b"\x01\x01", &[("example.", DS)], UNREADABLE),
    Row("a record of another type is no key", RecordType::TXT, KEY, &[("example.", DS)], UNREADABLE),
    Row("an algorithm that isn't supported is told before a DS that is missing", DNSKEY, UNSUPPORTED_KEY, &[],
        "Insecure: unsupported key algorithms"),
];

fn rows() -> &'static [Row] {
    ROWS
}

fn ds_records(rt: &impl Abort, alloc: Global, rows: &[(&str, &[u8])]) -> Vec<Record> {
    let mut records = Vec::new(alloc);
    for row in rows {
        let next = record(rt, alloc, row.0, RecordType::DS, row.1, Proof::Secure);
        records.push(next).expect(rt, "memory");
    }
    records
}

/// What is found of a key is Secure, or it fails so.
fn is_key(rt: &impl Abort, alloc: Global, found: &Result<Proof, ProofError>, want: &str) -> bool {
    match found {
        Ok(proof) => *proof == Proof::Secure && want == "Secure",
        Err(error) => reads(rt, alloc, error, want),
    }
}

/// One of the DS records matches the key.
fn is_matched(
    rt: &impl Abort,
    alloc: Global,
    verifier: &Counting,
    key: &Record,
    ds: &[Record],
) -> bool {
    let index = DsIndex::of(alloc, &key.name, ds).expect(rt, "memory");
    index.matching(verifier, key).is_some()
}

/// What is found of a key of this type and rdata is what is wanted, and a DS matches it where that is Secure.
fn finds(
    rt: &impl Abort,
    alloc: Global,
    record_type: RecordType,
    key: &[u8],
    ds: &[Record],
    want: &str,
) -> bool {
    let key = record(
        rt,
        alloc,
        "example.",
        record_type,
        key,
        Proof::Indeterminate,
    );
    let verifier = Counting::new();
    let matched = is_matched(rt, alloc, &verifier, &key, ds);
    let found = verify_dnskey(alloc, &verifier, &key, ds);
    is_key(rt, alloc, &found, want) && matched == (want == "Secure")
}

fn is_shown(rt: &impl Abort, alloc: Global, row: &Row) -> bool {
    let ds = ds_records(rt, alloc, row.3);
    finds(rt, alloc, row.1, row.2, &ds, row.4)
}

#[test]
fn keys_are_proved_by_ds_records(rt: HostRuntime) {
    for row in rows() {
        check_row(&rt, row.0, is_shown(&rt, rt.alloc(), row));
    }
}

#[test]
fn a_key_is_matched_behind_70_000_ds_records(rt: HostRuntime) {
    let ds = many_and_one(&rt, rt.alloc(), RecordType::DS, DS_BESIDE, DS);
    let matched = finds(&rt, rt.alloc(), DNSKEY, KEY, &ds, "Secure");
    check_row(&rt, "the last DS matches", matched);
}

// The example of `verify_dnskey`, word for word.
fn mark_of_key<V: Verifier>(alloc: Global, verifier: &V, key: &Record, ds: &[Record]) -> Proof {
    match verify_dnskey(alloc, verifier, key, ds) {
        Ok(proof) => proof,
        Err(error) => error.proof,
    }
}

/// The mark of this key of `example.` by one DS.
fn mark_by_ds(rt: &impl Abort, alloc: Global, key: &[u8]) -> Proof {
    let key = record(rt, alloc, "example.", DNSKEY, key, Proof::Indeterminate);
    let ds = ds_records(rt, alloc, &[("example.", DS)]);
    mark_of_key(alloc, &Counting::new(), &key, &ds)
}

#[test]
fn the_example_of_a_key_gives_its_mark(rt: HostRuntime) {
    let alloc = rt.alloc();
    let matched = mark_by_ds(&rt, alloc, KEY);
    check_row(&rt, "the key of the DS", matched == Proof::Secure);
    let other = mark_by_ds(&rt, alloc, OTHER_KEY);
    check_row(&rt, "another key", other == Proof::Bogus);
    let unsupported = mark_by_ds(&rt, alloc, UNSUPPORTED_KEY);
    check_row(
        &rt,
        "a key of another algorithm",
        unsupported == Proof::Insecure,
    );
}
