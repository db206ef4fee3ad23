//! What tests share: the assertion on a row, and keys, records, sets and anchors.

use dns_model::Proof;
use dns_record::{DNSClass, Name, Octets, Rdata, Record, RecordSet, RecordType};
use dns_trust::TrustAnchors;
use std::alloc::Global;
use std::process::Abort;

/// A key of algorithm 13 and tag 44745.
pub(crate) const KEY: &[u8] = b"\x01\x01\x03\x0d\xaa\xbb";

/// Other keys of that algorithm and tag; the flags of the last say that it is no zone key.
pub(crate) const OTHER_KEY: &[u8] = b"\x01\x01\x03\x0d\xaa\xba\x00\x01";

pub(crate) const THIRD_KEY: &[u8] = b"\x01\x01\x03\x0d\xaa\xb9\x00\x02";

pub(crate) const HOST_KEY: &[u8] = b"\x00\x01\x03\x0d\xaa\xbb\x01\x00";

/// A key of another tag, and `KEY` with the revoke flag, whose tag is 44873.
pub(crate) const KEY_BESIDE: &[u8] = b"\x01\x01\x03\x0d\xcc\xdd";

pub(crate) const REVOKED_KEY: &[u8] = b"\x01\x81\x03\x0d\xaa\xbb";

/// A key of algorithm 14 and tag 44746.
pub(crate) const UNSUPPORTED_KEY: &[u8] = b"\x01\x01\x03\x0e\xaa\xbb";

/// A DS for `KEY` as one of `example.`: SHA-256 of the owner and the rdata.
pub(crate) const DS: &[u8] =
    b"\xae\xc9\x0d\x02\x9a\x77\x11\x39\x8c\xf8\x9c\x6f\xea\x84\x51\x53\x8e\x1c\x60\x5c\xa3\x4a\xde\xd7\x74\x2c\x28\xee\x51\x44\xd5\xbb\xeb\x46\xff\x29";

/// DS records of that algorithm and tag that match nothing; the second is of an unsupported digest type.
pub(crate) const MISS: &[u8] = b"\xae\xc9\x0d\x02\x00";

pub(crate) const UNSUPPORTED_DS: &[u8] = b"\xae\xc9\x0d\x03\x00";

/// Signatures from second 1000 to second 2000, of original ttl 600, over the NS set and the key set of `example.`, as
/// `KEY` makes them; and one over the NS set that no key made.
pub(crate) const OVER_NS: &[u8] =
    b"\0\x02\x0d\x01\0\0\x02\x58\0\0\x07\xd0\0\0\x03\xe8\xae\xc9\x07example\0\xaa\xbb";

pub(crate) const OVER_KEYS: &[u8] =
    b"\0\x30\x0d\x01\0\0\x02\x58\0\0\x07\xd0\0\0\x03\xe8\xae\xc9\x07example\0\xaa\xbb";

pub(crate) const REFUSED: &[u8] =
    b"\0\x02\x0d\x01\0\0\x02\x58\0\0\x07\xd0\0\0\x03\xe8\xae\xc9\x07example\0\xcd";

/// What was tried on a row held; the message names the row.
pub(crate) fn check_row(rt: &impl Abort, row: &str, held: bool) {
    assert!(rt; held, "{row}");
}

/// The name of this text.
pub(crate) fn name_of(rt: &impl Abort, alloc: Global, text: &str) -> Name {
    Name::from_ascii(alloc, text).expect(rt, "a name")
}

/// The rdata of these bytes. A row that is too long ends its test.
pub(crate) fn rdata_of(rt: &impl Abort, alloc: Global, bytes: &[u8]) -> Rdata {
    if bytes.len() > 65535 {
        rt.panic("a long rdata");
    }
    Rdata::from_slice(alloc, bytes).expect(rt, "memory")
}

/// A record of ttl 3600 with a mark.
pub(crate) fn record(
    rt: &impl Abort,
    alloc: Global,
    owner: &str,
    record_type: RecordType,
    rdata: &[u8],
    proof: Proof,
) -> Record {
    Record {
        name: name_of(rt, alloc, owner),
        record_type,
        dns_class: DNSClass::IN,
        ttl: 3600,
        rdata: rdata_of(rt, alloc, rdata),
        proof,
    }
}

/// Records of one owner and type, each with its mark.
pub(crate) fn marked_records(
    rt: &impl Abort,
    alloc: Global,
    owner: &str,
    record_type: RecordType,
    rows: &[(&[u8], Proof)],
) -> Vec<Record> {
    let mut records = Vec::new(alloc);
    for row in rows {
        let next = record(rt, alloc, owner, record_type, row.0, row.1);
        records.push(next).expect(rt, "memory");
    }
    records
}

/// The same without a mark.
pub(crate) fn records_of(
    rt: &impl Abort,
    alloc: Global,
    owner: &str,
    record_type: RecordType,
    rdatas: &[&[u8]],
) -> Vec<Record> {
    let mut records = Vec::new(alloc);
    for rdata in rdatas {
        let next = record(rt, alloc, owner, record_type, rdata, Proof::Indeterminate);
        records.push(next).expect(rt, "memory");
    }
    records
}

/// A set of class IN with signatures.
pub(crate) fn set_of(
    rt: &impl Abort,
    alloc: Global,
    owner: &str,
    record_type: RecordType,
    rdatas: &[&[u8]],
    signatures: &[&[u8]],
) -> RecordSet {
    RecordSet {
        name: name_of(rt, alloc, owner),
        record_type,
        dns_class: DNSClass::IN,
        records: records_of(rt, alloc, owner, record_type, rdatas),
        rrsigs: records_of(rt, alloc, owner, RecordType::RRSIG, signatures),
    }
}

/// So many records of `example.` more, each of this rdata and Secure.
pub(crate) fn fill(
    rt: &impl Abort,
    alloc: Global,
    records: &mut Vec<Record>,
    record_type: RecordType,
    rdata: &[u8],
    number: usize,
) {
    let one = record(rt, alloc, "example.", record_type, rdata, Proof::Secure);
    for _ in 0..number {
        let next = one.try_clone().expect(rt, "memory");
        records.push(next).expect(rt, "memory");
    }
}

/// Trusts a key of this owner; whether it is new.
pub(crate) fn trust(
    rt: &impl Abort,
    alloc: Global,
    anchors: &mut TrustAnchors,
    owner: &str,
    key: &[u8],
) -> bool {
    let key = Octets::from_slice(alloc, key).expect(rt, "memory");
    let trusted = anchors.insert_with_name(name_of(rt, alloc, owner), 13, key);
    trusted.expect(rt, "memory")
}

/// More than 16 bits count.
pub(crate) const MANY: usize = 70_000;

/// So many records of one rdata, and one of another behind them.
pub(crate) fn many_and_one(
    rt: &impl Abort,
    alloc: Global,
    record_type: RecordType,
    rdata: &[u8],
    last: &[u8],
) -> Vec<Record> {
    let mut records = Vec::new(alloc);
    fill(rt, alloc, &mut records, record_type, rdata, MANY);
    fill(rt, alloc, &mut records, record_type, last, 1);
    records
}
