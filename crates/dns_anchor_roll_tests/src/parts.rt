//! What tests share: the assertion on a row; keys, signatures, sets and sightings of the root.

use dns_anchor_roll::{AnchorRoll, Sighting};
use dns_evidence::Verifier;
use dns_model::Proof;
use dns_rdata::{Dnskey, key_tag};
use dns_record::{DNSClass, Name, Rdata, Record, RecordSet, RecordType};
use dns_trust::TrustAnchors;
use std::alloc::Global;
use std::process::Abort;

/// Keys of algorithm 13, each with another public key.
pub(crate) const K: &[u8] = b"\x01\x01\x03\x0d\xaa\xbb";

pub(crate) const N: &[u8] = b"\x01\x01\x03\x0d\xcc\xdd";

pub(crate) const P: &[u8] = b"\x01\x01\x03\x0d\xee\xff";

/// The first two with the flag REVOKE.
pub(crate) const K_REVOKED: &[u8] = b"\x01\x81\x03\x0d\xaa\xbb";

pub(crate) const N_REVOKED: &[u8] = b"\x01\x81\x03\x0d\xcc\xdd";

pub(crate) const P_REVOKED: &[u8] = b"\x01\x81\x03\x0d\xee\xff";

/// Without the flag of an entry point.
pub(crate) const K_PLAIN: &[u8] = b"\x01\x00\x03\x0d\xaa\xbb";

pub(crate) const N_PLAIN: &[u8] = b"\x01\x00\x03\x0d\xcc\xdd";

/// Seconds of a hold-down.
pub(crate) const D: u64 = 2_592_000;

/// What was tried on a row held; the message names the row.
pub(crate) fn check_row(rt: &impl Abort, row: &str, held: bool) {
    assert!(rt; held, "{row}");
}

/// The rdata of these bytes. A row that is too long ends its test.
pub(crate) fn rdata_of(rt: &impl Abort, alloc: Global, bytes: &[u8]) -> Rdata {
    if bytes.len() > 65535 {
        rt.panic("a long rdata");
    }
    Rdata::from_slice(alloc, bytes).expect(rt, "memory")
}

/// Some rdatas.
pub(crate) fn rdatas_of(rt: &impl Abort, alloc: Global, all: &[&[u8]]) -> Vec<Rdata> {
    let mut rdatas = Vec::new(alloc);
    for bytes in all {
        let rdata = rdata_of(rt, alloc, bytes);
        rdatas.push(rdata).expect(rt, "memory");
    }
    rdatas
}

/// A record of the root.
pub(crate) fn record(
    rt: &impl Abort,
    alloc: Global,
    record_type: RecordType,
    rdata: &[u8],
) -> Record {
    Record {
        name: Name::root(alloc).expect(rt, "memory"),
        record_type,
        dns_class: DNSClass::IN,
        ttl: 60,
        rdata: rdata_of(rt, alloc, rdata),
        proof: Proof::Indeterminate,
    }
}

/// Records of the root.
pub(crate) fn records_of(
    rt: &impl Abort,
    alloc: Global,
    record_type: RecordType,
    rdatas: &[&[u8]],
) -> Vec<Record> {
    let mut records = Vec::new(alloc);
    for rdata in rdatas {
        let next = record(rt, alloc, record_type, rdata);
        records.push(next).expect(rt, "memory");
    }
    records
}

/// A signature of the root's key set by a key, of this original ttl, good from 1970 to 2038: the public key stands for it.
pub(crate) fn signature_by(rt: &impl Abort, alloc: Global, key: &[u8], ttl: u32) -> Record {
    let mut rdata = Vec::from_slice(alloc, b"\0\x30\x0d\0").expect(rt, "memory");
    rdata
        .extend_from_slice(&ttl.to_be_bytes())
        .expect(rt, "memory");
    rdata
        .extend_from_slice(b"\x7f\xff\xff\xff\0\0\0\0")
        .expect(rt, "memory");
    let tag = key_tag(key).unwrap_or(0);
    rdata
        .extend_from_slice(&tag.to_be_bytes())
        .expect(rt, "memory");
    rdata.push(0).expect(rt, "memory");
    if let Some(read) = Dnskey::read(key) {
        rdata.extend_from_slice(read.key).expect(rt, "memory");
    }
    record(rt, alloc, RecordType::RRSIG, &rdata)
}

/// A sighting of keys of the root, with a signature by each of some keys.
pub(crate) fn sighting(
    rt: &impl Abort,
    alloc: Global,
    moment: u64,
    keys: &[&[u8]],
    signers: &[(&[u8], u32)],
) -> Sighting {
    let mut rrsigs = Vec::new(alloc);
    for signer in signers {
        let next = signature_by(rt, alloc, signer.0, signer.1);
        rrsigs.push(next).expect(rt, "memory");
    }
    let set = RecordSet {
        name: Name::root(alloc).expect(rt, "memory"),
        record_type: RecordType::DNSKEY,
        dns_class: DNSClass::IN,
        records: records_of(rt, alloc, RecordType::DNSKEY, keys),
        rrsigs,
    };
    Sighting { moment, set }
}

/// A roll of the root with these keys.
pub(crate) fn roll_of<V: Verifier + Drop>(
    rt: &impl Abort,
    alloc: Global,
    verifier: V,
    keys: &[&[u8]],
) -> AnchorRoll<V> {
    let root = Name::root(alloc).expect(rt, "memory");
    let keys = rdatas_of(rt, alloc, keys);
    AnchorRoll::new(alloc, verifier, root, keys).expect(rt, "memory")
}

/// The root's anchors are these keys and no others.
pub(crate) fn are_anchors(
    rt: &impl Abort,
    alloc: Global,
    anchors: &TrustAnchors,
    keys: &[&[u8]],
) -> bool {
    let root = Name::root(alloc).expect(rt, "memory");
    if anchors.len() != keys.len() {
        return false;
    }
    for key in keys {
        let Some(read) = Dnskey::read(key) else {
            return false;
        };
        if !anchors.contains_with_name(&root, read.algorithm, read.key) {
            return false;
        }
    }
    true
}
