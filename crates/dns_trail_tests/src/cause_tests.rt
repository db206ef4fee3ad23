//! The texts of causes, and copies of them.

use crate::parts::{check_row, name_of};
use dns_cache::{ProofError, ProofErrorKind};
use dns_handle::Notice;
use dns_model::Proof;
use dns_record::{DNSClass, Name, Query, RecordType};
use std::alloc::Global;
use std::fmt::{Debug, Display};
use std::process::Abort;

/// A cause, by its number in `cause`, and its text.
struct Row(usize, &'static str);

#[rattlefmt::skip]
const ROWS: &[Row] = &[
    Row(0, "rrsigs are not present for: example. record_type: NS"),
    Row(1, "communication failure for query: example. IN DS"),
    Row(2, "rrsigs were not able to be verified: example., type: NS"),
    Row(3, "no dnskey was found: example."),
    Row(4, "ds record exists, but no dnskey: example."),
    Row(5, "ds record should exist: example."),
    Row(6, "ds record does not exist: example."),
    Row(7, "unknown or reserved key algorithm"),
    Row(8, "internal error computing the key tag for: example."),
    Row(9, "unsupported key algorithms"),
    Row(10, "dnskey has no ds: example."),
    Row(11, "dnskey insecure: example., key_tag: 44745"),
    Row(12, "dnskey revoked: example., key_tag: 44745"),
    Row(13, "not a zone signing key: example. key_tag: 44745"),
    Row(14, "algorithm mismatch rrsig: 13 dnskey: 8"),
    Row(15, "ExpiredRrsig"),
    Row(16, "dnskey and rrset failed to verify: example. key_tag: 44745"),
    Row(17, "out of memory"),
];

/// The one function that names the table, since its proof goes over it.
fn rows() -> &'static [Row] {
    ROWS
}

/// Each cause by its number. Not each has the name.
fn cause(name: Name, number: usize) -> ProofErrorKind {
    let record_type = RecordType::NS;
    let key_tag = 44745;
    match number {
        0 => ProofErrorKind::RrsigsNotPresent { name, record_type },
        1 => ProofErrorKind::Net {
            query: Query {
                name,
                query_type: RecordType::DS,
                query_class: DNSClass::IN,
            },
        },
        2 => ProofErrorKind::RrsigsUnverified { name, record_type },
        3 => ProofErrorKind::DnskeyNotFound { name },
        4 => ProofErrorKind::DsRecordsButNoDnskey { name },
        5 => ProofErrorKind::DsRecordShouldExist { name },
        6 => ProofErrorKind::DsResponseInsecure { name },
        7 => ProofErrorKind::UnknownKeyAlgorithm,
        8 => ProofErrorKind::ErrorComputingKeyTag { name },
        9 => ProofErrorKind::UnsupportedKeyAlgorithm,
        10 => ProofErrorKind::DnsKeyHasNoDs { name },
        11 => ProofErrorKind::InsecureDnsKey { name, key_tag },
        12 => ProofErrorKind::DnsKeyRevoked { name, key_tag },
        13 => ProofErrorKind::NotZoneDnsKey { name, key_tag },
        14 => ProofErrorKind::AlgorithmMismatch {
            rrsig: 13,
            dnskey: 8,
        },
        15 => ProofErrorKind::Msg(Notice::ExpiredRrsig),
        16 => ProofErrorKind::DnsKeyVerifyRrsig { name, key_tag },
        _ => ProofErrorKind::NoMemory,
    }
}

/// A cause, or an error behind its mark, reads so.
fn reads<D: Display>(rt: &impl Abort, alloc: Global, shown: &D, mark: &str, want: &str) -> bool {
    let text = format!(in alloc; "{shown}").expect(rt, "memory");
    text.as_str().strip_prefix(mark) == Some(want)
}

/// So it does for a programmer.
fn debugs<D: Debug>(rt: &impl Abort, alloc: Global, shown: &D, mark: &str, want: &str) -> bool {
    let text = format!(in alloc; "{shown:?}").expect(rt, "memory");
    text.as_str().strip_prefix(mark) == Some(want)
}

/// A copy of a Bogus error with the row's cause reads so, and a copy of its cause alone.
fn is_told_so(rt: &impl Abort, alloc: Global, row: &Row) -> bool {
    let name = name_of(rt, alloc, "example.");
    let error = ProofError::new(Proof::Bogus, cause(name, row.0));
    let kind = error.kind().try_clone().expect(rt, "memory");
    let copy = error.try_clone().expect(rt, "memory");
    // The copy stands by itself.
    drop(error);
    reads(rt, alloc, &kind, "", row.1)
        && reads(rt, alloc, &copy, "Bogus: ", row.1)
        && debugs(rt, alloc, &kind, "", row.1)
        && debugs(rt, alloc, &copy, "Bogus: ", row.1)
}

#[test]
fn each_cause_has_its_text(rt: HostRuntime) {
    for row in rows() {
        check_row(&rt, row.1, is_told_so(&rt, rt.alloc(), row));
    }
}

/// The text of the longest name: 127 labels.
const LONGEST: &str =
    "a.a.a.a.a.a.a.a.a.a.a.a.a.a.a.a.a.a.a.a.a.a.a.a.a.a.a.a.a.a.a.a.a.a.a.a.a.a.a.a.a.a.a.a.a.a.a.a.a.a.a.a.a.a.a.a.a.a.a.a.a.a.a.a.a.a.a.a.a.a.a.a.a.a.a.a.a.a.a.a.a.a.a.a.a.a.a.a.a.a.a.a.a.a.a.a.a.a.a.a.a.a.a.a.a.a.a.a.a.a.a.a.a.a.a.a.a.a.a.a.a.a.a.a.a.a.a.";

/// The cause is that a DS should exist, at the longest name.
fn is_long(kind: &ProofErrorKind) -> bool {
    match kind {
        ProofErrorKind::DsRecordShouldExist { name } => name.wire().len() == 255,
        _ => false,
    }
}

fn is_copied(rt: &impl Abort, alloc: Global) -> bool {
    let error = ProofError::ds_should_exist(name_of(rt, alloc, LONGEST));
    let kind = error.kind().try_clone().expect(rt, "memory");
    let copy = error.try_clone().expect(rt, "memory");
    // The copy stands by itself.
    drop(error);
    is_long(&kind) && is_long(copy.kind()) && copy.proof == Proof::Bogus
}

#[test]
fn a_cause_with_the_longest_name_is_copied(rt: HostRuntime) {
    check_row(&rt, "with its error, and alone", is_copied(&rt, rt.alloc()));
}
