//! Whether a signature fits a set, a key and a moment (RFC 4035, 5.3.1).

use crate::parts::*;
use dns_model::Proof;
use dns_record::{Record, RecordType};
use dns_trust::RrsigValidity;
use dns_trust::RrsigValidity::{ExpiredRrsig, ValidRrsig, WrongDnskey, WrongRrsig};
use std::alloc::Global;
use std::process::Abort;

/// The owner, the type and the rdata of a record.
struct Written(&'static str, RecordType, &'static [u8]);

/// What it shows; a signature over the NS set of the root, and a key; a moment; and what is found out of them.
struct Row(&'static str, Written, Written, u64, RrsigValidity);

const RRSIG: RecordType = RecordType::RRSIG;

const DNSKEY: RecordType = RecordType::DNSKEY;

const SIG: Written = Written(".", RRSIG, OVER_ROOT);

const ROOT_KEY: Written = Written(".", DNSKEY, KEY);

const REVOKED: Written = Written(".", DNSKEY, REVOKED_KEY);

/// A signature over the root's NS set by `KEY` from second 1000 to second 2000, the same by the revoked key, and one
/// over its keys.
const OVER_ROOT: &[u8] = b"\0\x02\x0d\0\0\0\x0e\x10\0\0\x07\xd0\0\0\x03\xe8\xae\xc9\0\xcc";

const BY_REVOKED: &[u8] = b"\0\x02\x0d\0\0\0\x0e\x10\0\0\x07\xd0\0\0\x03\xe8\xaf\x49\0\xcc";

const OVER_ROOT_KEYS: &[u8] = b"\0\x30\x0d\0\0\0\x0e\x10\0\0\x07\xd0\0\0\x03\xe8\xae\xc9\0\xdd";

/// Signatures like `OVER_ROOT`: from second 4294967290 to second 10, across 2^32; from second 0 to 2^31 and to the
/// second before; and of one label.
const ACROSS: Written = Written(
    ".",
    RRSIG,
    b"\0\x02\x0d\0\0\0\x0e\x10\0\0\0\x0a\xff\xff\xff\xfa\xae\xc9\0\xcc",
);

const APART: Written = Written(
    ".",
    RRSIG,
    b"\0\x02\x0d\0\0\0\x0e\x10\x80\0\0\0\0\0\0\0\xae\xc9\0\xcc",
);

const NEARLY_APART: Written = Written(
    ".",
    RRSIG,
    b"\0\x02\x0d\0\0\0\x0e\x10\x7f\xff\xff\xff\0\0\0\0\xae\xc9\0\xcc",
);

const OF_ONE_LABEL: Written = Written(
    ".",
    RRSIG,
    b"\0\x02\x0d\x01\0\0\x0e\x10\0\0\x07\xd0\0\0\x03\xe8\xae\xc9\0\xcc",
);

#[rattlefmt::skip]
const ROWS: &[Row] = &[
    Row("the first second", SIG, ROOT_KEY, 1000, ValidRrsig),
    Row("the last second", SIG, ROOT_KEY, 2000, ValidRrsig),
    Row("the second before", SIG, ROOT_KEY, 999, ExpiredRrsig),
    Row("the second behind", SIG, ROOT_KEY, 2001, ExpiredRrsig),
    Row("before 2^32 seconds", ACROSS, ROOT_KEY, 4_294_967_295, ValidRrsig),
    Row("behind 2^32 seconds", ACROSS, ROOT_KEY, 4_294_967_306, ValidRrsig),
    Row("too far behind 2^32 seconds", ACROSS, ROOT_KEY, 4_294_967_307, ExpiredRrsig),
    Row("numbers that lie 2^31 apart have no order", APART, ROOT_KEY, 0, ExpiredRrsig),
    Row("numbers that lie less apart have one", NEARLY_APART, ROOT_KEY, 0, ValidRrsig),
    Row("the root has no label", OF_ONE_LABEL, ROOT_KEY, 1500, WrongRrsig),
    Row("the first test that fails decides", OF_ONE_LABEL, ROOT_KEY, 2001, WrongRrsig),
    Row("the signature by its key", SIG, ROOT_KEY, 1500, ValidRrsig),
    Row("a revoked key", Written(".", RRSIG, BY_REVOKED), REVOKED, 1500, ValidRrsig),
    Row("a signature of another owner", Written("a.", RRSIG, OVER_ROOT), ROOT_KEY, 1500, WrongRrsig),
    Row("a signature over another type", Written(".", RRSIG, OVER_ROOT_KEYS), ROOT_KEY, 1500, WrongRrsig),
    Row("a key of another owner", SIG, Written("a.", DNSKEY, KEY), 1500, WrongDnskey),
    Row("a key of another tag", SIG, REVOKED, 1500, WrongDnskey),
    Row("no zone key", SIG, Written(".", DNSKEY, HOST_KEY), 1500, WrongDnskey),
    Row("TXT in place of the signature", Written(".", RecordType::TXT, OVER_ROOT), ROOT_KEY, 1500, WrongRrsig),
    Row("TXT in place of the key", SIG, Written(".", RecordType::TXT, KEY), 1500, WrongDnskey),
    Row("the signature is tested first", Written(".", DNSKEY, OVER_ROOT), Written(".", RRSIG, KEY), 1500, WrongRrsig),
];

fn rows() -> &'static [Row] {
    ROWS
}

fn record_of(rt: &impl Abort, alloc: Global, row: &Written) -> Record {
    record(rt, alloc, row.0, row.1, row.2, Proof::Indeterminate)
}

/// What is found out of a signature over the root's NS set and a key is what the row says.
fn fits(rt: &impl Abort, alloc: Global, row: &Row) -> bool {
    let sig = record_of(rt, alloc, &row.1);
    let key = record_of(rt, alloc, &row.2);
    let set = set_of(rt, alloc, ".", RecordType::NS, &[b"\x01a\0"], &[]);
    let found = RrsigValidity::check(&sig, &set, &key, row.3);
    found == row.4
}

#[test]
fn signatures_fit_their_set_and_key(rt: HostRuntime) {
    for row in rows() {
        check_row(&rt, row.0, fits(&rt, rt.alloc(), row));
    }
}
