//! What the tests share: records, sets, and the assertion on a row.
use dns_model::Proof;
use dns_record::{DNSClass, Name, Rdata, Record, RecordSet, RecordType};
use std::alloc::Global;
use std::process::Abort;

/// What was tried on a row held; the message names the row.
pub(crate) fn check(rt: &impl Abort, row: &str, held: bool) {
    assert!(rt; held, "{row}");
}

/// Records of one name, type, class and ttl: their rdatas, each fewer than 65,536 bytes, and how often each comes.
#[derive(Drop)]
pub(crate) struct Given {
    pub(crate) owner: &'static str,
    pub(crate) record_type: u16,
    pub(crate) class: u16,
    pub(crate) ttl: u32,
    pub(crate) rdatas: &'static [&'static [u8]],
    pub(crate) copies: u32,
}

/// The address 192.0.2.1 of `a.`.
pub(crate) const ADDRESS: Given = Given {
    owner: "a.",
    record_type: 1,
    class: 1,
    ttl: 60,
    rdatas: &[b"\xc0\0\x02\x01"],
    copies: 1,
};

/// The SOA of `.` with serial 3, whose server is `a.`.
pub(crate) const SOA: Given = Given {
    owner: ".",
    record_type: 6,
    class: 1,
    ttl: 300,
    rdatas: &[b"\x01a\0\0\0\0\0\x03\0\0\0\0\0\0\0\0\0\0\0\0\0\0\0\0"],
    copies: 1,
};

pub(crate) fn name(rt: &impl Abort, alloc: Global, text: &str) -> Name {
    Name::from_ascii(alloc, text).expect(rt, "a name")
}

fn record(rt: &impl Abort, alloc: Global, given: &Given, bytes: &[u8]) -> Record {
    let few = if bytes.len() < 65_536 { bytes } else { b"" };
    Record {
        name: name(rt, alloc, given.owner),
        record_type: RecordType(given.record_type),
        dns_class: DNSClass(given.class),
        ttl: given.ttl,
        rdata: Rdata::from_slice(alloc, few).expect(rt, "memory"),
        proof: Proof::Secure,
    }
}

/// The first of the records.
pub(crate) fn first(rt: &impl Abort, alloc: Global, given: &Given) -> Record {
    match given.rdatas {
        [] => record(rt, alloc, given, b""),
        [bytes, ..] => record(rt, alloc, given, bytes),
    }
}

/// Puts so many copies of a record behind the others.
fn push_copies(rt: &impl Abort, records: &mut Vec<Record>, record: &Record, count: u32) {
    for _copy in 0..count {
        let next = record.try_clone().expect(rt, "memory");
        records.push(next).expect(rt, "memory");
    }
}

/// The set of the records, with a signature that no message has.
pub(crate) fn set(rt: &impl Abort, alloc: Global, given: &Given) -> RecordSet {
    let mut records = Vec::new(alloc);
    for bytes in given.rdatas {
        let next = record(rt, alloc, given, bytes);
        push_copies(rt, &mut records, &next, given.copies);
    }
    let mut rrsigs = Vec::new(alloc);
    let signature = record(rt, alloc, given, b"signature");
    rrsigs.push(signature).expect(rt, "memory");
    RecordSet {
        name: name(rt, alloc, given.owner),
        record_type: RecordType(given.record_type),
        dns_class: DNSClass(given.class),
        records,
        rrsigs,
    }
}

/// Whether bytes are these hexadecimal digits.
pub(crate) fn are_digits(rt: &impl Abort, alloc: Global, bytes: &[u8], digits: &str) -> bool {
    let written = hex::encode(alloc, bytes).expect(rt, "memory");
    written.as_str() == digits
}
