use crate::rows::check_row;
use dns_evidence::PlacedSet;
use dns_message::Message;
use dns_model::{Proof, Section};
use dns_outcome::judged_part;
use dns_record::{DNSClass, Name, OpCode, Query, Rdata, Record, RecordType, ResponseCode};
use std::alloc::Global;
use std::process::Abort;

/// A record of class IN and ttl 300, which says that it is Secure, and the section that it stands in.
struct Met {
    section: Section,
    owner: &'static str,
    record_type: u16,
    rdata: &'static [u8],
}

const A: u16 = 1;

const SOA: u16 = 6;

const AAAA: u16 = 28;

const RRSIG: u16 = 46;

/// Signatures by the root over A, over a CNAME and so on, of original ttl 200, valid until second 1000.
const OVER_A: &[u8] = b"\0\x01\x08\x01\0\0\0\xc8\0\0\x03\xe8\0\0\0\0\0\x01\0\x01";

pub(crate) const OVER_CNAME: &[u8] = b"\0\x05\x08\x01\0\0\0\xc8\0\0\x03\xe8\0\0\0\0\0\x01\0\x01";

pub(crate) const OVER_EXPANDED: &[u8] = b"\0\x05\x08\0\0\0\0\xc8\0\0\x03\xe8\0\0\0\0\0\x01\0\x01";

const OVER_SOA: &[u8] = b"\0\x06\x08\0\0\0\0\xc8\0\0\x03\xe8\0\0\0\0\0\x01\0\x01";

const OVER_TXT: &[u8] = b"\0\x10\x08\x01\0\0\0\xc8\0\0\x03\xe8\0\0\0\0\0\x01\0\x01";

/// One that is too long fails its test.
fn rdata(rt: &impl Abort, alloc: Global, bytes: &[u8]) -> Rdata {
    if bytes.len() > 65535 {
        rt.panic("a long rdata");
    }
    Rdata::from_slice(alloc, bytes).expect(rt, "memory")
}

pub(crate) fn record(
    rt: &impl Abort,
    alloc: Global,
    owner: &str,
    record_type: RecordType,
    bytes: &[u8],
) -> Record {
    Record {
        name: Name::from_ascii(alloc, owner).expect(rt, "a name"),
        record_type,
        dns_class: DNSClass::IN,
        ttl: 300,
        rdata: rdata(rt, alloc, bytes),
        proof: Proof::Secure,
    }
}

pub(crate) fn push_record(
    rt: &impl Abort,
    alloc: Global,
    records: &mut Vec<Record>,
    owner: &str,
    record_type: RecordType,
    bytes: &[u8],
) {
    let next = record(rt, alloc, owner, record_type, bytes);
    records.push(next).expect(rt, "memory");
}

pub(crate) fn records_of(message: &mut Message, section: Section) -> &mut Vec<Record> {
    match section {
        Section::Answer => &mut message.answers,
        Section::Authority => &mut message.authorities,
        Section::Additional => &mut message.additionals,
    }
}

pub(crate) fn query(rt: &impl Abort, alloc: Global, owner: &str, record_type: RecordType) -> Query {
    Query {
        name: Name::from_ascii(alloc, owner).expect(rt, "a name"),
        query_type: record_type,
        query_class: DNSClass::IN,
    }
}

/// A message without records.
pub(crate) fn bare_message(rt: &impl Abort, alloc: Global) -> Message {
    let mut queries = Vec::new(alloc);
    let first = query(rt, alloc, "a.", RecordType::A);
    queries.push(first).expect(rt, "memory");
    message_of(queries, alloc)
}

pub(crate) fn message_of(queries: Vec<Query>, alloc: Global) -> Message {
    Message {
        id: 0,
        response: false,
        op_code: OpCode::QUERY,
        authoritative: false,
        truncated: false,
        recursion_desired: true,
        recursion_available: false,
        authentic_data: false,
        checking_disabled: false,
        response_code: ResponseCode::NO_ERROR,
        queries,
        answers: Vec::new(alloc),
        authorities: Vec::new(alloc),
        additionals: Vec::new(alloc),
        edns: None,
    }
}

/// A message of these records.
fn message(rt: &impl Abort, alloc: Global, all: &[Met]) -> Message {
    let mut message = bare_message(rt, alloc);
    for met in all {
        let records = records_of(&mut message, met.section);
        push_record(
            rt,
            alloc,
            records,
            met.owner,
            RecordType(met.record_type),
            met.rdata,
        );
    }
    message
}

/// A set that is wanted: its section and type, and how many records and signatures it has.
struct Grouped {
    section: Section,
    record_type: u16,
    records: usize,
    signatures: usize,
}

#[rattlefmt::skip]
const GROUPED: &[Grouped] = &[
    Grouped { section: Section::Answer, record_type: A, records: 2, signatures: 1 },
    Grouped { section: Section::Answer, record_type: AAAA, records: 1, signatures: 0 },
    Grouped { section: Section::Authority, record_type: A, records: 1, signatures: 0 },
    Grouped { section: Section::Authority, record_type: SOA, records: 1, signatures: 0 },
];

/// The sets that are judged below the top, here the SOA record's alone.
const GROUPED_BELOW: &[Grouped] = &[Grouped {
    section: Section::Authority,
    record_type: SOA,
    records: 1,
    signatures: 0,
}];

/// A signature before its set, a name in another case, a signature that can't be read, one that covers nothing, and one in
/// another section than what it covers.
#[rattlefmt::skip]
const MET: &[Met] = &[
    Met { section: Section::Answer, owner: "A.", record_type: RRSIG, rdata: OVER_A },
    Met { section: Section::Answer, owner: "a.", record_type: A, rdata: b"\x01\x01\x01\x01" },
    Met { section: Section::Answer, owner: "a.", record_type: AAAA, rdata: b"\x02" },
    Met { section: Section::Answer, owner: "A.", record_type: A, rdata: b"\x03\x03\x03\x03" },
    Met { section: Section::Answer, owner: "a.", record_type: RRSIG, rdata: b"\0\x1c" },
    Met { section: Section::Answer, owner: "a.", record_type: RRSIG, rdata: OVER_TXT },
    Met { section: Section::Authority, owner: "a.", record_type: A, rdata: b"\x04\x04\x04\x04" },
    Met { section: Section::Authority, owner: ".", record_type: SOA, rdata: b"\x05" },
    Met { section: Section::Additional, owner: ".", record_type: RRSIG, rdata: OVER_SOA },
];

fn met_rows() -> &'static [Met] {
    MET
}

fn grouped_at_top() -> &'static [Grouped] {
    GROUPED
}

fn is_grouped(placed: &PlacedSet, want: &Grouped) -> bool {
    placed.section == want.section
        && placed.set.record_type.0 == want.record_type
        && placed.set.records.len() == want.records
        && placed.set.rrsigs.len() == want.signatures
}

fn are_grouped(placed: &[PlacedSet], want: &[Grouped]) -> bool {
    for (placed, want) in placed.iter().zip(want.iter()) {
        if !is_grouped(placed, want) {
            return false;
        }
    }
    placed.len() == want.len()
}

/// The records make these sets at a depth.
fn makes(rt: &impl Abort, alloc: Global, depth: u16, want: &[Grouped]) -> bool {
    let message = message(rt, alloc, met_rows());
    let placed = judged_part(alloc, depth, &message).expect(rt, "memory");
    are_grouped(&placed, want)
}

#[test]
fn records_are_grouped_into_sets(rt: HostRuntime) {
    let at_top = makes(&rt, rt.alloc(), 0, grouped_at_top());
    check_row(&rt, "at the top", at_top);
    let below = makes(&rt, rt.alloc(), 1, GROUPED_BELOW);
    check_row(&rt, "below it", below);
}
