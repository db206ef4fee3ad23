//! The DS verdicts of a zone, by answers and by asks that failed (RFC 4035, 5.2; RFC 5155, 8.9).

use crate::counting::Counting;
use crate::parts::*;
use crate::wanted::reads;
use dns_evidence::Trail;
use dns_handle::{DnsResponse, NetError, NoRecords};
use dns_marks::{DnsAnswer, ZoneVerdict, ds_verdict};
use dns_message::Message;
use dns_model::Proof::{Bogus, Insecure, Secure};
use dns_model::Section::{Additional, Answer, Authority};
use dns_model::{Denial, Proof, Section};
use dns_record::{DNSClass, NoMemory, OpCode, Query, Record, RecordType, ResponseCode};
use std::alloc::Global;
use std::process::Abort;

/// A record of a response: its class, section, owner, type, rdata and mark.
struct Told(
    DNSClass,
    Section,
    &'static str,
    RecordType,
    &'static [u8],
    Proof,
);

/// A verdict, by the number of its DS records or the text of its cause, or running out of memory.
enum Want {
    Signed(usize),
    Insecure(&'static str),
    Bogus(&'static str),
    NoMemory,
}

/// What it shows, the records of a response, the class that is asked, and the verdict on `EXAMPLE.`.
struct Row(&'static str, &'static [Told], DNSClass, Want);

const IN: DNSClass = DNSClass::IN;

const CH: DNSClass = DNSClass::CH;

const DS_TYPE: RecordType = RecordType::DS;

const NSEC: RecordType = RecordType::NSEC;

const NSEC3: RecordType = RecordType::NSEC3;

const SHOULD_EXIST: Want = Want::Bogus("ds record should exist: EXAMPLE.");

const NO_DS: Want = Want::Insecure("ds record does not exist: EXAMPLE.");

const UNANSWERED: Want = Want::Bogus("communication failure for query: EXAMPLE. IN DS");

const UNREADABLE: &[u8] = b"\xae";

const ADDRESS: &[u8] = b"\xc0\0\x02\x01";

/// NSEC records that lead to the root: of NS, RRSIG and NSEC; of these and DS; of these and SOA; of A, RRSIG and NSEC.
const CUT: &[u8] = b"\0\0\x06\x20\0\0\0\0\x03";

const SIGNED_CUT: &[u8] = b"\0\0\x06\x20\0\0\0\0\x13";

const APEX: &[u8] = b"\0\0\x06\x22\0\0\0\0\x03";

const HOST: &[u8] = b"\0\0\x06\x40\0\0\0\0\x03";

/// Owners of NSEC3 records of the root zone: the hashes of `example.` and of the root, without salt and further
/// iterations.
const HASH: &str = "3msev9usmd4br9s97v51r2tdvmr9iqo1.";

const ROOT_HASH: &str = "bekjp7dgpvsjukll47bk43i3urmq4u2f.";

/// The first of them in the zone itself.
const OWN_HASH: &str = "3msev9usmd4br9s97v51r2tdvmr9iqo1.example.";

/// NSEC3 records of `HASH`, the next hash of which is that of the root: of NS; of NS and DS; of NS and SOA; of A.
const HASHED_CUT: &[u8] =
    b"\x01\0\0\0\0\x14\x5b\xa9\x3c\x9d\xb0\xcf\xf9\x3f\x52\xb5\x21\xd7\x42\x0e\x43\xf6\xed\xa2\x78\x4f\0\x01\x20";

const HASHED_SIGNED: &[u8] =
    b"\x01\0\0\0\0\x14\x5b\xa9\x3c\x9d\xb0\xcf\xf9\x3f\x52\xb5\x21\xd7\x42\x0e\x43\xf6\xed\xa2\x78\x4f\0\x06\x20\0\0\0\0\x10";

const HASHED_APEX: &[u8] =
    b"\x01\0\0\0\0\x14\x5b\xa9\x3c\x9d\xb0\xcf\xf9\x3f\x52\xb5\x21\xd7\x42\x0e\x43\xf6\xed\xa2\x78\x4f\0\x01\x22";

const HASHED_HOST: &[u8] =
    b"\x01\0\0\0\0\x14\x5b\xa9\x3c\x9d\xb0\xcf\xf9\x3f\x52\xb5\x21\xd7\x42\x0e\x43\xf6\xed\xa2\x78\x4f\0\x01\x40";

/// The one NSEC3 record of a root zone, so that its span has every other hash: with opt-out, and without.
const OPT_OUT: &[u8] =
    b"\x01\x01\0\0\0\x14\x5b\xa9\x3c\x9d\xb0\xcf\xf9\x3f\x52\xb5\x21\xd7\x42\x0e\x43\xf6\xed\xa2\x78\x4f\0\x01\x22";

const NO_OPT_OUT: &[u8] =
    b"\x01\0\0\0\0\x14\x5b\xa9\x3c\x9d\xb0\xcf\xf9\x3f\x52\xb5\x21\xd7\x42\x0e\x43\xf6\xed\xa2\x78\x4f\0\x01\x22";

const GOOD_DS: Told = Told(IN, Answer, "example.", DS_TYPE, DS, Secure);

const BOGUS_DS: Told = Told(IN, Answer, "example.", DS_TYPE, DS, Bogus);

const UNREADABLE_DS: Told = Told(IN, Answer, "example.", DS_TYPE, UNREADABLE, Secure);

const OTHER_DIGEST: Told = Told(IN, Answer, "example.", DS_TYPE, UNSUPPORTED_DS, Secure);

const GOOD_CUT: Told = Told(IN, Authority, "example.", NSEC, CUT, Secure);

const GOOD_HASH: Told = Told(IN, Authority, HASH, NSEC3, HASHED_CUT, Secure);

#[rattlefmt::skip]
const ROWS: &[Row] = &[
    Row("a Secure DS", &[GOOD_DS], IN, Want::Signed(1)),
    Row("the supported ones of a Secure set",
        &[OTHER_DIGEST, GOOD_DS, Told(IN, Answer, "example.", DS_TYPE, MISS, Secure)], IN, Want::Signed(2)),
    Row("none of them is supported", &[OTHER_DIGEST, UNREADABLE_DS], IN,
        Want::Insecure("unknown or reserved key algorithm")),
    Row("none of them can be read", &[UNREADABLE_DS], IN, SHOULD_EXIST),
    Row("no DS", &[], IN, SHOULD_EXIST),
    Row("a DS of another owner", &[Told(IN, Answer, "other.", DS_TYPE, DS, Secure)], IN, SHOULD_EXIST),
    Row("one of another owner beside one of the zone", &[Told(IN, Answer, "other.", DS_TYPE, DS, Bogus), GOOD_DS], IN,
        Want::Signed(1)),
    Row("a DS that isn't Secure", &[Told(IN, Answer, "example.", DS_TYPE, DS, Insecure)], IN, SHOULD_EXIST),
    Row("one that isn't Secure beside a Secure one",
        &[GOOD_DS, Told(IN, Answer, "example.", DS_TYPE, MISS, Bogus)], IN, SHOULD_EXIST),
    Row("another class", &[GOOD_DS], CH, SHOULD_EXIST),
    Row("a DS of another section is none", &[Told(IN, Authority, "example.", DS_TYPE, DS, Secure)], IN, SHOULD_EXIST),
    Row("an NSEC of a delegation without DS", &[GOOD_CUT], IN, NO_DS),
    Row("it lists DS", &[Told(IN, Authority, "example.", NSEC, SIGNED_CUT, Secure)], IN, SHOULD_EXIST),
    Row("it lists SOA, so the zone itself made it", &[Told(IN, Authority, "example.", NSEC, APEX, Secure)], IN,
        SHOULD_EXIST),
    Row("it lists no NS", &[Told(IN, Authority, "example.", NSEC, HOST, Secure)], IN, SHOULD_EXIST),
    Row("it isn't Secure", &[Told(IN, Authority, "example.", NSEC, CUT, Bogus)], IN, SHOULD_EXIST),
    Row("one of its set is not", &[GOOD_CUT, Told(IN, Authority, "example.", NSEC, HOST, Bogus)], IN, SHOULD_EXIST),
    Row("it is of another owner", &[Told(IN, Authority, "a.example.", NSEC, CUT, Secure)], IN, SHOULD_EXIST),
    Row("it stands in the answer section", &[Told(IN, Answer, "example.", NSEC, CUT, Secure)], IN, SHOULD_EXIST),
    Row("it stands beside a DS", &[BOGUS_DS, GOOD_CUT], IN, SHOULD_EXIST),
    Row("an NSEC3 of a delegation without DS", &[GOOD_HASH], IN, NO_DS),
    Row("an NSEC3 that lists DS", &[Told(IN, Authority, HASH, NSEC3, HASHED_SIGNED, Secure)], IN, SHOULD_EXIST),
    Row("one that lists SOA, so the zone itself made it", &[Told(IN, Authority, HASH, NSEC3, HASHED_APEX, Secure)], IN,
        SHOULD_EXIST),
    Row("one that lists no NS", &[Told(IN, Authority, HASH, NSEC3, HASHED_HOST, Secure)], IN, SHOULD_EXIST),
    Row("an NSEC3 that isn't Secure", &[Told(IN, Authority, HASH, NSEC3, HASHED_CUT, Bogus)], IN, SHOULD_EXIST),
    Row("one record of an NSEC3 set is not", &[GOOD_HASH, Told(IN, Authority, HASH, NSEC3, HASHED_HOST, Bogus)], IN,
        SHOULD_EXIST),
    Row("a set that isn't Secure beside a Secure one",
        &[GOOD_HASH, Told(IN, Authority, ROOT_HASH, NSEC3, NO_OPT_OUT, Bogus)], IN, NO_DS),
    Row("an NSEC3 of the answer section", &[Told(IN, Answer, HASH, NSEC3, HASHED_CUT, Secure)], IN, SHOULD_EXIST),
    Row("an NSEC3 of the hash of another name", &[Told(IN, Authority, ROOT_HASH, NSEC3, HASHED_CUT, Secure)], IN,
        SHOULD_EXIST),
    Row("a span with opt-out over the zone", &[Told(IN, Authority, ROOT_HASH, NSEC3, OPT_OUT, Secure)], IN, NO_DS),
    Row("one without opt-out", &[Told(IN, Authority, ROOT_HASH, NSEC3, NO_OPT_OUT, Secure)], IN, SHOULD_EXIST),
    Row("an NSEC3 of the zone itself", &[Told(IN, Authority, OWN_HASH, NSEC3, HASHED_CUT, Secure)], IN, SHOULD_EXIST),
    Row("an Insecure record of the zone", &[Told(IN, Additional, "example.", RecordType::A, ADDRESS, Insecure)], IN,
        NO_DS),
    Row("one above it", &[Told(IN, Answer, ".", RecordType::A, ADDRESS, Insecure)], IN, NO_DS),
    Row("one below it", &[Told(IN, Answer, "a.example.", RecordType::A, ADDRESS, Insecure)], IN, SHOULD_EXIST),
    Row("a signature that is Insecure", &[Told(IN, Authority, "example.", RecordType::RRSIG, OVER_NS, Insecure)], IN,
        NO_DS),
    Row("one record of a set that is not",
        &[Told(IN, Answer, "example.", RecordType::A, ADDRESS, Bogus), Told(IN, Answer, "example.", RecordType::A,
        ADDRESS, Insecure)],
        IN, NO_DS),
    Row("a DS that isn't Secure decides before it",
        &[BOGUS_DS, Told(IN, Additional, ".", RecordType::A, ADDRESS, Insecure)], IN, SHOULD_EXIST),
    Row("a DS of another class before one of this", &[Told(CH, Answer, "example.", DS_TYPE, DS, Secure), GOOD_DS], IN,
        Want::Signed(1)),
    Row("one that isn't Secure behind it", &[GOOD_DS, Told(CH, Answer, "example.", DS_TYPE, DS, Bogus)], IN,
        Want::Signed(1)),
    Row("no DS, and an NSEC of another class", &[Told(CH, Authority, "example.", NSEC, CUT, Secure)], IN, SHOULD_EXIST),
    Row("one that isn't Secure beside one of this class",
        &[Told(CH, Authority, "example.", NSEC, HOST, Bogus), GOOD_CUT], IN, NO_DS),
    Row("a DS of another class alone is none", &[Told(CH, Answer, "example.", DS_TYPE, DS, Bogus), GOOD_CUT], IN,
        NO_DS),
    Row("an NSEC3 of another class", &[Told(CH, Authority, HASH, NSEC3, HASHED_CUT, Secure)], IN, SHOULD_EXIST),
    Row("one that isn't Secure beside an NSEC3 of this class",
        &[Told(CH, Authority, HASH, NSEC3, HASHED_HOST, Bogus), GOOD_HASH], IN, NO_DS),
    Row("an Insecure record of another class", &[Told(CH, Additional, "example.", RecordType::A, ADDRESS, Insecure)],
        IN, SHOULD_EXIST),
];

fn rows() -> &'static [Row] {
    ROWS
}

fn empty_message(alloc: Global) -> Message {
    Message {
        id: 0,
        response: true,
        op_code: OpCode(0),
        authoritative: false,
        truncated: false,
        recursion_desired: false,
        recursion_available: false,
        authentic_data: false,
        checking_disabled: false,
        response_code: ResponseCode(0),
        queries: Vec::new(alloc),
        answers: Vec::new(alloc),
        authorities: Vec::new(alloc),
        additionals: Vec::new(alloc),
        edns: None,
    }
}

fn section_of(message: &mut Message, section: Section) -> &mut Vec<Record> {
    match section {
        Section::Answer => &mut message.answers,
        Section::Authority => &mut message.authorities,
        Section::Additional => &mut message.additionals,
    }
}

/// A record more.
fn put(rt: &impl Abort, alloc: Global, message: &mut Message, told: &Told) {
    let mut next = record(rt, alloc, told.2, told.3, told.4, told.5);
    next.dns_class = told.0;
    section_of(message, told.1).push(next).expect(rt, "memory");
}

/// A message with these records.
fn message_of(rt: &impl Abort, alloc: Global, told: &[Told]) -> Message {
    let mut message = empty_message(alloc);
    for one in told {
        put(rt, alloc, &mut message, one);
    }
    message
}

/// These DS records are so many, all of class IN.
fn are_signed(ds: &[Record], number: usize) -> bool {
    ds.len() == number && ds.iter().all(|next| next.dns_class == DNSClass::IN)
}

/// A verdict is this one.
fn is_verdict(rt: &impl Abort, alloc: Global, verdict: &ZoneVerdict, want: &Want) -> bool {
    match (verdict, want) {
        (ZoneVerdict::Signed(ds), Want::Signed(number)) => are_signed(ds, *number),
        (ZoneVerdict::Insecure(kind), Want::Insecure(text)) => reads(rt, alloc, kind, text),
        (ZoneVerdict::Bogus(kind), Want::Bogus(text)) => reads(rt, alloc, kind, text),
        _ => false,
    }
}

/// A copy of a verdict is this one.
fn copy_is(rt: &impl Abort, alloc: Global, verdict: &ZoneVerdict, want: &Want) -> bool {
    let copy = verdict.try_clone().expect(rt, "memory");
    is_verdict(rt, alloc, &copy, want)
}

fn is_wanted(
    rt: &impl Abort,
    alloc: Global,
    verdict: &Result<ZoneVerdict, NoMemory>,
    want: &Want,
) -> bool {
    match verdict {
        Ok(verdict) => copy_is(rt, alloc, verdict, want),
        Err(_) => matches!(want, Want::NoMemory),
    }
}

/// The DS verdict on `EXAMPLE.` by this answer is this one.
fn gives(rt: &impl Abort, alloc: Global, class: DNSClass, answer: DnsAnswer, want: &Want) -> bool {
    let zone = name_of(rt, alloc, "EXAMPLE.");
    let verdict = ds_verdict(alloc, &Counting::new(), &zone, class, &answer);
    is_wanted(rt, alloc, &verdict, want)
}

/// The DS verdict by a response that is this message.
fn gives_by(
    rt: &impl Abort,
    alloc: Global,
    class: DNSClass,
    message: Message,
    want: &Want,
) -> bool {
    let response = DnsResponse {
        message,
        chains: Vec::new(alloc),
        denial: Denial::None,
        trail: Trail::new(alloc),
    };
    gives(rt, alloc, class, Ok(response), want)
}

#[test]
fn zones_are_judged_by_answers(rt: HostRuntime) {
    for row in rows() {
        let message = message_of(&rt, rt.alloc(), row.1);
        check_row(
            &rt,
            row.0,
            gives_by(&rt, rt.alloc(), row.2, message, &row.3),
        );
    }
}

/// There are no records: a lookup never answers so.
fn no_records(rt: &impl Abort, alloc: Global) -> NetError {
    let query = Query {
        name: name_of(rt, alloc, "example."),
        query_type: DS_TYPE,
        query_class: IN,
    };
    NetError::from(NoRecords::new(alloc, query, ResponseCode(0)))
}

/// An ask that failed makes the verdict Bogus, with the question, and running out of memory is passed on.
fn check_failed(rt: &impl Abort, alloc: Global, row: &str, error: NetError, want: &Want) {
    check_row(rt, row, gives(rt, alloc, IN, Err(error), want));
}

#[test]
fn zones_are_bogus_where_the_ask_failed(rt: HostRuntime) {
    let alloc = rt.alloc();
    let unknown = no_records(&rt, alloc);
    check_failed(&rt, alloc, "no records", unknown, &UNANSWERED);
    check_failed(
        &rt,
        alloc,
        "no answer in time",
        NetError::Timeout,
        &UNANSWERED,
    );
    check_failed(
        &rt,
        alloc,
        "running out of memory",
        NetError::NoMemory,
        &Want::NoMemory,
    );
}

#[test]
fn a_zone_is_signed_by_70_000_ds_records(rt: HostRuntime) {
    let mut message = empty_message(rt.alloc());
    fill(&rt, rt.alloc(), &mut message.answers, DS_TYPE, DS, MANY);
    let signed = gives_by(&rt, rt.alloc(), IN, message, &Want::Signed(MANY));
    check_row(&rt, "each is supported", signed);
}
