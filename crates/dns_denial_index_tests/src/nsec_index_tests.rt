//! Which NSEC record an index finds for a name, and what it proves (RFC 4034, 4.1.1; RFC 4035, 5.4).
ghost use Rattle.std.specs.Prelude.{◌≡◌, ◌<◌};

use dns_denial::{nsec_covering, verify_nsec};
use dns_denial_index::NsecIndex;
use dns_evidence::Steps;
use dns_model::{Answered, NameError, Proof};
use dns_rdata::NsecRecord;
use dns_record::{DNSClass, Name, Octets, Query, RecordType, ResponseCode};
use std::alloc::Global;
use std::marker::Brand;
use std::process::Abort;
use std::sync::ledger::{Blank, Ledger};

/// More records than a test has.
const MANY: usize = 100_000;

/// A record: its owner, the next one, and its types.
struct Told(&'static str, &'static str, &'static [u8]);

const A: &[u8] = b"\0\x01\x40";

const MX: &[u8] = b"\0\x02\0\x01";

const NS: &[u8] = b"\0\x01\x20";

const NS_SOA: &[u8] = b"\0\x01\x22";

const INNER: &[Told] = &[Told("a.", "z.", A), Told("b.", "c.", A)];

const TWICE: &[Told] = &[Told("a.", "z.", A), Told("a.", "z.", A)];

const ONE_OWNER: &[Told] = &[Told("a.", "c.", A), Told("a.", "z.", A)];

const ONE_NEXT: &[Told] = &[Told("a.", "z.", A), Told("b.", "z.", A)];

const CROSSING: &[Told] = &[
    Told("a.", "y.", A),
    Told("b.", "d.", A),
    Told("c.", "e.", A),
];

const A_CUT: &[Told] = &[Told("a.", "z.", A), Told("b.", "c.", NS)];

const AN_APEX: &[Told] = &[Told("a.", "z.", A), Told("b.", "c.", NS_SOA)];

const LAST: &[Told] = &[Told("z.b.", "b.", A)];

const ALONE: &[Told] = &[Told("b.", "b.", A)];

const ROOT: &[Told] = &[Told(".", ".", A)];

const NO_ZONE: &[Told] = &[Told("z.", "a.", A)];

const TWO_ZONES: &[Told] = &[Told("b.a.", "a.", A), Told("m.a.", ".", A)];

const CAPITALS: &[Told] = &[Told("A.", "c.", A), Told("a.", "z.", A)];

/// Records, a name, and the number of the record that covers it.
struct Row(&'static [Told], &'static str, Option<u32>);

const ROWS: &[Row] = &[
    Row(&[], "m.", None),
    Row(INNER, "m.", Some(0)),
    Row(INNER, "b.", Some(0)),
    Row(INNER, "b5.", Some(1)),
    Row(INNER, "c.", Some(0)),
    Row(INNER, "a.", None),
    Row(INNER, "z.", None),
    Row(TWICE, "m.", Some(0)),
    Row(ONE_OWNER, "b.", Some(0)),
    Row(ONE_OWNER, "m.", Some(1)),
    Row(ONE_NEXT, "a5.", Some(0)),
    Row(ONE_NEXT, "m.", Some(1)),
    Row(CROSSING, "b5.", Some(1)),
    Row(CROSSING, "c5.", Some(2)),
    Row(CROSSING, "d.", Some(2)),
    Row(CROSSING, "d5.", Some(2)),
    Row(CROSSING, "e.", Some(0)),
    Row(CROSSING, "f.", Some(0)),
    Row(CROSSING, "y.", None),
    Row(A_CUT, "x.b.", None),
    Row(A_CUT, "b5.", Some(1)),
    Row(AN_APEX, "x.b.", Some(1)),
    Row(LAST, "zz.b.", Some(0)),
    Row(LAST, "a.b.", None),
    Row(LAST, "b.", None),
    Row(LAST, "c.", None),
    Row(ALONE, "x.b.", Some(0)),
    Row(ALONE, "b.", None),
    Row(ALONE, "c.", None),
    Row(ROOT, "a.", Some(0)),
    Row(ROOT, ".", None),
    Row(NO_ZONE, "zz.", None),
    Row(NO_ZONE, "x.a.", None),
    Row(NO_ZONE, "b.", None),
    Row(TWO_ZONES, "c.a.", Some(0)),
    Row(TWO_ZONES, "x.b.a.", Some(0)),
    Row(TWO_ZONES, "n.a.", Some(1)),
    Row(TWO_ZONES, "b.", Some(1)),
    Row(CAPITALS, "B.", Some(0)),
    Row(CAPITALS, "m.", Some(1)),
];

/// What was tried on a row held; the message has the row's name.
fn check_held(rt: &impl Abort, name: &str, held: bool) {
    assert!(rt; held, "{name}");
}

fn push_nsec(alloc: Global, nsecs: &mut Vec<NsecRecord>, told: &Told) -> Result<(), NameError> {
    let owner = Name::from_ascii(alloc, told.0)?;
    let next = Name::from_ascii(alloc, told.1)?;
    let types = Octets::from_slice(alloc, told.2)?;
    nsecs.push(NsecRecord { owner, next, types })?;
    Ok(())
}

fn records_of(alloc: Global, all: &[Told]) -> Result<Vec<NsecRecord>, NameError> {
    let mut nsecs = Vec::new(alloc);
    for told in all {
        push_nsec(alloc, &mut nsecs, told)?;
    }
    Ok(nsecs)
}

fn index_of(nsecs: Vec<NsecRecord>) -> Option<NsecIndex> {
    if MANY < nsecs.len() {
        return None;
    }
    NsecIndex::new(nsecs).ok()?.try_clone().ok()
}

fn covering<L: Ledger>(index: &NsecIndex, name: &Name, blank: Blank) -> Option<u32>
    requires name { blank.name ≡ L.name }
    requires parts { blank.parts ≡ L.parts }
    requires some { 0 < blank.parts }
{
    let mut steps = Steps::<L>::new(blank);
    index.covering(name, &mut steps)
}

/// Index and list find the number of the row.
fn is_covered(alloc: Global, row: &Row) -> Option<bool> {
    let index = index_of(records_of(alloc, row.0).ok()?)?;
    let name = Name::from_ascii(alloc, row.1).ok()?;
    let by_list = nsec_covering_of(&name, index.records())?;
    Some(covering::<Brand>(&index, &name, Blank::new(1)) == row.2 && by_list == row.2)
}

fn nsec_covering_of(name: &Name, nsecs: &[NsecRecord]) -> Option<Option<u32>> {
    if MANY < nsecs.len() {
        return None;
    }
    Some(nsec_covering(name, nsecs))
}

#[test]
fn an_index_finds_the_record_that_covers(rt: HostRuntime) {
    for row in ROWS {
        check_held(&rt, row.1, is_covered(rt.alloc(), row) == Some(true));
    }
}

/// Records, a name that is asked for A, the response's code, and whether that is proved.
struct Verdict(&'static [Told], &'static str, ResponseCode, Proof);

const VERDICTS: &[Verdict] = &[
    Verdict(INNER, "m.", ResponseCode::NX_DOMAIN, Proof::Bogus),
    Verdict(ROOT, "m.", ResponseCode::NX_DOMAIN, Proof::Secure),
    Verdict(ROOT, ".", ResponseCode::NO_ERROR, Proof::Bogus),
    Verdict(A_CUT, "b.", ResponseCode::NO_ERROR, Proof::Bogus),
    Verdict(AN_APEX, "b.", ResponseCode::NO_ERROR, Proof::Secure),
    Verdict(
        &[
            Told("*.", "b.", A),
            Told("*.", "c.", MX),
            Told("b.", ".", A),
        ],
        "x.",
        ResponseCode::NO_ERROR,
        Proof::Secure,
    ),
];

fn verify<L: Ledger>(
    index: &NsecIndex,
    query: &Query,
    zone: &Name,
    code: ResponseCode,
    blank: Blank,
) -> Proof
    requires name { blank.name ≡ L.name }
    requires parts { blank.parts ≡ L.parts }
    requires some { 0 < blank.parts }
{
    let mut steps = Steps::<L>::new(blank);
    index.verify(query, zone, code, Answered::No, &mut steps)
}

/// Index and list prove what the row says.
fn is_proved(alloc: Global, row: &Verdict) -> Option<bool> {
    let index = index_of(records_of(alloc, row.0).ok()?)?;
    let zone = Name::root(alloc).ok()?;
    let query = Query {
        name: Name::from_ascii(alloc, row.1).ok()?,
        query_type: RecordType::A,
        query_class: DNSClass::IN,
    };
    let by_list = verify_nsec(&query, &zone, row.2, Answered::No, index.records());
    Some(verify::<Brand>(&index, &query, &zone, row.2, Blank::new(1)) == row.3 && by_list == row.3)
}

#[test]
fn an_index_proves_what_its_list_does(rt: HostRuntime) {
    for row in VERDICTS {
        check_held(&rt, row.1, is_proved(rt.alloc(), row) == Some(true));
    }
}

/// So many records of one owner, and one of an owner behind it.
fn many_records(alloc: Global, count: u32) -> Result<Vec<NsecRecord>, NameError> {
    let mut nsecs = Vec::new(alloc);
    for _ in 0..count {
        push_nsec(alloc, &mut nsecs, &Told("a.", "z.", A))?;
    }
    push_nsec(alloc, &mut nsecs, &Told("b.", "c.", A))?;
    Ok(nsecs)
}

/// The last of them covers a name right behind its owner, and the first one another name.
fn is_found_among_many(alloc: Global, count: u32) -> Option<bool> {
    let index = index_of(many_records(alloc, count).ok()?)?;
    let inner = Name::from_ascii(alloc, "b5.").ok()?;
    let outer = Name::from_ascii(alloc, "d.").ok()?;
    Some(
        covering::<Brand>(&index, &inner, Blank::new(1)) == Some(count)
            && covering::<Brand>(&index, &outer, Blank::new(1)) == Some(0),
    )
}

#[test]
fn a_record_is_found_among_70_000(rt: HostRuntime) {
    check_held(
        &rt,
        "70,000",
        is_found_among_many(rt.alloc(), 70_000) == Some(true),
    );
}
