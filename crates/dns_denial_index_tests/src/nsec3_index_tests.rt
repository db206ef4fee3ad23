//! Which NSEC3 record an index finds for a hash (RFC 5155, 1.3), and what it proves (RFC 5155, 8).
ghost use Rattle.std.specs.Prelude.{◌≡◌, ◌<◌};

use dns_denial::{nsec3_covering, verify_nsec3};
use dns_denial_index::Nsec3Index;
use dns_evidence::Steps;
use dns_model::{Answered, NameError, Proof};
use dns_rdata::{Nsec3Record, base32hex_decode, base32hex_encode};
use dns_record::{DNSClass, Name, NoMemory, Octets, Query, RecordType, ResponseCode};
use std::alloc::Global;
use std::marker::Brand;
use std::process::Abort;
use std::sync::ledger::{Blank, Ledger};

/// More records than a test has.
const MANY: usize = 100_000;

/// A record: the byte of which its owner's hash is made, that of the next one, and its flags.
struct Told(u8, u8, u8);

const ROUND: &[Told] = &[Told(0x90, 0x20, 0), Told(0x05, 0x18, 0)];

const ALONE: &[Told] = &[Told(0x40, 0x40, 0)];

const ONE_OWNER: &[Told] = &[Told(0x40, 0x50, 0), Told(0x40, 0x40, 0)];

const TWO_ROUND: &[Told] = &[Told(0xf0, 0x30, 0), Told(0xa0, 0x60, 0)];

const IGNORED: &[Told] = &[Told(0x10, 0x80, 2), Told(0x08, 0x90, 0)];

const LONGER: &[Told] = &[Told(0x10, 0x20, 0), Told(0x10, 0x80, 0)];

/// Records, the byte of which a hash is made, and the number of the record that covers it.
struct Row(&'static [Told], u8, Option<u32>);

const ROWS: &[Row] = &[
    Row(&[], 0x10, None),
    Row(ROUND, 0xa0, Some(0)),
    Row(ROUND, 0x03, Some(0)),
    Row(ROUND, 0x19, Some(0)),
    Row(ROUND, 0x00, Some(0)),
    Row(ROUND, 0xff, Some(0)),
    Row(ROUND, 0x05, Some(0)),
    Row(ROUND, 0x18, Some(0)),
    Row(ROUND, 0x10, Some(1)),
    Row(ROUND, 0x50, None),
    Row(ROUND, 0x20, None),
    Row(ROUND, 0x90, None),
    Row(ALONE, 0x40, None),
    Row(ALONE, 0x3f, Some(0)),
    Row(ALONE, 0x41, Some(0)),
    Row(ALONE, 0x00, Some(0)),
    Row(ALONE, 0xff, Some(0)),
    Row(ONE_OWNER, 0x45, Some(0)),
    Row(ONE_OWNER, 0x50, Some(1)),
    Row(ONE_OWNER, 0x60, Some(1)),
    Row(ONE_OWNER, 0x3f, Some(1)),
    Row(ONE_OWNER, 0x40, None),
    Row(TWO_ROUND, 0x20, Some(0)),
    Row(TWO_ROUND, 0xf5, Some(0)),
    Row(TWO_ROUND, 0x30, Some(1)),
    Row(TWO_ROUND, 0x40, Some(1)),
    Row(TWO_ROUND, 0xf0, Some(1)),
    Row(TWO_ROUND, 0x60, None),
    Row(TWO_ROUND, 0xa0, None),
    Row(IGNORED, 0x20, Some(1)),
    Row(IGNORED, 0x05, None),
    Row(LONGER, 0x15, Some(0)),
    Row(LONGER, 0x30, Some(1)),
];

/// What was tried on a row held; the message has the row's number.
fn check_held(rt: &impl Abort, number: usize, held: bool) {
    assert!(rt; held, "row {number}");
}

/// The name right below the root whose label is the text of a hash.
fn owner_of(alloc: Global, byte: u8) -> Result<Option<Name>, NoMemory> {
    let text = base32hex_encode(&[byte; 20]);
    let mut wire = Vec::new(alloc);
    wire.push(32)?;
    wire.extend_from_slice(text.as_slice())?;
    wire.push(0)?;
    Name::from_wire(alloc, wire.as_slice())
}

fn record_of(alloc: Global, told: &Told) -> Result<Option<Nsec3Record>, NoMemory> {
    let Some(owner) = owner_of(alloc, told.0)? else {
        return Ok(None);
    };
    let next = Octets::from_slice(alloc, [told.1; 20].as_slice())?;
    Ok(Some(Nsec3Record {
        owner,
        hash_algorithm: 1,
        flags: told.2,
        iterations: 0,
        salt: Octets::empty(alloc),
        next,
        types: Octets::empty(alloc),
    }))
}

/// The records of a row; fewer where one can't be made, so that its row fails.
fn records_of(alloc: Global, all: &[Told]) -> Result<Vec<Nsec3Record>, NoMemory> {
    let mut nsec3s = Vec::new(alloc);
    for told in all {
        if let Some(nsec3) = record_of(alloc, told)? {
            nsec3s.push(nsec3)?;
        }
    }
    Ok(nsec3s)
}

fn index_of(nsec3s: Vec<Nsec3Record>) -> Option<Nsec3Index> {
    if MANY < nsec3s.len() {
        return None;
    }
    Nsec3Index::new(nsec3s).ok()?.try_clone().ok()
}

fn covering<L: Ledger>(index: &Nsec3Index, hash: &[u8; 20], blank: Blank) -> Option<u32>
    requires name { blank.name ≡ L.name }
    requires parts { blank.parts ≡ L.parts }
    requires some { 0 < blank.parts }
{
    let mut steps = Steps::<L>::new(blank);
    index.covering(hash, &mut steps)
}

fn by_list(hash: &[u8; 20], nsec3s: &[Nsec3Record]) -> Option<Option<u32>> {
    if MANY < nsec3s.len() {
        return None;
    }
    Some(nsec3_covering(hash, nsec3s))
}

/// Index and list find the number of the row.
fn is_covered(alloc: Global, row: &Row) -> Option<bool> {
    let index = index_of(records_of(alloc, row.0).ok()?)?;
    let hash = [row.1; 20];
    let listed = by_list(&hash, index.records())?;
    Some(covering::<Brand>(&index, &hash, Blank::new(1)) == row.2 && listed == row.2)
}

#[test]
fn an_index_finds_the_record_that_covers_a_hash(rt: HostRuntime) {
    for (number, row) in ROWS.iter().enumerate() {
        check_held(&rt, number, is_covered(rt.alloc(), row) == Some(true));
    }
}

/// A record of `example.`, of 12 iterations: its owner, the text of the next hash, its flags and its types.
struct Zoned(&'static str, &'static str, u8, &'static [u8]);

const SALT: &[u8] = b"\xaa\xbb\xcc\xdd";

const A: &[u8] = b"\0\x01\x40";

const MX: &[u8] = b"\0\x02\0\x01";

const NS_SOA: &[u8] = b"\0\x01\x22";

/// At `ns1.example.` (RFC 5155, B.2).
const AT_NS1: &[Zoned] = &[Zoned(
    "2t7b4g4vsa5smi47k61mv5bv1a22bojr.example.",
    "2vptu5timamqttgl4luu9kg21e0aor3s",
    0,
    A,
)];

/// For `a.c.x.w.example.` (RFC 5155, B.1): around the next closer name, at the closest encloser, and around the wildcard.
const AROUND: &[Zoned] = &[
    Zoned(
        "0p9mhaveqvm6t7vbl5lop2u3t2rp3tom.example.",
        "2t7b4g4vsa5smi47k61mv5bv1a22bojr",
        0,
        NS_SOA,
    ),
    Zoned(
        "b4um86eghhds6nea196smvmlo4ors995.example.",
        "gjeqe526plbf1g8mklp59enfd789njgi",
        0,
        MX,
    ),
    Zoned(
        "35mthgpgcu1qg68fab165klnsnk3dpvl.example.",
        "b4um86eghhds6nea196smvmlo4ors995",
        0,
        A,
    ),
];

/// The same, where unsigned delegations may lie around the wildcard.
const AROUND_OPT_OUT: &[Zoned] = &[
    Zoned(
        "0p9mhaveqvm6t7vbl5lop2u3t2rp3tom.example.",
        "2t7b4g4vsa5smi47k61mv5bv1a22bojr",
        0,
        NS_SOA,
    ),
    Zoned(
        "b4um86eghhds6nea196smvmlo4ors995.example.",
        "gjeqe526plbf1g8mklp59enfd789njgi",
        0,
        MX,
    ),
    Zoned(
        "35mthgpgcu1qg68fab165klnsnk3dpvl.example.",
        "b4um86eghhds6nea196smvmlo4ors995",
        1,
        A,
    ),
];

/// The counts of iterations to which records are judged, and above which they are Bogus.
type Limits = (u16, u16);

const LIMITS: Limits = (100, 500);

/// Records, a name that is asked for MX, the response's code, the limits, and what is proved of that.
struct Verdict(&'static [Zoned], &'static str, ResponseCode, Limits, Proof);

const NOERROR: ResponseCode = ResponseCode::NO_ERROR;

const NXDOMAIN: ResponseCode = ResponseCode::NX_DOMAIN;

#[rattlefmt::skip]
const VERDICTS: &[Verdict] = &[
    Verdict(&[], "ns1.example.", NOERROR, LIMITS, Proof::Bogus),
    Verdict(AT_NS1, "ns1.example.", NOERROR, LIMITS, Proof::Secure),
    Verdict(AT_NS1, "ns1.example.", NOERROR, (12, 12), Proof::Secure),
    Verdict(AT_NS1, "ns1.example.", NOERROR, (11, 12), Proof::Insecure),
    Verdict(AT_NS1, "ns1.example.", NOERROR, (11, 11), Proof::Bogus),
    Verdict(AT_NS1, "ns1.example.", NXDOMAIN, LIMITS, Proof::Bogus),
    Verdict(AROUND, "a.c.x.w.example.", NXDOMAIN, LIMITS, Proof::Secure),
    Verdict(AROUND_OPT_OUT, "a.c.x.w.example.", NXDOMAIN, LIMITS, Proof::Insecure),
    Verdict(AROUND, "x.w.example.", NOERROR, LIMITS, Proof::Bogus),
];

/// A text that is no hash fails its row by this error.
fn push_zoned(alloc: Global, nsec3s: &mut Vec<Nsec3Record>, told: &Zoned) -> Result<(), NameError> {
    let Some(next) = base32hex_decode(told.1.as_bytes()) else {
        return Err(NameError::EmptyLabel);
    };
    let nsec3 = Nsec3Record {
        owner: Name::from_ascii(alloc, told.0)?,
        hash_algorithm: 1,
        flags: told.2,
        iterations: 12,
        salt: Octets::from_slice(alloc, SALT)?,
        next: Octets::from_slice(alloc, next.as_slice())?,
        types: Octets::from_slice(alloc, told.3)?,
    };
    nsec3s.push(nsec3)?;
    Ok(())
}

fn zoned_of(alloc: Global, all: &[Zoned]) -> Result<Vec<Nsec3Record>, NameError> {
    let mut nsec3s = Vec::new(alloc);
    for told in all {
        push_zoned(alloc, &mut nsec3s, told)?;
    }
    Ok(nsec3s)
}

fn verify<L: Ledger>(
    index: &Nsec3Index,
    query: &Query,
    zone: &Name,
    row: &Verdict,
    blank: Blank,
) -> Proof
    requires name { blank.name ≡ L.name }
    requires parts { blank.parts ≡ L.parts }
    requires some { 0 < blank.parts }
{
    let mut steps = Steps::<L>::new(blank);
    let (soft, hard) = row.3;
    index.verify(query, zone, row.2, Answered::No, soft, hard, &mut steps)
}

/// Index and list prove what the row says.
fn is_proved(alloc: Global, row: &Verdict) -> Option<bool> {
    let index = index_of(zoned_of(alloc, row.0).ok()?)?;
    let zone = Name::from_ascii(alloc, "example.").ok()?;
    let query = Query {
        name: Name::from_ascii(alloc, row.1).ok()?,
        query_type: RecordType::MX,
        query_class: DNSClass::IN,
    };
    let (soft, hard) = row.3;
    let no = Answered::No;
    let listed = verify_nsec3(&query, &zone, row.2, no, index.records(), soft, hard);
    Some(verify::<Brand>(&index, &query, &zone, row, Blank::new(1)) == row.4 && listed == row.4)
}

#[test]
fn an_index_of_hashes_proves_what_its_list_does(rt: HostRuntime) {
    for (number, row) in VERDICTS.iter().enumerate() {
        check_held(&rt, number, is_proved(rt.alloc(), row) == Some(true));
    }
}

/// So many records of one owner, and one of an owner behind it.
fn many_records(alloc: Global, count: u32) -> Result<Vec<Nsec3Record>, NoMemory> {
    let mut nsec3s = Vec::new(alloc);
    for _ in 0..count {
        if let Some(nsec3) = record_of(alloc, &Told(0x10, 0x80, 0))? {
            nsec3s.push(nsec3)?;
        }
    }
    if let Some(nsec3) = record_of(alloc, &Told(0x20, 0x30, 0))? {
        nsec3s.push(nsec3)?;
    }
    Ok(nsec3s)
}

/// The last of them covers a hash right behind its owner's, and the first one another hash.
fn is_found_among_many(alloc: Global, count: u32) -> Option<bool> {
    let index = index_of(many_records(alloc, count).ok()?)?;
    Some(
        covering::<Brand>(&index, &[0x25; 20], Blank::new(1)) == Some(count)
            && covering::<Brand>(&index, &[0x40; 20], Blank::new(1)) == Some(0),
    )
}

#[test]
fn a_hash_is_found_among_70_000(rt: HostRuntime) {
    let held = is_found_among_many(rt.alloc(), 70_000) == Some(true);
    check_held(&rt, 70_000, held);
}
