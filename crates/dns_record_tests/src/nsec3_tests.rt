//! Hashes (RFC 5155, appendix A; RFC 4648, 7), and what NSEC3 records show by them. `rows/verdicts.txt` has more
//! verdicts.
use crate::nsec3_rows::*;
use crate::record_tests::{query_of, record};
use crate::rows::{NameRow, Row, check_names, check_rows};
use dns_denial::{
    EncloserCandidates, Nsec3Parameters, Nsec3Records, nsec3_covering, nsec3_verdict, verify_nsec3,
    verify_nsec3_insecure_delegation,
};
use dns_model::{Answered, NameError, Proof};
use dns_rdata::{Nsec3Record, base32hex_decode, base32hex_encode, nsec3_hash};
use dns_record::{Name, NameRef, Query, RecordType, ResponseCode};
use std::alloc::Global;

#[rattlefmt::skip]
const SALT: &[u8] = b"\xaa\xbb\xcc\xdd";

/// A salt, how many iterations, and the text of the name's hash.
struct Hashed(&'static [u8], u16, &'static str);

const HASHES: &[(&str, Hashed)] = &[
    (
        "example.",
        Hashed(SALT, 12, "0p9mhaveqvm6t7vbl5lop2u3t2rp3tom"),
    ),
    (
        "EXAMPLE.",
        Hashed(SALT, 12, "0p9mhaveqvm6t7vbl5lop2u3t2rp3tom"),
    ),
    (
        "a.example.",
        Hashed(SALT, 12, "35mthgpgcu1qg68fab165klnsnk3dpvl"),
    ),
    (
        "ai.example.",
        Hashed(SALT, 12, "gjeqe526plbf1g8mklp59enfd789njgi"),
    ),
    (
        "ns1.example.",
        Hashed(SALT, 12, "2t7b4g4vsa5smi47k61mv5bv1a22bojr"),
    ),
    (
        "ns2.example.",
        Hashed(SALT, 12, "q04jkcevqvmu85r014c7dkba38o0ji5r"),
    ),
    (
        "w.example.",
        Hashed(SALT, 12, "k8udemvp1j2f7eg6jebps17vp3n8i58h"),
    ),
    (
        "*.w.example.",
        Hashed(SALT, 12, "r53bq7cc2uvmubfu5ocmm6pers9tk9en"),
    ),
    (
        "x.w.example.",
        Hashed(SALT, 12, "b4um86eghhds6nea196smvmlo4ors995"),
    ),
    (
        "y.w.example.",
        Hashed(SALT, 12, "ji6neoaepv8b5o6k4ev33abha8ht9fgc"),
    ),
    (
        "x.y.w.example.",
        Hashed(SALT, 12, "2vptu5timamqttgl4luu9kg21e0aor3s"),
    ),
    (
        "xx.example.",
        Hashed(SALT, 12, "t644ebqk9bibcna874givr6joj62mlhv"),
    ),
    (
        "2t7b4g4vsa5smi47k61mv5bv1a22bojr.example.",
        Hashed(SALT, 12, "kohar7mbb8dc2ce8a9qvl8hon4k53uhi"),
    ),
    (
        "example.",
        Hashed(b"", 0, "3msev9usmd4br9s97v51r2tdvmr9iqo1"),
    ),
    (
        "example.",
        Hashed(SALT, 65_535, "do25csob5a0pb2erjrcv8dva1snohbdg"),
    ),
];

impl NameRow for Hashed {
    /// The name has the hash, and its text is read as the hash.
    fn holds(&self, _alloc: Global, name: &Name) -> bool {
        let hash = nsec3_hash(self.0, name, self.1);
        let text = self.2.as_bytes();
        *base32hex_encode(&hash).as_slice() == *text && base32hex_decode(text) == Some(hash)
    }
}

/// Whether the row's text is a hash.
struct HashText(bool);

const TEXTS: &[(&str, HashText)] = &[
    ("0123456789abcdefghijklmnopqrstuv", HashText(true)),
    ("0123456789ABCDEFGHIJKLMNOPQRSTUV", HashText(true)),
    ("0123456789abcdefghijklmnopqrstuw", HashText(false)),
    ("W123456789abcdefghijklmnopqrstuv", HashText(false)),
    ("/123456789abcdefghijklmnopqrstuv", HashText(false)),
    (":123456789abcdefghijklmnopqrstuv", HashText(false)),
    ("0123456789abcdefghijklmnopqrstu", HashText(false)),
    ("0123456789abcdefghijklmnopqrstuv0", HashText(false)),
    ("0123456789abcdefghijklmnopqrstu=", HashText(false)),
    ("", HashText(false)),
];

/// RFC 4648's alphabet in order is this number in base 32.
const ALPHABET: [u8; 20] = [
    0x00, 0x44, 0x32, 0x14, 0xc7, 0x42, 0x54, 0xb6, 0x35, 0xcf, 0x84, 0x65, 0x3a, 0x56, 0xd7, 0xc6,
    0x75, 0xbe, 0x77, 0xdf,
];

impl Row for HashText {
    fn holds(&self, _alloc: Global, text: &str) -> bool {
        match base32hex_decode(text.as_bytes()) {
            Some(hash) => self.0 && hash == ALPHABET,
            None => !self.0,
        }
    }
}

#[test]
fn names_are_hashed_and_texts_of_hashes_read_in_either_case(rt: HostRuntime) {
    check_names(&rt, rt.alloc(), HASHES);
    check_rows(&rt, rt.alloc(), TEXTS);
}

/// A record that can't be read fails its test by this error.
fn push_nsec3(alloc: Global, records: &mut Vec<Nsec3Record>, told: &Told) -> Result<(), NameError> {
    let from = record(alloc, told.0, 50, told.1)?;
    match Nsec3Record::of(alloc, &from)? {
        Some(nsec3) => Ok(records.push(nsec3)?),
        None => Err(NameError::EmptyLabel),
    }
}

fn records_of(alloc: Global, all: &[Told]) -> Result<Vec<Nsec3Record>, NameError> {
    let mut records = Vec::new(alloc);
    for told in all {
        push_nsec3(alloc, &mut records, told)?;
    }
    Ok(records)
}

/// A name whose MX records are asked for, records of the row's zone, the answer, and the verdict with limits 100 and
/// 500.
struct Limited(&'static str, &'static [Told], Answered, Proof);

#[rattlefmt::skip]
const LIMITED: &[(&str, Limited)] = &[
    // as many iterations as are judged, one more, and more than are taken
    ("example.", Limited("ns1.example.", ITERATED_100, Answered::No, Proof::Secure)),
    ("example.", Limited("ns1.example.", ITERATED_101, Answered::No, Proof::Insecure)),
    ("example.", Limited("ns1.example.", ITERATED_501, Answered::No, Proof::Bogus)),
    // one more in a record that is ignored
    ("example.", Limited("ns1.example.", UNKNOWN_ALGORITHM, Answered::No, Proof::Secure)),
    ("example.", Limited("ns1.example.", NO_MX_AT_NS1, Answered::No, Proof::Secure)),
    // no record at all
    ("example.", Limited("ns1.example.", &[], Answered::No, Proof::Bogus)),
    // a wildcard with as many labels as the name
    ("example.", Limited("a.z.w.example.", AT_NS2, Answered::Expanded(4), Proof::Bogus)),
];

fn is_limited(alloc: Global, query: &Query, zone: &Name, row: &Limited) -> bool {
    match records_of(alloc, row.1) {
        Ok(records) => {
            let code = ResponseCode::NO_ERROR;
            verify_nsec3(query, zone, code, row.2, &records, 100, 500) == row.3
        }
        Err(_) => false,
    }
}

impl NameRow for Limited {
    fn holds(&self, alloc: Global, zone: &Name) -> bool {
        match query_of(alloc, self.0, RecordType::MX.0) {
            Ok(query) => is_limited(alloc, &query, zone, self),
            Err(_) => false,
        }
    }
}

#[test]
fn iterations_are_limited(rt: HostRuntime) {
    check_names(&rt, rt.alloc(), LIMITED);
}

/// A list that counts the names that are hashed.
#[derive(Clone, Copy)]
struct Counted<'a>(&'a [Nsec3Record]);

impl<'a> Nsec3Records for Counted<'a> {
    type Notes = u32;

    ghost records = { λ c. c.0.now };

    fn are_of_zone(&self, zone: &NameRef<'_>) -> bool {
        self.0.are_of_zone(zone)
    }

    fn parameters(&self) -> Option<Nsec3Parameters<'_>> {
        self.0.parameters()
    }

    fn hash(&self, by: &Nsec3Parameters<'_>, name: &NameRef<'_>, notes: &mut u32) -> [u8; 20] {
        *notes = notes.saturating_add(1);
        by.hash(name)
    }

    fn matching(&self, hash: &[u8; 20], _notes: &mut u32) -> Option<&Nsec3Record> {
        self.0.matching(hash, &mut ())
    }

    fn covering(&self, hash: &[u8; 20], _notes: &mut u32) -> Option<&Nsec3Record> {
        self.0.covering(hash, &mut ())
    }

    fn wildcard_denies(
        &self,
        wildcard: &[u8; 20],
        record_type: RecordType,
        _notes: &mut u32,
    ) -> bool {
        self.0.wildcard_denies(wildcard, record_type, &mut ())
    }
}

/// A name whose records of a type are asked for, records of the row's zone, code and answer, and how many names are hashed for
/// the verdict with limits 100 and 500.
struct Hashes(
    &'static str,
    RecordType,
    &'static [Told],
    ResponseCode,
    Answered,
    u32,
);

const NXDOMAIN: ResponseCode = ResponseCode::NX_DOMAIN;

const NOERROR: ResponseCode = ResponseCode::NO_ERROR;

const MX: RecordType = RecordType::MX;

#[rattlefmt::skip]
const COUNTS: &[(&str, Hashes)] = &[
    // the name alone, which a record matches
    ("example.", Hashes("ns1.example.", MX, NO_MX_AT_NS1, NOERROR, Answered::No, 1)),
    ("example.", Hashes("ns1.example.", MX, ITERATED_100, NOERROR, Answered::No, 1)),
    // none: too many iterations, no record, another zone's, a code that denies nothing, an answer that needs no denial
    ("example.", Hashes("ns1.example.", MX, ITERATED_101, NOERROR, Answered::No, 0)),
    ("example.", Hashes("ns1.example.", MX, ITERATED_501, NOERROR, Answered::No, 0)),
    ("example.", Hashes("ns1.example.", MX, &[], NOERROR, Answered::No, 0)),
    (".", Hashes("ns1.example.", MX, NO_MX_AT_NS1, NOERROR, Answered::No, 0)),
    ("example.", Hashes("ns1.example.", MX, NO_MX_AT_NS1, ResponseCode::SERV_FAIL, Answered::No, 0)),
    ("example.", Hashes("ns1.example.", MX, NO_MX_AT_NS1, NOERROR, Answered::Plain, 0)),
    ("example.", Hashes("ns1.example.", MX, NO_MX_AT_NS1, NXDOMAIN, Answered::Expanded(1), 0)),
    // each name up to the closest encloser, and the wildcard there
    ("example.", Hashes("c.example.", MX, NO_OPT_OUT, NXDOMAIN, Answered::No, 3)),
    ("example.", Hashes("a.c.example.", MX, NO_OPT_OUT, NXDOMAIN, Answered::No, 4)),
    ("example.", Hashes("a.c.example.", MX, NO_OPT_OUT, NOERROR, Answered::No, 4)),
    // each name up to the apex, where no closest encloser is shown
    ("example.", Hashes("a.c.example.", MX, AT_NS2, NXDOMAIN, Answered::No, 3)),
    // a DS that an opt-out span denies needs no wildcard
    ("example.", Hashes("c.example.", RecordType::DS, OPT_OUT, NOERROR, Answered::No, 2)),
    // the next closer name of an expansion, which may be the name
    ("example.", Hashes("a.c.example.", MX, NO_OPT_OUT, NOERROR, Answered::Expanded(1), 2)),
    ("example.", Hashes("a.c.example.", MX, NO_OPT_OUT, NOERROR, Answered::Expanded(2), 1)),
];

fn are_hashed(alloc: Global, query: &Query, zone: &Name, row: &Hashes) -> bool {
    match records_of(alloc, row.2) {
        Ok(records) => {
            let mut count = 0;
            let counted = Counted(&records);
            nsec3_verdict(query, zone, row.3, row.4, &counted, 100, 500, &mut count);
            count == row.5
        }
        Err(_) => false,
    }
}

impl NameRow for Hashes {
    fn holds(&self, alloc: Global, zone: &Name) -> bool {
        match query_of(alloc, self.0, self.1.0) {
            Ok(query) => are_hashed(alloc, &query, zone, self),
            Err(_) => false,
        }
    }
}

#[test]
fn no_name_is_hashed_twice(rt: HostRuntime) {
    check_names(&rt, rt.alloc(), COUNTS);
}

/// Records, and whether they show that the row's child isn't signed.
struct Unsigned(&'static [Told], bool);

const UNSIGNED: &[(&str, Unsigned)] = &[
    // in a span without opt-out
    ("c.example.", Unsigned(NO_OPT_OUT, false)),
    // in an opt-out span
    ("c.example.", Unsigned(OPT_OUT, true)),
    // below a child in an opt-out span
    ("a.c.example.", Unsigned(OPT_OUT, true)),
    // a delegation without DS
    ("deleg.signed.", Unsigned(UNSIGNED_DELEGATION, true)),
    // a delegation with DS
    ("deleg.signed.", Unsigned(SIGNED_DELEGATION, false)),
    // the apex
    ("example.", Unsigned(AT_THE_APEX, false)),
    // another zone's child
    ("deleg.signed.", Unsigned(OPT_OUT, false)),
    // no record
    ("c.example.", Unsigned(&[], false)),
];

impl NameRow for Unsigned {
    fn holds(&self, alloc: Global, child: &Name) -> bool {
        match records_of(alloc, self.0) {
            Ok(records) => verify_nsec3_insecure_delegation(child, &records) == self.1,
            Err(_) => false,
        }
    }
}

#[test]
fn unsigned_delegations_are_shown(rt: HostRuntime) {
    check_names(&rt, rt.alloc(), UNSIGNED);
}

/// A byte of which a hash is made, records, and the number of the one that covers it.
struct Covers(u8, &'static [Told], Option<u32>);

#[rattlefmt::skip]
const COVERS: &[(&str, Covers)] = &[
    ("before the first of a round", Covers(0x44, ROUND, Some(1))),
    ("between the two of a round", Covers(0x88, ROUND, Some(0))),
    ("after the last of a round", Covers(0xdd, ROUND, Some(1))),
    ("an owner", Covers(0x55, ROUND, None)),
    ("a next hash", Covers(0xbb, ROUND, None)),
    ("before an owner that is its own next", Covers(0, ALONE, Some(0))),
    ("after an owner that is its own next", Covers(0xff, ALONE, Some(0))),
    ("the owner that is its own next", Covers(0x55, ALONE, None)),
    ("the first of two that are equal", Covers(0, TWICE, Some(0))),
    ("the nearest", Covers(0xdd, NEAREST, Some(0))),
    ("the nearest that comes second", Covers(0x88, NEAREST, Some(1))),
    ("the nearest past the end", Covers(0x44, NEAREST, Some(0))),
    ("one that isn't ignored", Covers(0, IGNORED, Some(1))),
    ("none of none", Covers(0, &[], None)),
];

impl Row for Covers {
    fn holds(&self, alloc: Global, _name: &str) -> bool {
        match records_of(alloc, self.1) {
            Ok(records) => {
                records.len() < 10 && nsec3_covering(&[self.0; 20], &records) == self.2
            }
            Err(_) => false,
        }
    }
}

#[test]
fn the_nearest_hash_covers(rt: HostRuntime) {
    check_rows(&rt, rt.alloc(), COVERS);
}

/// The labels of the zone, which is at or above the row's name, and the first three label counts of what may enclose
/// the name.
struct Candidates(u8, Option<u8>, Option<u8>, Option<u8>);

const CANDIDATES: &[(&str, Candidates)] = &[
    ("example.", Candidates(1, Some(1), None, None)),
    (".", Candidates(0, Some(0), None, None)),
    ("a.example.", Candidates(1, Some(2), Some(1), None)),
    ("a.z.w.example.", Candidates(1, Some(4), Some(3), Some(2))),
    ("a.example.", Candidates(0, Some(2), Some(1), Some(0))),
];

fn are_counted(name: &Name, zone: &Name, row: &Candidates) -> bool {
    if !zone.zone_of(name) {
        return false;
    }
    let mut candidates = EncloserCandidates::new(name, zone);
    let first = candidates.next();
    let second = candidates.next();
    first == row.1 && second == row.2 && candidates.next() == row.3
}

impl NameRow for Candidates {
    fn holds(&self, _alloc: Global, name: &Name) -> bool {
        match name.trim_to(self.0) {
            Ok(zone) => are_counted(name, &zone, self),
            Err(_) => false,
        }
    }
}

#[test]
fn candidates_are_counted_down(rt: HostRuntime) {
    check_names(&rt, rt.alloc(), CANDIDATES);
}
