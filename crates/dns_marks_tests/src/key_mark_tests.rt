//! The marks of DNSKEY sets, and how often the verifier is asked for one (RFC 4035, 5.2).

use crate::counting::Counting;
use crate::parts::*;
use crate::wanted::{Want, is_found, reads, text_of};
use dns_cache::{ProofError, ProofErrorKind};
use dns_marks::{KeysMark, ZoneVerdict, mark_keys};
use dns_model::Proof;
use dns_record::{Name, RecordSet, RecordType};
use dns_trust::TrustAnchors;
use std::alloc::Global;
use std::process::Abort;

/// The DS verdict of the owner that is handed in.
enum Zone {
    Unknown,
    Signed(&'static [&'static [u8]]),
    Insecure,
    Unsupported,
    Bogus,
}

/// What it shows; the owner of a key set, its keys, how many copies of `KEY` follow them, and its signatures;
/// whether `KEY` is an anchor; the DS verdict; the mark at second 1500, nothing where it needs the DS verdict; and how
/// often the verifier is asked.
struct Row(
    &'static str,
    &'static str,
    &'static [&'static [u8]],
    usize,
    &'static [&'static [u8]],
    bool,
    Zone,
    Want,
    u32,
);

/// Secure by the first signature, which is valid for 500 seconds more.
const SIGNED: Want = Want::Found(Proof::Secure, Some(500), Some(0));

/// Secure with no signature.
const WHOLE: Want = Want::Found(Proof::Secure, None, None);

const WITHOUT_KEY: Want = Want::Fails("Bogus: ds record exists, but no dnskey: example.");

#[rattlefmt::skip]
const ROWS: &[Row] = &[
    Row("an anchored key signed", "example.", &[KEY], 0, &[OVER_KEYS], true, Zone::Unknown, SIGNED, 1),
    Row("all keys are anchored", "example.", &[KEY], 0, &[], true, Zone::Bogus, WHOLE, 0),
    Row("the root has no DS", ".", &[KEY], 0, &[], false, Zone::Signed(&[DS]),
        Want::Fails("Bogus: no dnskey was found: ."), 0),
    Row("the DS verdict is needed", "example.", &[KEY], 0, &[OVER_KEYS], false, Zone::Unknown, Want::Nothing, 0),
    Row("the DS verdict is Insecure", "example.", &[KEY], 0, &[OVER_KEYS], false, Zone::Insecure,
        Want::Fails("Insecure: ds record does not exist: example."), 0),
    Row("the DS verdict is Insecure by its DS set", "example.", &[KEY], 0, &[], false, Zone::Unsupported,
        Want::Fails("Insecure: unknown or reserved key algorithm"), 0),
    Row("an anchored key signed, whatever the DS verdict", "example.", &[KEY], 0, &[OVER_KEYS], true, Zone::Insecure,
        SIGNED, 1),
    Row("the DS verdict is Bogus", "example.", &[KEY], 0, &[OVER_KEYS], false, Zone::Bogus,
        Want::Fails("Bogus: ds record should exist: example."), 0),
    Row("a matched key signed", "example.", &[KEY], 0, &[OVER_KEYS], false, Zone::Signed(&[DS]), SIGNED, 1),
    Row("all keys are matched", "example.", &[KEY], 0, &[], false, Zone::Signed(&[MISS, DS]), WHOLE, 0),
    Row("a key is neither anchored nor matched", "example.", &[KEY, OTHER_KEY], 0, &[], false, Zone::Signed(&[DS]),
        WITHOUT_KEY, 0),
    Row("no DS is there", "example.", &[KEY], 0, &[OVER_KEYS], false, Zone::Signed(&[]), WITHOUT_KEY, 0),
    Row("the third supported DS of a tag doesn't count", "example.", &[KEY], 0, &[OVER_KEYS], false,
        Zone::Signed(&[MISS, MISS, DS]), WITHOUT_KEY, 0),
    Row("only supported DS records are counted", "example.", &[KEY], 0, &[OVER_KEYS], false,
        Zone::Signed(&[UNSUPPORTED_DS, UNSUPPORTED_DS, DS]), SIGNED, 1),
    // another key stands before the copies, so that the set isn't wholly trusted: each signature is tried once
    Row("copies of a matched key", "example.", &[OTHER_KEY], 400, EIGHT, false, Zone::Signed(&[DS]), WITHOUT_KEY, 8),
    Row("copies of a matched key that is an anchor too", "example.", &[OTHER_KEY], 400, EIGHT, true,
        Zone::Signed(&[DS]), WITHOUT_KEY, 8),
];

/// Eight signatures over the keys of `example.` that no key made.
const EIGHT: &[&[u8]] = &[
    BY_NONE, BY_NONE, BY_NONE, BY_NONE, BY_NONE, BY_NONE, BY_NONE, BY_NONE,
];

const BY_NONE: &[u8] =
    b"\0\x30\x0d\x01\0\0\x02\x58\0\0\x07\xd0\0\0\x03\xe8\xae\xc9\x07example\0\xdd";

fn rows() -> &'static [Row] {
    ROWS
}

fn insecure(name: Name) -> ZoneVerdict {
    ZoneVerdict::Insecure(ProofErrorKind::DsResponseInsecure { name })
}

fn bogus(name: Name) -> ZoneVerdict {
    ZoneVerdict::Bogus(ProofErrorKind::DsRecordShouldExist { name })
}

/// The verdict on `example.`, or none.
fn verdict_of(rt: &impl Abort, alloc: Global, zone: &Zone) -> Option<ZoneVerdict> {
    match zone {
        Zone::Unknown => None,
        Zone::Signed(rdatas) => Some(ZoneVerdict::Signed(records_of(
            rt,
            alloc,
            "example.",
            RecordType::DS,
            rdatas,
        ))),
        Zone::Insecure => Some(insecure(name_of(rt, alloc, "example."))),
        Zone::Unsupported => Some(ZoneVerdict::Insecure(ProofErrorKind::UnknownKeyAlgorithm)),
        Zone::Bogus => Some(bogus(name_of(rt, alloc, "example."))),
    }
}

/// The row's anchor, which is the key of `KEY`, or none.
fn anchors_of(rt: &impl Abort, alloc: Global, row: &Row) -> TrustAnchors {
    let mut anchors = TrustAnchors::empty(alloc);
    if row.5 {
        trust(rt, alloc, &mut anchors, row.1, b"\xaa\xbb");
    }
    anchors
}

fn key_set(rt: &impl Abort, alloc: Global, row: &Row) -> RecordSet {
    let mut set = set_of(rt, alloc, row.1, RecordType::DNSKEY, row.2, row.4);
    fill(rt, alloc, &mut set.records, RecordType::DNSKEY, KEY, row.3);
    set
}

/// A mark, or why there is none, is the one that is wanted.
fn is_mark(
    rt: &impl Abort,
    alloc: Global,
    mark: &Result<KeysMark, ProofError>,
    want: &Want,
) -> bool {
    match mark {
        Ok(KeysMark::NeedDs) => matches!(want, Want::Nothing),
        Ok(KeysMark::Done(found)) => is_found(found, want),
        Err(error) => reads(rt, alloc, error, text_of(want)),
    }
}

/// A key set is marked so with these anchors and by this DS verdict, after so many questions.
fn is_marked(
    rt: &impl Abort,
    alloc: Global,
    set: &RecordSet,
    anchors: &TrustAnchors,
    zone: Option<&ZoneVerdict>,
    row: &Row,
) -> bool {
    if set.records.is_empty() {
        return false;
    }
    let verifier = Counting::new();
    let mark = mark_keys(alloc, &verifier, anchors, set, zone, 1500);
    is_mark(rt, alloc, &mark, &row.7) && verifier.questions.get() == row.8
}

fn is_shown(rt: &impl Abort, alloc: Global, row: &Row) -> bool {
    let set = key_set(rt, alloc, row);
    let anchors = anchors_of(rt, alloc, row);
    let zone = verdict_of(rt, alloc, &row.6);
    is_marked(rt, alloc, &set, &anchors, zone.as_ref(), row)
}

#[test]
fn key_sets_are_marked(rt: HostRuntime) {
    for row in rows() {
        check_row(&rt, row.0, is_shown(&rt, rt.alloc(), row));
    }
}
