//! What signatures prove by keys with marks, and how often the verifier is asked for one: for each key that counts and
//! passes every other test, in turn, up to the first by which the signature is good (RFC 4035, 5.3). Contracts see the
//! counter of steps, and not the verifier.

ghost use Rattle.std.specs.Prelude.{◌≡◌, ◌<◌};

use crate::counting::Counting;
use crate::parts::*;
use crate::wanted::{Want, is_found, is_wanted};
use dns_cache::{ProofError, ProofErrorKind, RrsetProof};
use dns_evidence::Steps;
use dns_marks::{verify_rrset_with_dnskey, verify_rrsig_with_keys};
use dns_model::Proof;
use dns_rdata::{Dnskey, Rrsig};
use dns_record::{NoMemory, Record, RecordSet, RecordType};
use dns_trust::{Judge, TrustAnchors, is_good_by};
use std::alloc::Global;
use std::marker::Brand;
use std::process::Abort;
use std::sync::ledger::{Blank, Ledger};

/// What it shows; keys of `example.` by rdata and mark; a signature; the type of the set that is handed in in place of
/// NS; a moment; what the signature proves then; and how often the verifier is asked.
struct Row(
    &'static str,
    &'static [(&'static [u8], Proof)],
    &'static [u8],
    RecordType,
    u64,
    Want,
    u32,
);

const NS: RecordType = RecordType::NS;

/// A key of another protocol.
const OTHER_PROTOCOL: &[u8] = b"\x01\x01\x02\x0d\xaa\xbb\x01\x00";

/// `OVER_NS` as the key of another protocol and `HOST_KEY` would make it, as `REVOKED_KEY` and as `UNSUPPORTED_KEY`.
const BY_LONG: &[u8] =
    b"\0\x02\x0d\x01\0\0\x02\x58\0\0\x07\xd0\0\0\x03\xe8\xae\xc9\x07example\0\xaa\xbb\x01\x00";

const BY_REVOKED: &[u8] =
    b"\0\x02\x0d\x01\0\0\x02\x58\0\0\x07\xd0\0\0\x03\xe8\xaf\x49\x07example\0\xaa\xbb";

const BY_UNSUPPORTED: &[u8] =
    b"\0\x02\x0e\x01\0\0\x02\x58\0\0\x07\xd0\0\0\x03\xe8\xae\xca\x07example\0\xaa\xbb";

const SECURE: &[(&[u8], Proof)] = &[(KEY, Proof::Secure)];

const TWO: &[(&[u8], Proof)] = &[(KEY, Proof::Secure), (OTHER_KEY, Proof::Secure)];

const GOOD: Want = Want::Found(Proof::Secure, Some(500), None);

const INSECURE: Want = Want::Found(Proof::Insecure, None, None);

const NOT_GOOD: Want = Want::Fails(
    "Bogus: dnskey and rrset failed to verify: example. key_tag: 44745",
);

const NO_ZONE_KEY: Want = Want::Fails("Bogus: not a zone signing key: example. key_tag: 44745");

const EXPIRED: Want = Want::Fails("Bogus: ExpiredRrsig");

/// By one key.
#[rattlefmt::skip]
const BY_ONE: &[Row] = &[
    Row("the original ttl is the least", SECURE, OVER_NS, NS, 1000, Want::Found(Proof::Secure, Some(600), None), 1),
    Row("the seconds that it is still valid are the least", SECURE, OVER_NS, NS, 1500, GOOD, 1),
    Row("an Insecure key is told before its flags", &[(REVOKED_KEY, Proof::Insecure)], OVER_NS, NS, 1500,
        Want::Fails("Insecure: dnskey insecure: example., key_tag: 44745"), 0),
    Row("a key whose mark is Bogus gives it on", &[(REVOKED_KEY, Proof::Bogus)], OVER_NS, NS, 1500,
        Want::Fails("Bogus: dnskey insecure: example., key_tag: 44745"), 0),
    Row("a revoked key, by the signature's tag", &[(REVOKED_KEY, Proof::Secure)], OVER_NS, NS, 1500,
        Want::Fails("Bogus: dnskey revoked: example., key_tag: 44745"), 0),
    Row("a revoked key that made it", &[(REVOKED_KEY, Proof::Secure)], BY_REVOKED, NS, 1500,
        Want::Fails("Bogus: dnskey revoked: example., key_tag: 44873"), 0),
    Row("a key without the zone flag", &[(HOST_KEY, Proof::Secure)], BY_LONG, NS, 1500, NO_ZONE_KEY, 0),
    Row("a key of another protocol", &[(OTHER_PROTOCOL, Proof::Secure)], BY_LONG, NS, 1500, NO_ZONE_KEY, 0),
    Row("another algorithm is told before the moment", &[(UNSUPPORTED_KEY, Proof::Secure)], OVER_NS, NS, 2500,
        Want::Fails("Bogus: algorithm mismatch rrsig: 13 dnskey: 14"), 0),
    Row("the algorithm isn't supported", &[(UNSUPPORTED_KEY, Proof::Secure)], BY_UNSUPPORTED, NS, 1500,
        Want::Fails("Bogus: dnskey and rrset failed to verify: example. key_tag: 44746"), 0),
    Row("it has expired", SECURE, OVER_NS, NS, 2001, EXPIRED, 0),
    Row("it doesn't hold yet", SECURE, OVER_NS, NS, 999, EXPIRED, 0),
    Row("it covers another type", SECURE, OVER_KEYS, NS, 1500, Want::Fails("Bogus: WrongRrsig"), 0),
    Row("the key has another tag", &[(KEY_BESIDE, Proof::Secure)], OVER_NS, NS, 1500, Want::Fails("Bogus: WrongDnskey"),
        0),
    Row("another key of the same tag", &[(OTHER_KEY, Proof::Secure)], OVER_NS, NS, 1500, NOT_GOOD, 1),
    Row("the verifier refuses it", SECURE, REFUSED, NS, 1500, NOT_GOOD, 1),
];

/// By keys that have a mark each.
#[rattlefmt::skip]
const BY_KEYS: &[Row] = &[
    Row("a Secure key by which the signature is good", SECURE, OVER_NS, NS, 1500, GOOD, 1),
    Row("it proves the set behind an Insecure one of its tag", &[(OTHER_KEY, Proof::Insecure), (KEY, Proof::Secure)],
        OVER_NS, NS, 1500, GOOD, 1),
    Row("the third key of a tag doesn't count, whatever the marks of the first two",
        &[(OTHER_KEY, Proof::Bogus), (THIRD_KEY, Proof::Insecure), (KEY, Proof::Secure)], OVER_NS, NS, 1500,
        Want::Nothing, 0),
    Row("a key that is Bogus proves nothing, beside a Secure one by which the signature isn't good",
        &[(OTHER_KEY, Proof::Secure), (KEY, Proof::Bogus)], OVER_NS, NS, 1500, Want::Nothing, 1),
    Row("all keys are Insecure", &[(KEY, Proof::Insecure), (OTHER_KEY, Proof::Insecure)], OVER_NS, NS, 1500, INSECURE,
        0),
    Row("one of them isn't", &[(KEY, Proof::Insecure), (OTHER_KEY, Proof::Bogus)], OVER_NS, NS, 1500, Want::Nothing, 0),
    Row("no key is there", &[], OVER_NS, NS, 1500, Want::Nothing, 0),
    Row("a key that can't be read is none", &[(b"\x01", Proof::Insecure)], OVER_NS, NS, 1500, Want::Nothing, 0),
    Row("the signature can't be read, by an Insecure key", &[(KEY, Proof::Insecure)], b"\0\x02", NS, 1500,
        Want::Nothing, 0),
    Row("the signature can't be read, by a Secure key", SECURE, b"\0\x02", NS, 1500, Want::Nothing, 0),
    Row("an NSEC3 stands right below its signer", &[(KEY, Proof::Insecure)], OVER_NS, RecordType::NSEC3, 1500,
        Want::Nothing, 0),
    Row("the first of two keys of a tag", TWO, OVER_NS, NS, 1500, GOOD, 1),
    Row("the second of two keys of a tag", &[(OTHER_KEY, Proof::Secure), (KEY, Proof::Secure)], OVER_NS, NS, 1500, GOOD,
        2),
    Row("the third of three, which doesn't count",
        &[(OTHER_KEY, Proof::Secure), (THIRD_KEY, Proof::Secure), (KEY, Proof::Secure)], OVER_NS, NS, 1500,
        Want::Nothing, 2),
    Row("the second key of its tag, among keys of another",
        &[(KEY_BESIDE, Proof::Secure), (OTHER_KEY, Proof::Secure), (KEY_BESIDE, Proof::Secure), (KEY, Proof::Secure)],
        OVER_NS, NS, 1500, GOOD, 2),
    Row("copies of a key, of which two count", &[(KEY, Proof::Secure), (KEY, Proof::Secure), (KEY, Proof::Secure)],
        REFUSED, NS, 1500, Want::Nothing, 2),
    Row("two keys of a tag, when the signature has expired", TWO, OVER_NS, NS, 2001, Want::Nothing, 0),
];

fn by_one() -> &'static [Row] {
    BY_ONE
}

fn by_keys() -> &'static [Row] {
    BY_KEYS
}

/// Keys, and a set with one signature.
#[derive(Drop)]
struct Parts {
    keys: Vec<Record>,
    set: RecordSet,
}

fn parts_of(rt: &impl Abort, alloc: Global, row: &Row) -> Parts {
    let mut set = set_of(rt, alloc, "example.", NS, &[b"\x01a\0"], &[row.2]);
    set.record_type = row.3;
    Parts {
        keys: marked_records(rt, alloc, "example.", RecordType::DNSKEY, row.1),
        set,
    }
}

/// What the signature proves by the last key, whose mark counts.
fn proof_by_key<L: Ledger>(
    alloc: Global,
    verifier: &Counting,
    parts: &Parts,
    now: u64,
    blank: Blank,
) -> Result<RrsetProof, ProofError>
    requires name { blank.name ≡ L.name }
    requires parts { blank.parts ≡ L.parts }
    requires some { 0 < blank.parts }
{
    let Parts { keys, set } = parts;
    match (keys.last(), set.rrsigs.last()) {
        (Some(key), Some(sig))
            if Dnskey::of(key).is_some() && Rrsig::of(sig).is_some() && set.records.len() != 0 => {
            let mut steps = Steps::<L>::new(blank);
            verify_rrset_with_dnskey(alloc, verifier, key, sig, set, now, &mut steps)
        }
        _ => Err(ProofError::new(Proof::Bogus, ProofErrorKind::NoMemory)),
    }
}

/// It is good by the last key, whatever its mark.
fn is_good(rt: &impl Abort, alloc: Global, verifier: &Counting, parts: &Parts, now: u64) -> bool {
    let Parts { keys, set } = parts;
    let (Some(key), Some(sig)) = (keys.last(), set.rrsigs.last()) else {
        return false;
    };
    let anchors = TrustAnchors::empty(alloc);
    let judge = Judge {
        verifier,
        anchors: &anchors,
        moment: now,
    };
    is_good_by(alloc, &judge, set, sig, key).expect(rt, "memory")
}

/// What it proves by all keys, whose marks count.
fn proof_by_keys<L: Ledger>(
    alloc: Global,
    verifier: &Counting,
    parts: &Parts,
    now: u64,
    blank: Blank,
) -> Result<Option<RrsetProof>, NoMemory>
    requires name { blank.name ≡ L.name }
    requires parts { blank.parts ≡ L.parts }
    requires some { 0 < blank.parts }
{
    let Parts { keys, set } = parts;
    match set.rrsigs.last() {
        Some(sig) if set.records.len() != 0 => {
            let mut steps = Steps::<L>::new(blank);
            verify_rrsig_with_keys(alloc, verifier, keys, sig, set, now, &mut steps)
        }
        _ => Err(NoMemory),
    }
}

/// By the last key it proves what the row says. The verifier is asked as often where its mark counts as where it
/// doesn't: a row whose key isn't Secure has one by which no signature is good.
fn is_proved_by_key(rt: &impl Abort, alloc: Global, parts: &Parts, row: &Row) -> bool {
    let verifier = Counting::new();
    let good = is_good(rt, alloc, &verifier, parts, row.4);
    let once = verifier.questions.get();
    let mark = proof_by_key::<Brand>(alloc, &verifier, parts, row.4, Blank::new(1));
    is_wanted(rt, alloc, &mark, &row.5)
        && good == matches!(&row.5, Want::Found(..))
        && once == row.6
        && verifier.questions.get() == once.wrapping_add(row.6)
}

/// By all keys it does.
fn is_proved_by_keys(rt: &impl Abort, alloc: Global, parts: &Parts, row: &Row) -> bool {
    let verifier = Counting::new();
    let proved = proof_by_keys::<Brand>(alloc, &verifier, parts, row.4, Blank::new(1));
    let held = match &proved.expect(rt, "memory") {
        Some(found) => is_found(found, &row.5),
        None => matches!(&row.5, Want::Nothing),
    };
    held && verifier.questions.get() == row.6
}

#[test]
fn signatures_are_judged_by_one_key(rt: HostRuntime) {
    for row in by_one() {
        let parts = parts_of(&rt, rt.alloc(), row);
        let proved = is_proved_by_key(&rt, rt.alloc(), &parts, row);
        check_row(&rt, row.0, proved);
    }
}

#[test]
fn signatures_are_judged_by_keys_with_marks(rt: HostRuntime) {
    for row in by_keys() {
        let parts = parts_of(&rt, rt.alloc(), row);
        let proved = is_proved_by_keys(&rt, rt.alloc(), &parts, row);
        check_row(&rt, row.0, proved);
    }
}

const LARGE: &Row = &Row("the last key", SECURE, OVER_NS, NS, 1500, GOOD, 1);

/// Many keys, of which the last made the signature, and an NS set of many records.
fn large_parts(rt: &impl Abort, alloc: Global) -> Parts {
    let mut set = set_of(rt, alloc, "example.", NS, &[], &[OVER_NS]);
    fill(rt, alloc, &mut set.records, NS, b"\x01b\0", MANY);
    fill(rt, alloc, &mut set.records, NS, b"\x01a\0", 1);
    Parts {
        keys: many_and_one(rt, alloc, RecordType::DNSKEY, KEY_BESIDE, KEY),
        set,
    }
}

#[test]
fn a_set_of_70_000_records_is_proved_by_the_last_of_as_many_keys(rt: HostRuntime) {
    let parts = large_parts(&rt, rt.alloc());
    let by_key = is_proved_by_key(&rt, rt.alloc(), &parts, LARGE);
    let by_keys = is_proved_by_keys(&rt, rt.alloc(), &parts, LARGE);
    check_row(&rt, "by that key alone", by_key);
    check_row(&rt, "among them", by_keys);
}
