//! The marks of whole sets, and how often the verifier is asked for one: for its signatures in turn, up to the first
//! that proves it, and for eight at the most (RFC 4035, 5.3.3).

ghost use Rattle.std.specs.Prelude.{◌≡◌, ◌<◌};

use crate::counting::Counting;
use crate::parts::*;
use crate::wanted::{Want, is_wanted};
use dns_cache::{ProofError, ProofErrorKind, RrsetProof};
use dns_evidence::Steps;
use dns_marks::{KeyAnswer, mark_rrset};
use dns_model::Proof;
use dns_record::{DNSClass, Query, RecordSet, RecordType};
use dns_trust::first_signatures;
use std::alloc::Global;
use std::marker::Brand;
use std::process::Abort;
use std::sync::ledger::{Blank, Ledger};

/// What came of the ask of a signature: the signer that was asked for in vain, or keys by rdata and mark.
enum Told {
    Skipped,
    Failed(&'static str),
    Keys(&'static [(&'static [u8], Proof)]),
}

/// What it shows; the owner of an NS set, and its signatures; what came of the asks of the first eight; what they come
/// to at second 1500; and how often the verifier is asked.
struct Row(
    &'static str,
    &'static str,
    &'static [&'static [u8]],
    &'static [Told],
    Want,
    u32,
);

/// Signatures over an NS set of the root: one that no key made, one that `KEY` made, and the same when it has expired
/// at 1500.
const ROOT_REFUSED: &[u8] = b"\0\x02\x0d\0\0\0\x02\x58\0\0\x07\xd0\0\0\x03\xe8\xae\xc9\0\xcc";

const ROOT_GOOD: &[u8] = b"\0\x02\x0d\0\0\0\x02\x58\0\0\x07\xd0\0\0\x03\xe8\xae\xc9\0\xaa\xbb";

const ROOT_EXPIRED: &[u8] = b"\0\x02\x0d\0\0\0\x02\x58\0\0\x05\xdb\0\0\x03\xe8\xae\xc9\0\xaa\xbb";

const SECURE: Told = Told::Keys(&[(KEY, Proof::Secure)]);

const INSECURE: Told = Told::Keys(&[(KEY, Proof::Insecure)]);

const BOGUS: Told = Told::Keys(&[(KEY, Proof::Bogus)]);

/// Two keys of a tag.
const BOTH: Told = Told::Keys(&[(KEY_BEFORE, Proof::Secure), (KEY, Proof::Secure)]);

/// Another key of the algorithm and the tag of `KEY`.
const KEY_BEFORE: &[u8] = b"\x01\x01\x03\x0d\xa9\xbb\x01";

const UNVERIFIED: Want = Want::Fails(
    "Bogus: rrsigs were not able to be verified: example., type: NS",
);

const ROOT_UNVERIFIED: Want = Want::Fails(
    "Bogus: rrsigs were not able to be verified: ., type: NS",
);

#[rattlefmt::skip]
const ROWS: &[Row] = &[
    Row("the first Secure signature decides", "example.", &[OVER_NS, OVER_NS, OVER_NS], &[INSECURE, SECURE, SECURE],
        Want::Found(Proof::Secure, Some(500), Some(1)), 1),
    Row("one that fails goes before it", "example.", &[REFUSED, OVER_NS, OVER_NS], &[SECURE, BOGUS, SECURE],
        Want::Found(Proof::Secure, Some(500), Some(2)), 2),
    Row("else the first Insecure one", "example.", &[OVER_NS, REFUSED, OVER_NS], &[BOGUS, INSECURE, INSECURE],
        Want::Found(Proof::Insecure, None, Some(1)), 0),
    Row("it decides whatever asks failed", "example.", &[OVER_NS, OVER_NS], &[Told::Failed("a."), INSECURE],
        Want::Found(Proof::Insecure, None, Some(1)), 0),
    Row("no signature was asked for", "example.", &[OVER_NS, OVER_NS], &[Told::Skipped, Told::Skipped],
        Want::Fails("Bogus: rrsigs are not present for: example. record_type: NS"), 0),
    Row("the first ask that failed is told", "example.", &[OVER_NS, OVER_NS, OVER_NS, OVER_NS],
        &[Told::Skipped, BOGUS, Told::Failed("a."), Told::Failed("b.")],
        Want::Fails("Bogus: communication failure for query: a. IN DNSKEY"), 0),
    Row("every ask was answered", "example.", &[REFUSED, OVER_NS], &[SECURE, Told::Skipped], UNVERIFIED, 1),
    Row("a signature by a key that is Bogus excuses nothing", "example.", &[OVER_NS], &[BOGUS], UNVERIFIED, 0),
    Row("nor one beside which another key is Bogus", "example.", &[OVER_NS],
        &[Told::Keys(&[(KEY, Proof::Insecure), (OTHER_KEY, Proof::Bogus)])], UNVERIFIED, 0),
    Row("nor one without a key", "example.", &[OVER_NS], &[Told::Keys(&[])], UNVERIFIED, 0),
    Row("the ninth signature counts for nothing", "example.",
        &[REFUSED, REFUSED, REFUSED, REFUSED, REFUSED, REFUSED, REFUSED, REFUSED, OVER_NS],
        &[BOGUS, BOGUS, BOGUS, BOGUS, BOGUS, BOGUS, BOGUS, BOGUS], UNVERIFIED, 0),
    Row("eight signatures by two keys of a tag", ".",
        &[ROOT_REFUSED, ROOT_REFUSED, ROOT_REFUSED, ROOT_REFUSED, ROOT_REFUSED, ROOT_REFUSED, ROOT_REFUSED,
        ROOT_REFUSED],
        &[BOTH, BOTH, BOTH, BOTH, BOTH, BOTH, BOTH, BOTH], ROOT_UNVERIFIED, 16),
    Row("the first of eight is good, by the second key", ".",
        &[ROOT_GOOD, ROOT_GOOD, ROOT_GOOD, ROOT_GOOD, ROOT_GOOD, ROOT_GOOD, ROOT_GOOD, ROOT_GOOD],
        &[BOTH, BOTH, BOTH, BOTH, BOTH, BOTH, BOTH, BOTH], Want::Found(Proof::Secure, Some(500), Some(0)), 2),
    Row("the fifth is good, behind one that is refused, one that has expired, and two without a Secure key", ".",
        &[ROOT_REFUSED, ROOT_EXPIRED, ROOT_GOOD, ROOT_GOOD, ROOT_GOOD, ROOT_GOOD],
        &[BOTH, BOTH, INSECURE, Told::Skipped, SECURE, SECURE], Want::Found(Proof::Secure, Some(500), Some(4)), 3),
    Row("the ninth isn't tried", ".",
        &[ROOT_REFUSED, ROOT_REFUSED, ROOT_REFUSED, ROOT_REFUSED, ROOT_REFUSED, ROOT_REFUSED, ROOT_REFUSED,
        ROOT_REFUSED, ROOT_GOOD],
        &[SECURE, SECURE, SECURE, SECURE, SECURE, SECURE, SECURE, SECURE], ROOT_UNVERIFIED, 8),
    Row("by an Insecure key nothing is asked", ".", &[ROOT_GOOD, ROOT_GOOD], &[INSECURE, INSECURE],
        Want::Found(Proof::Insecure, None, Some(0)), 0),
];

fn rows() -> &'static [Row] {
    ROWS
}

fn answer_of(rt: &impl Abort, alloc: Global, owner: &str, told: &Told) -> KeyAnswer {
    match told {
        Told::Skipped => KeyAnswer::Skipped,
        Told::Failed(signer) => KeyAnswer::Failed(Query {
            name: name_of(rt, alloc, signer),
            query_type: RecordType::DNSKEY,
            query_class: DNSClass::IN,
        }),
        Told::Keys(keys) => {
            KeyAnswer::Keys(marked_records(rt, alloc, owner, RecordType::DNSKEY, keys))
        }
    }
}

/// A copy of an answer, which outlives it.
fn copied_answer(rt: &impl Abort, alloc: Global, owner: &str, told: &Told) -> KeyAnswer {
    let answer = answer_of(rt, alloc, owner, told);
    answer.try_clone().expect(rt, "memory")
}

fn answers_of(rt: &impl Abort, alloc: Global, row: &Row) -> Vec<KeyAnswer> {
    let mut answers = Vec::new(alloc);
    for told in row.3 {
        let answer = copied_answer(rt, alloc, row.1, told);
        answers.push(answer).expect(rt, "memory");
    }
    answers
}

/// The mark of a set at second 1500.
fn found<L: Ledger>(
    alloc: Global,
    verifier: &Counting,
    set: &RecordSet,
    answers: &[KeyAnswer],
    blank: Blank,
) -> Result<RrsetProof, ProofError>
    requires name { blank.name ≡ L.name }
    requires parts { blank.parts ≡ L.parts }
    requires some { 0 < blank.parts }
{
    if set.records.len() == 0
        || set.rrsigs.len() == 0
        || answers.len() != first_signatures(set).len()
    {
        return Err(ProofError::new(Proof::Bogus, ProofErrorKind::NoMemory));
    }
    let mut steps = Steps::<L>::new(blank);
    mark_rrset(alloc, verifier, set, answers, 1500, &mut steps)
}

/// A set is marked as the row says, after as many questions.
fn is_marked(
    rt: &impl Abort,
    alloc: Global,
    set: &RecordSet,
    answers: &[KeyAnswer],
    row: &Row,
) -> bool {
    let verifier = Counting::new();
    let mark = found::<Brand>(alloc, &verifier, set, answers, Blank::new(1));
    is_wanted(rt, alloc, &mark, &row.4) && verifier.questions.get() == row.5
}

fn is_shown(rt: &impl Abort, alloc: Global, row: &Row) -> bool {
    let answers = answers_of(rt, alloc, row);
    let set = set_of(rt, alloc, row.1, RecordType::NS, &[b"\x01a\0"], row.2);
    is_marked(rt, alloc, &set, &answers, row)
}

#[test]
fn sets_are_marked_by_their_signatures(rt: HostRuntime) {
    for row in rows() {
        check_row(&rt, row.0, is_shown(&rt, rt.alloc(), row));
    }
}
