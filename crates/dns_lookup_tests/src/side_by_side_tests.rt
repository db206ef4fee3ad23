//! Validations side by side, which one upstream answers in any order: each gives what a lookup gives.
use crate::driven_tests::{comes_to, reported, serves};
use crate::given::{
    MOMENT, accept_all, anchors_of, put_message, put_replies, upstream_of, verifier_of,
};
use crate::rows::check_held;
use crate::scenes::{name_error, unsigned_cut};
use crate::validating::{answer_over, begun};
use dns_cache::ListCache;
use dns_evidence::Listed;
use dns_handle::NetError;
use dns_record::RecordType;
use dns_recorded::Recorded;
use dns_trust::{Judge, TrustAnchors};
use dns_validation::{Validation, Wanted};
use std::alloc::Global;
use std::process::Abort;

/// A question: a name, and a type.
struct Question(&'static str, RecordType);

/// What is asked: an address below a delegation without DS, a name that isn't there, a DS set that is denied, a key set, servers,
/// no servers, and a name of which nothing is known.
const QUESTIONS: &[Question] = &[
    Question("child.example.", RecordType::A),
    Question("ml.example.", RecordType::A),
    Question("child.example.", RecordType::DS),
    Question("example.", RecordType::DNSKEY),
    Question("child.example.", RecordType::NS),
    Question("www.child.example.", RecordType::NS),
    Question("nothing.example.", RecordType::A),
];

/// No servers of `www.child.example.`
const NO_SERVERS: &[u8] = b"\0\0\x84\0\0\x01\0\0\0\0\0\0\x03www\x05child\x07example\0\0\x02\0\x01";

/// How many validations of each question begin.
const ROUNDS: u32 = 15;

/// How many of them come to their end.
const COUNT: usize = 100;

/// How many asks are answered at most: each question makes fewer than eight.
const MOST_ANSWERS: u32 = 1_000;

fn questions() -> &'static [Question] {
    QUESTIONS
}

/// The verifier of an unsigned delegation and of a name error, whose zone and whose trust are the same.
fn verifier_of_both(rt: &impl Abort, alloc: Global) -> Listed {
    let mut verifier = verifier_of(rt, alloc, unsigned_cut());
    accept_all(rt, &mut verifier, name_error());
    verifier
}

/// An upstream that answers for both.
fn upstream_of_both(rt: &impl Abort, alloc: Global) -> Recorded {
    let mut upstream = upstream_of(rt, alloc, unsigned_cut());
    put_replies(rt, alloc, &mut upstream, name_error().replies);
    put_message(
        rt,
        alloc,
        &mut upstream,
        "www.child.example.",
        RecordType::NS,
        NO_SERVERS,
    );
    upstream
}

/// A validation, and what it keeps.
#[derive(Drop)]
struct Driven<'a> {
    validation: Validation<'a, Listed>,
    cache: ListCache,
}

/// A validation of a question, by what is trusted.
fn one_begun<'a>(
    rt: &impl Abort,
    alloc: Global,
    anchors: &'a TrustAnchors,
    verifier: &'a Listed,
    question: &Question,
) -> Driven<'a> {
    let judge = Judge {
        verifier,
        anchors,
        moment: MOMENT,
    };
    Driven {
        validation: begun(rt, alloc, judge, question.0, question.1),
        cache: ListCache::new(alloc, 1_000),
    }
}

/// As many validations and some more, of one question after another.
fn all_begun<'a>(
    rt: &impl Abort,
    alloc: Global,
    anchors: &'a TrustAnchors,
    verifier: &'a Listed,
) -> Vec<Driven<'a>> {
    let mut all = Vec::new(alloc);
    for _ in 0..ROUNDS {
        for question in questions() {
            let one = one_begun(rt, alloc, anchors, verifier, question);
            all.push(one).expect(rt, "memory");
        }
    }
    all
}

/// One ask is made and answered, or one set served; false where it wants nothing, and then a further reply is let go.
fn goes_on(
    rt: &impl Abort,
    alloc: Global,
    upstream: &mut Recorded,
    driven: &mut Driven<'_>,
) -> bool {
    let Driven { validation, cache } = driven;
    if serves(rt, alloc, upstream, cache, validation) {
        return true;
    }
    validation.answer(Err(NetError::Timeout));
    false
}

/// The next of some numbers that a seed gives (Knuth, MMIX).
fn drawn(seed: &mut u64) -> u64 {
    *seed = seed
        .wrapping_mul(6_364_136_223_846_793_005)
        .wrapping_add(1_442_695_040_888_963_407);
    *seed >> 33
}

/// Answers one of those that still ask, by a number; false where none does.
fn one_goes_on(
    rt: &impl Abort,
    alloc: Global,
    upstream: &mut Recorded,
    all: &mut Vec<Driven<'_>>,
    asking: &mut Vec<usize>,
    number: u64,
) -> bool {
    let count = asking.len();
    if count == 0 {
        return false;
    }
    let place = (number as usize) % count;
    let Some(driven) = all.get_mut(asking[place]) else {
        return false;
    };
    if !goes_on(rt, alloc, upstream, driven) {
        asking.swap_remove(place);
    }
    true
}

/// Answers so many asks in an order that the seed gives, as long as there are some.
fn drive(
    rt: &impl Abort,
    alloc: Global,
    upstream: &mut Recorded,
    all: &mut Vec<Driven<'_>>,
    seed: u64,
    most: u32,
) {
    let mut asking = Vec::new(alloc);
    for place in 0..all.len() {
        asking.push(place).expect(rt, "memory");
    }
    let mut seed = seed;
    for _ in 0..most {
        let number = drawn(&mut seed);
        if !one_goes_on(rt, alloc, upstream, all, &mut asking, number) {
            break;
        }
    }
}

/// The text of a lookup of a question.
fn looked_up(rt: &impl Abort, alloc: Global, question: &Question) -> Vec<u8> {
    let upstream = upstream_of_both(rt, alloc);
    let anchors = anchors_of(rt, alloc, unsigned_cut());
    let verifier = verifier_of_both(rt, alloc);
    let (name, query_type) = (question.0, question.1);
    let answer = answer_over(rt, alloc, upstream, anchors, verifier, name, query_type);
    reported(rt, alloc, answer)
}

/// What lookups answer, one question after another.
fn all_looked_up(rt: &impl Abort, alloc: Global) -> Vec<Vec<u8>> {
    let mut all = Vec::new(alloc);
    for question in questions() {
        all.push(looked_up(rt, alloc, question))
            .expect(rt, "memory");
    }
    all
}

/// It comes to this text.
fn answers_so(rt: &impl Abort, alloc: Global, driven: Driven<'_>, wanted: &[u8]) -> bool {
    let Driven { validation, cache } = driven;
    let text = comes_to(rt, alloc, validation);
    text.as_slice() == wanted
}

/// Each answers what the lookup of its question did; the last is looked at first.
fn all_answer(
    rt: &impl Abort,
    alloc: Global,
    all: &mut Vec<Driven<'_>>,
    wanted: &[Vec<u8>],
) -> bool {
    let count = wanted.len();
    if count == 0 {
        return false;
    }
    let mut held = true;
    for _ in 0..all.len() {
        if let Some(driven) = all.pop() {
            let same = answers_so(rt, alloc, driven, &wanted[all.len() % count]);
            held = held && same;
        }
    }
    held
}

/// When some asks are answered, all but a hundred validations are dropped, and these come to what lookups give.
fn come_to(
    rt: &impl Abort,
    alloc: Global,
    anchors: &TrustAnchors,
    verifier: &Listed,
    wanted: &[Vec<u8>],
    seed: u64,
) -> bool {
    let mut all = all_begun(rt, alloc, anchors, verifier);
    let mut upstream = upstream_of_both(rt, alloc);
    drive(rt, alloc, &mut upstream, &mut all, seed, 150);
    all.truncate(COUNT);
    drive(rt, alloc, &mut upstream, &mut all, seed, MOST_ANSWERS);
    all.len() == COUNT && all_answer(rt, alloc, &mut all, wanted)
}

/// The same by a seed.
fn come_to_lookups(rt: &impl Abort, alloc: Global, seed: u64) -> bool {
    let wanted = all_looked_up(rt, alloc);
    let anchors = anchors_of(rt, alloc, unsigned_cut());
    let verifier = verifier_of_both(rt, alloc);
    come_to(rt, alloc, &anchors, &verifier, &wanted, seed)
}

#[test]
fn a_hundred_validations_side_by_side_answer_as_lookups_do(rt: HostRuntime) {
    for seed in 1..=3_u64 {
        let held = come_to_lookups(&rt, rt.alloc(), seed);
        check_held(&rt, "by each seed", held);
    }
}

/// It goes on twice, and is told that memory ran out where it asks: it asks nothing more, and lets a further reply go.
fn is_stopped(
    rt: &impl Abort,
    alloc: Global,
    upstream: &mut Recorded,
    driven: &mut Driven<'_>,
) -> bool {
    let goes = goes_on(rt, alloc, upstream, driven) && goes_on(rt, alloc, upstream, driven);
    let wanted = driven.validation.next();
    let asks = matches!(&wanted, Some(Wanted::Reply(_)));
    driven.validation.answer(Err(NetError::NoMemory));
    goes && asks && !goes_on(rt, alloc, upstream, driven)
}

/// It answers that memory ran out.
fn ends_so(rt: &impl Abort, driven: Driven<'_>) -> bool {
    let Driven { validation, cache } = driven;
    let answer = validation.into_answer().expect(rt, "an answer");
    matches!(&answer, Err(NetError::NoMemory))
}

/// A validation of the first question is stopped, and ends so.
fn ends_out_of_memory(
    rt: &impl Abort,
    alloc: Global,
    anchors: &TrustAnchors,
    verifier: &Listed,
) -> bool {
    let question = questions().first().expect(rt, "a question");
    let mut one = one_begun(rt, alloc, anchors, verifier, question);
    let mut upstream = upstream_of_both(rt, alloc);
    let stopped = is_stopped(rt, alloc, &mut upstream, &mut one);
    let ended = ends_so(rt, one);
    stopped && ended
}

#[test]
fn out_of_memory_ends_a_validation(rt: HostRuntime) {
    let anchors = anchors_of(&rt, rt.alloc(), unsigned_cut());
    let verifier = verifier_of_both(&rt, rt.alloc());
    let held = ends_out_of_memory(&rt, rt.alloc(), &anchors, &verifier);
    check_held(&rt, "it ends with that", held);
}
