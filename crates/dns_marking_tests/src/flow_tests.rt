//! What sets and endings ask, and what is found of a set by the asks that it makes.
use crate::flow_rows::{Asked, FROM_NAME, FROM_PARENT, INSECURE_B, Reply, Row, rows};
use crate::judged_steps::{LIMITS, Told, judged_sets, signed_set};
use crate::rows::check_row;
use crate::sets_tests::{message_of, query};
use dns_cache::{ProofError, ProofErrorKind};
use dns_evidence::{Listed, MarkedSet, PlacedSet};
use dns_flow::{Ask, Got, Need, Phase, found_of, start_cause, start_ending, start_set};
use dns_message::Message;
use dns_model::Proof;
use dns_outcome::Outcome;
use dns_record::{Query, RecordType};
use dns_trust::{Judge, TrustAnchors};
use std::alloc::Global;
use std::process::Abort;

fn got(rt: &impl Abort, alloc: Global, reply: &Reply) -> Got {
    match reply {
        Reply::Seen(probe) => Got::Probe(*probe),
        Reply::Refused => Got::Answer(None),
        Reply::Insecure => Got::Answer(Some(judged_sets(rt, alloc, INSECURE_B))),
    }
}

/// By what is judged, and the query of the step with the message that it got.
#[derive(Clone, Copy)]
struct Step<'a> {
    judge: &'a Judge<'a, Listed>,
    query: &'a Query,
    message: &'a Message,
}

/// A list of one, which one call lets go, while the drop of a phase goes over all its parts.
fn one<T: Drop>(rt: &impl Abort, alloc: Global, item: T) -> Vec<T> {
    let mut list = Vec::new(alloc);
    list.push(item).expect(rt, "memory");
    list
}

/// What the last phase needs.
fn last_need(rt: &impl Abort, alloc: Global, phases: &mut Vec<Phase>) -> Need {
    let phase = phases.pop().expect(rt, "a phase");
    phase.turn(alloc).expect(rt, "memory")
}

fn is_query(rt: &impl Abort, alloc: Global, asked: &Asked, ask: &Ask) -> bool {
    let expected = query(rt, alloc, asked.owner, asked.record_type);
    ask.query == expected && ask.judged == asked.judged
}

/// Whether the last phase needs this ask; the phase that asks is put back.
fn asks(rt: &impl Abort, alloc: Global, asked: &Asked, phases: &mut Vec<Phase>) -> bool {
    match last_need(rt, alloc, phases) {
        Need::Asks(ask, phase) => {
            phases.push(phase).expect(rt, "memory");
            is_query(rt, alloc, asked, &ask)
        }
        _ => false,
    }
}

/// Puts what an answer leads to in the place of what asked, and of its cause, if it has one.
fn lead(
    rt: &impl Abort,
    alloc: Global,
    step: &Step<'_>,
    got: Got,
    phases: &mut Vec<Phase>,
    causes: &mut Vec<ProofErrorKind>,
) {
    let phase = phases.pop().expect(rt, "a phase");
    let Some(cause) = causes.pop() else {
        let led = phase
            .after(alloc, step.judge, step.query, step.message, got)
            .expect(rt, "memory");
        phases.push(led).expect(rt, "memory");
        return;
    };
    let (phase, cause) = phase
        .after_with_cause(alloc, step.judge, step.query, step.message, got, cause)
        .expect(rt, "memory");
    phases.push(phase).expect(rt, "memory");
    causes.push(cause).expect(rt, "memory");
}

/// Whether these asks are made, one after another, and nothing else before them.
fn go(
    rt: &impl Abort,
    alloc: Global,
    step: &Step<'_>,
    all: &[Asked],
    phases: &mut Vec<Phase>,
    causes: &mut Vec<ProofErrorKind>,
) -> bool {
    for asked in all {
        if !asks(rt, alloc, asked, phases) {
            return false;
        }
        let got = got(rt, alloc, &asked.reply);
        lead(rt, alloc, step, got, phases, causes);
    }
    true
}

/// The mark and the cause of an error read so.
fn reads(rt: &impl Abort, alloc: Global, error: &ProofError, want: &str) -> bool {
    let text = format!(in alloc; "{error}").expect(rt, "memory");
    text.as_str() == want
}

/// What is found of a judged set by the cause that is left is an error that reads so.
fn is_error(
    rt: &impl Abort,
    alloc: Global,
    judged: &MarkedSet,
    causes: &mut Vec<ProofErrorKind>,
    want: &str,
) -> bool {
    let cause = causes.pop().expect(rt, "a cause");
    let found = found_of(500, judged, cause);
    match &found {
        Ok(_) => false,
        Err(error) => reads(rt, alloc, error, want),
    }
}

/// Whether a set has ended, and what is found of it reads so.
fn ends(
    rt: &impl Abort,
    alloc: Global,
    phases: &mut Vec<Phase>,
    causes: &mut Vec<ProofErrorKind>,
    want: &str,
) -> bool {
    let need = last_need(rt, alloc, phases);
    match &need {
        Need::SetEnds(ended) => is_error(rt, alloc, &ended.judged, causes, want),
        _ => false,
    }
}

fn first_causes(rt: &impl Abort, alloc: Global, told: &Told) -> Vec<ProofErrorKind> {
    let set = signed_set(rt, alloc, told);
    let cause = start_cause(&set).expect(rt, "memory");
    one(rt, alloc, cause)
}

fn first_phases(rt: &impl Abort, alloc: Global, step: &Step<'_>, told: &Told) -> Vec<Phase> {
    let placed = PlacedSet {
        section: told.section,
        set: signed_set(rt, alloc, told),
    };
    let start = start_set(alloc, step.judge, step.query, step.message, placed);
    one(rt, alloc, start.expect(rt, "memory"))
}

/// A set makes the asks of its row, and what is found of it reads as the row says.
fn is_found(rt: &impl Abort, alloc: Global, step: &Step<'_>, row: &Row) -> bool {
    let mut causes = first_causes(rt, alloc, &row.set);
    let mut phases = first_phases(rt, alloc, step, &row.set);
    go(rt, alloc, step, row.asks, &mut phases, &mut causes)
        && ends(rt, alloc, &mut phases, &mut causes, row.found)
}

/// Whether a step has ended with a denial that is Bogus.
fn is_denied(rt: &impl Abort, alloc: Global, phases: &mut Vec<Phase>) -> bool {
    let need = last_need(rt, alloc, phases);
    matches!(&need, Need::StepEnds(outcome) if *outcome == Outcome::Denied(Proof::Bogus))
}

/// An ending makes these asks, and the step is refused.
fn is_ended(rt: &impl Abort, alloc: Global, step: &Step<'_>, all: &[Asked]) -> bool {
    let start = start_ending(alloc, &LIMITS, step.query, step.message, &[]);
    let mut phases = one(rt, alloc, start.expect(rt, "memory"));
    let mut causes = Vec::new(alloc);
    go(rt, alloc, step, all, &mut phases, &mut causes) && is_denied(rt, alloc, &mut phases)
}

/// What is tried in a step: what is found by a row, or an ending by these asks.
#[derive(Clone, Copy)]
enum Tried<'a> {
    Found(&'a Row),
    Ending(&'a [Asked]),
}

/// Whether it holds in a step without anchors that asks for `a.b.`
fn holds_by(
    rt: &impl Abort,
    alloc: Global,
    judge: &Judge<'_, Listed>,
    asked: RecordType,
    tried: &Tried<'_>,
) -> bool {
    let query = query(rt, alloc, "a.b.", asked);
    let message = message_of(Vec::new(alloc), alloc);
    let step = Step {
        judge,
        query: &query,
        message: &message,
    };
    match tried {
        Tried::Found(row) => is_found(rt, alloc, &step, row),
        Tried::Ending(all) => is_ended(rt, alloc, &step, all),
    }
}

fn holds(rt: &impl Abort, alloc: Global, asked: RecordType, tried: &Tried<'_>) -> bool {
    let anchors = TrustAnchors::empty(alloc);
    let verifier = Listed::new(alloc);
    let judge = Judge {
        verifier: &verifier,
        anchors: &anchors,
        moment: 500,
    };
    holds_by(rt, alloc, &judge, asked, tried)
}

#[test]
fn what_is_found_of_a_set_tells_why_it_is_not_secure(rt: HostRuntime) {
    for row in rows() {
        let held = holds(&rt, rt.alloc(), RecordType::A, &Tried::Found(row));
        check_row(&rt, row.shows, held);
    }
}

#[test]
fn an_ending_searches_the_zone_of_its_query(rt: HostRuntime) {
    let from_name = holds(&rt, rt.alloc(), RecordType::A, &Tried::Ending(FROM_NAME));
    check_row(&rt, "from the name", from_name);
    let from_parent = holds(&rt, rt.alloc(), RecordType::DS, &Tried::Ending(FROM_PARENT));
    check_row(&rt, "a DS from the parent", from_parent);
}
