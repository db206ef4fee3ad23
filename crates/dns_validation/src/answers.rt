//! The answer of a validation.

ghost use Rattle.std.specs.Prelude.{◌≡◌, ◌++◌, ◌∷◌, [], IfOk};
ghost use Rattle.dns_model.specs.SoundAnswers.{told_by};
ghost use Rattle.dns_rules.specs.ChainedSets.{finished as finished_value};
ghost use Rattle.dns_handle.specs.Errors as seen;
ghost use Rattle.dns_handle.specs.Replies.{reply_of, error_of};
ghost use Rattle.dns_evidence.specs.Trail.{ending_value};
ghost use Rattle.dns_outcome.specs.Outcome.{outcome_value};
ghost use Rattle.dns_validation.specs.AnswerParts.{found_by};
ghost use Rattle.dns_validation.specs.Steps.{judged_answer, denied_by, trail_of as steps_with_top};

use crate::receiving::ReceivedMessage;
use crate::steps::{StepEnd, ended};
use dns_evidence::{Asked, ChainedSet, Ending, JudgedSet, Reply, Told, Trail};
use dns_handle::{DnsError, DnsResponse, NetError};
use dns_marking::finished;
use dns_model::{AskRef, Denial, Proof};
use dns_outcome::Outcome;
use dns_record::{NoMemory, Query, Record, clone_records};
use std::alloc::Global;

/// The reply to the first ask, whose sets are judged, with the steps and the asks that this took.
#[derive(Drop)]
pub(crate) struct JudgedReply {
    pub(crate) query: Query,
    pub(crate) received: ReceivedMessage,
    pub(crate) steps: Vec<Asked>,
    pub(crate) sets: Vec<ChainedSet>,
    pub(crate) entries: Vec<JudgedSet>,
    pub(crate) excuse: Vec<AskRef>,
}

/// The answer that a judged reply makes, by what its sets come to. `now` is in seconds.
pub(crate) fn answer_of(
    alloc: Global,
    now: u64,
    reply: JudgedReply,
    outcome: Outcome,
) -> Result<Result<DnsResponse, NetError>, NoMemory>
    ensures { IfOk result (λ a. reply_of a ≡ judged_answer now reply.query (found_by reply (outcome_value outcome))) }
{
    match outcome {
        Outcome::Given(denial) => given_answer(alloc, now, reply, denial),
        // a search never is what a step comes to
        Outcome::NeedsZone => denied_answer(alloc, now, reply, Proof::Bogus),
        Outcome::Denied(proof) => denied_answer(alloc, now, reply, proof),
    }
}

// The answer that is given, with what it denies.
fn given_answer(
    alloc: Global,
    now: u64,
    reply: JudgedReply,
    denial: Denial,
) -> Result<Result<DnsResponse, NetError>, NoMemory>
    ensures { IfOk result (λ a. reply_of a
        ≡ judged_answer now reply.query (found_by reply (outcome_value (Outcome.Given denial)))) }
{
    let response = response_of(alloc, now, reply, Ending::Answered(denial), denial)?;
    Ok(Ok(response))
}

// The error that denies the answer, with the answer inside.
fn denied_answer(
    alloc: Global,
    now: u64,
    reply: JudgedReply,
    proof: Proof,
) -> Result<Result<DnsResponse, NetError>, NoMemory>
    ensures { IfOk result (λ a. reply_of a
        ≡ denied_by now reply.query (found_by reply (outcome_value (Outcome.Denied proof))) proof) }
{
    let query = reply.query.try_clone()?;
    let response = response_of(alloc, now, reply, Ending::Denied(proof), Denial::None)?;
    let denied = denied(alloc, query, response, proof)?;
    Ok(Err(denied))
}

// The response of a judged reply, whose step ends so.
fn response_of(
    alloc: Global,
    now: u64,
    reply: JudgedReply,
    ending: Ending,
    denial: Denial,
) -> Result<DnsResponse, NoMemory>
    ensures { IfOk result (λ r. r ≡ finished_value now reply.sets.items reply.received.message denial
        (steps_with_top reply.query (found_by reply (outcome_value Outcome.NeedsZone)) (ending_value ending))) }
{
    let told = told_of(&reply.received)?;
    let JudgedReply {
        query,
        received,
        steps,
        sets,
        entries,
        excuse,
    } = reply;
    let end = StepEnd {
        reply: Reply::Told(told),
        ending,
    };
    let top = ended(query, 0, end, entries, excuse);
    let trail = trail_of(steps, top)?;
    finished(alloc, now, sets, received.into_message(), denial, trail)
}

// The error that an answer is denied, with the answer inside.
fn denied(
    alloc: Global,
    query: Query,
    response: DnsResponse,
    proof: Proof,
) -> Result<NetError, NoMemory>
    ensures { IfOk result (λ e. error_of e ≡ seen.Dns (seen.Nsec query response proof)) }
{
    let response = Box::new(alloc, response)?;
    Ok(NetError::Dns(DnsError::Nsec {
        query,
        response,
        proof,
    }))
}

/// The error that names a record of another class.
pub(crate) fn foreign_error(foreign: &Record) -> Result<NetError, NoMemory>
    ensures { IfOk result (λ e. error_of e
        ≡ seen.ForeignClassRecord foreign.now.owner foreign.now.class foreign.now.rtype) }
{
    let record_name = foreign.name.try_clone()?;
    Ok(NetError::ForeignClassRecord {
        record_name,
        record_class: foreign.dns_class,
        record_type: foreign.record_type,
    })
}

// The steps of the asks, and then the step that asked for the query.
fn trail_of(steps: Vec<Asked>, top: Asked) -> Result<Trail, NoMemory>
    ensures { IfOk result (λ t. t ≡ steps.items ++ top ∷ []) }
{
    let mut steps = steps;
    steps.push(top)?;
    Ok(Trail { steps })
}

// What a message tells, in memory of its own, since the answer holds the message.
fn told_of(received: &ReceivedMessage) -> Result<Told, NoMemory>
    ensures { IfOk result (λ t. t ≡ (told_by received.now.message, received.now.empty)) }
{
    let message = &received.message;
    Ok(Told {
        code: message.response_code,
        empty: received.empty,
        answers: clone_records(&message.answers)?,
        authorities: clone_records(&message.authorities)?,
        additionals: clone_records(&message.additionals)?,
    })
}
