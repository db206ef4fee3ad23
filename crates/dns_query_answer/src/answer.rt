//! What is written of an answer.
ghost use Rattle.std.specs.Prelude.{◌≡◌, ◌++◌, IfOk, OnOk};
ghost use Rattle.std.specs.Option.{option_map};
ghost use Rattle.dns_causes.specs.Values.{kinds_by_step};
ghost use Rattle.dns_handle.specs.Replies.{error_of, reply_of};
ghost use Rattle.dns_trust.specs.Judge.{judge_of};
ghost use Rattle.dns_query_answer.specs.AnswerText.{answer_causes as causes_of_answer, answer_text, denial_sentence, error_text, explained, ok_text, refused_claim, refused_text, response_text, told_answer as answer_told, told_error as error_told};
ghost use Rattle.dns_query_answer.specs.PlaceValues.{explained_by};

use crate::denials::push_claim;
use crate::errors::push_error;
use crate::places::Context;
use crate::record_lines::push_records;
use crate::sentences::{push_denial, push_denial_sentence, push_signatures, push_top_sentences};
use dns_cache::ProofErrorKind;
use dns_causes::trail_causes;
use dns_evidence::{Limits, Verifier};
use dns_handle::{DnsError, DnsResponse, NetError};
use dns_model::Proof;
use dns_record::{NoMemory, Query, Record, ResponseCode};
use dns_text::push_text;
use dns_trust::Judge;
use std::alloc::Global;

/// The answer that a lookup came to, or the one inside its error: that is refused, since its denial doesn't hold.
pub fn told_answer(reply: &Result<DnsResponse, NetError>) -> Option<&DnsResponse>
    ensures { option_map (λ a. a.now) result ≡ answer_told (reply_of reply.now) }
{
    match reply {
        Ok(answer) => Some(answer),
        Err(
            NetError::Dns(
                DnsError::Nsec {
                    query: _,
                    response,
                    proof: _,
                },
            ),
        ) => Some(&**response),
        Err(_) => None,
    }
}

/// Why each set of an answer's trail isn't Secure, step by step, as `dns_causes` finds it within these limits; nothing where there is no
/// answer. It fails only where memory runs out.
pub fn answer_causes<V: Verifier>(
    alloc: Global,
    judge: &Judge<'_, V>,
    limits: &Limits,
    reply: &Result<DnsResponse, NetError>,
) -> Result<Vec<Vec<Option<ProofErrorKind>>>, NoMemory>
    ensures { IfOk result (λ v. kinds_by_step v.items
        ≡ causes_of_answer (judge_of V.answers judge.now) limits.now (reply_of reply.now)) }
{
    match told_answer(reply) {
        Some(answer) => trail_causes(
            alloc,
            judge.anchors,
            judge.verifier,
            judge.moment,
            limits,
            &answer.trail,
        ),
        None => Ok(Vec::new(alloc)),
    }
}

// Appends the lines of an answer that is given.
#[tactic(auto, unfolding(crate::specs::AnswerText::response_text))]
fn push_given(
    into: &mut Vec<u8>,
    query: &Query,
    context: &Context<'_>,
    answer: &DnsResponse,
) -> Result<(), NoMemory>
    ensures { OnOk result (into.new.items ≡ into.old.items ++ ok_text query.now (explained_by context.now) answer.now) }
{
    push_records(into, &answer.message.answers)?;
    push_denial(
        into,
        query,
        answer.message.response_code,
        context,
        answer.denial,
    )?;
    push_top_sentences(into, context)?;
    push_signatures(into, query, &answer.message.answers)
}

// What isn't shown.
fn refused_claim(
    alloc: Global,
    query: &Query,
    code: ResponseCode,
    answers: &[Record],
) -> Result<Vec<u8>, NoMemory>
    ensures { IfOk result (λ v. v.items ≡ refused_claim query.now code.0 answers.now) }
{
    let mut claim = Vec::new(alloc);
    push_text(&mut claim, b"it isn't shown that ")?;
    push_claim(&mut claim, query, code, answers)?;
    Ok(claim)
}

// Appends a sentence on what isn't shown.
fn push_refusal(
    into: &mut Vec<u8>,
    query: &Query,
    context: &Context<'_>,
    answer: &DnsResponse,
    proof: Proof,
) -> Result<(), NoMemory>
    ensures { OnOk result (into.new.items ≡ into.old.items ++ denial_sentence (explained_by context.now) proof
        (refused_claim query.now answer.now.message.response_code answer.now.message.answers)) }
{
    let claim = refused_claim(
        *into.allocator(),
        query,
        answer.message.response_code,
        &answer.message.answers,
    )?;
    push_denial_sentence(into, context, proof, &claim)
}

// Appends the lines of an answer that is refused.
#[tactic(auto, unfolding(crate::specs::AnswerText::response_text))]
fn push_refused(
    into: &mut Vec<u8>,
    query: &Query,
    context: &Context<'_>,
    answer: &DnsResponse,
    proof: Proof,
) -> Result<(), NoMemory>
    ensures { OnOk result (into.new.items ≡ into.old.items ++ refused_text query.now (explained_by context.now) answer.now proof) }
{
    push_records(into, &answer.message.answers)?;
    push_refusal(into, query, context, answer, proof)?;
    push_top_sentences(into, context)
}

// Appends the lines of an error.
fn push_no_answer(
    into: &mut Vec<u8>,
    query: &Query,
    moment: u64,
    causes: &[Vec<Option<ProofErrorKind>>],
    error: &NetError,
) -> Result<(), NoMemory>
    ensures { OnOk result (into.new.items ≡ into.old.items
        ++ error_text query.now moment (kinds_by_step causes.now) (error_of error.now)) }
{
    match error {
        NetError::Dns(
            DnsError::Nsec {
                query: _,
                response,
                proof,
            },
        ) => {
            let context = Context {
                moment,
                steps: &response.trail.steps,
                causes,
            };
            push_refused(into, query, &context, response, *proof)
        }
        _ => push_error(into, error),
    }
}

/// What is written of what a lookup of a question came to at a moment, in seconds since 1970, with the causes of its trail, as
/// [`answer_causes`] finds them: exactly the records of the answer section, in order, each as a line of a master file behind its
/// mark; a sentence on what is denied; and one on each set of the section that isn't Secure. Where there is no answer it is one line that
/// says why, and nothing where memory ran out. It fails only where memory runs out.
pub fn write_answer(
    alloc: Global,
    query: &Query,
    moment: u64,
    causes: &[Vec<Option<ProofErrorKind>>],
    reply: &Result<DnsResponse, NetError>,
) -> Result<Vec<u8>, NoMemory>
    ensures { IfOk result (λ v. v.items ≡ answer_text query.now moment (kinds_by_step causes.now) (reply_of reply.now)) }
{
    let mut text = Vec::new(alloc);
    match reply {
        Ok(answer) => {
            let context = Context {
                moment,
                steps: &answer.trail.steps,
                causes,
            };
            push_given(&mut text, query, &context, answer)?;
        }
        Err(error) => push_no_answer(&mut text, query, moment, causes, error)?,
    }
    Ok(text)
}
