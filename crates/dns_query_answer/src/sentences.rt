//! Sentences on what an answer denies, and on why its sets aren't Secure (RFC 4035, 4.3).
ghost use Rattle.std.specs.Prelude.{◌≡◌, ◌++◌, OnOk};
ghost use Rattle.std.specs.List.{find};
ghost use Rattle.std.specs.Option.{option_copied};
ghost use Rattle.dns_causes.specs.Values.{kinds_of};
ghost use Rattle.dns_query_answer.specs.AnswerText.{denial_sentence, denial_text, is_unproved_signature as is_unproved, sentences_from, set_sentence, set_title, signature_sentence, signature_title, signatures_text, top_number, top_of, top_reason, top_sentences, why_denied, why_sentence};
ghost use Rattle.dns_query_answer.specs.DenialWords.{absent_words};
ghost use Rattle.dns_query_answer.specs.PlaceValues.{explained_by, place_of};

use crate::denials::{push_absent, push_denial_reason};
use crate::places::{Context, Place, cause_at};
use crate::reasons::push_reason;
use crate::words::{push_set, title};
use dns_cache::ProofErrorKind;
use dns_evidence::{Asked, JudgedSet};
use dns_model::{Denial, Proof, Section};
use dns_record::{NoMemory, Query, Record, RecordType, ResponseCode};
use dns_text::push_text;

// Appends a set with its mark.
fn push_title(into: &mut Vec<u8>, set: &JudgedSet) -> Result<(), NoMemory>
    ensures { OnOk result (into.new.items ≡ into.old.items ++ set_title set.now) }
{
    push_text(into, title(set.mark))?;
    push_text(into, b": ")?;
    push_set(into, &set.owner, set.record_type)?;
    push_text(into, b": ")
}

// Appends why a set isn't Secure.
fn push_why<'a>(
    into: &mut Vec<u8>,
    context: &Context<'a>,
    place: &Place<'a>,
) -> Result<(), NoMemory>
    ensures { OnOk result (into.new.items ≡ into.old.items ++ why_sentence (explained_by context.now) (place_of place.now)) }
{
    push_title(into, place.set)?;
    push_reason(into, context, context.steps, place)?;
    push_text(into, b"\n")
}

// Appends why a set of the answer section isn't Secure, where it isn't.
#[tactic(auto, unfolding(crate::specs::AnswerText::set_sentence))]
fn push_sentence<'a>(
    into: &mut Vec<u8>,
    context: &Context<'a>,
    place: &Place<'a>,
) -> Result<(), NoMemory>
    ensures { OnOk result (into.new.items ≡ into.old.items ++ set_sentence (explained_by context.now) (place_of place.now)) }
{
    let set = place.set;
    if set.section == Section::Answer && set.mark != Proof::Secure {
        push_why(into, context, place)
    } else {
        Ok(())
    }
}

// Appends the same of each set of a step, in order.
#[tactic(auto, unfolding(crate::specs::AnswerText::sentences_from))]
fn push_sentences<'a>(
    into: &mut Vec<u8>,
    context: &Context<'a>,
    step: &'a Asked,
    causes: &'a [Option<ProofErrorKind>],
) -> Result<(), NoMemory>
    ensures { OnOk result (into.new.items ≡ into.old.items
        ++ sentences_from (explained_by context.now) step.now (kinds_of causes.now) 0 step.now.sets) }
{
    let mut number = 0;
    let mut left = step.sets.as_slice();
    'sets: while let Some((set, more)) = left.split_first() {
        let place = Place {
            step,
            set,
            cause: cause_at(causes, number),
        };
        push_sentence(into, context, &place)?;
        number += 1;
        left = more;
    }
    Ok(())
}

// The number of the last step.
fn top_number(context: &Context<'_>) -> usize
    ensures { result ≡ top_number (explained_by context.now) }
{
    context.steps.len().saturating_sub(1)
}

/// Appends why sets of the last step's answer section aren't Secure.
pub(crate) fn push_top_sentences(into: &mut Vec<u8>, context: &Context<'_>) -> Result<(), NoMemory>
    ensures { OnOk result (into.new.items ≡ into.old.items
        ++ top_sentences (explained_by context.now) (top_of (explained_by context.now))) }
{
    let number = top_number(context);
    match context.steps.get(number) {
        Some(top) => push_sentences(into, context, top, context.causes_of(number)),
        None => Ok(()),
    }
}

// Appends why the denial isn't shown with which the last step ends.
fn push_top_reason(into: &mut Vec<u8>, context: &Context<'_>, proof: Proof) -> Result<(), NoMemory>
    ensures { OnOk result (into.new.items ≡ into.old.items
        ++ top_reason (explained_by context.now) proof (top_of (explained_by context.now))) }
{
    let number = top_number(context);
    match context.steps.get(number) {
        Some(top) => push_denial_reason(into, context, proof, number, top),
        None => Ok(()),
    }
}

// Appends why a denial isn't shown, where it isn't.
#[tactic(auto, unfolding(crate::specs::AnswerText::why_denied))]
fn push_why_denied(into: &mut Vec<u8>, context: &Context<'_>, proof: Proof) -> Result<(), NoMemory>
    ensures { OnOk result (into.new.items ≡ into.old.items ++ why_denied (explained_by context.now) proof) }
{
    if proof == Proof::Secure {
        Ok(())
    } else {
        push_top_reason(into, context, proof)
    }
}

/// Appends a sentence on what is denied, with this mark.
#[tactic(auto, unfolding(crate::specs::AnswerText::denial_sentence))]
pub(crate) fn push_denial_sentence(
    into: &mut Vec<u8>,
    context: &Context<'_>,
    proof: Proof,
    claim: &[u8],
) -> Result<(), NoMemory>
    ensures { OnOk result (into.new.items ≡ into.old.items ++ denial_sentence (explained_by context.now) proof claim.now) }
{
    push_text(into, title(proof))?;
    push_text(into, b": ")?;
    push_text(into, claim)?;
    push_why_denied(into, context, proof)?;
    push_text(into, b"\n")
}

// Appends a sentence on records that are absent.
fn push_absent_sentence(
    into: &mut Vec<u8>,
    query: &Query,
    code: ResponseCode,
    context: &Context<'_>,
    mark: Proof,
) -> Result<(), NoMemory>
    ensures { OnOk result (into.new.items ≡ into.old.items
        ++ denial_sentence (explained_by context.now) mark (absent_words query.now code.0)) }
{
    let mut claim = Vec::new(*into.allocator());
    push_absent(&mut claim, query, code)?;
    push_denial_sentence(into, context, mark, &claim)
}

/// Appends a sentence on what an answer denies, if it denies anything.
pub(crate) fn push_denial(
    into: &mut Vec<u8>,
    query: &Query,
    code: ResponseCode,
    context: &Context<'_>,
    denial: Denial,
) -> Result<(), NoMemory>
    ensures { OnOk result (into.new.items ≡ into.old.items ++ denial_text query.now code.0 (explained_by context.now) denial) }
{
    match denial {
        Denial::None => Ok(()),
        Denial::Absent(mark) => push_absent_sentence(into, query, code, context, mark),
        Denial::Expanded(mark) => push_denial_sentence(
            into,
            context,
            mark,
            b"this is made from a wildcard, and no closer name is there",
        ),
    }
}

// Whether a record is a signature that isn't Secure.
fn is_unproved_signature(one: &Record) -> bool
    ensures { result ≡ is_unproved one.now }
{
    one.record_type == RecordType::RRSIG && one.proof != Proof::Secure
}

// The first such record.
fn first_unproved(answers: &[Record]) -> Option<&Record>
    ensures { option_copied result ≡ find is_unproved answers.now }
{
    answers.iter().find(|one| is_unproved_signature(one))
}

// Appends a signature with its mark.
#[tactic(auto, unfolding(crate::specs::AnswerText::signature_title))]
fn push_signature_title(into: &mut Vec<u8>, one: &Record) -> Result<(), NoMemory>
    ensures { OnOk result (into.new.items ≡ into.old.items ++ signature_title one.now) }
{
    push_text(into, title(one.proof))?;
    push_text(into, b": ")?;
    push_set(into, &one.name, one.record_type)
}

// Appends why a signature isn't Secure.
#[tactic(auto, unfolding(crate::specs::AnswerText::signature_sentence))]
fn push_signature_sentence(into: &mut Vec<u8>, one: &Record) -> Result<(), NoMemory>
    ensures { OnOk result (into.new.items ≡ into.old.items ++ signature_sentence one.now) }
{
    push_signature_title(into, one)?;
    push_text(
        into,
        b": a signature is judged with the records that it signs, and these weren't asked for\n",
    )
}

/// Appends why signatures that were asked for themselves aren't Secure, where one isn't.
pub(crate) fn push_signatures(
    into: &mut Vec<u8>,
    query: &Query,
    answers: &[Record],
) -> Result<(), NoMemory>
    ensures { OnOk result (into.new.items ≡ into.old.items ++ signatures_text query.now answers.now) }
{
    if query.query_type != RecordType::RRSIG {
        return Ok(());
    }
    match first_unproved(answers) {
        Some(one) => push_signature_sentence(into, one),
        None => Ok(()),
    }
}
