//! The questions of a set.
ghost use Rattle.std.specs.Prelude.{◌≡◌, IfOk, OnOk, List, ◌∷◌, take};
ghost use Rattle.dns_model.specs.Records.{Rr};
ghost use Rattle.dns_rules.specs.Marks.{most_signatures};
ghost use Rattle.dns_trust.specs.SetSignatures.{IsRead};
ghost use Rattle.dns_questions.specs.Gathering.{judge_by, steps_of, then_once};
ghost use Rattle.dns_questions.specs.Questions.{with_keys, of_key_set, told_to, keys_for, of_signatures, of_set};

use crate::keys::{Context, add_with_counted, add_with_keys};
use crate::question_list::QuestionList;
use dns_evidence::Reply;
use dns_model::AskRef;
use dns_rdata::Rrsig;
use dns_record::{NoMemory, Query, Record, RecordSet, RecordType};
use dns_trust::{SetSignature, counted_keys, first_signatures, is_skipped_read};

// Adds the questions of a signature of a key set with each of the set's keys.
#[tactic(auto, using(crate::proofs::QuestionLemmas::unread_none, crate::proofs::OnceLemmas::then_none))]
fn add_own(
    into: &mut QuestionList,
    context: &Context<'_>,
    set: &RecordSet,
    sig: &Record,
) -> Result<(), NoMemory>
    ensures { OnOk result (into.new
        ≡ then_once into.old (with_keys (judge_by context.now) set.now sig.now set.now.records)) }
{
    let Some(read) = Rrsig::of(sig) else {
        return Ok(());
    };
    let signature = SetSignature {
        set,
        sig,
        read: &read,
    };
    add_with_keys(into, context, &signature, &set.records)
}

// Adds the questions of a key set: each of its first eight signatures with each of its keys.
fn add_key_set(
    into: &mut QuestionList,
    context: &Context<'_>,
    set: &RecordSet,
) -> Result<(), NoMemory>
    ensures { OnOk result (into.new ≡ then_once into.old (of_key_set (judge_by context.now) set.now)) }
{
    let mut left = first_signatures(set);
    'signatures: while let Some((sig, more)) = left.split_first() {
        add_own(into, context, set, sig)?;
        left = more;
    }
    Ok(())
}

// The answer section that a step told.
fn told_to<'a>(context: &Context<'a>, ask: AskRef) -> &'a [Record]
    ensures { result.now ≡ told_to (steps_of context.now) ask }
{
    match ask {
        AskRef::Step(number) => match context.steps.get(number as usize) {
            Some(step) => match &step.reply {
                Reply::Told(told) => told.answers.as_slice(),
                Reply::Fault => &[],
            },
            None => &[],
        },
        AskRef::TooDeep => &[],
        AskRef::TooMany => &[],
    }
}

// Adds the questions of a signature with the keys that its ask was told.
fn add_asked(
    into: &mut QuestionList,
    context: &Context<'_>,
    signature: &SetSignature<'_>,
    ask: AskRef,
) -> Result<(), NoMemory>
    requires { IsRead signature.now }
    ensures { OnOk result (into.new ≡ then_once into.old
        (with_keys (judge_by context.now) signature.now.set.now signature.now.sig.now
        (keys_for signature.now.sig.now (told_to (steps_of context.now) ask)))) }
{
    let keys = counted_keys(context.alloc, signature.read, told_to(context, ask))?;
    add_with_counted(into, context, signature, &keys)
}

// Adds the questions of a signature with the keys that the first of these asks was told, if it asked, and answers the asks of the
// signatures after it.
fn add_signature<'b>(
    into: &mut QuestionList,
    context: &Context<'_>,
    query: &Query,
    set: &RecordSet,
    sig: &Record,
    asked: &'b [AskRef],
) -> Result<&'b [AskRef], NoMemory>
    ensures { IfOk result (λ left. (more : List Rr)
        → then_once into.new (of_signatures (judge_by context.now) (steps_of context.now) query.now set.now more left.now)
        ≡ then_once into.old (of_signatures (judge_by context.now) (steps_of context.now) query.now set.now (sig.now ∷ more) asked.now)) }
{
    let Some(read) = Rrsig::of(sig) else {
        return Ok(asked);
    };
    if is_skipped_read(query, set, &read) {
        return Ok(asked);
    }
    let Some((ask, others)) = asked.split_first() else {
        return Ok(asked);
    };
    let signature = SetSignature {
        set,
        sig,
        read: &read,
    };
    add_asked(into, context, &signature, *ask)?;
    Ok(others)
}

// Adds the questions of another set: each signature that asked with the keys that its ask was told.
fn add_signatures(
    into: &mut QuestionList,
    context: &Context<'_>,
    query: &Query,
    set: &RecordSet,
    asked: &[AskRef],
) -> Result<(), NoMemory>
    ensures { OnOk result (into.new ≡ then_once into.old (of_signatures (judge_by context.now) (steps_of context.now) query.now set.now
        (take most_signatures set.now.signatures) asked.now)) }
{
    let mut left = first_signatures(set);
    let mut asks = asked;
    'signatures: while let Some((sig, more)) = left.split_first() {
        asks = add_signature(into, context, query, set, sig, asks)?;
        left = more;
    }
    Ok(())
}

/// Adds the questions of a set.
pub(crate) fn add_set(
    into: &mut QuestionList,
    context: &Context<'_>,
    query: &Query,
    set: &RecordSet,
    asked: &[AskRef],
) -> Result<(), NoMemory>
    ensures { OnOk result (into.new
        ≡ then_once into.old (of_set (judge_by context.now) (steps_of context.now) query.now set.now asked.now)) }
{
    if set.record_type == RecordType::DNSKEY {
        add_key_set(into, context, set)
    } else {
        add_signatures(into, context, query, set, asked)
    }
}
