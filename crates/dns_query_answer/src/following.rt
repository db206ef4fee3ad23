//! Which ask is to blame for a set that isn't Secure, and what is said of it (RFC 4035, 4.3 and 5).
ghost use Rattle.std.specs.Prelude.{◌≡◌, ◌++◌, position, OnOk};
ghost use Rattle.std.specs.List.{find};
ghost use Rattle.std.specs.Option.{option_copied, option_map};
ghost use Rattle.dns_evidence.specs.Trail.{ending_value, heard_value};
ghost use Rattle.dns_flow.specs.CauseRows.{ask_failed as failed_ask, is_answered, step_failed as failed_step};
ghost use Rattle.dns_query_answer.specs.Following.{answered_words, ask_fault_words, ask_to_follow as ask_followed, blamed_ask as ask_blamed, blamed_place as place_blamed, blames as is_blamed, blames_by, came_words, denial_mark_words, denied_words, ending_words, failed_words, is_denial_type as denies_by_type, made_fault_words, made_place as place_made, query_words, step_fault_words};
ghost use Rattle.dns_query_answer.specs.PlaceValues.{explained_by, place_of};

use crate::cause_words::follows;
use crate::places::{Context, Place, place_at};
use crate::words::{push_code, push_set, title};
use dns_evidence::{Asked, Ending, JudgedSet, Reply};
use dns_model::{AskRef, Proof, Section};
use dns_record::{NoMemory, Query, RecordType, ResponseCode};
use dns_text::push_text;

// Whether a step ends with an answer.
fn is_answered(ending: &Ending) -> bool
    ensures { result ≡ is_answered (ending_value ending.now) }
{
    matches!(ending, Ending::Answered(_))
}

// Whether a judged step has no answer, or another heard nothing.
fn step_failed(step: &Asked) -> bool
    ensures { result ≡ failed_step step.now }
{
    if step.judged {
        !is_answered(&step.ending)
    } else {
        matches!(step.reply, Reply::Fault)
    }
}

// Whether an ask was refused, or its step failed.
fn ask_failed(steps: &[Asked], made: AskRef) -> bool
    ensures { result ≡ failed_ask steps.now made }
{
    match made {
        AskRef::Step(number) => match steps.get(number as usize) {
            Some(step) => step_failed(step),
            None => true,
        },
        AskRef::TooDeep | AskRef::TooMany => true,
    }
}

// The first ask that failed.
fn first_failed<'a>(steps: &[Asked], asked: &'a [AskRef]) -> Option<&'a AskRef>
    ensures { option_copied result ≡ find (failed_ask steps.now) asked.now }
{
    asked.iter().find(|made| ask_failed(steps, **made))
}

/// The ask that is to blame: the first that failed, or else the last.
pub(crate) fn blamed_ask(steps: &[Asked], asked: &[AskRef]) -> Option<AskRef>
    ensures { result ≡ ask_blamed steps.now asked.now }
{
    match first_failed(steps, asked) {
        Some(made) => Some(*made),
        None => asked.last().copied(),
    }
}

/// The ask that is to blame for a set, where its cause lies in one.
pub(crate) fn ask_to_follow(context: &Context<'_>, place: &Place<'_>) -> Option<AskRef>
    ensures { result ≡ ask_followed (explained_by context.now) (place_of place.now) }
{
    if follows(place.cause) {
        let set = place.set;
        blamed_ask(context.steps, &set.asked)
    } else {
        None
    }
}

// Appends that a step has no answer, if it has none.
fn push_ending(into: &mut Vec<u8>, code: ResponseCode, ending: &Ending) -> Result<(), NoMemory>
    ensures { OnOk result (into.new.items ≡ into.old.items ++ ending_words code.0 (ending_value ending.now)) }
{
    match ending {
        Ending::Denied(proof) => push_denied(into, code, *proof),
        Ending::Foreign { .. } => push_text(into, b" got a record of another class"),
        Ending::Failed => push_text(into, b" isn't judged"),
        Ending::Answered(_) | Ending::Seen => Ok(()),
    }
}

// Appends what of a denial.
#[tactic(auto, unfolding(crate::specs::Following::denial_mark_words))]
fn push_denial_mark(into: &mut Vec<u8>, proof: Proof) -> Result<(), NoMemory>
    ensures { OnOk result (into.new.items ≡ into.old.items ++ denial_mark_words proof) }
{
    push_text(into, b" has no answer, and its denial is ")?;
    push_text(into, title(proof))
}

// Appends with which code a query was answered.
#[tactic(auto, unfolding(crate::specs::Following::answered_words))]
fn push_answered(into: &mut Vec<u8>, code: ResponseCode) -> Result<(), NoMemory>
    ensures { OnOk result (into.new.items ≡ into.old.items ++ answered_words code.0) }
{
    push_text(into, b" was answered with ")?;
    push_code(into, code)
}

// Appends that a step has no answer, and what of its denial.
#[tactic(auto, unfolding(crate::specs::Following::denied_words))]
fn push_denied(into: &mut Vec<u8>, code: ResponseCode, proof: Proof) -> Result<(), NoMemory>
    ensures { OnOk result (into.new.items ≡ into.old.items ++ denied_words code.0 proof) }
{
    if code.can_deny() {
        push_denial_mark(into, proof)
    } else {
        push_answered(into, code)
    }
}

// Appends what a query came to that has no answer.
fn push_came(into: &mut Vec<u8>, reply: &Reply, ending: &Ending) -> Result<(), NoMemory>
    ensures { OnOk result (into.new.items ≡ into.old.items ++ came_words (heard_value reply.now) (ending_value ending.now)) }
{
    match reply {
        Reply::Told(told) => push_ending(into, told.code, ending),
        Reply::Fault => push_text(into, b" got no reply"),
    }
}

// Appends what was asked.
#[tactic(auto, unfolding(crate::specs::Following::query_words))]
fn push_query(into: &mut Vec<u8>, query: &Query) -> Result<(), NoMemory>
    ensures { OnOk result (into.new.items ≡ into.old.items ++ query_words query.now) }
{
    push_text(into, b": the query for ")?;
    push_set(into, &query.name, query.query_type)
}

// Appends that the query of a step failed.
#[tactic(auto, unfolding(crate::specs::Following::failed_words))]
fn push_failed(into: &mut Vec<u8>, step: &Asked) -> Result<(), NoMemory>
    ensures { OnOk result (into.new.items ≡ into.old.items ++ failed_words step.now) }
{
    push_query(into, &step.query)?;
    push_came(into, &step.reply, &step.ending)
}

// Appends that the query of a step failed, if it did.
#[tactic(auto, unfolding(crate::specs::Following::step_fault_words))]
fn push_step_fault(into: &mut Vec<u8>, step: &Asked) -> Result<(), NoMemory>
    ensures { OnOk result (into.new.items ≡ into.old.items ++ step_fault_words step.now) }
{
    if step_failed(step) {
        push_failed(into, step)
    } else {
        Ok(())
    }
}

// Appends that a query failed or wasn't made, if so.
fn push_made_fault(into: &mut Vec<u8>, steps: &[Asked], made: AskRef) -> Result<(), NoMemory>
    ensures { OnOk result (into.new.items ≡ into.old.items ++ made_fault_words steps.now made) }
{
    match made {
        AskRef::Step(number) => match steps.get(number as usize) {
            Some(step) => push_step_fault(into, step),
            None => Ok(()),
        },
        AskRef::TooDeep => push_text(into, b": a query would have been too deep"),
        AskRef::TooMany => push_text(into, b": as many queries had been made as may be"),
    }
}

/// Appends that the query of an ask failed or wasn't made, if so.
pub(crate) fn push_ask_fault(
    into: &mut Vec<u8>,
    steps: &[Asked],
    made: Option<AskRef>,
) -> Result<(), NoMemory>
    ensures { OnOk result (into.new.items ≡ into.old.items ++ ask_fault_words steps.now made) }
{
    match made {
        Some(made) => push_made_fault(into, steps, made),
        None => Ok(()),
    }
}

/// Whether a type is NSEC or NSEC3.
pub(crate) fn is_denial_type(record_type: RecordType) -> bool
    ensures { result ≡ denies_by_type record_type.0 }
{
    record_type == RecordType::NSEC || record_type == RecordType::NSEC3
}

// Whether a set is the one that was asked for, or should deny that.
fn blames_by(query: &Query, ending: &Ending, set: &JudgedSet) -> bool
    ensures { result ≡ blames_by query.now (ending_value ending.now) set.now }
{
    match ending {
        Ending::Answered(_) => {
            set.section == Section::Answer && set.record_type == query.query_type
        }
        Ending::Denied(_) | Ending::Foreign { .. } | Ending::Failed | Ending::Seen => {
            set.section == Section::Authority && is_denial_type(set.record_type)
        }
    }
}

// Whether a set of a step is to blame.
fn blames(step: &Asked, set: &JudgedSet) -> bool
    ensures { result ≡ is_blamed step.now set.now }
{
    set.mark != Proof::Secure && blames_by(&step.query, &step.ending, set)
}

// Where the first set of a step stands that is to blame.
fn first_blamed(step: &Asked, sets: &[JudgedSet]) -> Option<usize>
    ensures { result ≡ position (is_blamed step.now) sets.now }
{
    sets.iter().position(|set| blames(step, set))
}

// The first set that is to blame, of the step of an ask.
fn made_place<'a>(context: &Context<'a>, made: AskRef) -> Option<Place<'a>>
    ensures { option_map place_of result ≡ place_made (explained_by context.now) made }
{
    let AskRef::Step(number) = made else {
        return None;
    };
    let step = context.steps.get(number as usize)?;
    let place = first_blamed(step, &step.sets)?;
    place_at(step, context.causes_of(number as usize), place)
}

/// The first set that is to blame, of the step of an ask.
pub(crate) fn blamed_place<'a>(context: &Context<'a>, made: Option<AskRef>) -> Option<Place<'a>>
    ensures { option_map place_of result ≡ place_blamed (explained_by context.now) made }
{
    made_place(context, made?)
}
