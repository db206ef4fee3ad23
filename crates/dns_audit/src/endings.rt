//! The line that ends a step.
ghost use Rattle.std.specs.Prelude.{◌≡◌, IfOk};
ghost use Rattle.std.specs.Option.{option_map, option_copied};
ghost use Rattle.dns_evidence.specs.Trail.{ending_value};
ghost use Rattle.dns_session.specs.Lines.{words_left};
ghost use Rattle.dns_audit.specs.ReportLines.{foreign_in, plain_by, ending_by, ending_in, ending_line};

use crate::answer_lines::{denial_by, mark_front};
use crate::each::asks_of;
use crate::word_cuts::{first_of, three_of};
use dns_evidence::Ending;
use dns_model::AskRef;
use dns_record::NoMemory;
use dns_session::after;
use dns_text::{class_word_in, name_word_in, type_word_in};
use std::alloc::Global;
use std::marker::Model;

/// What the line that ends a step says.
#[derive(Drop)]
pub(crate) struct StepEnd {
    /// How the step ended.
    pub ending: Ending,
    /// The asks on which that stands.
    pub excuse: Vec<AskRef>,
}

impl Model for StepEnd {
    ghost use Rattle.dns_evidence.specs.Trail.{ending_value};
    ghost use Rattle.dns_audit.specs.ReportValue as values;

    ghost Value = { values.StepEnd };

    ghost view = { λ e. record { ending = ending_value e.ending; excuse = e.excuse.items } };
}

// An ending at a record of another class, and what is left after it.
fn foreign_in<'a>(
    alloc: Global,
    rest: Option<&'a [u8]>,
) -> Result<Option<(Ending, Option<&'a [u8]>)>, NoMemory>
    ensures { IfOk result (λ x. option_map (λ e. (ending_value e.0, words_left (option_copied e.1))) x
        ≡ foreign_in (words_left (option_copied rest.entry))) }
{
    let Some((owner, class, record_type, left)) = three_of(rest) else {
        return Ok(None);
    };
    let Some(class) = class_word_in(class) else {
        return Ok(None);
    };
    let Some(record_type) = type_word_in(record_type) else {
        return Ok(None);
    };
    let Some(owner) = name_word_in(alloc, owner)? else {
        return Ok(None);
    };
    let ending = Ending::Foreign {
        owner,
        class,
        record_type,
    };
    Ok(Some((ending, left)))
}

// An ending of another kind, by its first word, and what is left after it.
#[tactic(auto, unfolding(crate::specs::ReportLines::plain_by))]
fn plain_by<'a>(kind: &[u8], rest: Option<&'a [u8]>) -> Option<(Ending, Option<&'a [u8]>)>
    ensures { option_map (λ e. (ending_value e.0, words_left (option_copied e.1))) result
        ≡ plain_by kind.now (words_left (option_copied rest.entry)) }
{
    if kind == b"denied".as_slice() {
        let (mark, left) = mark_front(rest)?;
        return Some((Ending::Denied(mark), left));
    }
    if kind == b"failed".as_slice() {
        return Some((Ending::Failed, rest));
    }
    if kind == b"seen".as_slice() {
        return Some((Ending::Seen, rest));
    }
    let (denial, left) = denial_by(kind, rest)?;
    Some((Ending::Answered(denial), left))
}

// An ending, by its first word, and what is left after it.
#[tactic(auto, unfolding(crate::specs::ReportLines::ending_by))]
fn ending_by<'a>(
    alloc: Global,
    kind: &[u8],
    rest: Option<&'a [u8]>,
) -> Result<Option<(Ending, Option<&'a [u8]>)>, NoMemory>
    ensures { IfOk result (λ x. option_map (λ e. (ending_value e.0, words_left (option_copied e.1))) x
        ≡ ending_by kind.now (words_left (option_copied rest.entry))) }
{
    if kind == b"foreign".as_slice() {
        foreign_in(alloc, rest)
    } else {
        Ok(plain_by(kind, rest))
    }
}

// What ends a step, by the words that are left.
fn ending_in(alloc: Global, rest: Option<&[u8]>) -> Result<Option<StepEnd>, NoMemory>
    ensures { IfOk result (λ e. e ≡ ending_in (words_left (option_copied rest.entry))) }
{
    let Some((kind, more)) = first_of(rest) else {
        return Ok(None);
    };
    let Some((ending, left)) = ending_by(alloc, kind, more)? else {
        return Ok(None);
    };
    let Some(excuse) = asks_of(alloc, left)? else {
        return Ok(None);
    };
    Ok(Some(StepEnd { ending, excuse }))
}

/// What ends a step, by its line.
pub(crate) fn ending_of(alloc: Global, line: &[u8]) -> Result<Option<StepEnd>, NoMemory>
    ensures { IfOk result (λ e. e ≡ ending_line line.now) }
{
    let Some(rest) = after(line, b"ending") else {
        return Ok(None);
    };
    ending_in(alloc, rest)
}
