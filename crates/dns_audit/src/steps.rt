//! The lines of a trail.
ghost use Rattle.std.specs.Prelude.{◌≡◌, IfOk};
ghost use Rattle.std.specs.Option.{option_map, option_copied};
ghost use Rattle.dns_evidence.specs.Trail.{heard_value};
ghost use Rattle.dns_session.specs.LinePlaces.{one, optional};
ghost use Rattle.dns_session.specs.Lines.{words_left};
ghost use Rattle.dns_session.specs.Stops.{ReadsAs};
ghost use Rattle.dns_audit.specs.ReportValue.{GotValue};
ghost use Rattle.dns_audit.specs.ReportLines.{got_code, got_one, got_by, got_line, step_in, step_line, trail_line, ending_line};
ghost use Rattle.dns_audit.specs.ReportGrammar.{times, told_at, step_at, steps_at, trail_at};
ghost use Rattle.dns_audit.specs.Heard.{got_value};

use crate::endings::{StepEnd, ending_of};
use crate::records::{RecordKind, Sections, read_sections};
use crate::report_words::{purpose_in, u32_in};
use crate::sets::sets_of;
use crate::word_cuts::first_of;
use dns_evidence::{Asked, Reply, Told, Trail};
use dns_record::{NoMemory, Query, ResponseCode};
use dns_session::{Lines, SessionStop, after, quadruple, question_of, single};
use dns_text::u16_in;
use std::alloc::Global;
use std::marker::Model;

/// What the line that begins a step says.
#[derive(Drop)]
pub(crate) struct StepHead {
    /// How deep it was asked.
    pub depth: u16,
    /// The reply was to be judged.
    pub judged: bool,
    /// What was asked.
    pub query: Query,
}

impl Model for StepHead {
    ghost use Rattle.dns_audit.specs.ReportValue as values;

    ghost Value = { values.StepHead };

    ghost view = { λ h. record { depth = h.depth; judged = h.judged; query = h.query } };
}

/// What the line of a reply says.
#[derive(Clone, Copy)]
pub(crate) enum Got {
    /// A code, and whether the reply said that there are no records.
    Code(ResponseCode, bool),
    /// There was no reply.
    NoReply,
}

// How many steps follow, by the line of a trail.
fn count_of(line: &[u8]) -> Option<u32>
    ensures { result ≡ trail_line line.now }
{
    let word = single(after(line, b"trail")?)?;
    u32_in(word)
}

// What begins a step, by its four words.
fn step_in(
    alloc: Global,
    depth: &[u8],
    purpose: &[u8],
    name: &[u8],
    record_type: &[u8],
) -> Result<Option<StepHead>, NoMemory>
    ensures { IfOk result (λ h. h ≡ step_in depth.now purpose.now name.now record_type.now) }
{
    let Some(depth) = u16_in(depth) else {
        return Ok(None);
    };
    let Some(judged) = purpose_in(purpose) else {
        return Ok(None);
    };
    let Some(query) = question_of(alloc, name, record_type)? else {
        return Ok(None);
    };
    Ok(Some(StepHead {
        depth,
        judged,
        query,
    }))
}

// What begins a step, by its line.
fn head_of(alloc: Global, line: &[u8]) -> Result<Option<StepHead>, NoMemory>
    ensures { IfOk result (λ h. h ≡ step_line line.now) }
{
    let Some(rest) = after(line, b"step") else {
        return Ok(None);
    };
    let Some((depth, purpose, name, record_type)) = quadruple(rest) else {
        return Ok(None);
    };
    step_in(alloc, depth, purpose, name, record_type)
}

// A code, with or without `empty` behind it.
fn got_code(word: &[u8], empty: bool) -> Option<Got>
    ensures { option_map got_value result ≡ got_code empty word.now }
{
    let number = u16_in(word)?;
    Some(Got::Code(ResponseCode(number), empty))
}

// What was heard of a reply, by one word.
fn got_one(word: &[u8]) -> Option<Got>
    ensures { option_map got_value result ≡ got_one word.now }
{
    if word == b"fault".as_slice() {
        Some(Got::NoReply)
    } else {
        got_code(word, false)
    }
}

// What was heard of a reply, by its first word and what is left.
#[tactic(auto, unfolding(crate::specs::ReportLines::got_by), using(crate::proofs::ShortLines::got_more))]
fn got_by(word: &[u8], rest: Option<&[u8]>) -> Option<Got>
    ensures { option_map got_value result ≡ got_by word.now (words_left (option_copied rest.entry)) }
{
    if rest.is_none() {
        return got_one(word);
    }
    let next = single(rest)?;
    if next == b"empty".as_slice() {
        got_code(word, true)
    } else {
        None
    }
}

// What was heard of a reply, by its line.
fn got_of(line: &[u8]) -> Option<Got>
    ensures { option_map got_value result ≡ got_line line.now }
{
    let (word, more) = first_of(after(line, b"got")?)?;
    got_by(word, more)
}

// What begins the next step, and the lines after it.
#[tactic(auto, unfolding(dns_session::specs::LinePlaces::one))]
fn one_head<'a>(alloc: Global, lines: Lines<'a>) -> Result<(StepHead, Lines<'a>), SessionStop>
    ensures { ReadsAs (λ x. (x.0, x.1)) result (one step_line lines.entry) }
{
    let bad = SessionStop::BadLine(lines.number());
    let (line, after) = lines.next().ok_or(bad)?;
    let head = head_of(alloc, line)?.ok_or(bad)?;
    Ok((head, after))
}

// What was heard next, and the lines after it.
#[tactic(auto, unfolding(dns_session::specs::LinePlaces::one))]
fn one_got<'a>(lines: Lines<'a>) -> Result<(Got, Lines<'a>), SessionStop>
    ensures { ReadsAs (λ x. (got_value x.0, x.1)) result (one got_line lines.entry) }
{
    let bad = SessionStop::BadLine(lines.number());
    let (line, after) = lines.next().ok_or(bad)?;
    let got = got_of(line).ok_or(bad)?;
    Ok((got, after))
}

// What ends the step, and the lines after it.
#[tactic(auto, unfolding(dns_session::specs::LinePlaces::one))]
fn one_ending<'a>(alloc: Global, lines: Lines<'a>) -> Result<(StepEnd, Lines<'a>), SessionStop>
    ensures { ReadsAs (λ x. (x.0, x.1)) result (one ending_line lines.entry) }
{
    let bad = SessionStop::BadLine(lines.number());
    let (line, after) = lines.next().ok_or(bad)?;
    let end = ending_of(alloc, line)?.ok_or(bad)?;
    Ok((end, after))
}

// What was heard of a reply, and the lines after it.
fn told_at<'a>(alloc: Global, got: Got, lines: Lines<'a>) -> Result<(Reply, Lines<'a>), NoMemory>
    ensures { IfOk result (λ x. (heard_value x.0, x.1) ≡ told_at (got_value got) lines.entry) }
{
    match got {
        Got::Code(code, empty) => {
            let (sections, lines) = read_sections(alloc, RecordKind::Told, lines)?;
            let Sections {
                answers,
                authorities,
                additionals,
            } = sections;
            let told = Told {
                code,
                empty,
                answers,
                authorities,
                additionals,
            };
            Ok((Reply::Told(told), lines))
        }
        Got::NoReply => Ok((Reply::Fault, lines)),
    }
}

// The next step, and the lines after it.
#[tactic(auto, unfolding(crate::specs::ReportGrammar::step_at))]
fn step_at<'a>(alloc: Global, lines: Lines<'a>) -> Result<(Asked, Lines<'a>), SessionStop>
    ensures { ReadsAs (λ x. (x.0, x.1)) result (step_at lines.entry) }
{
    let (head, lines) = one_head(alloc, lines)?;
    let (got, lines) = one_got(lines)?;
    let (reply, lines) = told_at(alloc, got, lines)?;
    let (sets, lines) = sets_of(alloc, lines)?;
    let (end, lines) = one_ending(alloc, lines)?;
    let step = Asked {
        depth: head.depth,
        judged: head.judged,
        query: head.query,
        reply,
        sets,
        ending: end.ending,
        excuse: end.excuse,
    };
    Ok((step, lines))
}

// So many steps, and the lines after them.
fn steps_of<'a>(
    alloc: Global,
    count: u32,
    lines: Lines<'a>,
) -> Result<(Vec<Asked>, Lines<'a>), SessionStop>
    ensures { ReadsAs (λ x. (x.0.items, x.1)) result (times step_at count lines.entry) }
{
    let mut all = Vec::new(alloc);
    let mut here = lines;
    let mut left = count;
    'steps: while left > 0 {
        let (step, after) = step_at(alloc, here)?;
        all.push(step)?;
        here = after;
        left -= 1;
    }
    Ok((all, here))
}

// How many steps follow, where the next line says it, and the lines after it.
#[tactic(auto, unfolding(dns_session::specs::LinePlaces::optional))]
fn optional_count<'a>(lines: Lines<'a>) -> (Option<u32>, Lines<'a>)
    ensures { result ≡ optional trail_line lines.entry }
{
    if let Some((line, after)) = lines.next()
        && let Some(count) = count_of(line)
    {
        return (Some(count), after);
    }
    (None, lines)
}

/// A trail, where there is one, and the lines after it.
pub(crate) fn trail_at<'a>(
    alloc: Global,
    lines: Lines<'a>,
) -> Result<(Option<Trail>, Lines<'a>), SessionStop>
    ensures { ReadsAs (λ x. (x.0, x.1)) result (trail_at lines.entry) }
{
    let (count, lines) = optional_count(lines);
    match count {
        Some(count) => {
            let (steps, lines) = steps_of(alloc, count, lines)?;
            Ok((Some(Trail { steps }), lines))
        }
        None => Ok((None, lines)),
    }
}
