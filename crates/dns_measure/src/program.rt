//! The program over any source and any sink.
ghost use Rattle.std.specs.Prelude.{◌≡◌, ◌<◌, ◌≤◌, length, IfOk};
ghost use Rattle.dns_io.specs.Reading.{input_limit, OfInput};
ghost use Rattle.dns_io.specs.Runs.{outside, AnInput, KeepsOutside, KeepsSink};
ghost use Rattle.dns_session.specs.Grammar.{session_of};
ghost use Rattle.dns_session.specs.Stops.{session_status};
ghost use Rattle.dns_measure.specs.Forms.{asked_form, form_asks, EndsAsAsked, EndsWork};
ghost use Rattle.dns_measure.specs.declared.form.Work.TheVariants.{Decode, Replies, Responses, Signatures};

use crate::counts::count_passes;
use crate::denials::count_denials;
use crate::form::{Form, SessionWork, Work, form_of};
use crate::frames::cut_off;
use crate::lookups::{Repeating, count_lookups};
use crate::replies::push_replies;
use crate::responses::push_response;
use crate::signatures::push_accepted;
use crate::signing::signed_count;
use crate::texts::{push_counts, push_denials, push_line, push_lookups};
use crate::verdicts::push_lines;
use dns_io::status::{self, read_status, refuse_long, refuse_words, write_text};
use dns_io::{ReadStop, Sink, Source, read_all};
use dns_record::NoMemory;
use dns_session::{Session, SessionStop, read_session};
use std::alloc::Global;

// Decodes the frames of the bytes so many times, and puts what was counted behind a text, or which frame is cut off.
fn decode(alloc: Global, passes: u32, bytes: &[u8], text: &mut Vec<u8>) -> Result<u8, NoMemory>
    requires { length bytes.now ≤ input_limit }
    ensures { IfOk result (λ status. EndsWork Decode bytes.now status) }
{
    if let Some(number) = cut_off(bytes) {
        push_line(text, b"bad frame ", number)?;
        return Ok(status::BAD_INPUT);
    }
    let counts = count_passes(alloc, passes, bytes)?;
    push_counts(text, counts)?;
    Ok(status::DONE)
}

// Looks a session up so many times, and puts what was counted behind a text.
fn push_counted(
    alloc: Global,
    passes: u32,
    session: Session,
    how: Repeating,
    text: &mut Vec<u8>,
) -> Result<(), NoMemory> {
    let counts = count_lookups(alloc, session, passes, how)?;
    push_lookups(text, counts)
}

// Puts the text of work on a session behind a text.
fn push_text(
    alloc: Global,
    work: SessionWork,
    passes: u32,
    session: Session,
    text: &mut Vec<u8>,
) -> Result<(), NoMemory> {
    match work {
        SessionWork::Verdicts => push_lines(alloc, session, text),
        SessionWork::LookUp => push_counted(alloc, passes, session, Repeating::LOOK_UP, text),
        SessionWork::LookUpAnew => {
            push_counted(alloc, passes, session, Repeating::LOOK_UP.anew(), text)
        }
        SessionWork::Respond => push_counted(alloc, passes, session, Repeating::RESPOND, text),
        SessionWork::RespondAnew => {
            push_counted(alloc, passes, session, Repeating::RESPOND.anew(), text)
        }
        SessionWork::Denials(judging) => {
            push_denials(text, count_denials(alloc, judging, session, passes)?)
        }
    }
}

// Works on the session that the bytes are, and puts its text behind a text, or which line is bad.
fn work_on(
    alloc: Global,
    work: SessionWork,
    passes: u32,
    bytes: &[u8],
    text: &mut Vec<u8>,
) -> Result<u8, NoMemory>
    requires { length bytes.now ≤ input_limit }
    ensures { IfOk result (λ status. status ≡ session_status (session_of bytes.now)) }
{
    match read_session(alloc, bytes) {
        Ok(session) => {
            push_text(alloc, work, passes, session, text)?;
            Ok(status::DONE)
        }
        Err(SessionStop::BadLine(number)) => {
            push_line(text, b"bad line ", number)?;
            Ok(status::BAD_INPUT)
        }
        Err(SessionStop::NoMemory) => Err(NoMemory),
    }
}

// Verifies the signature on each line of the bytes, and puts a line for each behind a text; behind them which line is bad.
fn verify(alloc: Global, bytes: &[u8], text: &mut Vec<u8>) -> Result<u8, NoMemory>
    requires { length bytes.now ≤ input_limit }
    ensures { IfOk result (λ status. EndsWork Signatures bytes.now status) }
{
    match push_accepted(alloc, bytes, text) {
        Ok(()) => Ok(status::DONE),
        Err(SessionStop::BadLine(number)) => {
            push_line(text, b"bad line ", number)?;
            Ok(status::BAD_INPUT)
        }
        Err(SessionStop::NoMemory) => Err(NoMemory),
    }
}

// Replies to the request on each line of the bytes, and puts a line for each behind a text; behind them which line is bad.
fn reply(alloc: Global, bytes: &[u8], text: &mut Vec<u8>) -> Result<u8, NoMemory>
    requires { length bytes.now ≤ input_limit }
    ensures { IfOk result (λ status. EndsWork Replies bytes.now status) }
{
    match push_replies(alloc, bytes, text) {
        Ok(()) => Ok(status::DONE),
        Err(SessionStop::BadLine(number)) => {
            push_line(text, b"bad line ", number)?;
            Ok(status::BAD_INPUT)
        }
        Err(SessionStop::NoMemory) => Err(NoMemory),
    }
}

// Answers the request on the first line of the bytes over the session behind it, and puts the reply behind a text, or which line is bad.
fn respond(alloc: Global, bytes: &[u8], text: &mut Vec<u8>) -> Result<u8, NoMemory>
    requires { length bytes.now ≤ input_limit }
    ensures { IfOk result (λ status. EndsWork Responses bytes.now status) }
{
    match push_response(alloc, bytes, text) {
        Ok(()) => Ok(status::DONE),
        Err(SessionStop::BadLine(number)) => {
            push_line(text, b"bad line ", number)?;
            Ok(status::BAD_INPUT)
        }
        Err(SessionStop::NoMemory) => Err(NoMemory),
    }
}

// Works on the bytes so many times.
fn measure(
    alloc: Global,
    work: Work,
    passes: u32,
    bytes: &[u8],
    text: &mut Vec<u8>,
) -> Result<u8, NoMemory>
    requires { length bytes.now ≤ input_limit }
    ensures { IfOk result (λ status. EndsWork work bytes.now status) }
{
    match work {
        Work::Decode => decode(alloc, passes, bytes, text),
        Work::OnSession(work) => work_on(alloc, work, passes, bytes, text),
        Work::Signatures => verify(alloc, bytes, text),
        Work::Replies => reply(alloc, bytes, text),
        Work::Responses => respond(alloc, bytes, text),
    }
}

// Works on the bytes so many times, and writes what came of it.
#[tactic(auto, using(crate::proofs::WorkLemmas::work_done))]
fn write_measured<W: Sink>(
    alloc: Global,
    work: Work,
    passes: u32,
    bytes: &[u8],
    output: &mut W,
) -> u8
    requires { length bytes.now ≤ input_limit }
    ensures ends { result < 4 → EndsWork work bytes.now result }
    ensures keeps { KeepsSink W.faults result output.old output.new }
{
    let mut text = Vec::new(alloc);
    match measure(alloc, work, passes, bytes, &mut text) {
        Ok(status) => write_text(status, &text, output),
        Err(NoMemory) => status::NO_MEMORY,
    }
}

// Reads an input and works on it.
#[tactic(auto, using(dns_io::proofs::Leaving::of_read, dns_io::proofs::Runs::keeps_answered, dns_io::proofs::Runs::keeps_long, dns_io::proofs::Runs::keeps_stopped))]
fn read_and_measure<S: Source, W: Sink>(
    alloc: Global,
    work: Work,
    passes: u32,
    input: &mut S,
    output: &mut W,
) -> u8
    ensures ends { result < 4 → OfInput (S.left input.old) (λ bytes. EndsWork work bytes result) }
    ensures outside { KeepsOutside (outside S.left S.faults W.taken W.faults W.takes_memory) AnInput
        result input.old input.new output.old output.new }
{
    match read_all(alloc, input) {
        Ok(bytes) => write_measured(alloc, work, passes, &bytes, output),
        Err(ReadStop::TooLong) => refuse_long(output),
        Err(stop) => read_status(stop),
    }
}

// Makes signed bytes so many times, and puts how many that were behind a text.
fn push_signed(
    alloc: Global,
    records: u16,
    passes: u32,
    text: &mut Vec<u8>,
) -> Result<(), NoMemory> {
    let count = signed_count(alloc, records, passes)?;
    push_line(text, b"bytes ", count)
}

// The same, and writes it.
fn write_signed<W: Sink>(alloc: Global, records: u16, passes: u32, output: &mut W) -> u8
    ensures ends { result < 4 → result ≡ 0 }
    ensures keeps { KeepsSink W.faults result output.old output.new }
{
    let mut text = Vec::new(alloc);
    match push_signed(alloc, records, passes, &mut text) {
        Ok(()) => write_text(status::DONE, &text, output),
        Err(NoMemory) => status::NO_MEMORY,
    }
}

/// Runs the program with its words, those after its name, and answers its status.
///
/// `verdicts` writes a line for each reply, `signatures` and `forwarded` one for each line that they read, and `responded` one. The
/// others count.
///
/// 0: the counts or the text are written. 2: the words aren't a form, and nothing was read. 3: the input isn't one for the words' work; its
/// first frame that is cut off is named, or its first bad line. 4: a read failed, and nothing is written. 5: a write failed
/// after a prefix of the text. 6: memory ran out. 7: the input has more than 16,777,216 bytes.
#[tactic(auto, using(dns_io::proofs::Runs::keeps_unread))]
pub(crate) fn run<S: Source, W: Sink>(
    alloc: Global,
    words: &[Vec<u8>],
    input: &mut S,
    output: &mut W,
) -> u8
    // Words that are no form end with 2, other work with 0, or with 3 for an input that isn't one for it.
    ensures ends { EndsAsAsked (asked_form words.now) result (S.left input.old) (W.taken output.old) (W.taken output.new) }
    ensures outside { KeepsOutside (outside S.left S.faults W.taken W.faults W.takes_memory)
        (form_asks (asked_form words.now)) result input.old input.new output.old output.new }
{
    match form_of(words) {
        Some(Form::Reading(work, passes)) => read_and_measure(alloc, work, passes, input, output),
        Some(Form::Signed(records, passes)) => write_signed(alloc, records, passes, output),
        None => refuse_words(output),
    }
}
