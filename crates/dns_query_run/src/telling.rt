//! What is told of a lookup.
ghost use Rattle.std.specs.Prelude.{◌≡◌, ◌≤◌, ◌++◌, IfOk, OnOk};
ghost use Rattle.dns_handle.specs.Replies.{reply_of};
ghost use Rattle.dns_query_run.specs.Answers.{IsTold, TellsLookup, answer_part, answer_value, call_limits, chain_part, error_part, is_unanswered, lookup_complaint, shown_text, told_text, trail_part, written_text};
ghost use Rattle.dns_query_json.specs.AnswerJson.{answer_json};
ghost use Rattle.dns_query_run.specs.Saving.{Keeps};
ghost use Rattle.dns_query_run.specs.Told.{told_of};

use crate::complaints::{NO_ANSWER, fault_told, push_keys, unsaved_line};
use crate::saving::saved_session;
use crate::told::Told;
use dns_anchor_keys::AnchorsFault;
use dns_evidence::{IterationLimits, Limits};
use dns_handle::{DnsResponse, NetError};
use dns_io::status::WRITE_FAILED;
use dns_query_answer::{answer_causes, answer_status, told_answer, write_answer};
use dns_query_handle::Note;
use dns_query_json::{Answer, push_json};
use dns_query_lookup::{Call, Looked};
use dns_query_shown::{push_asks, push_chains};
use dns_query_words::Switches;
use dns_record::NoMemory;
use dns_saved_lookup::SaveError;
use dns_signatures::Arithmetic;
use dns_trust::Judge;
use std::alloc::Global;

// How far validation goes.
fn call_limits(depth: u16) -> Limits
    ensures { result ≡ call_limits depth }
{
    Limits {
        depth,
        soft: IterationLimits::DEFAULT.soft,
        hard: IterationLimits::DEFAULT.hard,
    }
}

// What is written of what a lookup came to.
fn told_text(alloc: Global, call: &Call<'_>, looked: &Looked) -> Result<Vec<u8>, NoMemory>
    ensures { IfOk result (λ v. v.items ≡ told_text call.now looked.now) }
{
    let verifier = Arithmetic::new();
    let judge = Judge {
        verifier: &verifier,
        anchors: &looked.anchors,
        moment: call.moment,
    };
    let limits = call_limits(call.depth);
    let causes = answer_causes(alloc, &judge, &limits, &looked.reply)?;
    write_answer(alloc, call.query, call.moment, &causes, &looked.reply)
}

// Whether an error stands in place of an answer.
fn is_unanswered(call: &Call<'_>, looked: &Looked) -> bool
    ensures { result ≡ is_unanswered call.now looked.now }
{
    answer_status(call.query, &looked.reply) == NO_ANSWER
}

// What is written of an answer to the standard output.
#[tactic(auto, unfolding(crate::specs::Answers::answer_part))]
fn answer_part(alloc: Global, call: &Call<'_>, looked: &Looked) -> Result<Vec<u8>, NoMemory>
    ensures { IfOk result (λ v. v.items ≡ answer_part call.now looked.now) }
{
    if is_unanswered(call, looked) {
        Ok(Vec::new(alloc))
    } else {
        told_text(alloc, call, looked)
    }
}

// Appends a text and another behind it.
fn push_two(into: &mut Vec<u8>, first: &[u8], second: &[u8]) -> Result<(), NoMemory>
    ensures { OnOk result (into.new.items ≡ into.old.items ++ (first.now ++ second.now)) }
{
    into.extend_from_slice(first)?;
    into.extend_from_slice(second)?;
    Ok(())
}

// Appends why there is no answer, where there is none.
#[tactic(auto, unfolding(crate::specs::Answers::error_part))]
fn push_error_part(into: &mut Vec<u8>, call: &Call<'_>, looked: &Looked) -> Result<(), NoMemory>
    ensures { OnOk result (into.new.items ≡ into.old.items ++ error_part call.now looked.now) }
{
    if !is_unanswered(call, looked) {
        return Ok(());
    }
    let text = told_text(*into.allocator(), call, looked)?;
    push_two(into, b"dns_query: ", &text)
}

// What is said of what a lookup came to.
fn lookup_complaint(alloc: Global, call: &Call<'_>, looked: &Looked) -> Result<Vec<u8>, NoMemory>
    ensures { IfOk result (λ v. v.items ≡ lookup_complaint call.now looked.now) }
{
    let mut lines = Vec::new(alloc);
    push_keys(&mut lines, &looked.anchors, &looked.trusted.keys)?;
    push_error_part(&mut lines, call, looked)?;
    Ok(lines)
}

// Appends the chains of an answer as trees, where the arguments ask for them.
#[tactic(auto, unfolding(crate::specs::Answers::chain_part))]
fn push_chain_part(
    into: &mut Vec<u8>,
    shows: bool,
    reply: &Result<DnsResponse, NetError>,
) -> Result<(), NoMemory>
    ensures { OnOk result (into.new.items ≡ into.old.items ++ chain_part shows (reply_of reply.now)) }
{
    if !shows {
        return Ok(());
    }
    match told_answer(reply) {
        Some(answer) => push_chains(into, &answer.chains),
        None => Ok(()),
    }
}

// Appends the queries of a lookup, where the arguments ask for them.
#[tactic(auto, unfolding(crate::specs::Answers::trail_part))]
fn push_trail_part(into: &mut Vec<u8>, shows: bool, notes: &[Note]) -> Result<(), NoMemory>
    ensures { OnOk result (into.new.items ≡ into.old.items ++ trail_part shows notes.now) }
{
    if !shows {
        return Ok(());
    }
    push_asks(into, notes)
}

// What is written of an answer, and behind that what else the arguments ask for.
#[tactic(auto, unfolding(crate::specs::Answers::shown_text))]
fn shown_text(
    alloc: Global,
    switches: Switches,
    call: &Call<'_>,
    looked: &Looked,
) -> Result<Vec<u8>, NoMemory>
    ensures { IfOk result (λ v. v.items ≡ shown_text switches call.now looked.now) }
{
    let mut text = answer_part(alloc, call, looked)?;
    push_chain_part(&mut text, switches.chain, &looked.reply)?;
    push_trail_part(&mut text, switches.trail, &looked.notes)?;
    Ok(text)
}

// An answer as JSON.
fn json_of(alloc: Global, answer: &Answer<'_>) -> Result<Vec<u8>, NoMemory>
    ensures { IfOk result (λ v. v.items ≡ answer_json answer.now) }
{
    let mut json = Vec::new(alloc);
    push_json(&mut json, answer)?;
    Ok(json)
}

// What a question came to as JSON.
fn json_text(alloc: Global, call: &Call<'_>, looked: &Looked) -> Result<Vec<u8>, NoMemory>
    ensures { IfOk result (λ v. v.items ≡ answer_json (answer_value call.now looked.now)) }
{
    let text = told_text(alloc, call, looked)?;
    json_of(
        alloc,
        &Answer {
            query: call.query,
            status: answer_status(call.query, &looked.reply),
            text: &text,
            reply: &looked.reply,
            notes: &looked.notes,
        },
    )
}

// What is written of what a lookup came to.
fn written_text(
    alloc: Global,
    switches: Switches,
    call: &Call<'_>,
    looked: &Looked,
) -> Result<Vec<u8>, NoMemory>
    ensures { IfOk result (λ v. v.items ≡ written_text switches call.now looked.now) }
{
    if switches.json {
        json_text(alloc, call, looked)
    } else {
        shown_text(alloc, switches, call, looked)
    }
}

// What is kept of a lookup, and the status that it then has.
#[derive(Drop)]
struct Kept {
    status: u8,
    saved: Vec<u8>,
    complaint: Vec<u8>,
}

// What is kept of a lookup that would end with a status: its session, where a file is named.
fn kept_of(
    alloc: Global,
    keeps: bool,
    call: &Call<'_>,
    looked: &Looked,
    expected: u8,
) -> Result<Kept, NoMemory>
    ensures keeps { IfOk result (λ kept. Keeps keeps call.now looked.now expected kept.status kept.saved.items kept.complaint.items) }
    ensures most { expected ≤ 4 → IfOk result (λ kept. kept.status ≤ 5) }
{
    if !keeps {
        return Ok(Kept {
            status: expected,
            saved: Vec::new(alloc),
            complaint: Vec::new(alloc),
        });
    }
    match saved_session(alloc, call, looked) {
        Ok(saved) => Ok(Kept {
            status: expected,
            saved,
            complaint: Vec::new(alloc),
        }),
        Err(SaveError::NoMemory) => Err(NoMemory),
        Err(why) => Ok(Kept {
            status: WRITE_FAILED,
            saved: Vec::new(alloc),
            complaint: unsaved_line(alloc, why)?,
        }),
    }
}

// What is told of what a lookup came to, and what is kept of it. The answer's status is above 4 only where memory ran out.
fn looked_told(
    alloc: Global,
    switches: Switches,
    keeps: bool,
    call: &Call<'_>,
    looked: &Looked,
) -> Result<Told, NoMemory>
    ensures tells { IfOk result (λ told. TellsLookup switches keeps call.now looked.now (told_of told)) }
    ensures most { IfOk result (λ told. told.status ≤ 5) }
{
    let status = answer_status(call.query, &looked.reply);
    if status > NO_ANSWER {
        return Err(NoMemory);
    }
    let text = written_text(alloc, switches, call, looked)?;
    let mut complaint = lookup_complaint(alloc, call, looked)?;
    let Kept {
        status,
        saved,
        complaint: lost,
    } = kept_of(alloc, keeps, call, looked, status)?;
    complaint.extend_from_slice(&lost)?;
    Ok(Told {
        status,
        text,
        saved,
        complaint,
    })
}

/// What is told of what a question came to, and what is kept of it where a file is named.
pub(crate) fn ended_told(
    alloc: Global,
    switches: Switches,
    keeps: bool,
    call: &Call<'_>,
    ended: Result<Looked, AnchorsFault>,
) -> Result<Told, NoMemory>
    ensures tells { IfOk result (λ told. IsTold switches keeps call.now ended (told_of told)) }
    ensures most { IfOk result (λ told. told.status ≤ 5) }
{
    match ended {
        Ok(looked) => looked_told(alloc, switches, keeps, call, &looked),
        Err(fault) => fault_told(alloc, fault),
    }
}
