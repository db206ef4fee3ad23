//! The queries that were sent for an answer.
ghost use Rattle.std.specs.Prelude.{◌≡◌, ◌++◌, codes, OnOk};
ghost use Rattle.dns_handle.specs.Replies.{error_of, reply_of};
ghost use Rattle.dns_query_json.specs.AnswerJson.{code_field, fault_words, heard_field, note_fields, outcome_fields, trail_field, words_in as words_in_line};
ghost use Rattle.dns_query_json.specs.Json.{string_field};

use crate::lists::{JsonValue, push_list};
use crate::strings::{
    push_named, push_number_field, push_number_or_null, push_question, push_sign, push_string_field,
};
use dns_handle::{DnsResponse, NetError};
use dns_query_handle::Note;
use dns_record::{NoMemory, Query};
use dns_report::write_fault;

/// Appends the field of a code.
#[tactic(auto, unfolding(crate::specs::AnswerJson::code_field))]
pub(crate) fn push_code(into: &mut Vec<u8>, code: Option<u16>) -> Result<(), NoMemory>
    ensures { OnOk result (into.new.items ≡ into.old.items ++ code_field code) }
{
    push_named(into, b"code")?;
    push_number_or_null(into, code)
}

// What the line of a fault says behind its first word, without the line's end.
#[tactic(auto, unfolding(crate::specs::AnswerJson::words_in))]
fn words_in(line: &[u8]) -> &[u8]
    ensures { result.now ≡ words_in_line line.now }
{
    if line.len() < 7 {
        return &[];
    }
    &line[6..line.len() - 1]
}

// Appends the field of an error.
fn push_fault(into: &mut Vec<u8>, error: &NetError) -> Result<(), NoMemory>
    ensures { OnOk result (into.new.items ≡ into.old.items ++ string_field (codes "fault") (fault_words (error_of error.now))) }
{
    match error {
        NetError::NoMemory => push_string_field(into, b"fault", b"memory"),
        _ => {
            let line = write_fault(*into.allocator(), error)?;
            push_string_field(into, b"fault", words_in(&line))
        }
    }
}

// Appends what a query was answered.
#[tactic(auto, unfolding(crate::specs::AnswerJson::heard_field))]
fn push_heard(into: &mut Vec<u8>, reply: &Result<DnsResponse, NetError>) -> Result<(), NoMemory>
    ensures { OnOk result (into.new.items ≡ into.old.items ++ heard_field (reply_of reply.now)) }
{
    match reply {
        Ok(response) => push_code(into, Some(response.message.response_code.0)),
        Err(error) => push_fault(into, error),
    }
}

// Appends the fields of how long a query took, and of what it was answered.
#[tactic(auto, unfolding(crate::specs::AnswerJson::outcome_fields))]
fn push_outcome(
    into: &mut Vec<u8>,
    reply: &Result<DnsResponse, NetError>,
    elapsed_ms: u64,
) -> Result<(), NoMemory>
    ensures { OnOk result (into.new.items ≡ into.old.items ++ outcome_fields (reply_of reply.now) elapsed_ms) }
{
    push_number_field(into, b"milliseconds", elapsed_ms)?;
    push_sign(into, b',')?;
    push_heard(into, reply)
}

// Appends the same behind what was asked.
#[tactic(auto, unfolding(crate::specs::AnswerJson::note_fields))]
fn push_fields(
    into: &mut Vec<u8>,
    query: &Query,
    reply: &Result<DnsResponse, NetError>,
    elapsed_ms: u64,
) -> Result<(), NoMemory>
    ensures { OnOk result (into.new.items ≡ into.old.items ++ note_fields query.now (reply_of reply.now) elapsed_ms) }
{
    push_question(into, &query.name, query.query_type)?;
    push_sign(into, b',')?;
    push_outcome(into, reply, elapsed_ms)
}

impl JsonValue for Note {
    ghost use Rattle.dns_query_json.specs.AnswerJson.{note_value};

    ghost text = { note_value };

    #[tactic(auto, unfolding(crate::specs::AnswerJson::note_value))]
    fn push_value(&self, into: &mut Vec<u8>) -> Result<(), NoMemory> {
        push_sign(into, b'{')?;
        push_fields(into, &self.query, &self.reply, self.elapsed_ms)?;
        push_sign(into, b'}')
    }
}

/// Appends the field of the queries that were sent.
#[tactic(auto, unfolding(crate::specs::AnswerJson::trail_field))]
pub(crate) fn push_trail(into: &mut Vec<u8>, notes: &[Note]) -> Result<(), NoMemory>
    ensures { OnOk result (into.new.items ≡ into.old.items ++ trail_field notes.now) }
{
    push_named(into, b"trail")?;
    push_list(into, notes)
}
