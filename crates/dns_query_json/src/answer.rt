//! An answer as one value.
ghost use Rattle.std.specs.Prelude.{◌≡◌, ◌++◌, OnOk};
ghost use Rattle.std.specs.Option.{option_map};
ghost use Rattle.dns_handle.specs.Replies.{reply_of};
ghost use Rattle.dns_query_json.specs.AnswerJson.{answer_json, front_fields, reply_fields, response_fields};

use crate::chains::push_chains;
use crate::denials::push_denial_field;
use crate::notes::{push_code, push_trail};
use crate::records::push_sections;
use crate::strings::{push_number_field, push_question, push_sign, push_string_field};
use dns_handle::{DnsResponse, NetError};
use dns_query_answer::told_answer;
use dns_query_handle::Note;
use dns_record::{NoMemory, Query};
use dns_text::push_text;
use std::marker::Model;

/// What a question came to.
#[derive(Drop)]
pub struct Answer<'a> {
    /// What was asked for.
    pub query: &'a Query,
    /// The status that the program ends with.
    pub status: u8,
    /// What is written of the answer for people.
    pub text: &'a [u8],
    /// The answer, or the error in its place.
    pub reply: &'a Result<DnsResponse, NetError>,
    /// The queries that were sent for it, in order.
    pub notes: &'a [Note],
}

impl<'a> Model for Answer<'a> {
    ghost use Rattle.dns_handle.specs.Replies.{reply_of};
    ghost use Rattle.dns_query_json.specs.AnswerJson.{AnswerValue};

    ghost Value = { AnswerValue };

    ghost view = { λ a. record {
      question = a.query.now;
      status = a.status;
      text = a.text.now;
      reply = reply_of a.reply.now;
      notes = a.notes.now;
    } };
}

// Appends the fields of a response.
#[tactic(auto, unfolding(crate::specs::AnswerJson::response_fields))]
fn push_response(into: &mut Vec<u8>, response: Option<&DnsResponse>) -> Result<(), NoMemory>
    ensures { OnOk result (into.new.items ≡ into.old.items ++ response_fields (option_map (λ r. r.now) response.entry)) }
{
    let Some(response) = response else {
        return push_code(into, None);
    };
    push_code(into, Some(response.message.response_code.0))?;
    push_sign(into, b',')?;
    push_sections(into, &response.message)?;
    push_sign(into, b',')?;
    push_chains(into, &response.chains)
}

// Appends what was asked for, the status, and the text for people.
#[tactic(auto, unfolding(crate::specs::AnswerJson::front_fields))]
fn push_front(into: &mut Vec<u8>, answer: &Answer<'_>) -> Result<(), NoMemory>
    ensures { OnOk result (into.new.items ≡ into.old.items ++ front_fields answer.now) }
{
    let query = answer.query;
    push_question(into, &query.name, query.query_type)?;
    push_sign(into, b',')?;
    push_number_field(into, b"status", u64::from(answer.status))?;
    push_sign(into, b',')?;
    push_string_field(into, b"text", answer.text)
}

// Appends what is denied, and the response.
#[tactic(auto, unfolding(crate::specs::AnswerJson::reply_fields))]
fn push_reply(into: &mut Vec<u8>, reply: &Result<DnsResponse, NetError>) -> Result<(), NoMemory>
    ensures { OnOk result (into.new.items ≡ into.old.items ++ reply_fields (reply_of reply.now)) }
{
    push_denial_field(into, reply)?;
    push_sign(into, b',')?;
    push_response(into, told_answer(reply))
}

/// Appends an answer as one JSON object on a line of its own (RFC 8259): `name` and `type`, the `status`, the `text` for people, the
/// `denial` with its mark, the `code`, the records of `answers`, `authorities` and `additionals`, each with its mark, the `chains` of its
/// Secure sets, and as `trail` the queries that were sent, each with its code or its `fault` and how many `milliseconds` it took. Where
/// there is no response the code is `null`, and no records and chains are named. It fails only where memory runs out.
#[tactic(auto, unfolding(crate::specs::AnswerJson::answer_json))]
pub fn push_json(into: &mut Vec<u8>, answer: &Answer<'_>) -> Result<(), NoMemory>
    ensures { OnOk result (into.new.items ≡ into.old.items ++ answer_json answer.now) }
{
    push_sign(into, b'{')?;
    push_front(into, answer)?;
    push_sign(into, b',')?;
    push_reply(into, answer.reply)?;
    push_sign(into, b',')?;
    push_trail(into, answer.notes)?;
    push_text(into, b"}\n")
}
