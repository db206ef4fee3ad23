//! What was asked for an answer.
ghost use Rattle.std.specs.Prelude.{◌≡◌, ◌++◌, ◌∷◌, [], codes, OnOk};
ghost use Rattle.std.specs.Fmt.{decimal};
ghost use Rattle.dns_handle.specs.Replies.{reply_of};
ghost use Rattle.dns_query_shown.specs.Asks.{ask_line, asks_text, counted, heard_text, message_words};

use crate::words::push_set;
use dns_handle::{DnsResponse, NetError};
use dns_message::Message;
use dns_model::Section;
use dns_query_handle::Note;
use dns_record::NoMemory;
use dns_report::{section_word, write_fault};
use dns_text::{push_decimal, push_text};

// Appends how many records a section has.
#[tactic(auto, unfolding(crate::specs::Asks::counted))]
fn push_count(into: &mut Vec<u8>, section: Section, count: usize) -> Result<(), NoMemory>
    ensures { OnOk result (into.new.items ≡ into.old.items ++ counted section count) }
{
    push_text(into, b", ")?;
    push_text(into, section_word(section))?;
    into.push(b' ')?;
    push_decimal(into, count as u64)
}

// Appends what a message is.
#[tactic(auto, unfolding(crate::specs::Asks::message_words))]
fn push_message(into: &mut Vec<u8>, message: &Message) -> Result<(), NoMemory>
    ensures { OnOk result (into.new.items ≡ into.old.items ++ message_words message.now) }
{
    push_text(into, b"code ")?;
    push_decimal(into, u64::from(message.response_code.0))?;
    push_count(into, Section::Answer, message.answers.len())?;
    push_count(into, Section::Authority, message.authorities.len())?;
    push_count(into, Section::Additional, message.additionals.len())
}

// Appends what was answered, and the line's end.
#[tactic(auto, unfolding(crate::specs::Asks::heard_text))]
fn push_heard(into: &mut Vec<u8>, reply: &Result<DnsResponse, NetError>) -> Result<(), NoMemory>
    ensures { OnOk result (into.new.items ≡ into.old.items ++ heard_text (reply_of reply.now)) }
{
    match reply {
        Ok(response) => {
            push_message(into, &response.message)?;
            into.push(b'\n')?;
            Ok(())
        }
        Err(NetError::NoMemory) => push_text(into, b"fault memory\n"),
        Err(error) => {
            let line = write_fault(*into.allocator(), error)?;
            push_text(into, &line)
        }
    }
}

// Appends the line of a query.
fn push_ask(into: &mut Vec<u8>, note: &Note) -> Result<(), NoMemory>
    ensures { OnOk result (into.new.items ≡ into.old.items ++ ask_line note.now) }
{
    let query = &note.query;
    push_set(into, &query.name, query.query_type)?;
    push_text(into, b", ")?;
    push_decimal(into, note.elapsed_ms)?;
    push_text(into, b" ms: ")?;
    push_heard(into, &note.reply)
}

/// Appends a line for each query that was made, in order: what was asked, in how many milliseconds an answer was there, and what it was.
/// It fails only where memory runs out.
pub fn push_asks(into: &mut Vec<u8>, notes: &[Note]) -> Result<(), NoMemory>
    ensures { OnOk result (into.new.items ≡ into.old.items ++ asks_text notes.now) }
{
    for note in notes {
        push_ask(into, note)?;
    }
    Ok(())
}
