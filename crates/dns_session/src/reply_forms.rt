//! The forms of lines that say what an upstream replies.
ghost use Rattle.std.specs.Prelude.{◌≡◌, ◌<◌, ◌^◌, length, IfOk};
ghost use Rattle.std.specs.Option.{option_map};
ghost use Rattle.dns_session.specs.Lines.{three_after, message_word_in, message_after, fault_word_in, fault_line, upstream_line};

use crate::form::LineForm;
use crate::named_forms::question_of;
use crate::reply::{ReplyFault, ReplyKind, SessionReply};
use crate::words::{after, triple};
use dns_message::{DecodeError, DecodeKind, Message};
use dns_record::{NoMemory, Query};
use dns_text::octets_in;
use std::alloc::Global;

// The three words after the first, where that is this word.
fn three_after<'a>(line: &'a [u8], word: &[u8]) -> Option<(&'a [u8], &'a [u8], &'a [u8])>
    ensures { option_map (λ x. (x.0.now, x.1.now, x.2.now)) result ≡ three_after word.now line.now }
{
    triple(after(line, word)?)
}

// The message that a word's bytes are, or why they are none.
fn message_of(alloc: Global, word: &[u8]) -> Result<Option<Result<Message, DecodeError>>, NoMemory>
    requires { length word.now < 2 ^ 32 }
    ensures { IfOk result (λ m. m ≡ message_word_in word.now) }
{
    let Some(bytes) = octets_in(alloc, word)? else {
        return Ok(None);
    };
    let message = Message::from_octets(bytes);
    match message {
        Ok(message) => Ok(Some(Ok(message))),
        Err(error) => {
            if error.kind == DecodeKind::NoMemory {
                Err(NoMemory)
            } else {
                Ok(Some(Err(error)))
            }
        }
    }
}

// A question and a message, by their words after this one.
fn message_after(
    alloc: Global,
    line: &[u8],
    word: &[u8],
) -> Result<Option<(Query, Result<Message, DecodeError>)>, NoMemory>
    requires { length line.now < 2 ^ 32 }
    ensures { IfOk result (λ x. x ≡ message_after word.now line.now) }
{
    let Some((name, record_type, message)) = three_after(line, word) else {
        return Ok(None);
    };
    let Some(query) = question_of(alloc, name, record_type)? else {
        return Ok(None);
    };
    let Some(message) = message_of(alloc, message)? else {
        return Ok(None);
    };
    Ok(Some((query, message)))
}

// The fault that a word names.
fn fault_in(word: &[u8]) -> Option<ReplyFault>
    ensures { result ≡ fault_word_in word.now }
{
    if word == b"timeout".as_slice() {
        Some(ReplyFault::Timeout)
    } else if word == b"io".as_slice() {
        Some(ReplyFault::Io)
    } else if word == b"busy".as_slice() {
        Some(ReplyFault::Busy)
    } else {
        None
    }
}

// What a `fault` line says.
fn fault_of(alloc: Global, line: &[u8]) -> Result<Option<SessionReply>, NoMemory>
    ensures { IfOk result (λ r. r ≡ fault_line line.now) }
{
    let Some((name, record_type, fault)) = three_after(line, b"fault") else {
        return Ok(None);
    };
    let Some(fault) = fault_in(fault) else {
        return Ok(None);
    };
    let Some(query) = question_of(alloc, name, record_type)? else {
        return Ok(None);
    };
    let kind = ReplyKind::Fault(fault);
    Ok(Some(SessionReply { query, kind }))
}

impl LineForm for SessionReply {
    ghost form = { upstream_line };

    fn read(alloc: Global, line: &[u8]) -> Result<Option<SessionReply>, NoMemory> {
        if let Some((query, message)) = message_after(alloc, line, b"reply")? {
            let kind = ReplyKind::Message(message);
            return Ok(Some(SessionReply { query, kind }));
        }
        if let Some((query, message)) = message_after(alloc, line, b"empty")? {
            let kind = ReplyKind::Empty(message);
            return Ok(Some(SessionReply { query, kind }));
        }
        fault_of(alloc, line)
    }
}
