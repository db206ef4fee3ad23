//! Requests of a forwarder with what their lookups came to, a line each, and the replies.
ghost use Rattle.std.specs.Prelude.{◌<◌, ◌^◌, length};

use dns_evidence::Trail;
use dns_forwarded::{Outcome, forwarded};
use dns_handle::{DnsResponse, NetError, Protocol};
use dns_message::{DecodeKind, Message};
use dns_model::{Denial, Proof};
use dns_record::{NoMemory, Octets, Record};
use dns_session::{Lines, SessionStop, next_word, quadruple};
use dns_text::{octets_in, push_octets};
use std::alloc::Global;

/// The most bytes of a response in a line.
const MOST: usize = 65_536;

/// The transport that a word names.
pub(crate) fn protocol_in(word: &[u8]) -> Option<Protocol> {
    if word == b"udp".as_slice() {
        return Some(Protocol::Udp);
    }
    if word == b"tcp".as_slice() {
        return Some(Protocol::Tcp);
    }
    None
}

// The mark that a letter stands for.
fn mark_of(letter: u8) -> Option<Proof> {
    match letter {
        b's' => Some(Proof::Secure),
        b'i' => Some(Proof::Insecure),
        b'b' => Some(Proof::Bogus),
        b'n' => Some(Proof::Indeterminate),
        _ => None,
    }
}

// The mark that a word of one letter stands for.
fn mark_in(word: &[u8]) -> Option<Proof> {
    match word {
        [letter] => mark_of(*letter),
        _ => None,
    }
}

// Marks records by the first letters of a word, and gives the others.
fn mark_records<'a>(records: &mut [Record], letters: &'a [u8]) -> Option<&'a [u8]> {
    let mut left = letters;
    for record in records {
        let [letter, others @ ..] = left else {
            return None;
        };
        record.proof = mark_of(*letter)?;
        left = others;
    }
    Some(left)
}

// The message with its records marked by the letters of a word, section by section.
fn marked(message: Message, letters: &[u8]) -> Option<Message> {
    let mut message = message;
    let letters = mark_records(message.answers.as_mut_slice(), letters)?;
    let letters = mark_records(message.authorities.as_mut_slice(), letters)?;
    let letters = mark_records(message.additionals.as_mut_slice(), letters)?;
    if letters.is_empty() {
        Some(message)
    } else {
        None
    }
}

/// The bytes that a word of a line writes.
pub(crate) fn octets_at(
    alloc: Global,
    word: &[u8],
    bad: SessionStop,
) -> Result<Octets, SessionStop> {
    octets_in(alloc, word)?.ok_or(bad)
}

// The response whose message a word writes, its records marked by another one.
fn response_at(
    alloc: Global,
    marks: &[u8],
    word: &[u8],
    denial: Denial,
    bad: SessionStop,
) -> Result<DnsResponse, SessionStop> {
    let octets = octets_at(alloc, word, bad)?;
    if MOST < octets.len() {
        return Err(bad);
    }
    let message = match Message::from_vec(alloc, octets.as_slice()) {
        Ok(message) => message,
        Err(error) => {
            return Err(match error.kind {
                DecodeKind::NoMemory => SessionStop::NoMemory,
                _ => bad,
            });
        }
    };
    let letters: &[u8] = if marks == b"-".as_slice() { &[] } else { marks };
    let message = marked(message, letters).ok_or(bad)?;
    Ok(DnsResponse {
        message,
        chains: Vec::new(alloc),
        denial,
        trail: Trail {
            steps: Vec::new(alloc),
        },
    })
}

// What a lookup came to, by the four words behind a request: `none`, `failed`, `answered`, `absent`, `expanded` or `denied`, a mark, the
// marks of the records, and the response.
fn outcome_at(
    alloc: Global,
    words: (&[u8], &[u8], &[u8], &[u8]),
    bad: SessionStop,
) -> Result<Outcome, SessionStop> {
    let (kind, mark, marks, response) = words;
    if kind == b"none".as_slice() {
        return Ok(Outcome::None);
    }
    if kind == b"failed".as_slice() {
        return Ok(Outcome::Failed(NetError::Timeout));
    }
    if kind == b"answered".as_slice() {
        let response = response_at(alloc, marks, response, Denial::None, bad)?;
        return Ok(Outcome::Answered(response));
    }
    let proof = mark_in(mark).ok_or(bad)?;
    if kind == b"absent".as_slice() {
        let response = response_at(alloc, marks, response, Denial::Absent(proof), bad)?;
        return Ok(Outcome::Answered(response));
    }
    if kind == b"expanded".as_slice() {
        let response = response_at(alloc, marks, response, Denial::Expanded(proof), bad)?;
        return Ok(Outcome::Answered(response));
    }
    if kind == b"denied".as_slice() {
        let response = response_at(alloc, marks, response, Denial::None, bad)?;
        return Ok(Outcome::Denied(response, proof));
    }
    Err(bad)
}

// The reply to the request of a line.
fn reply_at(alloc: Global, line: &[u8], bad: SessionStop) -> Result<Option<Octets>, SessionStop> {
    let (protocol, more) = next_word(line);
    let protocol = protocol_in(protocol).ok_or(bad)?;
    let (request, more) = next_word(more.ok_or(bad)?);
    let request = octets_at(alloc, request, bad)?;
    let words = quadruple(more).ok_or(bad)?;
    let outcome = outcome_at(alloc, words, bad)?;
    Ok(forwarded(alloc, request.as_slice(), protocol, &outcome)?)
}

/// Puts the line of a reply behind a text.
pub(crate) fn push_reply(text: &mut Vec<u8>, reply: Option<Octets>) -> Result<(), NoMemory> {
    match reply {
        Some(bytes) => push_octets(text, bytes.as_slice())?,
        None => text.extend_from_slice(b"none")?,
    }
    text.push(b'\n')?;
    Ok(())
}

/// Puts the reply in hexadecimal digits, or `none`, behind a text for each line `PROTOCOL REQUEST OUTCOME MARK MARKS RESPONSE`: `udp` or
/// `tcp`; the request in hexadecimal digits, of which `-` is no byte; `none`, `failed`, `answered`, `absent`, `expanded` or `denied`, a
/// mark as a letter (`s`, `i`, `b` or `n`), a letter for each record of the response, and the response.
pub(crate) fn push_replies(
    alloc: Global,
    bytes: &[u8],
    text: &mut Vec<u8>,
) -> Result<(), SessionStop>
    requires { length bytes.now < 2 ^ 32 }
{
    let mut lines = Lines::of(bytes);
    while let Some((line, after)) = lines.next() {
        let bad = SessionStop::BadLine(lines.number());
        push_reply(text, reply_at(alloc, line, bad)?)?;
        lines = after;
    }
    if lines.is_ended() {
        Ok(())
    } else {
        Err(SessionStop::BadLine(lines.number()))
    }
}
