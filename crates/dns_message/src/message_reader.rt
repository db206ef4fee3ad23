//! Reading a message: its header and its sections (RFC 1035, 4.1).
ghost use Rattle.std.specs.Prelude.{◌≡◌, ◌+◌, ◌<◌, ◌≤◌, ◌^◌, length, Ok, IfOk};
ghost use Rattle.dns_message.specs.Reading.{Reads};
ghost use Rattle.dns_message.specs.MessageAt.{header_at, question_at, questions_at, message_of, message_at};
ghost use Rattle.dns_message.specs.Readable.{IsReadable};
ghost use Rattle.dns_message.specs.Fitting.{header_value};
ghost use Rattle.dns_message.specs.KnownNames.{AreKnown};

use crate::decode_error::{DecodeError, DecodeKind};
use crate::header_flags::*;
use crate::known_names::KnownNames;
use crate::message::{Edns, Message};
use crate::message_bytes::MessageBytes;
use crate::name_reader::name_of;
use crate::number_reader::u16_of;
use crate::read_fault::{ReadFault, fault};
use crate::section_reader::section_of;
use dns_rdata::u16_at;
use dns_record::{DNSClass, Name, Octets, OpCode, Query, Record, RecordType, ResponseCode};
use std::alloc::Global;

/// The six numbers that a message begins with (RFC 1035, 4.1.1).
#[derive(Clone, Copy, Drop)]
pub(crate) struct Header {
    pub id: u16,
    pub flags: u16,
    pub questions: u16,
    pub answers: u16,
    pub authorities: u16,
    pub additionals: u16,
}

/// How many bytes a header has (RFC 1035, 4.1.1).
const HEADER: usize = 12;

// The header in the first twelve bytes (RFC 1035, 4.1.1).
#[tactic(auto, using(crate::proofs::HeaderReading::header_short, crate::proofs::HeaderReading::header_whole))]
fn header_of(bytes: &[u8]) -> Result<Header, ReadFault>
    requires short { length bytes.now < 2 ^ 32 }
    ensures reads { Reads header_value result (header_at bytes.now) }
    ensures fits { IfOk result (λ h. 12 ≤ length bytes.now) }
{
    if bytes.len() < HEADER {
        // The place of the first number that isn't whole.
        return Err(fault(DecodeKind::Short, bytes.len() / 2 * 2));
    }
    Ok(Header {
        id: u16_at(bytes, 0),
        flags: u16_at(bytes, 2),
        questions: u16_at(bytes, 4),
        answers: u16_at(bytes, 6),
        authorities: u16_at(bytes, 8),
        additionals: u16_at(bytes, 10),
    })
}

// A question and the place after it (RFC 1035, 4.1.2).
#[tactic(auto, unfolding(crate::specs::MessageAt::question_at))]
fn question_of(
    message: &MessageBytes<'_>,
    names: &mut KnownNames,
    room: &mut Vec<u8>,
    at: usize,
) -> Result<(Query, usize), ReadFault>
    requires readable { IsReadable message.now }
    requires known { AreKnown message.now.bytes.now names.old }
    requires at { at ≤ length message.now.bytes.now }
    ensures reads { Reads (λ x. (x.0, x.1)) result (question_at message.now.bytes.now at) }
    ensures fits { IfOk result (λ x. x.1 ≤ length message.now.bytes.now) }
    ensures known { AreKnown message.now.bytes.now names.new }
{
    let (name, next) = name_of(message, names, room, at)?;
    let (record_type, next) = u16_of(message.bytes, next)?;
    let (class, next) = u16_of(message.bytes, next)?;
    let query = Query {
        name,
        query_type: RecordType(record_type),
        query_class: DNSClass(class),
    };
    Ok((query, next))
}

/// A question for the root (RFC 1035, 4.1.2), so that a count alone takes no memory.
const SMALLEST_QUESTION: usize = 5;

// So many questions, and the place after them.
fn questions_of(
    message: &MessageBytes<'_>,
    names: &mut KnownNames,
    room: &mut Vec<u8>,
    count: u16,
    at: usize,
) -> Result<(Vec<Query>, usize), ReadFault>
    requires readable { IsReadable message.now }
    requires known { AreKnown message.now.bytes.now names.old }
    requires at { at ≤ length message.now.bytes.now }
    ensures reads { Reads (λ x. (x.0.items, x.1)) result (questions_at count message.now.bytes.now at) }
    ensures fits { IfOk result (λ x. x.1 ≤ length message.now.bytes.now) }
    ensures known { AreKnown message.now.bytes.now names.new }
{
    let most = usize::from(count).min((message.bytes.len() - at) / SMALLEST_QUESTION);
    let mut queries = Vec::with_capacity(message.alloc, most)?;
    let mut pos = at;
    'questions: for _ in 0..count {
        let (query, next) = question_of(message, names, room, pos)?;
        queries.push(query)?;
        pos = next;
    }
    Ok((queries, pos))
}

/// The four sections of a message (RFC 1035, 4.1), without an OPT.
#[derive(Drop)]
struct Sections {
    queries: Vec<Query>,
    answers: Vec<Record>,
    authorities: Vec<Record>,
    additionals: Vec<Record>,
}

// The message of these parts (RFC 1035, 4.1.1; RFC 6891, 6.1.3).
fn message_of(header: Header, sections: Sections, opt: Option<(Edns, u8)>) -> Message
    ensures { result ≡ message_of (header_value header)
        sections.queries.items sections.answers.items sections.authorities.items sections.additionals.items opt }
{
    let Sections {
        queries,
        answers,
        authorities,
        additionals,
    } = sections;
    let flags = header.flags;
    let (edns, upper) = match opt {
        None => (None, 0),
        Some((edns, code)) => (Some(edns), u16::from(code)),
    };
    Message {
        id: header.id,
        response: flags & RESPONSE != 0,
        op_code: OpCode((flags / OP_CODE % HEADER_CODES) as u8),
        authoritative: flags & AUTHORITATIVE != 0,
        truncated: flags & TRUNCATED != 0,
        recursion_desired: flags & RECURSION_DESIRED != 0,
        recursion_available: flags & RECURSION_AVAILABLE != 0,
        authentic_data: flags & AUTHENTIC_DATA != 0,
        checking_disabled: flags & CHECKING_DISABLED != 0,
        response_code: ResponseCode(upper * HEADER_CODES + flags % HEADER_CODES),
        queries,
        answers,
        authorities,
        additionals,
        edns,
    }
}

// The message whose header this is, from the place after it.
#[tactic(auto, unfolding(crate::specs::MessageAt::message_at))]
fn read_sections(
    message: &MessageBytes<'_>,
    names: &mut KnownNames,
    header: Header,
) -> Result<Message, ReadFault>
    requires readable { IsReadable message.now }
    requires known { AreKnown message.now.bytes.now names.old }
    requires header { header_at message.now.bytes.now ≡ Ok (header_value header) }
    requires whole { 12 ≤ length message.now.bytes.now }
    ensures { Reads (λ m. m) result (message_at message.now.bytes.now) }
{
    let bytes = message.bytes;
    let mut room = Vec::with_capacity(message.alloc, Name::MAX_LEN)?;
    let (queries, next) = questions_of(message, names, &mut room, header.questions, HEADER)?;
    let (answers, _, next) = section_of(message, names, &mut room, header.answers, false, next)?;
    let (authorities, _, next) = section_of(
        message,
        names,
        &mut room,
        header.authorities,
        false,
        next,
    )?;
    let (additionals, opt, next) = section_of(
        message,
        names,
        &mut room,
        header.additionals,
        true,
        next,
    )?;
    if next < bytes.len() {
        return Err(fault(DecodeKind::Trailing, next));
    }
    let sections = Sections {
        queries,
        answers,
        authorities,
        additionals,
    };
    Ok(message_of(header, sections, opt))
}

// The message that the octets are.
#[tactic(auto, unfolding(crate::specs::MessageAt::message_at))]
fn read_message(octets: Octets) -> Result<Message, ReadFault>
    requires { length octets < 2 ^ 32 }
    ensures { Reads (λ m. m) result (message_at octets) }
{
    let octets = octets.into_shared()?;
    let alloc = octets.allocator();
    let bytes = octets.as_slice();
    let header = header_of(bytes)?;
    let message = MessageBytes {
        alloc,
        octets: &octets,
        bytes,
    };
    let mut names = KnownNames::new(alloc, bytes)?;
    read_sections(&message, &mut names, header)
}

impl Message {
    /// The message that the bytes are, all of them (RFC 1035, 4.1; RFC 6891). Names may end in pointers, and are spelled out,
    /// also those inside an rdata in the classes IN, NONE and ANY. The records are marked `Indeterminate`.
    ///
    /// `DecodeError` is the first fault from the left with its place in bytes, or out of memory.
    pub fn from_vec(alloc: Global, bytes: &[u8]) -> Result<Message, DecodeError>
        requires { length bytes.now < 2 ^ 32 }
        ensures { Reads (λ m. m) result (message_at bytes.now) }
    {
        Message::from_octets(Octets::from_slice(alloc, bytes)?)
    }

    /// The message that the octets are, as `from_vec` reads it. The rdata that stand in them as they are share them.
    pub fn from_octets(octets: Octets) -> Result<Message, DecodeError>
        requires { length octets < 2 ^ 32 }
        ensures { Reads (λ m. m) result (message_at octets) }
    {
        match read_message(octets) {
            Ok(message) => Ok(message),
            Err(fault) => Err(fault.shown()),
        }
    }
}
