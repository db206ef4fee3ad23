//! Writing a message, names spelled out and the OPT last (RFC 1035, 4.1; RFC 6891, 6.1).
ghost use Rattle.std.specs.Prelude.{◌≡◌, ◌+◌, ◌<◌, ◌≤◌, ◌++◌, length, map, false, OnOk, IfOk};
ghost use Rattle.std.specs.List.{flat_map};
ghost use Rattle.dns_model.specs.Bytes.{u16_bytes, u32_bytes};
ghost use Rattle.dns_model.specs.Gives.{Gives};
ghost use Rattle.dns_message.specs.declared.encode_error.EncodeError.TheVariants as errors;
ghost use Rattle.dns_message.specs.Lent.{message_value};
ghost use Rattle.dns_message.specs.WrittenAs.{flag_bit, question_bytes, record_bytes, opt_ttl, opt_bytes, edns_bytes, flags_of, header_bytes, edns_count, has_long_options, has_many, encoded, empty_query, IsReadAgain};

use crate::encode_error::EncodeError;
use crate::header_flags::*;
use crate::message::{Edns, Message};
use crate::message_ref::MessageRef;
use dns_rdata::{push_u16, push_u32};
use dns_record::{NoMemory, Octets, OpCode, Query, Record, RecordType, ResponseCode};
use std::alloc::Global;

/// The most bytes of a message that is written, and the most items of a section.
const MOST: usize = 65535;

// A flag as a number.
fn flag_bit(flag: bool) -> u16
    ensures { result ≡ flag_bit flag }
{
    if flag { 1 } else { 0 }
}

// Writes a question (RFC 1035, 4.1.2).
fn push_question(out: &mut Vec<u8>, query: &Query) -> Result<(), NoMemory>
    ensures { OnOk result (out.new.items ≡ out.old.items ++ question_bytes query.now) }
{
    out.extend_from_slice(query.name.wire())?;
    push_u16(out, query.query_type.0)?;
    push_u16(out, query.query_class.0)
}

/// What a record is written of (RFC 1035, 4.1.3). In an OPT class and ttl say something else (RFC 6891, 6.1.2).
#[derive(Drop)]
struct RecordParts<'a> {
    owner: &'a [u8],
    record_type: u16,
    class: u16,
    ttl: u32,
    rdata: &'a [u8],
}

// Appends a record of these parts.
fn push_parts(out: &mut Vec<u8>, parts: &RecordParts<'_>) -> Result<(), NoMemory>
    requires { length parts.now.rdata.now ≤ 65535 }
    ensures { OnOk result (out.new.items ≡ out.old.items
        ++ (parts.now.owner.now ++ u16_bytes parts.now.record_type ++ u16_bytes parts.now.class
        ++ u32_bytes parts.now.ttl ++ u16_bytes (length parts.now.rdata.now) ++ parts.now.rdata.now)) }
{
    out.extend_from_slice(parts.owner)?;
    push_u16(out, parts.record_type)?;
    push_u16(out, parts.class)?;
    push_u32(out, parts.ttl)?;
    push_u16(out, parts.rdata.len() as u16)?;
    out.extend_from_slice(parts.rdata)?;
    Ok(())
}

// Writes a record, its owner in full (RFC 1035, 4.1.3).
fn push_record(out: &mut Vec<u8>, from: &Record) -> Result<(), NoMemory>
    ensures { OnOk result (out.new.items ≡ out.old.items ++ record_bytes from.now) }
{
    let parts = RecordParts {
        owner: from.name.wire(),
        record_type: from.record_type.0,
        class: from.dns_class.0,
        ttl: from.ttl,
        rdata: from.rdata.as_slice(),
    };
    push_parts(out, &parts)
}

// Writes questions in order.
fn push_questions(out: &mut Vec<u8>, queries: &[Query]) -> Result<(), NoMemory>
    ensures { OnOk result (out.new.items ≡ out.old.items ++ flat_map question_bytes queries.now) }
{
    for query in queries {
        push_question(out, query)?;
    }
    Ok(())
}

// Writes records in order.
fn push_records(out: &mut Vec<u8>, records: &[&Record]) -> Result<(), NoMemory>
    ensures { OnOk result (out.new.items ≡ out.old.items ++ flat_map record_bytes (map (λ r. r.now) records.now)) }
{
    for record in records {
        push_record(out, record)?;
    }
    Ok(())
}

// The ttl field of an OPT record: the upper bits of the response code, the version and the flags (RFC 6891, 6.1.3).
fn opt_ttl(code: u16, edns: &Edns) -> u32
    ensures { result ≡ opt_ttl code edns.now }
{
    u32::from(code / HEADER_CODES % 256) * EXTENDED_CODE
        + u32::from(edns.version) * EDNS_VERSION
        + u32::from(flag_bit(edns.dnssec_ok)) * DNSSEC_OK
        + u32::from(edns.flags) % DNSSEC_OK
}

// Writes an OPT record (RFC 6891, 6.1.2).
fn push_opt(out: &mut Vec<u8>, code: u16, edns: &Edns) -> Result<(), NoMemory>
    requires { length edns.now.options ≤ 65535 }
    ensures { OnOk result (out.new.items ≡ out.old.items ++ opt_bytes code edns.now) }
{
    let parts = RecordParts {
        owner: &[0],
        record_type: RecordType::OPT.0,
        class: edns.max_payload,
        ttl: opt_ttl(code, edns),
        rdata: edns.options.as_slice(),
    };
    push_parts(out, &parts)
}

// Writes the OPT record of a message that has EDNS.
#[tactic(auto, unfolding(crate::specs::WrittenAs::has_many))]
fn push_edns(out: &mut Vec<u8>, message: &MessageRef<'_>) -> Result<(), NoMemory>
    requires { has_many (message_value message.now) ≡ false }
    ensures { OnOk result (out.new.items ≡ out.old.items ++ edns_bytes message.now.response_code.0 message.now.edns.now) }
{
    match message.edns {
        None => Ok(()),
        Some(edns) => push_opt(out, message.response_code.0, edns),
    }
}

// The second number of the header: flags, opcode and the lower bits of the response code (RFC 1035, 4.1.1).
fn flags_of(message: &MessageRef<'_>) -> u16
    ensures { result ≡ flags_of (message_value message.now) }
{
    flag_bit(message.response) * RESPONSE
        + u16::from(message.op_code.0) % HEADER_CODES * OP_CODE
        + flag_bit(message.authoritative) * AUTHORITATIVE
        + flag_bit(message.truncated) * TRUNCATED
        + flag_bit(message.recursion_desired) * RECURSION_DESIRED
        + flag_bit(message.recursion_available) * RECURSION_AVAILABLE
        + flag_bit(message.authentic_data) * AUTHENTIC_DATA
        + flag_bit(message.checking_disabled) * CHECKING_DISABLED
        + message.response_code.0 % HEADER_CODES
}

// How many OPT records are written.
fn edns_count(edns: &Option<Edns>) -> usize
    ensures { result ≡ edns_count edns.now }
{
    match edns {
        None => 0,
        Some(_) => 1,
    }
}

// Whether the options of an OPT record are too long for its length field.
fn has_long_options(edns: &Option<Edns>) -> bool
    ensures { result ≡ has_long_options edns.now }
{
    match edns {
        None => false,
        Some(edns) => MOST < edns.options.as_slice().len(),
    }
}

// Whether a section has more items than its count can say, or the OPT more options.
#[tactic(auto, unfolding(crate::specs::WrittenAs::has_many))]
fn has_many(message: &MessageRef<'_>) -> bool
    ensures { result ≡ has_many (message_value message.now) }
{
    MOST < message.queries.len()
        || MOST < message.answers.len()
        || MOST < message.authorities.len()
        || MOST < message.additionals.len() + edns_count(message.edns)
        || has_long_options(message.edns)
}

/// How many items each section has, the OPT among the additional records.
#[derive(Clone, Copy, Drop)]
struct Counts {
    queries: u16,
    answers: u16,
    authorities: u16,
    additionals: u16,
}

// The counts of the header (RFC 1035, 4.1.1).
#[tactic(auto, unfolding(crate::specs::WrittenAs::has_many))]
fn counts_of(message: &MessageRef<'_>) -> Counts
    requires { has_many (message_value message.now) ≡ false }
    ensures queries { result.queries ≡ length message.now.queries.now }
    ensures answers { result.answers ≡ length message.now.answers.now }
    ensures authorities { result.authorities ≡ length message.now.authorities.now }
    ensures additionals { result.additionals ≡ length message.now.additionals.now + edns_count message.now.edns.now }
{
    Counts {
        queries: message.queries.len() as u16,
        answers: message.answers.len() as u16,
        authorities: message.authorities.len() as u16,
        additionals: (message.additionals.len() + edns_count(message.edns)) as u16,
    }
}

// Writes the header (RFC 1035, 4.1.1).
fn push_header(out: &mut Vec<u8>, message: &MessageRef<'_>) -> Result<(), NoMemory>
    requires { has_many (message_value message.now) ≡ false }
    ensures { OnOk result (out.new.items ≡ out.old.items ++ header_bytes (message_value message.now)) }
{
    let counts = counts_of(message);
    push_u16(out, message.id)?;
    push_u16(out, flags_of(message))?;
    push_u16(out, counts.queries)?;
    push_u16(out, counts.answers)?;
    push_u16(out, counts.authorities)?;
    push_u16(out, counts.additionals)?;
    Ok(())
}

// The records one by one, lent.
fn lent<'a>(alloc: Global, records: &'a [Record]) -> Result<Vec<&'a Record>, NoMemory>
    ensures { IfOk result (λ v. map (λ r. r.now) v.items ≡ records.now) }
{
    let mut all = Vec::with_capacity(alloc, records.len())?;
    for record in records {
        all.push(record)?;
    }
    Ok(all)
}

impl Message {
    /// An empty query with id 0, which takes no memory.
    pub fn query(alloc: Global) -> Message
        ensures { result ≡ empty_query }
    {
        Message {
            id: 0,
            response: false,
            op_code: OpCode::QUERY,
            authoritative: false,
            truncated: false,
            recursion_desired: false,
            recursion_available: false,
            authentic_data: false,
            checking_disabled: false,
            response_code: ResponseCode::NO_ERROR,
            queries: Vec::new(alloc),
            answers: Vec::new(alloc),
            authorities: Vec::new(alloc),
            additionals: Vec::new(alloc),
            edns: None,
        }
    }

    /// The message as bytes, names spelled out and the OPT last (RFC 1035, 4.1; RFC 6891, 6.1). A field with more bits than
    /// its place in the message has is cut: the opcode to four, the flags beside DO to fifteen, and the response code to
    /// twelve, eight of which stand in the OPT, so that a message without one keeps four.
    ///
    /// `TooLong` comes exactly above 65,535 bytes.
    pub fn to_vec(&self) -> Result<Octets, EncodeError>
        ensures exact { Gives (λ o. o) errors.NoMemory result (encoded self.now) }
        // Where some bytes are this message, what is written is it too.
        ensures again { IfOk result (λ o. IsReadAgain self.now o) }
    {
        let alloc = *self.queries.allocator();
        let answers = lent(alloc, self.answers.as_slice())?;
        let authorities = lent(alloc, self.authorities.as_slice())?;
        let additionals = lent(alloc, self.additionals.as_slice())?;
        let parts = MessageRef {
            id: self.id,
            response: self.response,
            op_code: self.op_code,
            authoritative: self.authoritative,
            truncated: self.truncated,
            recursion_desired: self.recursion_desired,
            recursion_available: self.recursion_available,
            authentic_data: self.authentic_data,
            checking_disabled: self.checking_disabled,
            response_code: self.response_code,
            queries: self.queries.as_slice(),
            answers: answers.as_slice(),
            authorities: authorities.as_slice(),
            additionals: additionals.as_slice(),
            edns: &self.edns,
        };
        parts.to_vec(alloc)
    }
}

impl<'a> MessageRef<'a> {
    /// The message as bytes, as `Message::to_vec` writes it.
    ///
    /// `TooLong` comes exactly above 65,535 bytes.
    pub fn to_vec(&self, alloc: Global) -> Result<Octets, EncodeError>
        ensures exact { Gives (λ o. o) errors.NoMemory result (encoded (message_value self.now)) }
        // Where some bytes are this message, what is written is it too.
        ensures again { IfOk result (λ o. IsReadAgain (message_value self.now) o) }
    {
        self.encode(alloc)
    }

    // The message in wire form, unless a count or a length passes its field.
    #[tactic(auto, unfolding(crate::specs::WrittenAs::encoded, crate::specs::WrittenAs::written))]
    fn encode(&self, alloc: Global) -> Result<Octets, EncodeError>
        ensures { Gives (λ o. o) errors.NoMemory result (encoded (message_value self.now)) }
    {
        if has_many(self) {
            return Err(EncodeError::TooLong);
        }
        let mut out = Vec::new(alloc);
        push_header(&mut out, self)?;
        push_questions(&mut out, self.queries)?;
        push_records(&mut out, self.answers)?;
        push_records(&mut out, self.authorities)?;
        push_records(&mut out, self.additionals)?;
        push_edns(&mut out, self)?;
        if MOST < out.len() {
            return Err(EncodeError::TooLong);
        }
        Ok(Octets::from_vec(out))
    }
}
