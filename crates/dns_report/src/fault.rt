//! The line of an error.
ghost use Rattle.std.specs.Prelude.{◌≡◌, ◌++◌, ◌∷◌, [], codes, OnOk, IfOk};
ghost use Rattle.dns_model.specs.NameText.{printed};
ghost use Rattle.dns_record.specs.Words.{type_word, class_word};
ghost use Rattle.dns_handle.specs.Replies.{dns_error_of, error_of};
ghost use Rattle.dns_report.specs.Faults.{io_word, decode_word, proto_words, dns_words, fault_text, line_of_fault};

use crate::marks::mark_word;
use crate::words::push_front;
use dns_handle::{DnsError, IoKind, NetError, ProtoError};
use dns_message::DecodeKind;
use dns_record::{DNSClass, Name, NoMemory, RecordType};
use dns_text::{end_line, push_number, push_text, push_type_word, push_word};
use std::alloc::Global;

// The name of a kind of fault outside.
fn io_word(kind: IoKind) -> &'static [u8]
    ensures { result.now ≡ io_word kind }
{
    match kind {
        IoKind::PermissionDenied => b"PermissionDenied",
        IoKind::ConnectionRefused => b"ConnectionRefused",
        IoKind::ConnectionReset => b"ConnectionReset",
        IoKind::ConnectionAborted => b"ConnectionAborted",
        IoKind::NotConnected => b"NotConnected",
        IoKind::AddrInUse => b"AddrInUse",
        IoKind::AddrNotAvailable => b"AddrNotAvailable",
        IoKind::BrokenPipe => b"BrokenPipe",
        IoKind::InvalidData => b"InvalidData",
        IoKind::TimedOut => b"TimedOut",
        IoKind::UnexpectedEof => b"UnexpectedEof",
        IoKind::RequestTooLong => b"RequestTooLong",
        IoKind::Other => b"Other",
    }
}

// The name of a kind of fault in bytes.
fn decode_word(kind: DecodeKind) -> &'static [u8]
    ensures { result.now ≡ decode_word kind }
{
    match kind {
        DecodeKind::Short => b"Short",
        DecodeKind::BadName => b"BadName",
        DecodeKind::BadRdata => b"BadRdata",
        DecodeKind::BadOpt => b"BadOpt",
        DecodeKind::Trailing => b"Trailing",
        DecodeKind::NoMemory => b"NoMemory",
    }
}

// Appends the line on what is wrong with bytes.
fn push_proto(into: &mut Vec<u8>, error: ProtoError) -> Result<(), NoMemory>
    ensures { OnOk result (into.new.items ≡ into.old.items ++ line_of_fault (codes "proto" ∷ proto_words error)) }
{
    match error {
        ProtoError::Decode(error) => {
            push_text(into, b"fault proto")?;
            push_word(into, decode_word(error.kind))?;
            push_number(into, u64::from(error.offset))?;
            end_line(into)
        }
        ProtoError::TooLong => push_double(into, b"proto", b"TooLong"),
    }
}

// Appends the line on what DNS answered.
fn push_dns(into: &mut Vec<u8>, error: &DnsError) -> Result<(), NoMemory>
    ensures { OnOk result (into.new.items ≡ into.old.items ++ line_of_fault (dns_words (dns_error_of error.now))) }
{
    match error {
        DnsError::ResponseCode(code) => {
            push_text(into, b"fault code")?;
            push_number(into, u64::from(code.0))?;
            end_line(into)
        }
        DnsError::NoRecordsFound(_) => push_double(into, b"message", b"no records found"),
        DnsError::Nsec {
            query: _,
            response: _,
            proof,
        } => push_double(into, b"nsec", mark_word(*proof)),
        DnsError::DnssecBogus => push_single(into, b"bogus"),
    }
}

// Appends the line on a record of another class.
fn push_foreign(
    into: &mut Vec<u8>,
    owner: &Name,
    class: DNSClass,
    record_type: RecordType,
) -> Result<(), NoMemory>
    ensures { OnOk result (into.new.items ≡ into.old.items
        ++ line_of_fault (codes "class" ∷ printed owner.now ∷ class_word class.0 ∷ type_word record_type.0 ∷ [])) }
{
    push_front(into, b"fault class", owner, class)?;
    push_type_word(into, record_type)?;
    end_line(into)
}

// Appends a line of one fixed word.
fn push_single(into: &mut Vec<u8>, word: &[u8]) -> Result<(), NoMemory>
    ensures { OnOk result (into.new.items ≡ into.old.items ++ line_of_fault (word.now ∷ [])) }
{
    push_text(into, b"fault")?;
    push_word(into, word)?;
    end_line(into)
}

// Appends a line of two words.
fn push_double(into: &mut Vec<u8>, first: &[u8], second: &[u8]) -> Result<(), NoMemory>
    ensures { OnOk result (into.new.items ≡ into.old.items ++ line_of_fault (first.now ∷ second.now ∷ [])) }
{
    push_text(into, b"fault")?;
    push_word(into, first)?;
    push_word(into, second)?;
    end_line(into)
}

// Appends the line of an error.
fn push_fault(into: &mut Vec<u8>, error: &NetError) -> Result<(), NoMemory>
    ensures { OnOk result (into.new.items ≡ into.old.items ++ fault_text (error_of error.now)) }
{
    match error {
        NetError::Busy => push_single(into, b"busy"),
        NetError::Dns(error) => push_dns(into, error),
        NetError::Message(notice) => push_double(into, b"message", notice.text().as_bytes()),
        NetError::Msg(text) => push_double(into, b"message", text.as_bytes()),
        NetError::NoConnections => push_single(into, b"no-connections"),
        NetError::Proto(error) => push_proto(into, *error),
        NetError::Io(kind) => push_double(into, b"io", io_word(*kind)),
        NetError::Timeout => push_single(into, b"timeout"),
        NetError::QueryCaseMismatch => push_single(into, b"case"),
        NetError::ForeignClassRecord {
            record_name,
            record_class,
            record_type,
        } => push_foreign(into, record_name, *record_class, *record_type),
        NetError::Truncated => push_single(into, b"truncated"),
        NetError::NoMemory => Ok(()),
    }
}

/// The line of an error, which ends with LF; that memory ran out has no line, and the text is empty. That there are no records is no
/// answer of a lookup; its line is that of a message. It fails only where memory runs out.
pub fn write_fault(alloc: Global, error: &NetError) -> Result<Vec<u8>, NoMemory>
    ensures { IfOk result (λ v. v.items ≡ fault_text (error_of error.now)) }
{
    let mut text = Vec::new(alloc);
    push_fault(&mut text, error)?;
    Ok(text)
}
