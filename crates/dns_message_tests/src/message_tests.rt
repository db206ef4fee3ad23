//! What bytes come to as a message, and the tables of whole messages.
use crate::parts::is_named;
use crate::rows::{Row, check_numbered, check_row};
use dns_message::{DecodeKind, EncodeError, Message};
use dns_model::Proof;
use dns_record::{DNSClass, Record};
use std::alloc::Global;
use std::process::Abort;

/// What a message comes to.
#[derive(Clone, Copy)]
pub(crate) enum Seen {
    /// The wire form of its last record's owner.
    Owner(&'static [u8]),
    /// Its last record's rdata.
    Rdata(&'static [u8]),
    /// The fault by which it isn't read, and its place.
    Fault(DecodeKind, u32),
    /// It is written as these bytes, and so is its copy.
    Written(&'static [u8]),
    /// The same for the bytes that it was read from.
    Same,
    /// It is longer than a message that can be written.
    TooLong,
    /// It has the names of `POINTERS`.
    Pointers,
    /// It has the bits of `WITH_OPT`.
    Bits,
}

/// Writes these bytes too.
pub(crate) fn push(rt: &impl Abort, all: &mut Vec<u8>, bytes: &[u8]) {
    all.extend_from_slice(bytes).expect(rt, "memory");
}

fn last_rdata_is(records: &[Record], bytes: &[u8]) -> bool {
    match records.last() {
        Some(record) => { record.rdata.as_slice() == bytes && record.proof == Proof::Indeterminate }
        None => false,
    }
}

/// Whether a message is written as these bytes, or isn't written by this error.
pub(crate) fn is_written_as(message: &Message, bytes: &[u8], error: Option<EncodeError>) -> bool {
    match message.to_vec() {
        Ok(written) => error.is_none() && written.as_slice() == bytes,
        Err(other) => error == Some(other),
    }
}

/// The same of a message and its copy.
fn both_are_written_as(
    rt: &impl Abort,
    message: &Message,
    bytes: &[u8],
    error: Option<EncodeError>,
) -> bool {
    let copy = message.try_clone().expect(rt, "memory");
    is_written_as(message, bytes, error) && is_written_as(&copy, bytes, error)
}

/// An A record of `a.` and an NS record of `a.` whose rdata is `b.a.`.
fn has_pointers(message: &Message) -> bool {
    match message.answers.as_slice() {
        [a, ns] => {
            is_named(&a.name, b"\x01a\0")
                && is_named(&ns.name, b"\x01a\0")
                && a.rdata.as_slice() == b"\xc0\0\x02\x01".as_slice()
                && ns.rdata.as_slice() == b"\x01b\x01a\0".as_slice()
                && a.ttl == 3600
                && a.dns_class == DNSClass::IN
        }
        _ => false,
    }
}

fn has_flags(message: &Message) -> bool {
    message.response_code.0 == 0x12f
        && message.additionals.is_empty()
        && message.id == 0xabcd
        && message.response
        && message.op_code.0 == 4
        && message.authoritative
        && !message.truncated
        && message.recursion_desired
        && !message.recursion_available
        && !message.authentic_data
        && message.checking_disabled
}

fn has_edns(message: &Message) -> bool {
    match &message.edns {
        None => false,
        Some(edns) => {
            edns.max_payload == 1232
                && edns.version == 5
                && edns.dnssec_ok
                && edns.flags == 3
                && edns.options.as_slice() == [0xaa, 0xbb].as_slice()
        }
    }
}

fn shows(rt: &impl Abort, message: &Message, bytes: &[u8], seen: Seen) -> bool {
    match seen {
        Seen::Owner(wire) =>
            matches!(message.answers.last(), Some(record) if is_named(&record.name, wire)),
        Seen::Rdata(bytes) => last_rdata_is(&message.answers, bytes),
        Seen::Fault(_, _) => false,
        Seen::Written(written) => both_are_written_as(rt, message, written, None),
        Seen::Same => both_are_written_as(rt, message, bytes, None),
        Seen::TooLong => both_are_written_as(rt, message, bytes, Some(EncodeError::TooLong)),
        Seen::Pointers => has_pointers(message),
        Seen::Bits => has_flags(message) && has_edns(message),
    }
}

/// Whether bytes come to this.
pub(crate) fn is_seen(rt: &impl Abort, alloc: Global, bytes: &[u8], seen: Seen) -> bool {
    if bytes.len() >= 1_000_000 {
        return false;
    }
    match Message::from_vec(alloc, bytes) {
        Ok(message) => shows(rt, &message, bytes, seen),
        Err(error) =>
            matches!(seen, Seen::Fault(kind, place) if error.kind == kind && error.offset == place),
    }
}

/// Bytes, and what they come to.
struct Read(&'static [u8], Seen);

impl Row for Read {
    fn holds(&self, rt: &impl Abort, alloc: Global) -> bool {
        is_seen(rt, alloc, self.0, self.1)
    }
}

/// Two records by pointers.
const POINTERS: &[u8] =
    b"\0\0\x80\0\0\x01\0\x02\0\0\0\0\x01\x61\0\0\x01\0\x01\xc0\x0c\0\x01\0\x01\0\0\x0e\x10\0\x04\xc0\0\x02\x01\xc0\x0c\0\x02\0\x01\0\0\x0e\x10\0\x04\x01\x62\xc0\x0c";

/// Each bit of the header apart, the code's bits from both places, and what an OPT says.
const WITH_OPT: &[u8] =
    b"\xab\xcd\xa5\x1f\0\0\0\0\0\0\0\x01\0\0\x29\x04\xd0\x12\x05\x80\x03\0\x02\xaa\xbb";

/// A question whose name has 255 bytes.
const LONGEST_NAME: &[u8] = b"\0\0\0\0\0\x01\0\0\0\0\0\0\
    \x3faaaaaaaaaaaaaaaaaaaaaaaaaaaaaaaaaaaaaaaaaaaaaaaaaaaaaaaaaaaaaaa\
    \x3faaaaaaaaaaaaaaaaaaaaaaaaaaaaaaaaaaaaaaaaaaaaaaaaaaaaaaaaaaaaaaa\
    \x3faaaaaaaaaaaaaaaaaaaaaaaaaaaaaaaaaaaaaaaaaaaaaaaaaaaaaaaaaaaaaaa\
    \x3daaaaaaaaaaaaaaaaaaaaaaaaaaaaaaaaaaaaaaaaaaaaaaaaaaaaaaaaaaaaa\0\0\x01\0\x01";

/// Pointers are spelled out.
const POINTERS_WRITTEN: &[u8] =
    b"\0\0\x80\0\0\x01\0\x02\0\0\0\0\x01\x61\0\0\x01\0\x01\x01\x61\0\0\x01\0\x01\0\0\x0e\x10\0\x04\xc0\0\x02\x01\x01\x61\0\0\x02\0\x01\0\0\x0e\x10\0\x05\x01\x62\x01\x61\0";

/// The bit Z is 0, and the OPT stands last.
const Z_WRITTEN: &[u8] =
    b"\xab\xcd\xff\xbf\0\0\0\0\0\0\0\x02\0\xff\0\0\x03\0\0\0\0\0\x01\x01\0\0\x29\x04\xd0\x12\x05\x80\x03\0\x02\xaa\xbb";

/// Messages as they are read and written; and bytes that are no message, the first fault from the left, and its place.
#[rattlefmt::skip]
const READ: &[Read] = &[
    // names are spelled out
    Read(POINTERS, Seen::Pointers),
    // bits stand apart
    Read(WITH_OPT, Seen::Bits),
    // pointers
    Read(POINTERS, Seen::Written(POINTERS_WRITTEN)),
    // no pointers
    Read(POINTERS_WRITTEN, Seen::Same),
    // the bit Z
    Read(b"\xab\xcd\xff\xff\0\0\0\0\0\0\0\x02\0\0\x29\x04\xd0\x12\x05\x80\x03\0\x02\xaa\xbb\0\xff\0\0\x03\0\0\0\0\0\x01\x01",
        Seen::Written(Z_WRITTEN)),
    // no bit Z
    Read(Z_WRITTEN, Seen::Same),
    // an OPT
    Read(WITH_OPT, Seen::Same),
    // the longest name
    Read(LONGEST_NAME, Seen::Same),
    // no byte
    Read(b"", Seen::Fault(DecodeKind::Short, 0)),
    // three bytes
    Read(b"\0\0\0", Seen::Fault(DecodeKind::Short, 2)),
    // eleven bytes
    Read(b"\0\0\0\0\0\0\0\0\0\0\0", Seen::Fault(DecodeKind::Short, 10)),
    // a byte behind the message
    Read(b"\0\0\0\0\0\0\0\0\0\0\0\0\xff", Seen::Fault(DecodeKind::Trailing, 12)),
    // an A of three bytes
    Read(b"\0\0\x80\0\0\0\0\x01\0\0\0\0\0\0\x01\0\x01\0\0\0\0\0\x03\x01\x02\x03",
        Seen::Fault(DecodeKind::BadRdata, 23)),
    // an A that reaches past the end
    Read(b"\0\0\x80\0\0\0\0\x01\0\0\0\0\0\0\x01\0\x01\0\0\0\0\0\x04\x01\x02\x03",
        Seen::Fault(DecodeKind::Short, 23)),
    // a ttl that is cut
    Read(b"\0\0\x80\0\0\0\0\x01\0\0\0\0\0\0\x01\0\x01\0\0\0", Seen::Fault(DecodeKind::Short, 17)),
    // an OPT among the answers
    Read(b"\0\0\x80\0\0\0\0\x01\0\0\0\0\0\0\x29\x04\xd0\0\0\0\0\0\0",
        Seen::Fault(DecodeKind::BadOpt, 12)),
    // an OPT among the answers, cut behind its type
    Read(b"\0\0\x80\0\0\0\0\x01\0\0\0\0\0\0\x29",
        Seen::Fault(DecodeKind::BadOpt, 12)),
    // a type that is cut
    Read(b"\0\0\x80\0\0\0\0\x01\0\0\0\0\0\0", Seen::Fault(DecodeKind::Short, 13)),
    // a second OPT
    Read(b"\0\0\0\0\0\0\0\0\0\0\0\x02\0\0\x29\x02\0\0\0\0\0\0\0\0\0\x29\x02\0\0\0\0\0\0\0",
        Seen::Fault(DecodeKind::BadOpt, 23)),
    // an OPT that isn't at the root
    Read(b"\0\0\0\0\0\0\0\0\0\0\0\x01\x01\x61\0\0\x29\x02\0\0\0\0\0\0\0",
        Seen::Fault(DecodeKind::BadOpt, 12)),
    // an OPT that is cut
    Read(b"\0\0\0\0\0\0\0\0\0\0\0\x01\0\0\x29\x02", Seen::Fault(DecodeKind::Short, 15)),
    // a pointer to its own row
    Read(b"\0\0\x84\0\0\x01\0\0\0\0\0\0\xc0\x0c\0\x01\0\x01", Seen::Fault(DecodeKind::BadName, 12)),
    // a pointer forward
    Read(b"\0\0\x84\0\0\x01\0\0\0\0\0\0\xc0\x0d\0\x01\0\x01", Seen::Fault(DecodeKind::BadName, 12)),
    // a pointer to the front of the row that it ends
    Read(b"\0\0\x84\0\0\x01\0\0\0\0\0\0\x01\x61\xc0\x0c\0\x01\0\x01",
        Seen::Fault(DecodeKind::BadName, 14)),
    // a pointer that is cut
    Read(b"\0\0\x84\0\0\x01\0\0\0\0\0\0\x01\x61\xc0", Seen::Fault(DecodeKind::Short, 14)),
    // the top bits 01
    Read(b"\0\0\x84\0\0\x01\0\0\0\0\0\0\x40\0\0\x01\0\x01", Seen::Fault(DecodeKind::BadName, 12)),
    // the top bits 10
    Read(b"\0\0\x84\0\0\x01\0\0\0\0\0\0\x01\x61\xbf\0\0\x01\0\x01", Seen::Fault(DecodeKind::BadName, 14)),
    // a label that is cut
    Read(b"\0\0\x84\0\0\x01\0\0\0\0\0\0\x03\x61\x62", Seen::Fault(DecodeKind::Short, 12)),
    // no length byte
    Read(b"\0\0\x84\0\0\x01\0\0\0\0\0\0\x01\x61", Seen::Fault(DecodeKind::Short, 14)),
    // a pointer to its own row in an rdata
    Read(b"\0\0\x80\0\0\0\0\x01\0\0\0\0\0\0\x02\0\x01\0\0\0\0\0\x02\xc0\x17",
        Seen::Fault(DecodeKind::BadRdata, 23)),
    // a name that goes on past the rdata
    Read(b"\0\0\x80\0\0\0\0\x02\0\0\0\0\0\0\x02\0\x01\0\0\0\0\0\x01\x01\0",
        Seen::Fault(DecodeKind::BadRdata, 23)),
    // a name of 256 bytes
    Read(
            b"\0\0\0\0\0\x01\0\0\0\0\0\0\
                  \x3faaaaaaaaaaaaaaaaaaaaaaaaaaaaaaaaaaaaaaaaaaaaaaaaaaaaaaaaaaaaaaa\
                  \x3faaaaaaaaaaaaaaaaaaaaaaaaaaaaaaaaaaaaaaaaaaaaaaaaaaaaaaaaaaaaaaa\
                  \x3faaaaaaaaaaaaaaaaaaaaaaaaaaaaaaaaaaaaaaaaaaaaaaaaaaaaaaaaaaaaaaa\
                  \x3eaaaaaaaaaaaaaaaaaaaaaaaaaaaaaaaaaaaaaaaaaaaaaaaaaaaaaaaaaaaaaa\0\0\x01\0\x01",
            Seen::Fault(DecodeKind::BadName, 204),
    ),
    // the label that passes the limit also reaches past the end
    // a name of 256 bytes that is cut
    Read(
            b"\0\0\0\0\0\x01\0\0\0\0\0\0\
                  \x3faaaaaaaaaaaaaaaaaaaaaaaaaaaaaaaaaaaaaaaaaaaaaaaaaaaaaaaaaaaaaaa\
                  \x3faaaaaaaaaaaaaaaaaaaaaaaaaaaaaaaaaaaaaaaaaaaaaaaaaaaaaaaaaaaaaaa\
                  \x3faaaaaaaaaaaaaaaaaaaaaaaaaaaaaaaaaaaaaaaaaaaaaaaaaaaaaaaaaaaaaaa\
                  \x3eaaaaaaaaaaaaaaaaaaaaaaaaaaaaaaaaaaaaaaaaaaaaa",
            Seen::Fault(DecodeKind::Short, 204),
    ),
];

fn all_read() -> &'static [Read] {
    READ
}

#[test]
fn messages_are_read_and_written_or_refused_by_the_first_fault(rt: HostRuntime) {
    check_numbered(&rt, rt.alloc(), "read", all_read());
    let query = Message::query(rt.alloc());
    let held = is_written_as(&query, b"\0\0\0\0\0\0\0\0\0\0\0\0", None);
    check_row(&rt, "an empty query", held);
}
