//! Replies that are as long as a message may be, or longer.
use crate::given::{query_of, response_of, validator_of};
use crate::rows::check_row;
use dns_handle::Protocol;
use dns_message::Message;
use dns_model::Proof;
use dns_record::{DNSClass, Name, Octets, Rdata, Record, RecordType};
use dns_recorded::Recorded;
use dns_respond::respond;
use std::alloc::Global;
use std::process::Abort;
use std::sync::Wait;

/// A query for the root's TXT records, with CD.
const REQUEST: &[u8] = b"\0\x07\x01\x10\0\x01\0\0\0\0\0\0\0\0\x10\0\x01";

/// What is left of a reply that is cut off: TC.
const CUT: &[u8] = b"\0\x07\x83\x90\0\x01\0\0\0\0\0\0\0\0\x10\0\x01";

/// What stands for one over TCP.
const FAILED: &[u8] = b"\0\x07\x81\x92\0\x01\0\0\0\0\0\0\0\0\x10\0\x01";

/// The bytes of one rdata.
const TEXT: &[u8] = &[7; 255];

// The root's TXT record with a rdata of so many bytes, at most 255.
fn text_of(rt: &impl Abort, alloc: Global, length: usize) -> Record {
    let bytes = TEXT.get(..length).unwrap_or(b"");
    let few = if bytes.len() < 65_536 { bytes } else { b"" };
    Record {
        name: Name::root(alloc).expect(rt, "memory"),
        record_type: RecordType::TXT,
        dns_class: DNSClass::IN,
        ttl: 60,
        rdata: Rdata::from_slice(alloc, few).expect(rt, "memory"),
        proof: Proof::Indeterminate,
    }
}

// A message with 246 records of 255 bytes and one of `last`. A reply with it has 65,464 bytes and those of the last.
fn message_of(rt: &impl Abort, alloc: Global, last: usize) -> Message {
    let mut message = Message::query(alloc);
    message.response = true;
    for _ in 0..246u32 {
        let text = text_of(rt, alloc, 255);
        message.answers.push(text).expect(rt, "memory");
    }
    let text = text_of(rt, alloc, last);
    message.answers.push(text).expect(rt, "memory");
    message
}

// An upstream that has this for the root's TXT records.
fn upstream_with(rt: &impl Abort, alloc: Global, last: usize) -> Recorded {
    let mut recorded = Recorded::new(alloc);
    let response = response_of(alloc, message_of(rt, alloc, last));
    recorded
        .push(query_of(rt, alloc, RecordType::TXT), Ok(response))
        .expect(rt, "memory");
    recorded
}

// The reply where the last record is so long.
fn reply_with<R: Wait + Abort + Copy>(
    rt: R,
    alloc: Global,
    protocol: Protocol,
    last: usize,
) -> Octets {
    let mut validator = validator_of(rt, alloc, upstream_with(&rt, alloc, last));
    let made = respond(alloc, &mut validator, REQUEST, protocol, 26, 1000);
    made.expect(&rt, "memory").reply.expect(&rt, "a reply")
}

#[test]
fn the_longest_exchange_is_whole_over_tcp_and_cut_off_over_udp(rt: HostRuntime) {
    let alloc = rt.alloc();
    let whole = reply_with(rt, alloc, Protocol::Tcp, 71);
    check_row(&rt, "65,535 bytes over TCP", whole.len() == 65_535);
    let longer = reply_with(rt, alloc, Protocol::Tcp, 72);
    check_row(&rt, "65,536 bytes over TCP", longer.as_slice() == FAILED);
    let cut = reply_with(rt, alloc, Protocol::Udp, 71);
    check_row(&rt, "65,535 bytes over UDP", cut.as_slice() == CUT);
}
