//! Replies that are as long as a message may be, or longer.
use crate::rows::check_row;
use dns_evidence::Trail;
use dns_forwarded::{Outcome, forwarded};
use dns_handle::{DnsResponse, Protocol};
use dns_message::Message;
use dns_model::{Denial, Proof};
use dns_record::{DNSClass, Name, Rdata, Record, RecordType};
use std::alloc::Global;
use std::process::Abort;

/// A query for the root's TXT records, with AD.
const REQUEST: &[u8] = b"\0\x07\x01\x20\0\x01\0\0\0\0\0\0\0\0\x10\0\x01";

/// What is left of a reply that is cut off: TC and AD.
const CUT: &[u8] = b"\0\x07\x83\xa0\0\x01\0\0\0\0\0\0\0\0\x10\0\x01";

/// What stands for one over TCP.
const FAILED: &[u8] = b"\0\x07\x81\x82\0\x01\0\0\0\0\0\0\0\0\x10\0\x01";

/// The bytes of one rdata.
const TEXT: &[u8] = &[7; 255];

// The root's Secure TXT record with a rdata of so many bytes, at most 255.
fn text_of(rt: &impl Abort, alloc: Global, length: usize) -> Record {
    let bytes = TEXT.get(..length).unwrap_or(b"");
    let few = if bytes.len() < 65_536 { bytes } else { b"" };
    Record {
        name: Name::root(alloc).expect(rt, "memory"),
        record_type: RecordType::TXT,
        dns_class: DNSClass::IN,
        ttl: 60,
        rdata: Rdata::from_slice(alloc, few).expect(rt, "memory"),
        proof: Proof::Secure,
    }
}

// An answer of 246 records of 255 bytes and one of `last`. A reply with it has 65,464 bytes and those of the last.
fn answer(rt: &impl Abort, alloc: Global, last: usize) -> Outcome {
    let mut message = Message::query(alloc);
    for _ in 0..246u32 {
        let text = text_of(rt, alloc, 255);
        message.answers.push(text).expect(rt, "memory");
    }
    let text = text_of(rt, alloc, last);
    message.answers.push(text).expect(rt, "memory");
    Outcome::Answered(DnsResponse {
        message,
        chains: Vec::new(alloc),
        denial: Denial::None,
        trail: Trail::new(alloc),
    })
}

// The reply with an answer whose last record is so long.
fn length_of(rt: &impl Abort, alloc: Global, last: usize) -> usize {
    let outcome = answer(rt, alloc, last);
    let reply = forwarded(alloc, REQUEST, Protocol::Tcp, &outcome).expect(rt, "memory");
    reply.map_or(0, |bytes| bytes.len())
}

// Whether the reply with an answer whose last record is so long is this.
fn is_reply(
    rt: &impl Abort,
    alloc: Global,
    protocol: Protocol,
    last: usize,
    wanted: &[u8],
) -> bool {
    let outcome = answer(rt, alloc, last);
    let reply = forwarded(alloc, REQUEST, protocol, &outcome).expect(rt, "memory");
    matches!(reply, Some(bytes) if bytes.as_slice() == wanted)
}

#[test]
fn the_longest_reply_is_whole_over_tcp_and_a_longer_one_is_none(rt: HostRuntime) {
    let alloc = rt.alloc();
    check_row(
        &rt,
        "65,535 bytes over TCP",
        length_of(&rt, alloc, 71) == 65_535,
    );
    check_row(
        &rt,
        "65,536 bytes over TCP",
        is_reply(&rt, alloc, Protocol::Tcp, 72, FAILED),
    );
    check_row(
        &rt,
        "65,535 bytes over UDP",
        is_reply(&rt, alloc, Protocol::Udp, 71, CUT),
    );
    check_row(
        &rt,
        "65,536 bytes over UDP",
        is_reply(&rt, alloc, Protocol::Udp, 72, CUT),
    );
}
