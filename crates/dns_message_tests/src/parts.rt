//! What tests of requests, responses and errors share.
use dns_evidence::Trail;
use dns_handle::DnsResponse;
use dns_message::Message;
use dns_model::{Denial, Proof};
use dns_record::{DNSClass, Name, Query, Rdata, Record, RecordType};
use std::alloc::Global;
use std::fmt::Display;
use std::process::Abort;

pub(crate) fn name(rt: &impl Abort, alloc: Global, text: &str) -> Name {
    Name::from_ascii(alloc, text).expect(rt, "a name")
}

pub(crate) fn is_named(name: &Name, wire: &[u8]) -> bool {
    name.wire() == wire
}

pub(crate) fn query(rt: &impl Abort, alloc: Global, text: &str, record_type: u16) -> Query {
    Query {
        name: name(rt, alloc, text),
        query_type: RecordType(record_type),
        query_class: DNSClass::IN,
    }
}

/// Asks for this too.
pub(crate) fn ask_also(
    rt: &impl Abort,
    alloc: Global,
    queries: &mut Vec<Query>,
    text: &str,
    record_type: u16,
) {
    let query = query(rt, alloc, text, record_type);
    queries.push(query).expect(rt, "memory");
}

/// A response that is this message.
pub(crate) fn response(alloc: Global, message: Message) -> DnsResponse {
    DnsResponse {
        message,
        chains: Vec::new(alloc),
        denial: Denial::None,
        trail: Trail::new(alloc),
    }
}

/// A record whose rdata are these bytes, which are fewer than 65,536.
pub(crate) fn record(
    rt: &impl Abort,
    alloc: Global,
    text: &str,
    record_type: u16,
    ttl: u32,
    bytes: &[u8],
) -> Record {
    let few = if bytes.len() < 65_536 { bytes } else { b"" };
    Record {
        name: name(rt, alloc, text),
        record_type: RecordType(record_type),
        dns_class: DNSClass::IN,
        ttl,
        rdata: Rdata::from_slice(alloc, few).expect(rt, "memory"),
        proof: Proof::Indeterminate,
    }
}

/// Whether a value is shown as this text.
pub(crate) fn shows<D: Display + Drop>(
    rt: &impl Abort,
    alloc: Global,
    shown: &D,
    want: &str,
) -> bool {
    let text = format!(in alloc; "{shown}").expect(rt, "memory");
    text.as_str() == want
}
