//! Questions, requests, and responses.
use dns_evidence::Trail;
use dns_handle::{DnsRequest, DnsRequestOptions, DnsResponse};
use dns_message::Message;
use dns_model::Denial;
use dns_record::{DNSClass, Name, Query, RecordType};
use std::alloc::Global;
use std::process::Abort;

/// A question for a name's address.
pub(crate) fn question(rt: &impl Abort, alloc: Global, name: &str) -> Query {
    Query {
        name: Name::from_ascii(alloc, name).expect(rt, "a name"),
        query_type: RecordType::A,
        query_class: DNSClass::IN,
    }
}

/// The request for a name's address.
pub(crate) fn request(rt: &impl Abort, alloc: Global, name: &str) -> DnsRequest {
    let query = question(rt, alloc, name);
    DnsRequest::from_query(alloc, query, DnsRequestOptions::default()).expect(rt, "memory")
}

/// A response with this message.
pub(crate) fn response_with(alloc: Global, message: Message) -> DnsResponse {
    DnsResponse {
        message,
        chains: Vec::new(alloc),
        denial: Denial::None,
        trail: Trail::new(alloc),
    }
}

/// A response with an id, truncated or not.
pub(crate) fn response(alloc: Global, id: u16, truncated: bool) -> DnsResponse {
    let mut message = Message::query(alloc);
    message.id = id;
    message.truncated = truncated;
    response_with(alloc, message)
}
