//! What the tests share: requests, responses and an exchange in memory.
ghost use Rattle.std.specs.Prelude.{◌≡◌, true};

use dns_handle::{DnsRequest, DnsRequestOptions, DnsResponse};
use dns_message::Message;
use dns_model::Proof;
use dns_multiplexer::SerialMessage;
use dns_record::{DNSClass, Name, Octets, Query, Rdata, Record, RecordType};
use std::alloc::Global;
use std::process::Abort;

/// What was tried held; the message names it.
pub(crate) fn check(rt: &impl Abort, what: &str, held: bool)
    ensures { held ≡ true }
{
    assert!(rt; held, "{what}");
}

/// A query without a question.
pub(crate) fn query(alloc: Global) -> DnsRequest {
    DnsRequest {
        message: Message::query(alloc),
        options: DnsRequestOptions::default(),
        original: None,
    }
}

fn record_of(rt: &impl Abort, alloc: Global, rdata: u16) -> Record {
    let bytes = vec![in alloc; 0u8; usize::from(rdata)].expect(rt, "memory");
    Record {
        name: Name::root(alloc).expect(rt, "memory"),
        record_type: RecordType(65280),
        dns_class: DNSClass::IN,
        ttl: 0,
        rdata: Rdata::from_octets(Octets::from_vec(bytes)),
        proof: Proof::Indeterminate,
    }
}

/// A request of so many bytes: 12, or 23 or more, which are a header and a record at the root (RFC 1035, 4.1).
pub(crate) fn request_of(rt: &impl Abort, alloc: Global, len: usize) -> DnsRequest {
    let mut request = query(alloc);
    if len >= 23 {
        let rdata = u16::try_from(len - 23).expect(rt, "65,535 bytes of rdata at most");
        let record = record_of(rt, alloc, rdata);
        request.message.answers.push(record).expect(rt, "memory");
    }
    request
}

/// A request for a type of records at the root.
pub(crate) fn asking(rt: &impl Abort, alloc: Global, asked: u16) -> DnsRequest {
    let mut request = query(alloc);
    let question = Query {
        name: Name::root(alloc).expect(rt, "memory"),
        query_type: RecordType(asked),
        query_class: DNSClass::IN,
    };
    request.message.queries.push(question).expect(rt, "memory");
    request
}

/// The type of records that a response is about.
pub(crate) fn type_asked(response: &DnsResponse) -> Option<u16> {
    Some(response.message.queries.first()?.query_type.0)
}

/// A response without a question (RFC 1035, 4.1.1).
pub(crate) fn response_bytes(id: u16) -> [u8; 12] {
    let [high, low] = id.to_be_bytes();
    [high, low, 0x80, 0, 0, 0, 0, 0, 0, 0, 0, 0]
}

/// The id under which a message goes out.
pub(crate) fn id_of(message: &SerialMessage) -> Option<u16> {
    match message.bytes.as_slice() {
        [high, low, ..] => Some(u16::from_be_bytes([*high, *low])),
        _ => None,
    }
}
