//! Messages that are written from records which stand elsewhere, and the example of the documentation of `dns_wire`.
use crate::rows::check_row;
use dns_message::{Message, MessageRef};
use dns_record::{DNSClass, Name, Octets, Query, RecordType};
use std::alloc::Global;
use std::process::Abort;

/// A response with two addresses of the root.
const TWO: &[u8] = b"\0\x01\x80\0\0\0\0\x02\0\0\0\0\
    \0\0\x01\0\x01\0\0\0\x05\0\x04\x01\x02\x03\x04\
    \0\0\x01\0\x01\0\0\0\x05\0\x04\x05\x06\x07\x08";

/// The same with the second in the answer section, and the first in the authority section.
const PARTED: &[u8] = b"\0\x01\x80\0\0\0\0\x01\0\x01\0\0\
    \0\0\x01\0\x01\0\0\0\x05\0\x04\x05\x06\x07\x08\
    \0\0\x01\0\x01\0\0\0\x05\0\x04\x01\x02\x03\x04";

/// Whether the lent records are written where they were put.
fn is_parted(rt: &impl Abort, alloc: Global) -> bool {
    let message = Message::from_vec(alloc, TWO).expect(rt, "a message");
    match message.answers.as_slice() {
        [first, second] => {
            let lent = MessageRef {
                id: message.id,
                response: message.response,
                op_code: message.op_code,
                authoritative: message.authoritative,
                truncated: message.truncated,
                recursion_desired: message.recursion_desired,
                recursion_available: message.recursion_available,
                authentic_data: message.authentic_data,
                checking_disabled: message.checking_disabled,
                response_code: message.response_code,
                queries: message.queries.as_slice(),
                answers: &[second],
                authorities: &[first],
                additionals: &[],
                edns: &message.edns,
            };
            matches!(lent.to_vec(alloc), Ok(bytes) if bytes.as_slice() == PARTED)
        }
        _ => false,
    }
}

/// A query for the addresses of a host, as bytes.
fn asked(rt: &impl Abort, alloc: Global) -> Octets {
    let name = Name::from_ascii(alloc, "www.example.").expect(rt, "a name");
    let mut message = Message::query(alloc);
    message.id = 17;
    message.recursion_desired = true;
    let query = Query {
        name,
        query_type: RecordType::A,
        query_class: DNSClass::IN,
    };
    message.queries.push(query).expect(rt, "memory");
    message.to_vec().expect(rt, "bytes")
}

/// Whether it is read as it was written.
fn is_read(rt: &impl Abort, alloc: Global) -> bool {
    let bytes = asked(rt, alloc);
    if bytes.len() != 29 {
        return false;
    }
    let read = Message::from_octets(bytes).expect(rt, "a message");
    match read.queries.as_slice() {
        [query] => {
            let text = query.name.to_ascii().expect(rt, "memory");
            read.id == 17 && text.as_str() == "www.example."
        }
        _ => false,
    }
}

#[test]
fn lent_records_are_written_and_a_query_is_read_as_it_was_written(rt: HostRuntime) {
    check_row(&rt, "two lent records", is_parted(&rt, rt.alloc()));
    check_row(&rt, "the example", is_read(&rt, rt.alloc()));
}
