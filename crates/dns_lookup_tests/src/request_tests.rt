//! What a validator sends for a whole request, and what it answers (RFC 1035, 4.1.1; RFC 4035, 3.2 and 4.1).
use crate::given::{Answer, MOMENT, message_of};
use crate::lookup_tests::{Sending, handle_over};
use crate::rows::check_held;
use dns_handle::{DnsHandle, DnsRequest, DnsRequestOptions, NetError, Notice};
use dns_recorded::Recorded;
use std::alloc::Global;
use std::process::Abort;

/// The message of a request, and that of what is sent for it, or nothing.
struct Sent {
    name: &'static str,
    given: &'static [u8],
    sent: &'static [u8],
}

/// In the flags 0100 is RD, 0020 AD and 0010 CD, and 2000 the opcode Notify. An OPT record has type 41, the payload for its class
/// and DO as the highest bit of its flags.
const SENT: &[Sent] = &[
    Sent {
        name: "a query without a question",
        given: b"\0\x07\x01\0\0\0\0\0\0\0\0\0",
        sent: b"",
    },
    Sent {
        name: "a notify goes on as it is",
        given: b"\0\x07\x20\x10\0\x01\0\0\0\0\0\0\0\0\x06\0\x01",
        sent: b"\0\x07\x20\x10\0\x01\0\0\0\0\0\0\0\0\x06\0\x01",
    },
    Sent {
        name: "two questions without RD, with CD",
        given: b"\0\x07\0\x10\0\x02\0\0\0\0\0\0\0\0\x02\0\x01\0\0\x30\0\x01",
        sent: b"\0\x07\0\x20\0\x02\0\0\0\0\0\x01\0\0\x02\0\x01\0\0\x30\0\x01\0\0\x29\x04\xd0\0\0\x80\0\0\0",
    },
    Sent {
        name: "a record and an OPT of 4096 bytes without DO",
        given: b"\0\x07\x01\0\0\x01\0\0\0\0\0\x02\0\0\x02\0\x01\0\0\x01\0\x01\0\0\0\x05\0\x04\x0a\0\0\x01\0\0\x29\x10\0\0\0\0\0\0\0",
        sent: b"\0\x07\x01\x20\0\x01\0\0\0\0\0\x02\0\0\x02\0\x01\0\0\x01\0\x01\0\0\0\x05\0\x04\x0a\0\0\x01\0\0\x29\x10\0\0\0\x80\0\0\0",
    },
];

/// The upstream's error where something was sent, which then was one request, and else that there is no question.
fn is_refused(answer: &Answer, kept: &[Sending], sent: &[u8]) -> bool {
    match (answer, kept) {
        (Err(NetError::Message(Notice::NoQueryInRequest)), []) => sent.is_empty(),
        (Err(NetError::Timeout), [only]) => *only.message.as_slice() == *sent,
        _ => false,
    }
}

// A validator whose upstream answers nothing in time sends as the row says.
fn is_sent(rt: &impl Abort, alloc: Global, row: &Sent) -> bool {
    let mut validator = handle_over(rt, alloc, Recorded::new(alloc));
    let request = DnsRequest {
        message: message_of(rt, alloc, row.given),
        options: DnsRequestOptions::default(),
        original: None,
    };
    let answer = validator.send(alloc, request, MOMENT);
    is_refused(&answer, validator.inner().kept.as_slice(), row.sent)
}

#[test]
fn a_request_is_sent_to_be_validated(rt: HostRuntime) {
    for row in SENT {
        check_held(&rt, row.name, is_sent(&rt, rt.alloc(), row));
    }
}
