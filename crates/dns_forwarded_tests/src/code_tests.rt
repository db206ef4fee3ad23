//! Replies to requests for which nothing is looked up, or whose lookup failed.
use crate::rows::check_row;
use dns_forwarded::{Outcome, Received, forwarded};
use dns_handle::{NetError, Protocol};
use dns_record::RecordType;
use std::alloc::Global;
use std::process::Abort;

/// What is shown, a request, and the reply where nothing was looked up; no byte stands for none.
struct Row(&'static str, &'static [u8], &'static [u8]);

/// The rows of `rows/forwarded.txt` without an outcome that tell most.
#[rattlefmt::skip]
const ROWS: &[Row] = &[
    Row("a response isn't answered", b"\0\x07\x81\x20\0\x01\0\0\0\0\0\0\0\0\x02\0\x01", b""),
    Row("no message gets its id back", b"\0\x07\x29\x10\0\x01\0\0\0\0\0\0", b"\0\x07\x80\x01\0\0\0\0\0\0\0\0"),
    Row("opcode 15 comes before a later version of EDNS",
        b"\0\x07\x79\x30\0\x01\0\0\0\0\0\x01\0\0\x02\0\x01\0\0\x29\x04\xd0\0\x01\x80\0\0\0",
        b"\0\x07\xf9\x94\0\x01\0\0\0\0\0\x01\0\0\x02\0\x01\0\0\x29\x04\xd0\0\0\x80\0\0\0"),
    Row("a version of EDNS after 0", b"\0\x07\x01\x20\0\x01\0\0\0\0\0\x01\0\0\x02\0\x01\0\0\x29\x10\0\0\x01\x80\0\0\0",
        b"\0\x07\x81\x80\0\x01\0\0\0\0\0\x01\0\0\x02\0\x01\0\0\x29\x04\xd0\x01\0\x80\0\0\0"),
    Row("what isn't looked up has failed", b"\0\x07\x01\x20\0\x01\0\0\0\0\0\0\0\0\x02\0\x01",
        b"\0\x07\x81\x82\0\x01\0\0\0\0\0\0\0\0\x02\0\x01"),
];

fn rows() -> &'static [Row] {
    ROWS
}

fn is_replied(rt: &impl Abort, alloc: Global, row: &Row) -> bool {
    let reply = forwarded(alloc, row.1, Protocol::Udp, &Outcome::None).expect(rt, "memory");
    match reply {
        None => row.2.is_empty(),
        Some(bytes) => bytes.as_slice() == row.2,
    }
}

// Whether a question is looked up for the last row, and its lookup may fail.
fn is_looked_up(rt: &impl Abort, alloc: Global) -> bool {
    let request = b"\0\x07\x01\x20\0\x01\0\0\0\0\0\0\0\0\x02\0\x01";
    let received = Received::of(alloc, request).expect(rt, "memory");
    let failed = Outcome::of(Err(NetError::Timeout)).expect(rt, "an outcome");
    let reply = received
        .reply(alloc, Protocol::Tcp, &failed)
        .expect(rt, "memory");
    let asks = matches!(received.query(), Some(query) if query.query_type == RecordType::NS);
    asks && matches!(reply, Some(bytes) if bytes.as_slice() == b"\0\x07\x81\x82\0\x01\0\0\0\0\0\0\0\0\x02\0\x01".as_slice())
}

#[test]
fn requests_are_answered_by_a_code(rt: HostRuntime) {
    for row in rows() {
        check_row(&rt, row.0, is_replied(&rt, rt.alloc(), row));
    }
    check_row(&rt, "a lookup that failed", is_looked_up(&rt, rt.alloc()));
}
