//! Requests, whether a question is looked up for them, and the replies.
use crate::given::{anchors_of, upstream_of, validator_of, verifier_of};
use crate::rows::check_row;
use dns_cache::ListCache;
use dns_forwarded::Outcome;
use dns_handle::Protocol;
use dns_lookup::DnssecDnsHandle;
use dns_respond::{Exchanged, respond, respond_over};
use std::alloc::Global;
use std::process::Abort;
use std::sync::Wait;

/// What is shown, a moment, a request, whether its question is looked up, and the reply.
struct Row(&'static str, u64, &'static [u8], bool, &'static [u8]);

#[rattlefmt::skip]
const ROWS: &[Row] = &[
    Row("AD for a client that sets it", 1000, b"\0\x07\x01\x20\0\x01\0\0\0\0\0\0\0\0\x02\0\x01", true,
        b"\0\x07\x81\xa0\0\x01\0\x01\0\0\0\0\0\0\x02\0\x01\0\0\x02\0\x01\0\0\x03\xe8\0\x03\x01a\0"),
    Row("a signature that has ended", 2001, b"\0\x07\x01\x20\0\x01\0\0\0\0\0\0\0\0\x02\0\x01", true,
        b"\0\x07\x81\x82\0\x01\0\0\0\0\0\0\0\0\x02\0\x01"),
    Row("no message gets its id back", 1000, b"\0\x07\x29\x10\0\x01\0\0\0\0\0\0", false, b"\0\x07\x80\x01\0\0\0\0\0\0\0\0"),
    Row("opcode 15 comes before a later version of EDNS", 1000,
        b"\0\x07\x79\x30\0\x01\0\0\0\0\0\x01\0\0\x02\0\x01\0\0\x29\x04\xd0\0\x01\x80\0\0\0", false,
        b"\0\x07\xf9\x94\0\x01\0\0\0\0\0\x01\0\0\x02\0\x01\0\0\x29\x04\xd0\0\0\x80\0\0\0"),
    Row("two questions", 1000,
        b"\0\x07\x01\x30\0\x02\0\0\0\0\0\x01\0\0\x02\0\x01\0\0\x01\0\x01\0\0\x29\x04\xd0\0\0\x80\0\0\0", false,
        b"\0\x07\x81\x91\0\0\0\0\0\0\0\x01\0\0\x29\x04\xd0\0\0\x80\0\0\0"),
    Row("a version of EDNS after 0", 1000, b"\0\x07\x01\x20\0\x01\0\0\0\0\0\x01\0\0\x02\0\x01\0\0\x29\x10\0\0\x01\x80\0\0\0", false,
        b"\0\x07\x81\x80\0\x01\0\0\0\0\0\x01\0\0\x02\0\x01\0\0\x29\x04\xd0\x01\0\x80\0\0\0"),
    Row("a name by a pointer into the header", 1000, b"\0\x07\x01\x20\0\x01\0\0\0\0\0\0\xc0\x04\0\x02\0\x01", true,
        b"\0\x07\x81\xa0\0\x01\0\x01\0\0\0\0\0\0\x02\0\x01\0\0\x02\0\x01\0\0\x03\xe8\0\x03\x01a\0"),
    Row("with DO the signature stands in the reply", 1000,
        b"\0\x07\x01\0\0\x01\0\0\0\0\0\x01\0\0\x02\0\x01\0\0\x29\x04\xd0\0\0\x80\0\0\0", true,
        b"\0\x07\x81\xa0\0\x01\0\x02\0\0\0\x01\0\0\x02\0\x01\0\0\x02\0\x01\0\0\x03\xe8\0\x03\x01a\0\0\0\x2e\0\x01\0\0\x03\xe8\0\x15\0\x02\x0d\0\0\0\x0e\x10\0\0\x07\xd0\0\0\x03\x84\xae\xc9\0\xc0\xde\0\0\x29\x04\xd0\0\0\x80\0\0\0"),
    Row("with CD what is Bogus is told", 2001, b"\0\x07\x01\x30\0\x01\0\0\0\0\0\x01\0\0\x02\0\x01\0\0\x29\x04\xd0\0\0\x80\0\0\0", true,
        b"\0\x07\x81\x90\0\x01\0\x02\0\0\0\x01\0\0\x02\0\x01\0\0\x02\0\x01\0\0\x0e\x10\0\x03\x01a\0\0\0\x2e\0\x01\0\0\x0e\x10\0\x15\0\x02\x0d\0\0\0\x0e\x10\0\0\x07\xd0\0\0\x03\x84\xae\xc9\0\xc0\xde\0\0\x29\x04\xd0\0\0\x80\0\0\0"),
    Row("a response isn't answered", 1000, b"\0\x07\x81\x20\0\x01\0\0\0\0\0\0\0\0\x02\0\x01", false, b""),
];

fn rows() -> &'static [Row] {
    ROWS
}

// The exchange tells the request and its moment, and has the row's reply; no byte stands for none.
fn is_so(exchanged: &Exchanged, row: &Row) -> bool {
    let looked_up = !matches!(exchanged.outcome, Outcome::None);
    let replied = match &exchanged.reply {
        None => row.4.is_empty(),
        Some(bytes) => bytes.as_slice() == row.4,
    };
    let told = exchanged.request.as_slice() == row.2 && exchanged.moment == row.1;
    told && replied && looked_up == row.3
}

fn is_responded<R: Wait + Abort + Copy>(rt: R, alloc: Global, row: &Row) -> bool {
    let mut validator = validator_of(rt, alloc, upstream_of(&rt, alloc));
    let made = respond(alloc, &mut validator, row.2, Protocol::Udp, 26, row.1);
    is_so(&made.expect(&rt, "memory"), row)
}

// The same over a cache that isn't shared.
fn is_responded_over(rt: &impl Abort, alloc: Global, row: &Row) -> bool {
    let anchors = anchors_of(rt, alloc);
    let verifier = verifier_of(rt, alloc);
    let cache = ListCache::new(alloc, 8);
    let made = DnssecDnsHandle::with_cache(upstream_of(rt, alloc), anchors, verifier, cache);
    let mut validator = made.expect(rt, "a validator");
    let made = respond_over(alloc, &mut validator, row.2, Protocol::Tcp, 26, row.1);
    is_so(&made.expect(rt, "memory"), row)
}

#[test]
fn requests_are_responded_to(rt: HostRuntime) {
    for row in rows() {
        check_row(&rt, row.0, is_responded(rt, rt.alloc(), row));
    }
}

#[test]
fn any_cache_serves(rt: HostRuntime) {
    for row in rows() {
        check_row(&rt, row.0, is_responded_over(&rt, rt.alloc(), row));
    }
}
