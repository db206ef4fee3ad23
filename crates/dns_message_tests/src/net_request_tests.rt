//! Requests: what stands in them, and the case of their names.
use crate::message_tests::is_written_as;
use crate::parts::{ask_also, is_named, query};
use crate::rows::{Row, check_numbered, check_row};
use dns_handle::{DnsRequest, DnsRequestOptions};
use dns_message::Message;
use dns_record::Query;
use std::alloc::Global;
use std::process::Abort;

/// A name as a text and in wire form, bits, and the name in wire form with the case of the letters changed whose bit is set.
struct Cased(&'static str, &'static [u8], &'static [u8], &'static [u8]);

#[rattlefmt::skip]
const CASED: &[Cased] = &[
    Cased("aB-c.De.", b"\x04aB-c\x02De\0", &[0b0_0001], b"\x04AB-c\x02De\0"),
    Cased("aB-c.De.", b"\x04aB-c\x02De\0", &[0b1_1010], b"\x04ab-c\x02dE\0"),
    Cased("aB-c.De.", b"\x04aB-c\x02De\0", &[0xff, 0xff], b"\x04Ab-C\x02dE\0"),
    // missing bits are clear
    Cased("aB-c.De.", b"\x04aB-c\x02De\0", &[], b"\x04aB-c\x02De\0"),
    Cased("abcdefgh.ij.", b"\x08abcdefgh\x02ij\0", &[0xff], b"\x08ABCDEFGH\x02ij\0"),
    // bit 8 is the lowest of the second byte
    Cased("abcdefgh.ij.", b"\x08abcdefgh\x02ij\0", &[0x80, 0x01], b"\x08abcdefgH\x02Ij\0"),
    // what stands beside the letters isn't one
    Cased("@[`{a1Z.", b"\x07@[`{a1Z\0", &[0b01], b"\x07@[`{A1Z\0"),
    Cased("\\193\\225z.", b"\x03\xc1\xe1z\0", &[0xff], b"\x03\xc1\xe1Z\0"),
    Cased(".", b"\0", &[0xff], b"\0"),
    Cased(LONGEST, LONGEST_SMALL, ALL_BITS, LONGEST_LARGE),
];

/// The longest name, of 127 labels.
const LONGEST: &str = "\
    a.a.a.a.a.a.a.a.a.a.a.a.a.a.a.a.a.a.a.a.a.a.a.a.a.a.a.a.a.a.a.a.a.a.a.a.a.a.a.a.a.a.a.a.a.\
    a.a.a.a.a.a.a.a.a.a.a.a.a.a.a.a.a.a.a.a.a.a.a.a.a.a.a.a.a.a.a.a.a.a.a.a.a.a.a.a.a.a.a.a.a.\
    a.a.a.a.a.a.a.a.a.a.a.a.a.a.a.a.a.a.a.a.a.a.a.a.a.a.a.a.a.a.a.a.a.a.a.a.a.";

const LONGEST_SMALL: &[u8] = b"\
    \x01a\x01a\x01a\x01a\x01a\x01a\x01a\x01a\x01a\x01a\x01a\x01a\x01a\x01a\x01a\x01a\x01a\x01a\x01a\x01a\
    \x01a\x01a\x01a\x01a\x01a\x01a\x01a\x01a\x01a\x01a\x01a\x01a\x01a\x01a\x01a\x01a\x01a\x01a\x01a\x01a\
    \x01a\x01a\x01a\x01a\x01a\x01a\x01a\x01a\x01a\x01a\x01a\x01a\x01a\x01a\x01a\x01a\x01a\x01a\x01a\x01a\
    \x01a\x01a\x01a\x01a\x01a\x01a\x01a\x01a\x01a\x01a\x01a\x01a\x01a\x01a\x01a\x01a\x01a\x01a\x01a\x01a\
    \x01a\x01a\x01a\x01a\x01a\x01a\x01a\x01a\x01a\x01a\x01a\x01a\x01a\x01a\x01a\x01a\x01a\x01a\x01a\x01a\
    \x01a\x01a\x01a\x01a\x01a\x01a\x01a\x01a\x01a\x01a\x01a\x01a\x01a\x01a\x01a\x01a\x01a\x01a\x01a\x01a\
    \x01a\x01a\x01a\x01a\x01a\x01a\x01a\0";

const LONGEST_LARGE: &[u8] = b"\
    \x01A\x01A\x01A\x01A\x01A\x01A\x01A\x01A\x01A\x01A\x01A\x01A\x01A\x01A\x01A\x01A\x01A\x01A\x01A\x01A\
    \x01A\x01A\x01A\x01A\x01A\x01A\x01A\x01A\x01A\x01A\x01A\x01A\x01A\x01A\x01A\x01A\x01A\x01A\x01A\x01A\
    \x01A\x01A\x01A\x01A\x01A\x01A\x01A\x01A\x01A\x01A\x01A\x01A\x01A\x01A\x01A\x01A\x01A\x01A\x01A\x01A\
    \x01A\x01A\x01A\x01A\x01A\x01A\x01A\x01A\x01A\x01A\x01A\x01A\x01A\x01A\x01A\x01A\x01A\x01A\x01A\x01A\
    \x01A\x01A\x01A\x01A\x01A\x01A\x01A\x01A\x01A\x01A\x01A\x01A\x01A\x01A\x01A\x01A\x01A\x01A\x01A\x01A\
    \x01A\x01A\x01A\x01A\x01A\x01A\x01A\x01A\x01A\x01A\x01A\x01A\x01A\x01A\x01A\x01A\x01A\x01A\x01A\x01A\
    \x01A\x01A\x01A\x01A\x01A\x01A\x01A\0";

/// The bits that make each letter large.
const ALL_BITS: &[u8] = &[255; 32];

fn cased_rows() -> &'static [Cased] {
    CASED
}

/// A request for this question.
fn request(rt: &impl Abort, alloc: Global, query: Query, options: DnsRequestOptions) -> DnsRequest {
    DnsRequest::from_query(alloc, query, options).expect(rt, "memory")
}

/// The request with the letters changed whose bit is set.
fn changed(rt: &impl Abort, request: DnsRequest, bits: &[u8]) -> DnsRequest {
    request.with_case(bits).expect(rt, "memory")
}

/// A request for this name that also asks for `b. NS`.
fn two_questions(rt: &impl Abort, alloc: Global, name: &str) -> DnsRequest {
    let query = query(rt, alloc, name, 48);
    let mut request = request(rt, alloc, query, BY_DEFAULT);
    ask_also(rt, alloc, &mut request.message.queries, "b.", 2);
    request
}

/// The request asks for this name, in this case, and for `b. NS`, and says in which case it asked before.
fn is_changed(request: &DnsRequest, changed: &[u8], original: &[u8]) -> bool {
    match (request.message.queries.as_slice(), &request.original) {
        ([one, other], Some(before)) => {
            is_named(&one.name, changed)
                && one.query_type.0 == 48
                && is_named(&other.name, b"\x01b\0")
                && other.query_type.0 == 2
                && is_named(&before.name, original)
                && before.query_type.0 == 48
        }
        _ => false,
    }
}

/// The request and its copy ask so, and say what was asked before.
fn both_are_changed(
    rt: &impl Abort,
    request: &DnsRequest,
    changed: &[u8],
    original: &[u8],
) -> bool {
    let copy = request.try_clone().expect(rt, "memory");
    is_changed(request, changed, original) && is_changed(&copy, changed, original)
}

/// The first question alone is changed. A second change keeps the question as the first has left it.
impl Row for Cased {
    fn holds(&self, rt: &impl Abort, alloc: Global) -> bool {
        let once = changed(rt, two_questions(rt, alloc, self.0), self.2);
        let held = both_are_changed(rt, &once, self.3, self.1);
        let twice = changed(rt, once, self.2);
        let still = both_are_changed(rt, &twice, self.1, self.3);
        held && still
    }
}

/// A request without a question stays without one, and has no original.
fn stays_without_a_question(rt: &impl Abort, alloc: Global) -> bool {
    let nothing = DnsRequest {
        message: Message::query(alloc),
        options: BY_DEFAULT,
        original: None,
    };
    let request = changed(rt, nothing, ALL_BITS);
    request.message.queries.is_empty() && request.original.is_none()
}

#[test]
fn letters_change_where_their_bit_is_set(rt: HostRuntime) {
    let alloc = rt.alloc();
    check_numbered(&rt, alloc, "cased", cased_rows());
    check_row(
        &rt,
        "without a question",
        stays_without_a_question(&rt, alloc),
    );
}

const BY_DEFAULT: DnsRequestOptions = DnsRequestOptions {
    use_edns: false,
    edns_payload_len: 1232,
    edns_set_dnssec_ok: false,
    recursion_desired: true,
    case_randomization: false,
    max_request_depth: 26,
    retry_interval_ms: 0,
};

/// Whether there is EDNS, with which payload and whether with DO, and whether recursion is desired; the bytes of the request for
/// `. NS`.
struct Written(bool, u16, bool, bool, &'static [u8]);

/// RD is 01 in the third byte; an OPT has type 41, the payload for its class and DO as the highest bit of its flags.
#[rattlefmt::skip]
const WRITTEN: &[Written] = &[
    Written(false, 1232, true, true, b"\0\0\x01\0\0\x01\0\0\0\0\0\0\0\0\x02\0\x01"),
    Written(false, 1232, false, false, b"\0\0\0\0\0\x01\0\0\0\0\0\0\0\0\x02\0\x01"),
    Written(true, 1232, true, true, b"\0\0\x01\0\0\x01\0\0\0\0\0\x01\0\0\x02\0\x01\0\0\x29\x04\xd0\0\0\x80\0\0\0"),
    Written(true, 512, false, true, b"\0\0\x01\0\0\x01\0\0\0\0\0\x01\0\0\x02\0\x01\0\0\x29\x02\0\0\0\0\0\0\0"),
];

fn written_rows() -> &'static [Written] {
    WRITTEN
}

impl Row for Written {
    fn holds(&self, rt: &impl Abort, alloc: Global) -> bool {
        let options = DnsRequestOptions {
            use_edns: self.0,
            edns_payload_len: self.1,
            edns_set_dnssec_ok: self.2,
            recursion_desired: self.3,
            ..BY_DEFAULT
        };
        let request = request(rt, alloc, query(rt, alloc, ".", 2), options);
        request.original.is_none() && is_written_as(&request.message, self.4, None)
    }
}

#[test]
fn requests_are_written(rt: HostRuntime) {
    check_numbered(&rt, rt.alloc(), "written", written_rows());
    assert!(rt; DnsRequestOptions::default() == BY_DEFAULT);
}
