//! Keys by the digests of the root's trust anchors, where the root answers with its keys (RFC 4034, 5.2; RFC 7958).
use crate::replies::response_with;
use dns_anchor_keys::{AnchorsFault, TrustedKeys, anchor_keys};
use dns_handle::DnsResponse;
use dns_master_file::RecordLine;
use dns_message::Message;
use dns_model::Proof;
use dns_query_files::{read_anchors, root_anchors};
use dns_record::{DNSClass, Name, Query, Record, RecordType};
use dns_recorded::Recorded;
use dns_signatures::Arithmetic;
use std::alloc::Global;
use std::process::Abort;

/// The digests of `root.ds` of Debian's package `dns-root-data` 2024071801.
#[rattlefmt::skip]
const BOTH: &[u8] = b". IN DS 20326 8 2 E06D44B80B8F1D39A95C0B0D7C65D08458E880409BBC683457104237C7F8EC8D\n. IN DS 38696 8 2 683D2D0ACB8C9B712A1948B27F741219298D0A450D612C483AF444A4C0FB2B16\n";

/// The first of them, and one with the tag of the second and another digest.
#[rattlefmt::skip]
const ONE: &[u8] = b". IN DS 20326 8 2 E06D44B80B8F1D39A95C0B0D7C65D08458E880409BBC683457104237C7F8EC8D\n. IN DS 38696 8 2 683D2D0ACB8C9B712A1948B27F741219298D0A450D612C483AF444A4C0FB2B17\n";

/// The tag of a key, and another digest.
#[rattlefmt::skip]
const NONE: &[u8] = b". IN DS 20326 8 2 E06D44B80B8F1D39A95C0B0D7C65D08458E880409BBC683457104237C7F8EC8E\n";

/// A digest of a zone that isn't answered for.
#[rattlefmt::skip]
const SILENT: &[u8] = b"example. IN DS 20326 8 2 E06D44B80B8F1D39A95C0B0D7C65D08458E880409BBC683457104237C7F8EC8D\n";

// The records of a text, which is no longer than an input may be.
fn lines_of(rt: &impl Abort, alloc: Global, text: &[u8]) -> Vec<RecordLine> {
    if text.len() > 16_777_216 {
        return Vec::new(alloc);
    }
    read_anchors(alloc, text).ok().expect(rt, "anchors")
}

// A response with the root's keys.
fn root_keys(rt: &impl Abort, alloc: Global) -> DnsResponse {
    let mut message = Message::query(alloc);
    for line in lines_of(rt, alloc, root_anchors()) {
        let key = Record {
            name: line.name,
            record_type: line.record_type,
            dns_class: line.dns_class,
            ttl: 0,
            rdata: line.rdata,
            proof: Proof::Indeterminate,
        };
        message.answers.push(key).expect(rt, "memory");
    }
    response_with(alloc, message)
}

// A handle that answers for the root's keys alone.
fn root_server(rt: &impl Abort, alloc: Global) -> Recorded {
    let query = Query {
        name: Name::root(alloc).expect(rt, "memory"),
        query_type: RecordType::DNSKEY,
        query_class: DNSClass::IN,
    };
    let mut upstream = Recorded::new(alloc);
    upstream
        .push(query, Ok(root_keys(rt, alloc)))
        .expect(rt, "memory");
    upstream
}

// The keys that the anchors of a text stand for.
fn keys_by(rt: &impl Abort, alloc: Global, text: &[u8]) -> Result<TrustedKeys, AnchorsFault> {
    let lines = lines_of(rt, alloc, text);
    let mut handle = root_server(rt, alloc);
    anchor_keys(alloc, &mut handle, &Arithmetic::new(), &lines, 0)
}

// How many keys the anchors of a text stand for.
fn count_by(rt: &impl Abort, alloc: Global, text: &[u8]) -> usize {
    match keys_by(rt, alloc, text) {
        Ok(trusted) => trusted.anchors.len(),
        Err(_) => 0,
    }
}

#[test]
fn digests_stand_for_the_keys_that_have_them(rt: HostRuntime) {
    let alloc = rt.alloc();
    assert!(rt; count_by(&rt, alloc, BOTH) == 2, "both");
    assert!(rt; count_by(&rt, alloc, ONE) == 1, "a tag alone is no digest");
}

#[test]
fn without_a_key_nothing_is_trusted(rt: HostRuntime) {
    let alloc = rt.alloc();
    let none = keys_by(&rt, alloc, NONE);
    assert!(rt; matches!(&none, Err(AnchorsFault::NoKey)), "another digest");
    let silent = keys_by(&rt, alloc, SILENT);
    assert!(rt;
        matches!(&silent, Err(AnchorsFault::Unanswered(_, _))),
        "a zone without an answer"
    );
}
