//! Chains as trees, with the tags of their keys (RFC 4034, appendix B), and what was asked.
use dns_evidence::{Chain, Link, Trail};
use dns_handle::{DnsResponse, IoKind, NetError};
use dns_message::Message;
use dns_model::{Denial, Section};
use dns_query_handle::Note;
use dns_query_shown::{push_asks, push_chains};
use dns_record::{DNSClass, Name, Octets, Query, Rdata, RecordType};
use std::alloc::Global;
use std::process::Abort;

/// Its tag is 44745.
const ROOT_KEY: &[u8] = b"\x01\x01\x03\x0d\xaa\xbb";

/// Its tag is 52955.
const OTHER_KEY: &[u8] = b"\x01\x00\x03\x0d\xca\xce";

fn name(alloc: Global, text: &str) -> Option<Name> {
    Name::from_ascii(alloc, text).ok()
}

fn rdata(alloc: Global, bytes: &[u8]) -> Option<Rdata> {
    if bytes.len() > Rdata::MAX_LEN {
        return None;
    }
    Rdata::from_slice(alloc, bytes).ok()
}

fn anchored(alloc: Global, key: &[u8]) -> Option<Link> {
    Some(Link::Anchored {
        owner: name(alloc, ".")?,
        class: DNSClass::IN,
        key: rdata(alloc, key)?,
    })
}

fn matched(alloc: Global, ds_link: u32) -> Option<Link> {
    Some(Link::Matched {
        owner: name(alloc, "example")?,
        class: DNSClass::IN,
        key: rdata(alloc, OTHER_KEY)?,
        ds_link,
        ds: rdata(alloc, b"\x00")?,
    })
}

fn key_set(alloc: Global, number: u32) -> Option<Link> {
    let mut keys = Vec::new(alloc);
    keys.push(rdata(alloc, ROOT_KEY)?).ok()?;
    keys.push(rdata(alloc, OTHER_KEY)?).ok()?;
    keys.push(rdata(alloc, b"\x01")?).ok()?;
    let mut links = Vec::new(alloc);
    links.push(number).ok()?;
    Some(Link::KeySet {
        owner: name(alloc, ".")?,
        class: DNSClass::IN,
        keys,
        links,
    })
}

fn signed(
    alloc: Global,
    owner: &str,
    record_type: RecordType,
    key_link: u32,
    key: &[u8],
) -> Option<Link> {
    Some(Link::Signed {
        owner: name(alloc, owner)?,
        class: DNSClass::IN,
        record_type,
        rdatas: Vec::new(alloc),
        sig: rdata(alloc, b"\x00")?,
        key_link,
        key: rdata(alloc, key)?,
    })
}

// From two keys of the root down to a host.
fn chain(alloc: Global) -> Option<Chain> {
    let mut links = Vec::new(alloc);
    links.push(anchored(alloc, OTHER_KEY)?).ok()?;
    links.push(anchored(alloc, ROOT_KEY)?).ok()?;
    links.push(key_set(alloc, 1)?).ok()?;
    links
        .push(signed(alloc, "example", RecordType::DS, 2, ROOT_KEY)?)
        .ok()?;
    links.push(matched(alloc, 3)?).ok()?;
    links
        .push(signed(alloc, "www.example", RecordType::A, 4, OTHER_KEY)?)
        .ok()?;
    links
        .push(signed(alloc, "a.b", RecordType(65280), 70_000, b"\x01")?)
        .ok()?;
    Some(Chain {
        section: Section::Answer,
        links,
    })
}

const TREES: &[u8] =
    b"answer:\n  . key 52955, trusted\n  . key 44745, trusted\n    . DNSKEY, key 44745, key 52955, key\n      example. DS, signed by key 44745\n        example. key 52955, of its DS record\n          www.example. A, signed by key 52955\n  a.b. TYPE65280, signed by key\nadditional:\n";

fn trees(alloc: Global) -> Option<Vec<u8>> {
    let mut chains = Vec::new(alloc);
    chains.push(chain(alloc)?).ok()?;
    chains
        .push(Chain {
            section: Section::Additional,
            links: Vec::new(alloc),
        })
        .ok()?;
    let mut text = Vec::new(alloc);
    push_chains(&mut text, &chains).ok()?;
    Some(text)
}

fn is_text(text: Option<Vec<u8>>, expected: &[u8]) -> bool {
    match text {
        Some(text) => *text.as_slice() == *expected,
        None => false,
    }
}

#[test]
fn each_link_stands_below_the_one_that_it_rests_on(rt: HostRuntime) {
    assert!(rt; is_text(trees(rt.alloc()), TREES), "two chains");
}

fn query(alloc: Global, text: &str, query_type: RecordType) -> Option<Query> {
    Some(Query {
        name: name(alloc, text)?,
        query_type,
        query_class: DNSClass::IN,
    })
}

/// A reply with the code 3 and a record in its authority section.
const NO_NAME: &[u8] =
    b"\x00\x00\x84\x03\x00\x00\x00\x00\x00\x01\x00\x00\x00\x00\x01\x00\x01\x00\x00\x00\x00\x00\x04\x7f\x00\x00\x01";

fn response(alloc: Global) -> Option<DnsResponse> {
    let octets = Octets::from_slice(alloc, NO_NAME).ok()?;
    if octets.len() > 65_535 {
        return None;
    }
    Some(DnsResponse {
        message: Message::from_octets(octets).ok()?,
        chains: Vec::new(alloc),
        denial: Denial::None,
        trail: Trail::new(alloc),
    })
}

const ASKS: &[u8] =
    b"a\\.b. NS, 0 ms: code 3, answer 0, authority 1, additional 0\n. DNSKEY, 18446744073709551615 ms: fault timeout\n. DNSKEY, 7 ms: fault io ConnectionRefused\n. DNSKEY, 8 ms: fault memory\n";

// A note of what a query for the root's keys was answered.
fn of_keys(alloc: Global, reply: Result<DnsResponse, NetError>, elapsed_ms: u64) -> Option<Note> {
    Some(Note {
        query: query(alloc, ".", RecordType::DNSKEY)?,
        reply,
        elapsed_ms,
    })
}

fn notes(alloc: Global) -> Option<Vec<Note>> {
    let first = Note {
        query: query(alloc, "a\\.b", RecordType::NS)?,
        reply: Ok(response(alloc)?),
        elapsed_ms: 0,
    };
    let refused = NetError::Io(IoKind::ConnectionRefused);
    let mut all = Vec::new(alloc);
    all.push(first).ok()?;
    all.push(of_keys(alloc, Err(NetError::Timeout), u64::MAX)?)
        .ok()?;
    all.push(of_keys(alloc, Err(refused), 7)?).ok()?;
    all.push(of_keys(alloc, Err(NetError::NoMemory), 8)?).ok()?;
    Some(all)
}

fn asks(alloc: Global) -> Option<Vec<u8>> {
    let notes = notes(alloc)?;
    let mut text = Vec::new(alloc);
    push_asks(&mut text, &notes).ok()?;
    Some(text)
}

#[test]
fn each_query_stands_with_its_time_and_its_reply(rt: HostRuntime) {
    assert!(rt; is_text(asks(rt.alloc()), ASKS), "a response and faults");
}

// A thousand trusted keys, each a line of 23 bytes.
fn long_tree(alloc: Global) -> Option<Vec<u8>> {
    let mut links = Vec::new(alloc);
    for _ in 0..1000 {
        links.push(anchored(alloc, ROOT_KEY)?).ok()?;
    }
    let mut chains = Vec::new(alloc);
    chains
        .push(Chain {
            section: Section::Answer,
            links,
        })
        .ok()?;
    let mut text = Vec::new(alloc);
    push_chains(&mut text, &chains).ok()?;
    Some(text)
}

// The same query a thousand times, each a line of 30 bytes.
fn long_list(alloc: Global) -> Option<Vec<u8>> {
    let mut all = Vec::new(alloc);
    for _ in 0..1000 {
        all.push(of_keys(alloc, Err(NetError::Timeout), 1)?).ok()?;
    }
    let mut text = Vec::new(alloc);
    push_asks(&mut text, &all).ok()?;
    Some(text)
}

fn has_length(text: Option<Vec<u8>>, length: usize) -> bool {
    match text {
        Some(text) => text.len() == length,
        None => false,
    }
}

#[test]
fn a_thousand_links_are_drawn(rt: HostRuntime) {
    assert!(rt;
        has_length(long_tree(rt.alloc()), 23_008),
        "the length of all lines"
    );
}

#[test]
fn a_thousand_queries_are_listed(rt: HostRuntime) {
    assert!(rt;
        has_length(long_list(rt.alloc()), 30_000),
        "the length of all lines"
    );
}
