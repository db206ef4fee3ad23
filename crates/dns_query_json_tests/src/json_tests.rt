//! Answers as JSON values (RFC 8259).
use dns_evidence::{Chain, Link, Trail};
use dns_handle::{DnsError, DnsResponse, NetError};
use dns_message::Message;
use dns_model::{Denial, Proof, Section};
use dns_query_handle::Note;
use dns_query_json::{Answer, push_json};
use dns_record::{DNSClass, Name, Octets, Query, Rdata, RecordType};
use std::alloc::Global;
use std::process::Abort;

/// Its tag is 44745.
const KEY: &[u8] = b"\x01\x01\x03\x0d\xaa\xbb";

/// A reply with the code 3 and a record in its authority section.
#[rattlefmt::skip]
const NO_NAME: &[u8] = b"\x00\x00\x84\x03\x00\x00\x00\x00\x00\x01\x00\x00\x00\x00\x01\x00\x01\x00\x00\x00\x00\x00\x04\x7f\x00\x00\x01";

/// A denial, a code, a record, a chain of each kind of link, and two queries; the text has bytes that are escaped.
#[rattlefmt::skip]
const WHOLE: &[u8] = b"{\"name\":\"a\\\\.b.\",\"type\":\"NS\",\"status\":3,\"text\":\"\\\"\\u000a\\u007f\\u00ff\",\"denial\":{\"kind\":\"absent\",\"mark\":\"secure\"},\"code\":3,\"answers\":[],\"authorities\":[{\"mark\":\"indeterminate\",\"record\":\". 0 IN A 127.0.0.1\"}],\"additionals\":[],\"chains\":[{\"section\":\"authority\",\"links\":[{\"link\":\"anchored\",\"owner\":\".\",\"tag\":44745},{\"link\":\"keyset\",\"owner\":\".\",\"tags\":[44745,null],\"key_links\":[0,70000]},{\"link\":\"signed\",\"owner\":\"b.\",\"type\":\"DS\",\"tag\":44745,\"key_link\":1},{\"link\":\"matched\",\"owner\":\"b.\",\"tag\":44745,\"ds_link\":2}]}],\"trail\":[{\"name\":\"a\\\\.b.\",\"type\":\"NS\",\"milliseconds\":7,\"code\":3},{\"name\":\"a\\\\.b.\",\"type\":\"NS\",\"milliseconds\":5000,\"fault\":\"timeout\"}]}\n";

/// An answer that is refused, and a query for which memory ran out.
#[rattlefmt::skip]
const REFUSED: &[u8] = b"{\"name\":\".\",\"type\":\"NS\",\"status\":3,\"text\":\"\",\"denial\":{\"kind\":\"refused\",\"mark\":\"bogus\"},\"code\":3,\"answers\":[],\"authorities\":[{\"mark\":\"indeterminate\",\"record\":\". 0 IN A 127.0.0.1\"}],\"additionals\":[],\"chains\":[{\"section\":\"authority\",\"links\":[{\"link\":\"anchored\",\"owner\":\".\",\"tag\":44745},{\"link\":\"keyset\",\"owner\":\".\",\"tags\":[44745,null],\"key_links\":[0,70000]},{\"link\":\"signed\",\"owner\":\"b.\",\"type\":\"DS\",\"tag\":44745,\"key_link\":1},{\"link\":\"matched\",\"owner\":\"b.\",\"tag\":44745,\"ds_link\":2}]}],\"trail\":[{\"name\":\".\",\"type\":\"NS\",\"milliseconds\":0,\"fault\":\"memory\"}]}\n";

/// No response.
#[rattlefmt::skip]
const NOTHING: &[u8] = b"{\"name\":\".\",\"type\":\"TYPE65280\",\"status\":4,\"text\":\"\",\"denial\":null,\"code\":null,\"trail\":[]}\n";

/// How many queries a long trail has.
const MANY: usize = 2_000;

/// What stands around a trail, and each query of it.
const AROUND: &[u8] =
    b"{\"name\":\".\",\"type\":\"NS\",\"status\":4,\"text\":\"\",\"denial\":null,\"code\":null,\"trail\":[]}\n";

const LATE: &[u8] = b"{\"name\":\".\",\"type\":\"NS\",\"milliseconds\":0,\"fault\":\"timeout\"}";

fn name(alloc: Global, text: &str) -> Option<Name> {
    Name::from_ascii(alloc, text).ok()
}

fn rdata(alloc: Global, bytes: &[u8]) -> Option<Rdata> {
    if bytes.len() > Rdata::MAX_LEN {
        return None;
    }
    Rdata::from_slice(alloc, bytes).ok()
}

fn asked(alloc: Global, text: &str, query_type: RecordType) -> Option<Query> {
    Some(Query {
        name: name(alloc, text)?,
        query_type,
        query_class: DNSClass::IN,
    })
}

fn anchored(alloc: Global) -> Option<Link> {
    Some(Link::Anchored {
        owner: name(alloc, ".")?,
        class: DNSClass::IN,
        key: rdata(alloc, KEY)?,
    })
}

fn key_set(alloc: Global) -> Option<Link> {
    let mut keys = Vec::new(alloc);
    keys.push(rdata(alloc, KEY)?).ok()?;
    keys.push(rdata(alloc, b"\x01")?).ok()?;
    let mut links = Vec::new(alloc);
    links.push(0).ok()?;
    links.push(70_000).ok()?;
    Some(Link::KeySet {
        owner: name(alloc, ".")?,
        class: DNSClass::IN,
        keys,
        links,
    })
}

fn signed(alloc: Global) -> Option<Link> {
    Some(Link::Signed {
        owner: name(alloc, "b")?,
        class: DNSClass::IN,
        record_type: RecordType::DS,
        rdatas: Vec::new(alloc),
        sig: rdata(alloc, b"\x00")?,
        key_link: 1,
        key: rdata(alloc, KEY)?,
    })
}

fn matched(alloc: Global) -> Option<Link> {
    Some(Link::Matched {
        owner: name(alloc, "b")?,
        class: DNSClass::IN,
        key: rdata(alloc, KEY)?,
        ds_link: 2,
        ds: rdata(alloc, b"\x00")?,
    })
}

fn chain(alloc: Global) -> Option<Chain> {
    let mut links = Vec::new(alloc);
    links.push(anchored(alloc)?).ok()?;
    links.push(key_set(alloc)?).ok()?;
    links.push(signed(alloc)?).ok()?;
    links.push(matched(alloc)?).ok()?;
    Some(Chain {
        section: Section::Authority,
        links,
    })
}

fn response(alloc: Global, denial: Denial) -> Option<DnsResponse> {
    let octets = Octets::from_slice(alloc, NO_NAME).ok()?;
    if octets.len() > 65_535 {
        return None;
    }
    let message = Message::from_octets(octets).ok()?;
    let mut chains = Vec::new(alloc);
    chains.push(chain(alloc)?).ok()?;
    Some(DnsResponse {
        message,
        chains,
        denial,
        trail: Trail::new(alloc),
    })
}

fn note(query: Query, reply: Result<DnsResponse, NetError>, elapsed_ms: u64) -> Note {
    Note {
        query,
        reply,
        elapsed_ms,
    }
}

fn json(alloc: Global, answer: &Answer<'_>) -> Option<Vec<u8>> {
    let mut text = Vec::new(alloc);
    push_json(&mut text, answer).ok()?;
    Some(text)
}

fn whole(alloc: Global) -> Option<Vec<u8>> {
    let query = asked(alloc, "a\\.b", RecordType::NS)?;
    let reply = Ok(response(alloc, Denial::Absent(Proof::Secure))?);
    let told = Ok(response(alloc, Denial::None)?);
    let mut notes = Vec::new(alloc);
    notes.push(note(query.try_clone().ok()?, told, 7)).ok()?;
    notes
        .push(note(query.try_clone().ok()?, Err(NetError::Timeout), 5000))
        .ok()?;
    let answer = Answer {
        query: &query,
        status: 3,
        text: b"\"\n\x7f\xff",
        reply: &reply,
        notes: &notes,
    };
    json(alloc, &answer)
}

fn refused(alloc: Global) -> Option<Vec<u8>> {
    let query = asked(alloc, ".", RecordType::NS)?;
    let reply = Err(NetError::Dns(DnsError::Nsec {
        query: query.try_clone().ok()?,
        response: Box::new(alloc, response(alloc, Denial::None)?).ok()?,
        proof: Proof::Bogus,
    }));
    let mut notes = Vec::new(alloc);
    notes
        .push(note(query.try_clone().ok()?, Err(NetError::NoMemory), 0))
        .ok()?;
    let answer = Answer {
        query: &query,
        status: 3,
        text: b"",
        reply: &reply,
        notes: &notes,
    };
    json(alloc, &answer)
}

fn nothing(alloc: Global) -> Option<Vec<u8>> {
    let query = asked(alloc, ".", RecordType(65280))?;
    let reply = Err(NetError::Busy);
    let answer = Answer {
        query: &query,
        status: 4,
        text: b"",
        reply: &reply,
        notes: &[],
    };
    json(alloc, &answer)
}

fn is_text(text: Option<Vec<u8>>, expected: &[u8]) -> bool {
    match text {
        Some(text) => *text.as_slice() == *expected,
        None => false,
    }
}

#[test]
fn an_answer_stands_with_all_that_was_found(rt: HostRuntime) {
    assert!(rt; is_text(whole(rt.alloc()), WHOLE), "a response");
    assert!(rt;
        is_text(refused(rt.alloc()), REFUSED),
        "an answer that is refused"
    );
    assert!(rt; is_text(nothing(rt.alloc()), NOTHING), "an error");
}

// The length of an answer with a long trail.
fn long_trail(alloc: Global) -> Option<usize> {
    let query = asked(alloc, ".", RecordType::NS)?;
    let mut notes = Vec::new(alloc);
    for _ in 0..MANY {
        let late = Err(NetError::Timeout);
        notes.push(note(query.try_clone().ok()?, late, 0)).ok()?;
    }
    let reply = Err(NetError::Timeout);
    let answer = Answer {
        query: &query,
        status: 4,
        text: b"",
        reply: &reply,
        notes: &notes,
    };
    Some(json(alloc, &answer)?.len())
}

#[test]
fn a_long_trail_is_written(rt: HostRuntime) {
    let commas = MANY - 1;
    let length = AROUND.len() + MANY * LATE.len() + commas;
    assert!(rt;
        long_trail(rt.alloc()) == Some(length),
        "two thousand queries"
    );
}
