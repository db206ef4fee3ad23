//! A lookup whose answer has many records, saved as a session.
use dns_evidence::{Listed, Trail};
use dns_handle::{DnsResponse, NetError};
use dns_message::Message;
use dns_model::{Denial, Proof};
use dns_record::{DNSClass, Name, Query, Rdata, Record, RecordType};
use dns_saved_lookup::{SavedLookup, save_lookup, saved_reply};
use dns_saved_session::{SavedReply, SavedSession, write_session};
use dns_session::read_session;
use dns_session_lookup::{Verification, session_answer};
use std::alloc::Global;
use std::process::Abort;

fn root_query(alloc: Global) -> Option<Query> {
    Some(Query {
        name: Name::root(alloc).ok()?,
        query_type: RecordType::A,
        query_class: DNSClass::IN,
    })
}

// An address of the root, of which there are as many as numbers of two bytes.
fn address(alloc: Global, number: u16) -> Option<Record> {
    let octets = [10, 0, (number / 256) as u8, (number % 256) as u8];
    Some(Record {
        name: Name::root(alloc).ok()?,
        record_type: RecordType::A,
        dns_class: DNSClass::IN,
        ttl: 60,
        rdata: Rdata::from_slice(alloc, &octets).ok()?,
        proof: Proof::Indeterminate,
    })
}

// A response with a thousand addresses.
fn response(alloc: Global) -> Option<DnsResponse> {
    let mut message = Message::query(alloc);
    message.response = true;
    message.queries.push(root_query(alloc)?).ok()?;
    for number in 0..1000 {
        message.answers.push(address(alloc, number)?).ok()?;
    }
    Some(DnsResponse {
        message,
        chains: Vec::new(alloc),
        denial: Denial::None,
        trail: Trail::new(alloc),
    })
}

fn replies(alloc: Global) -> Option<Vec<SavedReply>> {
    let told = Ok(response(alloc)?);
    let mut all = Vec::new(alloc);
    all.push(saved_reply(&root_query(alloc)?, &told).ok()?)
        .ok()?;
    Some(all)
}

// What a lookup over these replies is answered.
fn answered(
    alloc: Global,
    query: &Query,
    replies: &[SavedReply],
) -> Option<Result<DnsResponse, NetError>> {
    let saved = SavedSession {
        moment: 0,
        depth: None,
        algorithms: &[],
        anchors: &[],
        accepts: &[],
        query,
        replies,
    };
    let text = write_session(alloc, &saved).ok()?;
    if text.len() > 16_777_216 {
        return None;
    }
    let session = read_session(alloc, &text).ok()?;
    Some(session_answer(alloc, Verification::ByList, session))
}

fn saved(alloc: Global) -> Option<Vec<u8>> {
    let query = root_query(alloc)?;
    let replies = replies(alloc)?;
    let answer = answered(alloc, &query, &replies)?;
    let lookup = SavedLookup {
        moment: 0,
        depth: None,
        algorithms: &[],
        anchors: &[],
        query: &query,
        replies: &replies,
        answer: &answer,
    };
    save_lookup(alloc, &Listed::new(alloc), &lookup).ok()
}

// Whether there is a text, and longer than the records of its reply as digits.
fn is_saved(alloc: Global) -> bool {
    match saved(alloc) {
        Some(text) => text.len() > 30_000,
        None => false,
    }
}

#[test]
fn a_thousand_records_are_saved(rt: HostRuntime) {
    assert!(rt; is_saved(rt.alloc()), "a text");
}
