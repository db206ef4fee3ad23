//! Lookups over recorded sessions, saved as sessions again; and what isn't the session of its lookup.
use crate::scenes::{BY_TURN, BY_TURN_SAVED, SIGNED};
use dns_evidence::{Listed, Trail};
use dns_handle::{DnsResponse, NetError};
use dns_message::Message;
use dns_model::Denial;
use dns_record::Query;
use dns_saved_lookup::{SaveError, SavedLookup, save_lookup, saved_reply};
use dns_saved_session::SavedReply;
use dns_session::{Anchor, ReplyFault, ReplyKind, Session, SessionReply, read_session};
use dns_session_lookup::{Verification, listed_verifier, session_answer};
use std::alloc::Global;
use std::process::Abort;

/// What is saved of a lookup that isn't its own.
#[derive(Clone, Copy, PartialEq, Eq)]
enum Change {
    Nothing,
    /// The first reply is left out.
    FirstLeftOut,
    /// The last reply is left out.
    LastLeftOut,
    /// The moment is one at which no signature counts.
    Later,
    /// The verifier accepts nothing.
    NoSignature,
    /// Its algorithms aren't said.
    NoAlgorithm,
    /// No key is trusted.
    NoAnchor,
}

fn read(alloc: Global, text: &[u8]) -> Option<Session> {
    if text.len() > 16_777_216 {
        return None;
    }
    read_session(alloc, text).ok()
}

// The response that a message is.
fn response_of(alloc: Global, message: &Message) -> Option<DnsResponse> {
    Some(DnsResponse {
        message: message.try_clone().ok()?,
        chains: Vec::new(alloc),
        denial: Denial::None,
        trail: Trail::new(alloc),
    })
}

// What a handle answers that has this reply.
fn reply_of(alloc: Global, kind: &ReplyKind) -> Option<Result<DnsResponse, NetError>> {
    match kind {
        ReplyKind::Message(Ok(message)) => Some(Ok(response_of(alloc, message)?)),
        ReplyKind::Fault(ReplyFault::Timeout) => Some(Err(NetError::Timeout)),
        ReplyKind::Fault(ReplyFault::Busy) => Some(Err(NetError::Busy)),
        _ => None,
    }
}

fn replies_of(alloc: Global, told: &[SessionReply]) -> Option<Vec<SavedReply>> {
    let mut replies = Vec::new(alloc);
    for one in told {
        let reply = reply_of(alloc, &one.kind)?;
        replies.push(saved_reply(&one.query, &reply).ok()?).ok()?;
    }
    Some(replies)
}

fn kept(replies: &[SavedReply], change: Change) -> &[SavedReply] {
    match (change, replies) {
        (Change::FirstLeftOut, [_, rest @ ..]) => rest,
        (Change::LastLeftOut, [rest @ .., _]) => rest,
        _ => replies,
    }
}

fn verifier_of(alloc: Global, text: &[u8], change: Change) -> Option<Listed> {
    let Session {
        by_turn: _,
        moment: _,
        depth: _,
        algorithms,
        anchors: _,
        accepts,
        query: _,
        replies: _,
    } = read(alloc, text)?;
    if change == Change::NoSignature {
        return listed_verifier(alloc, &algorithms, Vec::new(alloc)).ok();
    }
    listed_verifier(alloc, &algorithms, accepts).ok()
}

fn moment_of(session: &Session, change: Change) -> u64 {
    match change {
        Change::Later => 4_000_000_000,
        _ => session.moment,
    }
}

fn algorithms_of(session: &Session, change: Change) -> &[u8] {
    match change {
        Change::NoAlgorithm => &[],
        _ => &session.algorithms,
    }
}

fn anchors_of(session: &Session, change: Change) -> &[Anchor] {
    match change {
        Change::NoAnchor => &[],
        _ => &session.anchors,
    }
}

// What is saved of a session's lookup, or why nothing is; none where memory runs out.
fn saved(alloc: Global, text: &[u8], change: Change) -> Option<Result<Vec<u8>, SaveError>> {
    let answer = session_answer(alloc, Verification::ByList, read(alloc, text)?);
    let verifier = verifier_of(alloc, text, change)?;
    let session = read(alloc, text)?;
    let replies = replies_of(alloc, &session.replies)?;
    let lookup = SavedLookup {
        moment: moment_of(&session, change),
        depth: session.depth,
        algorithms: algorithms_of(&session, change),
        anchors: anchors_of(&session, change),
        query: &session.query,
        replies: kept(&replies, change),
        answer: &answer,
    };
    Some(save_lookup(alloc, &verifier, &lookup))
}

fn is_saved_as(alloc: Global, text: &[u8], expected: &[u8]) -> bool {
    match saved(alloc, text, Change::Nothing) {
        Some(Ok(text)) => *text.as_slice() == *expected,
        _ => false,
    }
}

fn differs(alloc: Global, text: &[u8], change: Change) -> bool {
    matches!(saved(alloc, text, change), Some(Err(SaveError::Differs)))
}

#[test]
fn a_lookup_is_saved_with_the_signatures_that_it_needs(rt: HostRuntime) {
    let alloc = rt.alloc();
    assert!(rt; is_saved_as(alloc, SIGNED, SIGNED), "all that is signed");
    assert!(rt;
        is_saved_as(alloc, BY_TURN, BY_TURN_SAVED),
        "replies by turn"
    );
}

/// What is left out or another, and what it is.
const CHANGES: &[(&str, Change)] = &[
    ("the reply to the query", Change::FirstLeftOut),
    ("the keys", Change::LastLeftOut),
    ("the moment", Change::Later),
    ("the signature", Change::NoSignature),
    ("the algorithm", Change::NoAlgorithm),
    ("the trusted key", Change::NoAnchor),
];

#[test]
fn what_would_be_answered_otherwise_is_not_saved(rt: HostRuntime) {
    let alloc = rt.alloc();
    for change in CHANGES {
        assert!(rt; differs(alloc, SIGNED, change.1), "{}", change.0);
    }
}
