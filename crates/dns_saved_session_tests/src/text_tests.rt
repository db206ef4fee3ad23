//! Texts of sessions, as docs/FORMATS.md has them, and what is read of them.
use dns_record::{DNSClass, Name, Octets, Query, RecordType};
use dns_saved_session::{Came, SavedReply, SavedSession, write_session};
use dns_session::{
    AcceptedSignature, Anchor, ReplyFault, ReplyKind, Session, SessionReply, read_session,
};
use std::alloc::Global;
use std::process::Abort;

/// A root key that is trusted and signs, a reply for it, and two queries without one.
#[rattlefmt::skip]
const WHOLE: &[u8] = b"dns-session 2\nmoment 1000\ndepth 5\nalgorithms 8 13\nanchor . 13 aabb\naccept 13 aabb 00020d0000000e10000007d000000384aec900000002000100000e100003016100 c0de\nquery WWW.a\\.b. TYPE65280\nreply . NS 000084020000000000000000\nfault a. DNSKEY timeout\nfault a. DS io\nfault a. NS busy\nend\n";

/// Neither a depth nor an algorithm, nothing that is trusted, and no reply.
const BARE: &[u8] = b"dns-session 2\nmoment 18446744073709551615\nalgorithms\nquery . A\nend\n";

/// A message of two bytes, which is none, and one of no bytes.
const NO_MESSAGES: &[u8] =
    b"dns-session 2\nmoment 0\ndepth 0\nalgorithms 255\nquery . A\nreply . A 00ff\nreply . A -\nend\n";

const MESSAGE: &[u8] = b"\x00\x00\x84\x02\x00\x00\x00\x00\x00\x00\x00\x00";

#[rattlefmt::skip]
const SIGNED: &[u8] = b"\x00\x02\x0d\x00\x00\x00\x0e\x10\x00\x00\x07\xd0\x00\x00\x03\x84\xae\xc9\x00\x00\x00\x02\x00\x01\x00\x00\x0e\x10\x00\x03\x01a\x00";

fn query_of(alloc: Global, name: &str, query_type: RecordType) -> Option<Query> {
    Some(Query {
        name: Name::from_ascii(alloc, name).ok()?,
        query_type,
        query_class: DNSClass::IN,
    })
}

fn octets_of(alloc: Global, bytes: &[u8]) -> Option<Octets> {
    Octets::from_slice(alloc, bytes).ok()
}

fn message(alloc: Global, name: &str, query_type: RecordType, bytes: &[u8]) -> Option<SavedReply> {
    let query = query_of(alloc, name, query_type)?;
    let came = Came::Message(octets_of(alloc, bytes)?);
    Some(SavedReply { query, came })
}

fn fault(alloc: Global, query_type: RecordType, fault: ReplyFault) -> Option<SavedReply> {
    let query = query_of(alloc, "a", query_type)?;
    let came = Came::Fault(fault);
    Some(SavedReply { query, came })
}

fn root_anchor(alloc: Global) -> Option<Anchor> {
    Some(Anchor {
        owner: Name::root(alloc).ok()?,
        algorithm: 13,
        key: octets_of(alloc, b"\xaa\xbb")?,
    })
}

fn root_signature(alloc: Global) -> Option<AcceptedSignature> {
    Some(AcceptedSignature {
        algorithm: 13,
        key: octets_of(alloc, b"\xaa\xbb")?,
        bytes: octets_of(alloc, SIGNED)?,
        signature: octets_of(alloc, b"\xc0\xde")?,
    })
}

fn whole_replies(alloc: Global) -> Option<Vec<SavedReply>> {
    let mut replies = Vec::new(alloc);
    replies
        .push(message(alloc, ".", RecordType::NS, MESSAGE)?)
        .ok()?;
    replies
        .push(fault(alloc, RecordType::DNSKEY, ReplyFault::Timeout)?)
        .ok()?;
    replies
        .push(fault(alloc, RecordType::DS, ReplyFault::Io)?)
        .ok()?;
    replies
        .push(fault(alloc, RecordType::NS, ReplyFault::Busy)?)
        .ok()?;
    Some(replies)
}

fn whole(alloc: Global) -> Option<Vec<u8>> {
    let anchor = root_anchor(alloc)?;
    let accept = root_signature(alloc)?;
    let query = query_of(alloc, "WWW.a\\.b", RecordType(65280))?;
    let replies = whole_replies(alloc)?;
    let saved = SavedSession {
        moment: 1000,
        depth: Some(5),
        algorithms: &[8, 13],
        anchors: std::slice::from_ref(&anchor),
        accepts: std::slice::from_ref(&accept),
        query: &query,
        replies: &replies,
    };
    write_session(alloc, &saved).ok()
}

fn without_trust(
    alloc: Global,
    moment: u64,
    depth: Option<u16>,
    algorithms: &[u8],
    replies: &[SavedReply],
) -> Option<Vec<u8>> {
    let query = query_of(alloc, ".", RecordType::A)?;
    let saved = SavedSession {
        moment,
        depth,
        algorithms,
        anchors: &[],
        accepts: &[],
        query: &query,
        replies,
    };
    write_session(alloc, &saved).ok()
}

fn no_messages(alloc: Global) -> Option<Vec<u8>> {
    let mut replies = Vec::new(alloc);
    replies
        .push(message(alloc, ".", RecordType::A, b"\x00\xff")?)
        .ok()?;
    replies.push(message(alloc, ".", RecordType::A, b"")?).ok()?;
    without_trust(alloc, 0, Some(0), &[255], &replies)
}

fn is_text(text: Option<Vec<u8>>, expected: &[u8]) -> bool {
    match text {
        Some(text) => *text.as_slice() == *expected,
        None => false,
    }
}

#[test]
fn sessions_have_the_lines_of_their_format(rt: HostRuntime) {
    let alloc = rt.alloc();
    assert!(rt; is_text(whole(alloc), WHOLE), "all kinds of lines");
    let bare = without_trust(alloc, u64::MAX, None, &[], &[]);
    assert!(rt; is_text(bare, BARE), "no line that may be missing");
    assert!(rt;
        is_text(no_messages(alloc), NO_MESSAGES),
        "bytes that are no message"
    );
}

// Whether a reply is a message of this code.
fn has_code(reply: &SessionReply, code: u16) -> bool {
    match &reply.kind {
        ReplyKind::Message(Ok(message)) => message.response_code.0 == code,
        _ => false,
    }
}

// Whether what was read of the text is what it was written for.
fn is_whole(session: &Session) -> bool {
    session.by_turn
        && session.moment == 1000
        && session.depth == Some(5)
        && session.replies.len() == 4
        && has_code(&session.replies[0], 2)
        && matches!(
            &session.replies[1].kind,
            ReplyKind::Fault(ReplyFault::Timeout)
        )
        && matches!(&session.replies[3].kind, ReplyKind::Fault(ReplyFault::Busy))
}

fn is_read_back(alloc: Global) -> bool {
    let Some(text) = whole(alloc) else {
        return false;
    };
    if text.len() > 16_777_216 {
        return false;
    }
    match read_session(alloc, &text) {
        Ok(session) => is_whole(&session),
        Err(_) => false,
    }
}

#[test]
fn a_written_session_is_read_back(rt: HostRuntime) {
    assert!(rt; is_read_back(rt.alloc()), "a session with all its lines");
}

fn thousand_replies(alloc: Global) -> Option<Vec<SavedReply>> {
    let mut replies = Vec::new(alloc);
    for _ in 0..1000 {
        replies
            .push(fault(alloc, RecordType::A, ReplyFault::Timeout)?)
            .ok()?;
    }
    Some(replies)
}

// Whether so many replies make a text of this length.
fn has_length(alloc: Global, length: usize) -> bool {
    let Some(replies) = thousand_replies(alloc) else {
        return false;
    };
    match without_trust(alloc, 0, None, &[], &replies) {
        Some(text) => text.len() == length,
        None => false,
    }
}

#[test]
fn a_thousand_replies_are_written(rt: HostRuntime) {
    // 48 bytes for the lines beside them, and 19 for each.
    assert!(rt; has_length(rt.alloc(), 19_048), "the length of all lines");
}
