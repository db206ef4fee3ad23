//! Lookups over a server of the root, in memory. `tools/run_asks` asks servers of a machine by the program.
ghost use Rattle.std.specs.Prelude.{◌≢◌, [], Ok, All};
ghost use Rattle.dns_link.specs.Listed.{IsNewLink};

use crate::rows::check_row;
use dns_asking::{AskEnd, Inquiry, ServerAddress, ask_server};
use dns_evidence::Listed;
use dns_handle::{DnsResponse, IoKind, NetError, Protocol};
use dns_link::{ListDialer, PairLink};
use dns_model::Proof;
use dns_multiplexer::ListDraws;
use dns_record::{DNSClass, Name, Octets, Query, RecordType};
use dns_trust::TrustAnchors;
use std::alloc::Global;
use std::process::Abort;

/// The public key of the root.
const PUBLIC_KEY: &[u8] = b"\xaa\xbb";

/// The bytes that its signature is over.
const SIGNED: &[u8] = b"\0\x02\x0d\0\0\0\x0e\x10\0\0\x07\xd0\0\0\x03\x84\xae\xc9\0\
    \0\0\x02\0\x01\0\0\x0e\x10\0\x03\x01a\0";

/// The frames of the replies: the name servers with their signature, and the key. Both have the id 0, which is what is drawn.
const FRAMES: &[u8] = b"\0\x3f\0\0\x84\0\0\x01\0\x02\0\0\0\0\0\0\x02\0\x01\
    \0\0\x02\0\x01\0\0\x0e\x10\0\x03\x01a\0\
    \0\0\x2e\0\x01\0\0\x0e\x10\0\x15\0\x02\x0d\0\0\0\x0e\x10\0\0\x07\xd0\0\0\x03\x84\xae\xc9\0\xc0\xde\
    \0\x22\0\0\x84\0\0\x01\0\x01\0\0\0\0\0\0\x30\0\x01\
    \0\0\x30\0\x01\0\0\x0e\x10\0\x06\x01\x01\x03\x0d\xaa\xbb";

/// How a lookup ends: the first answer has this mark, or the connection met a fault.
enum End {
    Marked(Proof),
    Fault(IoKind),
}

/// What is shown, the moment, the call of the link that fails, from 0, and the end.
struct Row(&'static str, u64, u64, End);

const ROWS: &[Row] = &[
    Row("no call fails", 1000, 7, End::Marked(Proof::Secure)),
    Row("no signature holds", 9000, 7, End::Marked(Proof::Bogus)),
    Row("the first send", 1000, 0, End::Fault(IoKind::Other)),
    Row("its answer", 1000, 1, End::Fault(IoKind::Other)),
    Row("more of it", 1000, 2, End::Fault(IoKind::Other)),
    // the keys aren't had
    Row("the second send", 1000, 3, End::Marked(Proof::Bogus)),
    Row("the keys", 1000, 4, End::Marked(Proof::Bogus)),
    Row("more of them", 1000, 5, End::Marked(Proof::Bogus)),
    Row("none that is made", 1000, 6, End::Marked(Proof::Secure)),
];

/// Bytes as one piece, if there are any.
fn piece_of(rt: &impl Abort, alloc: Global, bytes: &[u8]) -> Vec<Octets>
    ensures { All (λ piece. piece ≢ []) result.items }
{
    let mut pieces = Vec::new(alloc);
    if !bytes.is_empty() {
        let piece = Octets::from_slice(alloc, bytes).expect(rt, "memory");
        pieces.push(piece).expect(rt, "memory");
    }
    pieces
}

/// A link as the only one of a list.
fn only(rt: &impl Abort, alloc: Global, link: PairLink) -> Vec<Result<PairLink, IoKind>>
    requires { IsNewLink (Ok link) }
    ensures { All IsNewLink result.items }
{
    let mut links = Vec::new(alloc);
    links.push(Ok(link)).expect(rt, "memory");
    links
}

/// A dialer of one link, which gives the frames, takes a hundred bytes, and fails at this call.
fn dialer(rt: &impl Abort, alloc: Global, fails: u64) -> ListDialer {
    let pieces = piece_of(rt, alloc, FRAMES);
    let fails = Vec::from_slice(alloc, &[fails]).expect(rt, "memory");
    let link = PairLink::new(alloc, pieces, 100, fails).expect(rt, "memory");
    ListDialer::new(only(rt, alloc, link), Vec::new(alloc))
}

fn root(rt: &impl Abort, alloc: Global) -> Name {
    Name::root(alloc).expect(rt, "memory")
}

/// The root's key is trusted.
fn anchors(rt: &impl Abort, alloc: Global) -> TrustAnchors {
    let key = Octets::from_slice(alloc, PUBLIC_KEY).expect(rt, "memory");
    let mut anchors = TrustAnchors::empty(alloc);
    let trusted = anchors.insert_with_name(root(rt, alloc), 13, key);
    trusted.expect(rt, "memory");
    anchors
}

/// The root's signature alone is accepted.
fn verifier(rt: &impl Abort, alloc: Global) -> Listed {
    let mut listed = Listed::new(alloc);
    listed.support(13);
    let accepted = listed.accept(13, PUBLIC_KEY, SIGNED, b"\xc0\xde");
    accepted.expect(rt, "memory");
    listed
}

fn servers(rt: &impl Abort, alloc: Global) -> Query {
    Query {
        name: root(rt, alloc),
        query_type: RecordType::NS,
        query_class: DNSClass::IN,
    }
}

/// The root's name servers are asked for at a moment.
fn inquiry(rt: &impl Abort, alloc: Global, moment: u64) -> Inquiry<Listed> {
    Inquiry {
        query: servers(rt, alloc),
        depth: 26,
        anchors: anchors(rt, alloc),
        verifier: verifier(rt, alloc),
        moment,
    }
}

/// How the row's lookup ended.
fn asked(rt: &impl Abort, alloc: Global, row: &Row) -> AskEnd<ListDialer> {
    let server = ServerAddress::read(b"127.0.0.1:53").expect(rt, "an address");
    let inquiry = inquiry(rt, alloc, row.1);
    let dial = dialer(rt, alloc, row.2);
    let draws = ListDraws::new(Vec::new(alloc), Vec::new(alloc));
    ask_server(alloc, dial, draws, Protocol::Tcp, server, inquiry)
}

fn is_end(reply: &Result<DnsResponse, NetError>, end: &End) -> bool {
    match (reply, end) {
        (Ok(response), End::Marked(mark)) => match response.message.answers.first() {
            Some(record) => record.proof == *mark,
            None => false,
        },
        (Err(NetError::Io(kind)), End::Fault(fault)) => kind == fault,
        _ => false,
    }
}

#[test]
fn an_answer_is_validated_at_the_moment_and_a_fault_is_told(rt: HostRuntime) {
    for row in ROWS {
        let ended = asked(&rt, rt.alloc(), row);
        check_row(&rt, row.0, is_end(&ended.reply, &row.3));
    }
}
