//! What the tests share: the server, requests, and what comes.
ghost use Rattle.std.specs.Prelude.{◌≡◌, ◌≢◌, [], true, All};

use dns_handle::{DnsRequest, DnsRequestOptions};
use dns_link::PairLink;
use dns_message::Message;
use dns_multiplexer::ListDraws;
use dns_record::Octets;
use std::alloc::Global;
use std::net::{IpAddr, Ipv4Addr, SocketAddr};
use std::process::Abort;

/// What was tried held; the message names it.
pub(crate) fn check(rt: &impl Abort, what: &str, held: bool)
    ensures { held ≡ true }
{
    assert!(rt; held, "{what}");
}

/// The server of all tests in memory.
pub(crate) fn server() -> SocketAddr {
    SocketAddr::new(IpAddr::V4(Ipv4Addr::new(127, 0, 0, 1)), 53)
}

/// A query without a question.
pub(crate) fn query(alloc: Global) -> DnsRequest {
    DnsRequest {
        message: Message::query(alloc),
        options: DnsRequestOptions::default(),
        original: None,
    }
}

/// A response without a question (RFC 1035, 4.1.1).
pub(crate) fn response_bytes(id: u16) -> [u8; 12] {
    let [high, low] = id.to_be_bytes();
    [high, low, 0x80, 0, 0, 0, 0, 0, 0, 0, 0, 0]
}

/// Draws each id of a list, and then 0; of ports 1024 alone.
pub(crate) fn draws_of(rt: &impl Abort, alloc: Global, ids: &[u16]) -> ListDraws {
    let ids = Vec::from_slice(alloc, ids).expect(rt, "memory");
    ListDraws::new(ids, Vec::new(alloc))
}

// The frames of responses without a question, each id so often (RFC 1035, 4.2.2).
fn frames_of(rt: &impl Abort, alloc: Global, come: &[(u16, u32)]) -> Vec<u8> {
    let mut bytes = Vec::new(alloc);
    for some in come {
        for _ in 0..some.1 {
            bytes.extend_from_slice(&[0, 12]).expect(rt, "memory");
            bytes
                .extend_from_slice(&response_bytes(some.0))
                .expect(rt, "memory");
        }
    }
    bytes
}

// Bytes as one piece, if there are any.
fn piece_of(rt: &impl Abort, alloc: Global, bytes: &[u8]) -> Vec<Octets>
    ensures { All (λ piece. piece ≢ []) result.items }
{
    let mut pieces = Vec::new(alloc);
    if !bytes.is_empty() {
        let piece = Octets::from_slice(alloc, bytes).expect(rt, "memory");
        pieces.push(piece).expect(rt, "memory");
    }
    pieces
}

/// A link that gives the frames of responses, each id so often, and takes a thousand bytes.
pub(crate) fn link_of(rt: &impl Abort, alloc: Global, come: &[(u16, u32)]) -> PairLink {
    let bytes = frames_of(rt, alloc, come);
    let pieces = piece_of(rt, alloc, &bytes);
    PairLink::new(alloc, pieces, 1000, Vec::new(alloc)).expect(rt, "memory")
}
