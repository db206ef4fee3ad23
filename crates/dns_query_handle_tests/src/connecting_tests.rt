//! A connection for each request, in memory (RFC 1035, 4.2.2).
ghost use Rattle.std.specs.Prelude.{◌≢◌, [], Ok, All};
ghost use Rattle.dns_link.specs.Listed.{IsNewLink};

use crate::replies::request;
use dns_handle::{DnsHandle, IoKind, NetError};
use dns_link::{ListDialer, PairLink};
use dns_multiplexer::ListDraws;
use dns_query_handle::ConnectingHandle;
use dns_record::Octets;
use std::alloc::Global;
use std::net::{IpAddr, Ipv4Addr, SocketAddr};
use std::process::Abort;

/// The frame of a truncated response under the id 0, which is what is drawn.
const FRAME: &[u8] = b"\0\x0c\0\0\x83\x80\0\0\0\0\0\0\0\0";

/// Bytes as one piece, if there are any.
fn piece_of(rt: &impl Abort, alloc: Global, bytes: &[u8]) -> Vec<Octets>
    ensures { All (λ piece. piece ≢ []) result.items }
{
    let mut pieces = Vec::new(alloc);
    if !bytes.is_empty() {
        let piece = Octets::from_slice(alloc, bytes).expect(rt, "memory");
        pieces.push(piece).expect(rt, "memory");
    }
    pieces
}

/// A link as the only one of a list.
fn only(rt: &impl Abort, alloc: Global, link: PairLink) -> Vec<Result<PairLink, IoKind>>
    requires { IsNewLink (Ok link) }
    ensures { All IsNewLink result.items }
{
    let mut links = Vec::new(alloc);
    links.push(Ok(link)).expect(rt, "memory");
    links
}

/// A dialer of one link, which gives the frame.
fn dialer(rt: &impl Abort, alloc: Global) -> ListDialer {
    let pieces = piece_of(rt, alloc, FRAME);
    let link = PairLink::new(alloc, pieces, 100, Vec::new(alloc)).expect(rt, "memory");
    ListDialer::new(only(rt, alloc, link), Vec::new(alloc))
}

/// The first request has a connection, and for the second there is none.
#[test]
fn each_request_has_a_connection_of_its_own(rt: HostRuntime) {
    let alloc = rt.alloc();
    let server = SocketAddr::new(IpAddr::V4(Ipv4Addr::LOCALHOST), 53);
    let draws = ListDraws::new(Vec::new(alloc), Vec::new(alloc));
    let mut handle = ConnectingHandle::new(dialer(&rt, alloc), draws, server, 5000);
    let first = handle.send(alloc, request(&rt, alloc, "a."), 0);
    assert!(rt; matches!(first, Ok(_)), "a response");
    let second = handle.send(alloc, request(&rt, alloc, "a."), 0);
    assert!(rt;
        matches!(second, Err(NetError::Io(IoKind::AddrNotAvailable))),
        "no link is left"
    );
}
