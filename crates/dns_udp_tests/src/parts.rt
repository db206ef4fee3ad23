//! What the tests share: the server, a request, and its response.
ghost use Rattle.std.specs.Prelude.{◌≡◌, true};

use dns_handle::{DnsRequest, DnsRequestOptions};
use dns_message::Message;
use dns_multiplexer::ListDraws;
use dns_record::Query;
use std::alloc::Global;
use std::net::{IpAddr, Ipv4Addr, SocketAddr};
use std::process::Abort;

/// A request of id 1 that asks for addresses of `a.`.
pub(crate) const ASKED: &[u8] =
    b"\x00\x01\x01\x00\x00\x01\x00\x00\x00\x00\x00\x00\x01a\x00\x00\x01\x00\x01";

/// A response to it.
pub(crate) const ANSWER: &[u8] =
    b"\x00\x01\x81\x80\x00\x01\x00\x00\x00\x00\x00\x00\x01a\x00\x00\x01\x00\x01";

/// What was tried held; the message names it.
pub(crate) fn check(rt: &impl Abort, what: &str, held: bool)
    ensures { held ≡ true }
{
    assert!(rt; held, "{what}");
}

/// The server of all tests in memory.
pub(crate) fn server() -> SocketAddr {
    SocketAddr::new(IpAddr::V4(Ipv4Addr::new(127, 0, 0, 1)), 53)
}

/// The request of these bytes, of which there are few, in place of an original question.
pub(crate) fn request_of(
    rt: &impl Abort,
    alloc: Global,
    bytes: &[u8],
    original: Option<Query>,
) -> DnsRequest {
    check(rt, "a short message", bytes.len() <= 512);
    DnsRequest {
        message: Message::from_vec(alloc, bytes).expect(rt, "a message"),
        options: DnsRequestOptions::default(),
        original,
    }
}

/// Draws each id of a list, and then 0; of ports 1024 alone.
pub(crate) fn draws_of(rt: &impl Abort, alloc: Global, ids: &[u16]) -> ListDraws {
    let ids = Vec::from_slice(alloc, ids).expect(rt, "memory");
    ListDraws::new(ids, Vec::new(alloc))
}
