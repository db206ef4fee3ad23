//! What the tests share: the server, requests, and responses.
ghost use Rattle.std.specs.Prelude.{◌≡◌, true};

use dns_handle::{DnsRequest, DnsRequestOptions};
use dns_message::Message;
use dns_multiplexer::ListDraws;
use std::alloc::Global;
use std::net::{IpAddr, Ipv4Addr, SocketAddr};
use std::process::Abort;

/// What was tried held; the message names it.
pub(crate) fn check(rt: &impl Abort, what: &str, held: bool)
    ensures { held ≡ true }
{
    assert!(rt; held, "{what}");
}

/// The server of all tests in memory.
pub(crate) fn server() -> SocketAddr {
    SocketAddr::new(IpAddr::V4(Ipv4Addr::new(127, 0, 0, 1)), 53)
}

/// A query without a question.
pub(crate) fn query(alloc: Global) -> DnsRequest {
    DnsRequest {
        message: Message::query(alloc),
        options: DnsRequestOptions::default(),
        original: None,
    }
}

/// A response without a question (RFC 1035, 4.1.1).
pub(crate) fn response_bytes(id: u16) -> [u8; 12] {
    let [high, low] = id.to_be_bytes();
    [high, low, 0x80, 0, 0, 0, 0, 0, 0, 0, 0, 0]
}

/// Draws each id of a list, and then 0; of ports 1024 alone.
pub(crate) fn draws_of(rt: &impl Abort, alloc: Global, ids: &[u16]) -> ListDraws {
    let ids = Vec::from_slice(alloc, ids).expect(rt, "memory");
    ListDraws::new(ids, Vec::new(alloc))
}
