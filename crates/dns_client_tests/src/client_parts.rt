//! What tests of clients share: a client over a connection in memory, and what it has sent.
ghost use Rattle.std.specs.Prelude.{◌≢◌, [], All};

use crate::parts::are_digits;
use dns_client::Client;
use dns_link::PairLink;
use dns_multiplexer::ListDraws;
use dns_record::Octets;
use dns_tcp::{TcpExchange, TcpStream};
use std::alloc::Global;
use std::net::{IpAddr, Ipv4Addr, SocketAddr};
use std::process::Abort;

/// A client over a link in memory, each request of which has id 0.
pub(crate) type MemoryClient = Client<TcpExchange<PairLink, ListDraws>>;

/// The frame of a response of id 0 without a question (RFC 1035, 4.1.1 and 4.2.2).
pub(crate) const RESPONSE: &[u8] = b"\0\x0c\0\0\x80\0\0\0\0\0\0\0\0\0";

/// The server of each link.
pub(crate) fn server() -> SocketAddr {
    SocketAddr::new(IpAddr::V4(Ipv4Addr::new(127, 0, 0, 1)), 53)
}

/// A frame as the only piece, if it has a byte.
fn pieces_of(rt: &impl Abort, alloc: Global, frame: &[u8]) -> Vec<Octets>
    ensures { All (λ piece. piece ≢ []) result.items }
{
    let mut pieces = Vec::new(alloc);
    if !frame.is_empty() {
        let piece = Octets::from_slice(alloc, frame).expect(rt, "memory");
        pieces.push(piece).expect(rt, "memory");
    }
    pieces
}

/// A client over a link that gives this frame and takes 2,048 bytes.
pub(crate) fn client_over(rt: &impl Abort, alloc: Global, frame: &[u8]) -> MemoryClient {
    let pieces = pieces_of(rt, alloc, frame);
    let link = PairLink::new(alloc, pieces, 2048, Vec::new(alloc)).expect(rt, "memory");
    let (stream, _) = TcpStream::from_stream(alloc, link, server());
    let draws = ListDraws::new(Vec::new(alloc), Vec::new(alloc));
    Client::new(alloc, stream, draws)
        .ok()
        .expect(rt, "a client")
}

/// Whether a client has sent one message, in a frame, which is these digits.
pub(crate) fn has_sent(rt: &impl Abort, alloc: Global, client: MemoryClient, digits: &str) -> bool {
    let link = client.into_sender().into_link();
    let [high, low, message @ ..] = link.taken() else {
        return false;
    };
    let length = u16::from_be_bytes([*high, *low]) as usize;
    length == message.len() && are_digits(rt, alloc, message, digits)
}
