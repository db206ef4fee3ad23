ghost use Rattle.std.specs.Prelude.{◌≢◌, [], All};

use crate::heard::{Heard, heard_made};
use crate::parts::{check, server};
use dns_link::{Link, PairLink};
use dns_multiplexer::{BufDnsStreamHandle, SerialMessage};
use dns_record::Octets;
use dns_tcp::TcpStream;
use std::alloc::Global;
use std::net::SocketAddr;
use std::process::Abort;

/// Puts bytes behind other pieces as one of their own, if there are any.
fn push_piece(rt: &impl Abort, alloc: Global, pieces: &mut Vec<Octets>, bytes: &[u8])
    requires { All (λ piece. piece ≢ []) pieces.old.items }
    ensures { All (λ piece. piece ≢ []) pieces.new.items }
{
    if !bytes.is_empty() {
        let piece = Octets::from_slice(alloc, bytes).expect(rt, "memory");
        pieces.push(piece).expect(rt, "memory");
    }
}

/// Bytes as pieces; those without a byte are left out.
pub(crate) fn pieces_of(rt: &impl Abort, alloc: Global, parts: &[&[u8]]) -> Vec<Octets>
    ensures { All (λ piece. piece ≢ []) result.items }
{
    let mut pieces = Vec::new(alloc);
    for part in parts {
        push_piece(rt, alloc, &mut pieces, part);
    }
    pieces
}

/// Bytes as pieces of one byte each.
pub(crate) fn single_bytes(rt: &impl Abort, alloc: Global, bytes: &[u8]) -> Vec<Octets>
    ensures { All (λ piece. piece ≢ []) result.items }
{
    let mut pieces = Vec::new(alloc);
    for byte in bytes {
        push_piece(rt, alloc, &mut pieces, &[*byte]);
    }
    pieces
}

/// A link in memory that gives these pieces and takes a hundred bytes.
pub(crate) fn link_of(rt: &impl Abort, alloc: Global, parts: &[&[u8]]) -> PairLink {
    let pieces = pieces_of(rt, alloc, parts);
    PairLink::new(alloc, pieces, 100, Vec::new(alloc)).expect(rt, "memory")
}

/// A stream over a link to the server.
pub(crate) fn stream_over<L: Link + Drop>(alloc: Global, link: L) -> TcpStream<L> {
    let (stream, _) = TcpStream::from_stream(alloc, link, server());
    stream
}

/// A message of these bytes for the server, of which there is one at least.
pub(crate) fn message_of(rt: &impl Abort, alloc: Global, bytes: &[u8]) -> SerialMessage
    ensures { result.bytes ≢ [] }
{
    check(rt, "a message has a byte", !bytes.is_empty());
    SerialMessage {
        bytes: Octets::from_slice(alloc, bytes).expect(rt, "memory"),
        addr: server(),
    }
}

/// Puts a message of these bytes into a stream's queue by a handle, and tells whether it took it.
pub(crate) fn put_by<L: Link + Drop>(
    rt: &impl Abort,
    alloc: Global,
    stream: &mut TcpStream<L>,
    handle: &mut BufDnsStreamHandle,
    bytes: &[u8],
) -> bool {
    let put = stream.enqueue(handle, message_of(rt, alloc, bytes));
    heard_made(&put) == Heard::Made
}

/// Puts it there by a handle of the usual size to an address, and it is taken.
pub(crate) fn put<L: Link + Drop>(
    rt: &impl Abort,
    alloc: Global,
    stream: &mut TcpStream<L>,
    addr: SocketAddr,
    bytes: &[u8],
) {
    let (mut handle, _) = BufDnsStreamHandle::new(alloc, addr);
    check(
        rt,
        "a message is taken",
        put_by(rt, alloc, stream, &mut handle, bytes),
    );
}

/// What follows the length in a frame.
pub(crate) fn behind(frame: &[u8]) -> &[u8] {
    match frame {
        [_, _, message @ ..] => message,
        _ => frame,
    }
}
