//! What the tests share.
ghost use Rattle.std.specs.Prelude.{◌≡◌, ◌≢◌, [], true, All};

use dns_handle::IoKind;
use dns_link::PairLink;
use dns_ports::{Port, PortFault};
use dns_record::Octets;
use std::alloc::Global;
use std::net::{IpAddr, Ipv4Addr, SocketAddr};
use std::process::Abort;

/// What was tried held; the message names it.
pub(crate) fn check(rt: &impl Abort, what: &str, held: bool)
    ensures { held ≡ true }
{
    assert!(rt; held, "{what}");
}

/// A client of this machine at a port.
pub(crate) fn client(port: u16) -> SocketAddr {
    SocketAddr::new(IpAddr::V4(Ipv4Addr::new(127, 0, 0, 1)), port)
}

/// What a port gave.
#[derive(Clone, Copy, PartialEq)]
pub(crate) enum Given {
    /// A request of so many bytes, whose first is this.
    Request(usize, u8),
    Nothing,
    Fault(IoKind),
    NoMemory,
}

/// The next thing that a port gives.
pub(crate) fn next<P: Port>(port: &mut P) -> Given {
    match port.receive() {
        Ok(Some(request)) => {
            let bytes = request.as_slice();
            Given::Request(bytes.len(), bytes.first().copied().unwrap_or(0))
        }
        Ok(None) => Given::Nothing,
        Err(PortFault::Io(kind)) => Given::Fault(kind),
        Err(PortFault::NoMemory) => Given::NoMemory,
    }
}

// Puts bytes behind other pieces as one of their own, if there are any.
fn push_piece(rt: &impl Abort, alloc: Global, pieces: &mut Vec<Octets>, bytes: &[u8])
    requires { All (λ piece. piece ≢ []) pieces.old.items }
    ensures { All (λ piece. piece ≢ []) pieces.new.items }
{
    if !bytes.is_empty() {
        let piece = Octets::from_slice(alloc, bytes).expect(rt, "memory");
        pieces.push(piece).expect(rt, "memory");
    }
}

/// A link that gives two parts of some bytes, each in a piece of its own, takes a hundred bytes, and of whose calls some fail.
pub(crate) fn link_of(
    rt: &impl Abort,
    alloc: Global,
    first: &[u8],
    rest: &[u8],
    fails: &[u64],
) -> PairLink {
    let mut pieces = Vec::new(alloc);
    push_piece(rt, alloc, &mut pieces, first);
    push_piece(rt, alloc, &mut pieces, rest);
    let fails = Vec::from_slice(alloc, fails).expect(rt, "memory");
    PairLink::new(alloc, pieces, 100, fails).expect(rt, "memory")
}
