//! The connection to a server.
ghost use Rattle.std.specs.Prelude.{◌≡◌, None};
ghost use Rattle.dns_tcp.specs.Dialing.{IsDialed, dial_to};
ghost use Rattle.dns_tcp.specs.StreamViews.{state_of};
ghost use Rattle.dns_forward_run.specs.Forwards.{connection_timeout};

use dns_handle::NetError;
use dns_link::{Dialer, Link};
use dns_multiplexer::BufDnsStreamHandle;
use dns_tcp::TcpStream;
use std::alloc::Global;
use std::net::SocketAddr;

/// Connecting, and each read and write of the connection, waits for so many milliseconds at most.
const CONNECTION_TIMEOUT: u64 = 5000;

/// A stream to a server, and a handle that puts messages for the server into its queue.
#[derive(Drop)]
pub(crate) struct Connection<L: Link + Drop> {
    pub(crate) stream: TcpStream<L>,
    pub(crate) handle: BufDnsStreamHandle,
    ghost addressed: { handle.addr ≡ (state_of stream).peer },
}

/// Connects to a server.
pub(crate) fn connect<D: Dialer>(
    alloc: Global,
    dial: &mut D,
    upstream: SocketAddr,
) -> Result<Connection<D::Link>, NetError>
    ensures { IsDialed D.counts D.calls (dial_to upstream None connection_timeout) dial.old dial.new result }
{
    let (stream, handle) = TcpStream::with_future(alloc, dial, upstream, CONNECTION_TIMEOUT)?;
    Ok(Connection { stream, handle })
}
