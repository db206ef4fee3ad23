//! Writing all that waits.
ghost use Rattle.std.specs.Prelude.{◌≡◌};
ghost use Rattle.dns_multiplexer.specs.Multiplexers.{machine_of, draws_of};
ghost use Rattle.dns_tcp.specs.Links.{link_view};
ghost use Rattle.dns_tcp.specs.StreamViews.{link_of, state_of};
ghost use Rattle.dns_tcp.specs.Steps.{DrainsAll, IsPopped, WritesMessage, WritesOut};
ghost use Rattle.dns_tcp.specs.Writes.{IsIdle};

use crate::TcpStream;
use dns_handle::NetError;
use dns_link::Link;
use dns_multiplexer::{BufDnsStreamHandle, DnsMultiplexer, Draws, SerialMessage};
use std::alloc::Global;

/// Writes all that waits in a stream's queue.
fn drain_all<L: Link + Drop>(stream: &mut TcpStream<L>) -> Result<(), NetError>
    ensures { DrainsAll (link_view L.counts L.given L.left L.taken L.calls) (link_of stream.old) (link_of stream.new)
        (state_of stream.old) (state_of stream.new) result }
{
    'write: loop {
        if stream.drain()? {
            return Ok(());
        }
    }
}

/// Writes a message to the other side; one without a byte is none.
fn write_message<L: Link + Drop>(
    stream: &mut TcpStream<L>,
    handle: &mut BufDnsStreamHandle,
    message: SerialMessage,
) -> Result<(), NetError>
    requires idle { IsIdle (state_of stream.old) }
    requires peer { handle.old.addr ≡ (state_of stream.old).peer }
    ensures written { WritesMessage (link_view L.counts L.given L.left L.taken L.calls) (link_of stream.old) (link_of stream.new)
        (state_of stream.old) (state_of stream.new) message.bytes result }
    ensures handle { handle.new ≡ handle.old }
{
    if message.bytes.is_empty() {
        return Ok(());
    }
    stream.enqueue(handle, message)?;
    drain_all(stream)
}

/// Writes all that waits in a stream's queue, and then what the multiplexer has to send, a message at a time.
pub(crate) fn write_out<L: Link + Drop, R: Draws + Drop>(
    alloc: Global,
    stream: &mut TcpStream<L>,
    multiplexer: &mut DnsMultiplexer<R>,
) -> Result<(), NetError>
    ensures written { WritesOut (link_view L.counts L.given L.left L.taken L.calls) (link_of stream.old) (link_of stream.new)
        (state_of stream.old) (state_of stream.new)
        (machine_of multiplexer.old).state.outbound (machine_of multiplexer.new).state.outbound result }
    ensures popped { IsPopped (machine_of multiplexer.old) (machine_of multiplexer.new) }
    ensures draws { draws_of multiplexer.new ≡ draws_of multiplexer.old }
{
    drain_all(stream)?;
    let (mut handle, _) = BufDnsStreamHandle::new(alloc, stream.peer_addr());
    'message: while let Some(message) = multiplexer.pop_outbound() {
        write_message(stream, &mut handle, message)?;
    }
    Ok(())
}
