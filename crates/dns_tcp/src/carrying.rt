//! A request over a connection, from the first write to its answer.
ghost use Rattle.std.specs.Prelude.{◌≡◌};
ghost use Rattle.dns_handle.specs.Replies.{reply_of};
ghost use Rattle.dns_tcp.specs.Links.{link_view};
ghost use Rattle.dns_tcp.specs.StreamViews.{link_of, state_of};
ghost use Rattle.dns_multiplexer.specs.Multiplexers.{machine_of, draws_of};
ghost use Rattle.dns_tcp.specs.Steps.{Carries, IsEnded, IsGoingOn, Receives};
ghost use Rattle.dns_tcp.specs.ExchangeParts.{parts_in};
ghost use Rattle.dns_tcp.specs.Exchanges.{Exchanged, NoneRevived};

use crate::TcpStream;
use crate::messages::next_message;
use crate::offering::offer;
use crate::writing::write_out;
use dns_handle::{DnsRequest, DnsResponse, IoKind, NetError};
use dns_link::Link;
use dns_multiplexer::{DnsMultiplexer, DnsRequestSender, Draws, RequestId};
use std::alloc::Global;

/// So many messages are waited for.
const MOST_MESSAGES: u32 = 1024;

/// The answer of a request among so many messages. Each message that isn't it is freed before the next one is read.
fn receive<L: Link + Drop, R: Draws + Drop>(
    alloc: Global,
    stream: &mut TcpStream<L>,
    multiplexer: &mut DnsMultiplexer<R>,
    number: RequestId,
    most: u32,
) -> Result<DnsResponse, NetError>
    ensures received { Receives (link_view L.counts L.given L.left L.taken L.calls) (link_of stream.old) (link_of stream.new)
        (state_of stream.old) (state_of stream.new) (machine_of multiplexer.old) (machine_of multiplexer.new)
        number.0 most (reply_of result) }
    ensures going { IsGoingOn (machine_of multiplexer.old) (machine_of multiplexer.new) }
    ensures ended { IsEnded (machine_of multiplexer.old) (machine_of multiplexer.new) }
    ensures draws { draws_of multiplexer.new ≡ draws_of multiplexer.old }
{
    let mut left = most;
    'message: while left > 0 {
        left -= 1;
        let Some(message) = next_message(stream)? else {
            multiplexer.close(IoKind::UnexpectedEof);
            return Err(NetError::Io(IoKind::UnexpectedEof));
        };
        if let Some(reply) = offer(alloc, multiplexer, number, message.as_slice())? {
            return reply;
        }
    }
    Err(NetError::Timeout)
}

/// Writes what is to be sent, and waits for the answer of a request.
fn carry<L: Link + Drop, R: Draws + Drop>(
    alloc: Global,
    stream: &mut TcpStream<L>,
    multiplexer: &mut DnsMultiplexer<R>,
    number: RequestId,
) -> Result<DnsResponse, NetError>
    ensures carried { Carries (link_view L.counts L.given L.left L.taken L.calls) (link_of stream.old) (link_of stream.new)
        (state_of stream.old) (state_of stream.new) (machine_of multiplexer.old) (machine_of multiplexer.new)
        number.0 (reply_of result) }
    ensures settings { (machine_of multiplexer.new).settings ≡ (machine_of multiplexer.old).settings }
    ensures lives { NoneRevived (machine_of multiplexer.old).state (machine_of multiplexer.new).state }
    ensures draws { draws_of multiplexer.new ≡ draws_of multiplexer.old }
{
    write_out(alloc, stream, multiplexer)?;
    receive(alloc, stream, multiplexer, number, MOST_MESSAGES)
}

/// Sends a request at a moment, in milliseconds, and waits for its answer. After it the request is live no more.
pub(crate) fn exchange<L: Link + Drop, R: Draws + Drop>(
    alloc: Global,
    stream: &mut TcpStream<L>,
    multiplexer: &mut DnsMultiplexer<R>,
    request: &DnsRequest,
    now_ms: u64,
) -> Result<DnsResponse, NetError>
    ensures { Exchanged (link_view L.counts L.given L.left L.taken L.calls) R.draws_id
        (parts_in stream.old multiplexer.old) (parts_in stream.new multiplexer.new) request.now now_ms (reply_of result) }
{
    if multiplexer.is_shutdown() {
        return Err(NetError::NoConnections);
    }
    let number = multiplexer.send_message(alloc, request, now_ms)?;
    let reply = carry(alloc, stream, multiplexer, number);
    multiplexer.cancel(number);
    reply
}
