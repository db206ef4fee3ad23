//! Holders of connections in memory.
ghost use Rattle.std.specs.Prelude.{◌≡◌, ◌≤◌, ◌<◌};
ghost use Rattle.dns_shared_upstream.specs.Upstreams.{parts_of};

use crate::heard::{Heard, heard_reply};
use crate::parts::{query, server};
use dns_handle::DnsHandle;
use dns_link::Link;
use dns_multiplexer::{BufDnsStreamHandle, DnsMultiplexer, Draws};
use dns_shared_exchange::{CallerToken, DnsExchange};
use dns_shared_upstream::SharedUpstream;
use dns_tcp::TcpStream;
use std::alloc::Global;
use std::process::Abort;
use std::sync::Wait;
use std::sync::ledger::{Blank, Ledger};

/// An exchange with its first token.
pub(crate) fn exchange_of<W: Abort + Wait, R: Draws + Drop>(
    rt: &W,
    alloc: Global,
    draws: R,
) -> (DnsExchange<R>, CallerToken)
    ensures { result.1.line ≡ result.0 }
{
    let (handle, queue) = BufDnsStreamHandle::new(alloc, server());
    let mux = DnsMultiplexer::new(alloc, server(), handle, queue, draws);
    DnsExchange::from_stream(rt, alloc, mux).expect(rt, "memory")
}

/// The first holder of a link.
pub(crate) fn holder_over<W: Abort + Wait + Copy, G: Ledger, L: Link + Drop, R: Draws + Drop>(
    rt: W,
    alloc: Global,
    exchange: DnsExchange<R>,
    token: CallerToken,
    link: L,
    blank: Blank,
) -> SharedUpstream<L, R, G, W>
    requires token { token.line ≡ exchange }
    requires name { blank.name ≡ G.name }
    requires parts { blank.parts ≡ G.parts }
    requires some { 0 < G.parts }
    ensures { parts_of result ≡ G.parts }
{
    let (stream, handle) = TcpStream::from_stream(alloc, link, server());
    let made = SharedUpstream::new(rt, alloc, exchange, token, stream, handle, blank);
    made.expect(&rt, "memory")
}

/// What a holder answers a query.
pub(crate) fn asked<L: Link + Drop, R: Draws + Drop, G: Ledger, W: Wait + Copy>(
    alloc: Global,
    holder: &mut SharedUpstream<L, R, G, W>,
) -> Heard {
    let reply = holder.send(alloc, query(alloc), 1000);
    heard_reply(&reply)
}
