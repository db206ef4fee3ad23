//! Four holders of one connection.
ghost use Rattle.std.specs.Prelude.{◌≡◌, ◌+◌, ◌≤◌, IfOk};
ghost use Rattle.dns_shared_upstream.specs.Upstreams.{parts_of};

use crate::asking::ask_all;
use crate::counts::sum;
use dns_handle::{DnsHandle, NetError};
use dns_link::{Dialer, Link, SocketDialer};
use dns_multiplexer::{BufDnsStreamHandle, DnsMultiplexer, Draws, RandDraws};
use dns_shared_exchange::DnsExchange;
use dns_shared_upstream::SharedUpstream;
use dns_tcp::TcpStream;
use std::alloc::Global;
use std::marker::Brand;
use std::net::SocketAddr;
use std::sync::Wait;
use std::sync::ledger::{Blank, Ledger};
use std::thread;
use std::thread::Threads;

/// So many holders share a connection.
pub(crate) const HOLDERS: usize = 4;

// The first holder of a link.
fn holder_over<W: Wait + Copy, G: Ledger, L: Link + Drop>(
    rt: W,
    alloc: Global,
    link: L,
    server: SocketAddr,
    blank: Blank,
) -> Result<SharedUpstream<L, RandDraws, G, W>, NetError>
    requires name { blank.name ≡ G.name }
    requires parts { blank.parts ≡ G.parts }
    requires four { G.parts ≡ 4 }
    ensures { IfOk result (λ holder. parts_of holder ≡ 4) }
{
    let (sender, queue) = BufDnsStreamHandle::new(alloc, server);
    let draws = RandDraws::from_seed(1);
    let mux = DnsMultiplexer::new(alloc, server, sender, queue, draws);
    let (exchange, token) = DnsExchange::from_stream(&rt, alloc, mux)?;
    let (stream, handle) = TcpStream::from_stream(alloc, link, server);
    Ok(SharedUpstream::new(rt, alloc, exchange, token, stream, handle, blank)?)
}

// A holder, and another one beside it.
fn beside<W: Wait + Copy, G: Ledger, L: Link + Drop>(
    holder: SharedUpstream<L, RandDraws, G, W>,
) -> Result<
    (
        SharedUpstream<L, RandDraws, G, W>,
        SharedUpstream<L, RandDraws, G, W>,
    ),
    NetError,
>
    requires { 2 ≤ parts_of holder }
    ensures { IfOk result (λ both. parts_of both.0 + 1 ≡ parts_of holder) }
{
    match holder.split() {
        Ok(both) => Ok(both),
        Err(_) => Err(NetError::NoMemory),
    }
}

// Four holders of a link.
fn holders_over<W: Wait + Copy, G: Ledger, L: Link + Drop>(
    rt: W,
    alloc: Global,
    link: L,
    server: SocketAddr,
    blank: Blank,
) -> Result<Vec<SharedUpstream<L, RandDraws, G, W>>, NetError>
    requires name { blank.name ≡ G.name }
    requires parts { blank.parts ≡ G.parts }
    requires four { G.parts ≡ 4 }
{
    let mut holders = Vec::new(alloc);
    let first = holder_over::<W, G, L>(rt, alloc, link, server, blank)?;
    let (first, second) = beside(first)?;
    holders.push(second)?;
    let (first, third) = beside(first)?;
    holders.push(third)?;
    let (first, fourth) = beside(first)?;
    holders.push(fourth)?;
    holders.push(first)?;
    Ok(holders)
}

// How many of so many requests of a holder are answered.
fn answered_by<H: DnsHandle + Drop>(alloc: Global, mut holder: H, count: u32) -> u64 {
    ask_all(alloc, &mut holder, count)
}

// How many requests of four holders are answered, so many of each.
fn all_answered<T: Threads + Wait + Copy + Send + Sync, G: Ledger + Send + Sync>(
    rt: &HostRuntime,
    threads: T,
    alloc: Global,
    server: SocketAddr,
    count: u32,
    blank: Blank,
) -> Result<u64, NetError>
    requires name { blank.name ≡ G.name }
    requires parts { blank.parts ≡ G.parts }
    requires four { G.parts ≡ 4 }
{
    let link = SocketDialer::new(rt).connect(server, None, 5000)?;
    let holders = holders_over::<T, G, _>(threads, alloc, link, server, blank)?;
    let counts = thread::map_vec(
        &threads,
        holders,
        &|holder| { answered_by(alloc, holder, count) },
    )?;
    Ok(sum(&counts))
}

/// How many requests of four holders of one connection are answered, so many of each.
pub(crate) fn ask_shared<T: Threads + Wait + Copy + Send + Sync>(
    rt: &HostRuntime,
    threads: T,
    alloc: Global,
    server: SocketAddr,
    count: u32,
) -> Result<u64, NetError> {
    all_answered::<T, Brand>(rt, threads, alloc, server, count, Blank::new(4))
}
