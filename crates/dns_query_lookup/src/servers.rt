//! A question to a server, by datagrams or over connections.
ghost use Rattle.std.specs.Prelude.{◌≡◌, min};
ghost use Rattle.dns_query_lookup.specs.Servers.{AsksByDatagrams, AsksOverConnections, AsksServer, meanings_over};

use crate::call::Call;
use crate::looked::Looked;
use crate::stacks::ask_below;
use dns_anchor_keys::AnchorsFault;
use dns_handle::DnsHandle;
use dns_link::Dialer;
use dns_multiplexer::RandDraws;
use dns_query_handle::{
    CheckingHandle, ConnectingHandle, DeadlineHandle, FallbackHandle, NotingHandle, Stopwatch,
};
use dns_udp::{UdpClientStream, UdpExchange};
use std::alloc::Global;
use std::net::SocketAddr;

/// For so many milliseconds at most one query, or one read or write of a connection, waits.
const LONGEST_WAIT: u64 = 5000;

/// The network and the time.
#[derive(Drop)]
pub struct Outside<D: Drop, E: Drop, T: Drop> {
    /// What makes sockets for datagrams.
    pub datagrams: D,
    /// What makes connections.
    pub connections: E,
    /// By what is told when the time for asking is over.
    pub deadline: T,
    /// By what is told how long each query takes.
    pub notes: T,
}

// For how long a query waits, where so many milliseconds are left for all.
fn wait_within(limit_ms: u64) -> u64
    ensures { result ≡ min 5000 limit_ms }
{
    LONGEST_WAIT.min(limit_ms)
}

// Asks a server by datagrams, and over a connection where a response is truncated.
fn ask_by_datagrams<D: Dialer + Drop, E: Dialer + Drop, T: Stopwatch + Drop>(
    alloc: Global,
    outside: Outside<D, E, T>,
    server: SocketAddr,
    seed: u64,
    call: &Call<'_>,
) -> Result<Looked, AnchorsFault>
    ensures { AsksByDatagrams
        ⟦<NotingHandle<DeadlineHandle<CheckingHandle<FallbackHandle<UdpExchange<D, RandDraws>, ConnectingHandle<E, RandDraws>>>, T>, T> as DnsHandle>⟧
        call.now outside server seed result }
{
    let Outside {
        datagrams,
        connections,
        deadline,
        notes,
    } = outside;
    let wait = wait_within(call.limit_ms);
    let first = UdpClientStream::builder(alloc, server)
        .with_timeout(Some(wait))
        .exchange(datagrams, RandDraws::from_seed(seed));
    let second = ConnectingHandle::new(connections, RandDraws::from_seed(seed), server, wait);
    ask_below(
        alloc,
        FallbackHandle::new(first, second),
        deadline,
        notes,
        call,
    )
}

// Asks a server over connections alone.
fn ask_over_connections<D: Dialer + Drop, E: Dialer + Drop, T: Stopwatch + Drop>(
    alloc: Global,
    outside: Outside<D, E, T>,
    server: SocketAddr,
    seed: u64,
    call: &Call<'_>,
) -> Result<Looked, AnchorsFault>
    ensures { AsksOverConnections
        ⟦<NotingHandle<DeadlineHandle<CheckingHandle<ConnectingHandle<E, RandDraws>>, T>, T> as DnsHandle>⟧
        call.now outside server seed result }
{
    let Outside {
        datagrams: _,
        connections,
        deadline,
        notes,
    } = outside;
    let only = ConnectingHandle::new(
        connections,
        RandDraws::from_seed(seed),
        server,
        wait_within(call.limit_ms),
    );
    ask_below(alloc, only, deadline, notes, call)
}

/// Asks a server what a call asks: by datagrams, and over a connection where a response is truncated; or over connections alone. Ids
/// and ports are drawn from the seed, so whoever knows it can foretell them. First the zones of digests among the trust anchors are asked for their keys, then the question is
/// looked up.
///
/// The fault says why no key is trusted, or that memory ran out; an error that the lookup came to stands in what is answered.
pub fn ask_server<D: Dialer + Drop, E: Dialer + Drop, T: Stopwatch + Drop>(
    alloc: Global,
    outside: Outside<D, E, T>,
    server: SocketAddr,
    connections_alone: bool,
    seed: u64,
    call: &Call<'_>,
) -> Result<Looked, AnchorsFault>
    ensures { AsksServer
        (meanings_over
        ⟦<NotingHandle<DeadlineHandle<CheckingHandle<FallbackHandle<UdpExchange<D, RandDraws>, ConnectingHandle<E, RandDraws>>>, T>, T> as DnsHandle>⟧
        ⟦<NotingHandle<DeadlineHandle<CheckingHandle<ConnectingHandle<E, RandDraws>>, T>, T> as DnsHandle>⟧)
        call.now outside server seed result connections_alone }
{
    if connections_alone {
        ask_over_connections(alloc, outside, server, seed, call)
    } else {
        ask_by_datagrams(alloc, outside, server, seed, call)
    }
}
