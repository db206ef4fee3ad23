//! A seat for each connection of a client, all over one connection to a server (RFC 7766, 6.2.1).
ghost use Rattle.std.specs.Prelude.{◌≡◌, ◌≤◌, ◌<◌, ◌+◌, map, IfOk, OnOk, length, vec_len};
ghost use Rattle.dns_shared_upstream.specs.Upstreams.{parts_of};
ghost use Rattle.dns_forward_run.specs.declared.form.Carried.TheVariants.{Connections};
ghost use Rattle.dns_forward_run.specs.Forwards.{met_of, net_view};
ghost use Rattle.dns_forward_run.specs.Retired.{AreBack, AreNew, met_by};
ghost use Rattle.dns_forward_run.specs.Judging.{TellsAnswered};
ghost use Rattle.dns_forward_run.specs.Settings.{AreSilent, JudgeAlike, carried_by, judging_in, list_in, seats_judging, seats_met};
ghost use Rattle.dns_forward_run.specs.Steps.{IsLow, KeepsDialer, ServesAs, ServesClients, WhenTold};

use crate::connection::{Connection, connect};
use crate::ending::{Ending, ForwardEnding, ending_of};
use crate::lines::SeatLine;
use crate::opening::accept_ports;
use crate::picked::{Picked, PickedList};
use crate::seating::{Setting, cache_over, seat_over};
use crate::serving::serve_and_retire;
use crate::stop::Stop;
use dns_handle::Protocol;
use dns_link::{Clock, Dialer, Link};
use dns_listener::Listener;
use dns_multiplexer::{BufDnsStreamHandle, DnsMultiplexer, Draws, RandDraws};
use dns_ports::Port;
use dns_record::NoMemory;
use dns_seats::Seat;
use dns_shared_exchange::{CallerToken, DnsExchange};
use dns_shared_upstream::SharedUpstream;
use std::alloc::Global;
use std::hash::RandomState;
use std::marker::Brand;
use std::net::SocketAddr;
use std::random::RandomSource;
use std::sync::Wait;
use std::sync::ledger::{Blank, Ledger};
use std::thread::Threads;

// An exchange of requests to a server, with its first token.
fn exchange_to<R: Draws + Drop, T: Wait>(
    rt: &T,
    alloc: Global,
    upstream: SocketAddr,
    draws: R,
) -> Result<(DnsExchange<R>, CallerToken), NoMemory>
    ensures { IfOk result (λ made. made.1.line ≡ made.0) }
{
    let (handle, queue) = BufDnsStreamHandle::new(alloc, upstream);
    let mux = DnsMultiplexer::new(alloc, upstream, handle, queue, draws);
    match DnsExchange::from_stream(rt, alloc, mux) {
        Ok(made) => Ok(made),
        Err(_) => Err(NoMemory),
    }
}

// Puts another holder beside others, and gives the one back that it was split from.
fn split_off<L: Link + Drop, R: Draws + Drop, G: Ledger, T: Wait + Copy>(
    holder: SharedUpstream<L, R, G, T>,
    others: &mut Vec<SharedUpstream<L, R, G, T>>,
) -> Result<SharedUpstream<L, R, G, T>, NoMemory>
    requires { 2 ≤ parts_of holder }
    ensures left { IfOk result (λ h. parts_of h + 1 ≡ parts_of holder) }
    ensures more { OnOk result (vec_len others.new ≡ vec_len others.old + 1) }
{
    match holder.split() {
        Ok((holder, beside)) => {
            others.push(beside)?;
            Ok(holder)
        }
        Err(_) => Err(NoMemory),
    }
}

// As many holders as the first one has parts.
fn split_all<L: Link + Drop, R: Draws + Drop, G: Ledger, T: Wait + Copy>(
    alloc: Global,
    first: SharedUpstream<L, R, G, T>,
    count: usize,
) -> Result<Vec<SharedUpstream<L, R, G, T>>, NoMemory>
    requires some { 0 < count }
    requires parts { parts_of first ≡ count }
    ensures { IfOk result (λ all. vec_len all ≡ count) }
{
    let more = count - 1;
    let mut last = first;
    let mut holders = Vec::new(alloc);
    'split: while holders.len() < more {
        last = split_off(last, &mut holders)?;
    }
    holders.push(last)?;
    Ok(holders)
}

// A seat for each port, with a handle of its own.
fn seats_over<P, L, K, T, G, C>(
    setting: &Setting<K, T>,
    ports: Vec<P>,
    holders: Vec<SharedUpstream<L, RandDraws, G, T>>,
) -> Result<
    Vec<Seat<P, SharedUpstream<L, RandDraws, G, T>, PickedList<C>, K, RandomState, T>>,
    NoMemory,
>
where
    P: Port + Drop,
    L: Link + Drop,
    K: Clock + Clone + Drop,
    T: Wait + RandomSource + Copy,
    G: Ledger,
    C: Picked,
    requires listed { list_in setting.now.trust ≡ C.listed }
    requires number { vec_len holders ≡ vec_len ports }
    ensures ports { IfOk result (λ seats. map (λ s. s.port) seats.items ≡ ports.items) }
    ensures judging { IfOk result (λ seats. JudgeAlike (judging_in setting.now.trust Protocol.Tcp) (seats_judging seats.items)) }
{
    let cache = cache_over(setting)?;
    let mut holders = holders;
    let mut seats = Vec::new(setting.alloc);
    for port in ports {
        let Some(holder) = holders.pop() else {
            unreachable!()
        };
        let seat = seat_over(setting, &cache, Protocol::Tcp, port, holder)?;
        seats.push(seat)?;
    }
    Ok(seats)
}

// Serves a seat for each port, and gives the ports back.
fn serve_ports<N, L, K, T, G, C>(
    setting: &Setting<K, T>,
    draws: RandDraws,
    connection: Connection<L>,
    ports: Vec<N::Port>,
    listen: &mut N,
    blank: Blank,
) -> Result<Vec<SeatLine>, NoMemory>
where
    N: Listener,
    N::Port: Send,
    L: Link + Drop + Send,
    K: Clock + Clone + Drop + Send,
    T: Threads + Wait + RandomSource + Copy + Send + Sync,
    G: Ledger + Send + Sync,
    C: Picked + Send + Sync,
    requires bound { setting.now.service.count ≤ 1000 }
    requires listed { list_in setting.now.trust ≡ C.listed }
    requires unused { AreNew (map (λ p. met_by N.Port.Port p) ports.items) }
    requires silent { AreSilent (map (λ p. carried_by N.Port.Port p) ports.items) }
    requires some { 0 < length ports.items }
    requires name { blank.name ≡ G.name }
    requires parts { blank.parts ≡ G.parts }
    requires number { G.parts ≡ vec_len ports }
    ensures len { IfOk result (λ lines. length lines.items ≡ length ports.items) }
    ensures back { IfOk result (λ lines. AreBack setting.now.service.count lines.items
        (N.counts listen.old) (N.counts listen.new)) }
    ensures answered { IfOk result (λ lines. TellsAnswered (judging_in setting.now.trust Protocol.Tcp)
        (N.told listen.old) (N.told listen.new)) }
{
    let (rt, alloc) = (setting.rt, setting.alloc);
    let Connection { stream, handle } = connection;
    let (exchange, token) = exchange_to(&rt, alloc, stream.peer_addr(), draws)?;
    let first: SharedUpstream<L, RandDraws, G, T> = SharedUpstream::new(
        rt, alloc, exchange, token, stream, handle, blank,
    )?;
    let holders = split_all(alloc, first, ports.len())?;
    let seats = seats_over::<N::Port, L, K, T, G, C>(setting, ports, holders)?;
    let lines = serve_and_retire(&rt, alloc, seats, setting.service.count, listen)?;
    Ok(lines)
}

// The same, by a ledger of its own, and by the list of accepted signatures that the setting has.
fn serve_by_list<N, L, K, T>(
    setting: &Setting<K, T>,
    draws: RandDraws,
    connection: Connection<L>,
    ports: Vec<N::Port>,
    listen: &mut N,
    blank: Blank,
) -> Result<Vec<SeatLine>, NoMemory>
where
    N: Listener,
    N::Port: Send,
    L: Link + Drop + Send,
    K: Clock + Clone + Drop + Send,
    T: Threads + Wait + RandomSource + Copy + Send + Sync,
    requires bound { setting.now.service.count ≤ 1000 }
    requires unused { AreNew (map (λ p. met_by N.Port.Port p) ports.items) }
    requires silent { AreSilent (map (λ p. carried_by N.Port.Port p) ports.items) }
    requires some { 0 < length ports.items }
    requires parts { blank.parts ≡ vec_len ports }
    ensures len { IfOk result (λ lines. length lines.items ≡ length ports.items) }
    ensures back { IfOk result (λ lines. AreBack setting.now.service.count lines.items
        (N.counts listen.old) (N.counts listen.new)) }
    ensures answered { IfOk result (λ lines. TellsAnswered (judging_in setting.now.trust Protocol.Tcp)
        (N.told listen.old) (N.told listen.new)) }
{
    serve_ports::<N, L, K, T, Brand, Brand>(setting, draws, connection, ports, listen, blank)
}

// Serves so many clients that connect to an address, over a connection to the server.
fn serve_clients<N, L, K, T>(
    setting: &Setting<K, T>,
    draws: RandDraws,
    connection: Connection<L>,
    connections: u8,
    listen: &mut N,
) -> Ending
where
    N: Listener,
    N::Port: Send,
    L: Link + Drop + Send,
    K: Clock + Clone + Drop + Send,
    T: Threads + Wait + RandomSource + Copy + Send + Sync,
    requires bound { setting.now.service.count ≤ 1000 }
    requires some { 0 < connections }
    ensures served { ServesClients connections setting.now.service.count (N.counts listen.old) (N.counts listen.new) result }
    ensures answered { WhenTold result (TellsAnswered (judging_in setting.now.trust Protocol.Tcp)
        (N.told listen.old) (N.told listen.new)) }
    ensures low { IsLow result }
{
    let alloc = setting.alloc;
    let local = setting.service.listen.socket_addr();
    match accept_ports(alloc, listen, local, connections as usize) {
        Ok(ports) => {
            let blank = Blank::new(connections as u64);
            let lines = serve_by_list(setting, draws, connection, ports, listen, blank);
            ending_of(alloc, lines)
        }
        Err(Stop::Refused) => Ending::Failed,
        Err(Stop::NoMemory) => Ending::NoMemory,
    }
}

/// Serves so many clients that connect to an address, once there is a connection to the server.
pub(crate) fn over_connections<N, D, K, T>(
    setting: &Setting<K, T>,
    draws: RandDraws,
    dial: D,
    connections: u8,
    listen: &mut N,
) -> ForwardEnding<D>
where
    N: Listener,
    N::Port: Send,
    D: Dialer + Drop,
    D::Link: Send,
    K: Clock + Clone + Drop + Send,
    T: Threads + Wait + RandomSource + Copy + Send + Sync,
    requires bound { setting.now.service.count ≤ 1000 }
    requires some { 0 < connections }
    requires carried { setting.now.service.carried ≡ Connections connections }
    ensures served { ServesAs (net_view D.counts D.calls N.counts N.told) setting.now.service
        (met_of dial result.dial listen.old listen.new) result.ending }
    ensures answered { WhenTold result.ending (TellsAnswered (judging_in setting.now.trust Protocol.Tcp)
        (N.told listen.old) (N.told listen.new)) }
    ensures low { IsLow result.ending }
    ensures kept { KeepsDialer result.dial result.ending }
{
    let mut dial = dial;
    let upstream = setting.service.upstream.socket_addr();
    let Ok(connection) = connect(setting.alloc, &mut dial, upstream) else {
        return ForwardEnding {
            ending: Ending::Failed,
            dial: Some(dial),
        };
    };
    ForwardEnding {
        ending: serve_clients(setting, draws, connection, connections, listen),
        dial: Some(dial),
    }
}
