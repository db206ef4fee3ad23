//! A forwarder that stays up. docs/LIBRARY.md shows this file, as a program; its tests stand below.
mod rounds_and_sockets;

use dns_chain::{DnssecDnsHandle, SharedCache, TrustAnchors, Verifier};
use dns_forwarder::{DatagramPort, Ended, OpenGate, Port, Protocol, Seat, Served, serve};
use dns_mux::RandDraws;
use dns_transport::{
    Clock, DnsHandle, IoKind, NetError, SocketDatagrams, SocketDialer, SystemClock,
    UdpClientStream, UdpExchange, kind_of,
};
use dns_wire::{Name, NoMemory, Octets};
use std::alloc::Global;
use std::hash::{BuildHasher, RandomState};
use std::net::{Net, SocketAddr, UdpSocket};
use std::random::RandomSource;
use std::sync::Wait;
use std::thread::Threads;
use std::{io, time};

/// A verifier of one's own: under algorithm 13, the one that it supports, a good signature has the bytes of its key.
#[derive(Clone, Copy)]
struct KeyItself;

impl Verifier for KeyItself {
    ghost use Rattle.std.specs.Prelude.{◌==◌, nat_eq};
    ghost use Rattle.std.specs.Cmp.Lexicographic.{pointwise};

    ghost answers = { λ v. record { supports = λ a. a == 13; accepts = λ a key bytes signature. pointwise nat_eq key signature } };

    fn supports(&self, algorithm: u8) -> bool {
        algorithm == 13
    }

    fn accepts(&self, _algorithm: u8, key: &[u8], _bytes: &[u8], signature: &[u8]) -> bool {
        key == signature
    }

    fn same(&self, _other: &KeyItself) -> bool {
        true
    }
}

/// So many seats take requests side by side.
const SEATS: u32 = 4;

/// A seat for clients that send datagrams, over a server that is asked by datagrams.
type SocketSeat<R> = Seat<
    DatagramPort<SocketDatagrams<R>>,
    UdpExchange<SocketDialer<R>, RandDraws>,
    KeyItself,
    SystemClock<R>,
    RandomState,
    R,
>;

/// The kind of a fault of the system.
fn kind_in(error: io::Error) -> IoKind {
    kind_of(&error)
}

/// How ids and ports are drawn. Whoever knows the seed can foretell them, so it is the system's.
fn draws_of(source: &impl RandomSource) -> Result<RandDraws, IoKind> {
    let mut seed = [0u8; 8];
    source.fill_bytes(&mut seed).map_err(kind_in)?;
    Ok(RandDraws::from_seed(u64::from_le_bytes(seed)))
}

/// Trusts the root's key.
fn trust_root(alloc: Global, anchors: &mut TrustAnchors) -> Result<bool, NetError> {
    let key = Octets::from_slice(alloc, b"\xaa\xbb")?;
    Ok(anchors.insert_with_name(Name::root(alloc)?, 13, key)?)
}

/// A seat over a clone of the clients' socket, with a holder of the cache.
fn seat_of<R: Net + time::Clock + RandomSource + Wait + Copy + Drop>(
    rt: R,
    alloc: Global,
    clients: &UdpSocket,
    server: SocketAddr,
    cache: &SharedCache<KeyItself, RandomState, R>,
) -> Result<SocketSeat<R>, NetError> {
    let socket = clients.try_clone().map_err(kind_in)?;
    let port = DatagramPort::new(alloc, SocketDatagrams::new(socket, rt))?;
    let draws = draws_of(&rt)?;
    let upstream = UdpClientStream::builder(alloc, server).exchange(SocketDialer::new(rt), draws);
    let mut anchors = TrustAnchors::empty(alloc);
    let _ = trust_root(alloc, &mut anchors)?;
    let validator = DnssecDnsHandle::with_cache(upstream, anchors, KeyItself, cache.share()?)?;
    Ok(Seat {
        port,
        validator,
        clock: SystemClock::new(rt),
        protocol: Protocol::Udp,
        depth: 26,
    })
}

/// Seats over clones of one socket, and over one cache.
fn seats_of<R: Net + time::Clock + RandomSource + Wait + Copy + Drop>(
    rt: R,
    alloc: Global,
    clients: &UdpSocket,
    server: SocketAddr,
) -> Result<Vec<SocketSeat<R>>, NetError> {
    let hasher = RandomState::new(&rt).map_err(kind_in)?;
    let cache = SharedCache::with_hasher(rt, alloc, 65_536, KeyItself, hasher)?;
    let mut seats = Vec::new(alloc);
    for _ in 0..SEATS {
        seats.push(seat_of(rt, alloc, clients, server, &cache)?)?;
    }
    Ok(seats)
}

/// The seats that are served again: all but those whose port failed.
fn staying<P, H, V, K, S, T>(
    alloc: Global,
    served: Vec<Served<P, H, V, K, S, T>>,
) -> Result<Vec<Seat<P, H, V, K, S, T>>, NoMemory>
where
    P: Port + Drop,
    H: DnsHandle + Drop,
    V: Verifier + Drop,
    K: Clock + Drop,
    S: BuildHasher + Drop,
    T: Wait + Copy,
{
    let mut seats = Vec::with_capacity(alloc, served.len())?;
    for one in served {
        if !matches!(one.ended, Ended::Port(_)) {
            seats.push(one.seat)?;
        }
    }
    Ok(seats)
}

/// Serves seats in rounds, in each of which a seat has so many requests at most, as long as one of them is left.
fn serve_rounds<P, H, V, K, S, T, R>(
    rt: &R,
    alloc: Global,
    mut seats: Vec<Seat<P, H, V, K, S, T>>,
    rounds: u64,
    requests: u32,
) -> Result<Vec<Seat<P, H, V, K, S, T>>, NoMemory>
where
    P: Port + Drop + Send,
    H: DnsHandle + Drop + Send,
    V: Verifier + Drop + Send + Sync,
    K: Clock + Drop + Send,
    S: BuildHasher + Drop + Send + Sync,
    S::Hasher: Send + Sync,
    T: Wait + Copy + Send + Sync,
    R: Threads + Sync,
{
    for _ in 0..rounds {
        if seats.is_empty() {
            break;
        }
        let served = serve(rt, alloc, seats, requests.min(1000), &OpenGate)?;
        seats = staying(alloc, served)?;
    }
    Ok(seats)
}

/// Serves clients over a socket in rounds, and says how many seats are left then.
fn serve_clients<R>(
    rt: R,
    alloc: Global,
    clients: &UdpSocket,
    server: SocketAddr,
    rounds: u64,
    requests: u32,
) -> Result<usize, NetError>
where
    R: Net + time::Clock + RandomSource + Threads + Wait + Copy + Drop + Send + Sync,
    R::Stream: Send,
    R::Listener: Send,
{
    let seats = seats_of(rt, alloc, clients, server)?;
    let left = serve_rounds(&rt, alloc, seats, rounds, requests)?;
    Ok(left.len())
}
