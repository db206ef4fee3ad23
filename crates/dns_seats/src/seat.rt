//! Seats, and what comes of serving them.
use dns_evidence::Verifier;
use dns_handle::{DnsHandle, IoKind, Protocol};
use dns_link::Clock;
use dns_lookup::DnssecDnsHandle;
use dns_ports::Port;
use dns_respond::Exchanged;
use dns_shared_cache::SharedCache;
use std::hash::BuildHasher;
use std::sync::Wait;

/// A port with what answers its requests.
#[derive(Drop)]
pub struct Seat<
    P: Port + Drop,
    H: DnsHandle + Drop,
    V: Verifier + Drop,
    K: Clock + Drop,
    S: BuildHasher + Drop,
    T: Wait + Copy,
> {
    /// Where requests come from and replies go to.
    pub port: P,
    /// What looks their questions up.
    pub validator: DnssecDnsHandle<H, V, SharedCache<V, S, T>>,
    /// What says at which moment, in seconds since 1970.
    pub clock: K,
    /// What carries requests and replies.
    pub protocol: Protocol,
    /// How deep the asks of a lookup go; above 255 it counts as 255.
    pub depth: u16,
}

/// Why a seat is served no further.
#[derive(Clone, Copy, Debug, PartialEq, Eq, Drop)]
pub enum Ended {
    /// It had as many requests as it was to have.
    Count,
    /// The port said that no more requests come.
    Closed,
    /// The port failed, as it was to give a request or to send a reply.
    Port(IoKind),
    /// Memory ran out.
    NoMemory,
}

/// A seat that was served.
#[derive(Drop)]
pub struct Served<
    P: Port + Drop,
    H: DnsHandle + Drop,
    V: Verifier + Drop,
    K: Clock + Drop,
    S: BuildHasher + Drop,
    T: Wait + Copy,
> {
    /// The seat, which can be served again.
    pub seat: Seat<P, H, V, K, S, T>,
    /// One for each request that was answered, in order, and for each that needs no answer.
    pub exchanges: Vec<Exchanged>,
    /// Why it ended.
    pub ended: Ended,
}
