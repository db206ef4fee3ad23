//! Warm lookups by several threads, with a validator each over one shared cache.

use crate::weighing::Weighing;
use dns_evidence::{Trail, Verifier};
use dns_handle::{DnsRequestOptions, DnsResponse, NetError};
use dns_lookup::DnssecDnsHandle;
use dns_message::Message;
use dns_model::Denial;
use dns_record::{DNSClass, Name, NoMemory, Octets, Query, RecordType};
use dns_recorded::Recorded;
use dns_shared_cache::{DefaultSharedCache, SharedCache};
use dns_trust::TrustAnchors;
use std::alloc::Global;
use std::sync::Wait;
use std::thread;
use std::thread::Threads;

/// The root's NS set with a signature that counts from 900 to 2000, as a message.
const SERVERS: &[u8; 63] =
    b"\0\0\x84\0\0\x01\0\x02\0\0\0\0\0\0\x02\0\x01\0\0\x02\0\x01\0\0\x0e\x10\0\x03\x01a\0\
    \0\0\x2e\0\x01\0\0\x0e\x10\0\x15\0\x02\x0d\0\0\0\x0e\x10\0\0\x07\xd0\0\0\x03\x84\xae\xc9\0\xaa\xbb";

/// The root's key set, as a message.
const KEYS: &[u8; 34] =
    b"\0\0\x84\0\0\x01\0\x01\0\0\0\0\0\0\x30\0\x01\0\0\x30\0\x01\0\0\x0e\x10\0\x06\x01\x01\x03\x0d\xaa\xbb";

/// A validator over a holder.
pub(crate) type Sharing<V, T> = DnssecDnsHandle<Recorded, V, DefaultSharedCache<V, T>>;

// A question about the root.
fn question(alloc: Global, query_type: RecordType) -> Result<Query, NoMemory> {
    Ok(Query {
        name: Name::root(alloc)?,
        query_type,
        query_class: DNSClass::IN,
    })
}

// Puts a reply behind those that were recorded.
fn record_reply(
    alloc: Global,
    recorded: &mut Recorded,
    query_type: RecordType,
    message: Message,
) -> Result<(), NoMemory> {
    let response = DnsResponse {
        message,
        chains: Vec::new(alloc),
        denial: Denial::None,
        trail: Trail::new(alloc),
    };
    recorded.push(question(alloc, query_type)?, Ok(response))
}

// An upstream that gives both.
fn upstream(alloc: Global) -> Result<Recorded, NetError> {
    let mut recorded = Recorded::new(alloc);
    let servers = Message::from_vec(alloc, SERVERS)?;
    record_reply(alloc, &mut recorded, RecordType::NS, servers)?;
    let keys = Message::from_vec(alloc, KEYS)?;
    record_reply(alloc, &mut recorded, RecordType::DNSKEY, keys)?;
    Ok(recorded)
}

/// A validator that trusts the root's key, over a holder of its own.
pub(crate) fn validator<V: Verifier + Drop, T: Wait + Copy>(
    alloc: Global,
    cache: &DefaultSharedCache<V, T>,
    verifier: V,
) -> Result<Sharing<V, T>, NetError> {
    let mut anchors = TrustAnchors::empty(alloc);
    let key = Octets::from_slice(alloc, b"\xaa\xbb")?;
    let _ = anchors.insert_with_name(Name::root(alloc)?, 13, key)?;
    let holder = cache.share()?;
    let made = DnssecDnsHandle::with_cache(upstream(alloc)?, anchors, verifier, holder)?;
    Ok(made)
}

// Looks the root's name servers up so many times: how many answers were served from the cache, by one send.
fn look_up_all<T: Wait + Copy>(
    alloc: Global,
    validator: &mut Sharing<Weighing, T>,
    count: u32,
) -> Result<u64, NetError> {
    let mut served: u64 = 0;
    for _ in 0..count {
        let query = question(alloc, RecordType::NS)?;
        let answer = validator.lookup(alloc, query, DnsRequestOptions::default(), 1000)?;
        served = served.saturating_add(u64::from(answer.trail.steps.len() == 1));
    }
    Ok(served)
}

// The same by a validator of one's own.
fn looked_up<T: Wait + Copy>(
    alloc: Global,
    cache: &DefaultSharedCache<Weighing, T>,
    count: u32,
) -> Result<u64, NetError> {
    let mut sharing = validator(alloc, cache, Weighing::new(0))?;
    look_up_all(alloc, &mut sharing, count)
}

/// How many of so many lookups by each of so many threads were served from one cache, into which a lookup before put what it found.
pub(crate) fn shared_lookups<T: Threads + Wait + Copy + Send + Sync>(
    rt: T,
    alloc: Global,
    count: u32,
    threads: u32,
) -> Result<u64, NoMemory> {
    let cache = SharedCache::new(rt, alloc, 1_000, Weighing::new(0))?;
    let _ = looked_up(alloc, &cache, 1).unwrap_or(0);
    let counts = thread::map_indices(
        &rt,
        alloc,
        threads as usize,
        &|_| { looked_up(alloc, &cache, count).unwrap_or(0) },
    )?;
    let mut all: u64 = 0;
    for served in &counts {
        all = all.saturating_add(*served);
    }
    Ok(all)
}
