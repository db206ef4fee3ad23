//! Seats, and what all of them share.
ghost use Rattle.std.specs.Prelude.{◌≡◌, IfOk};
ghost use Rattle.dns_lookup.specs.Calls.{anchors_of, inner_of};
ghost use Rattle.dns_forward_run.specs.Settings.{judging_in, judging_of, list_in};

use crate::form::Service;
use crate::picked::{Picked, PickedList};
use crate::trust::Trust;
use dns_handle::{DnsHandle, Protocol};
use dns_link::Clock;
use dns_lookup::DnssecDnsHandle;
use dns_ports::Port;
use dns_record::NoMemory;
use dns_seats::Seat;
use dns_shared_cache::SharedCache;
use std::alloc::Global;
use std::hash::RandomState;
use std::random::RandomSource;
use std::sync::Wait;

/// How many entries the cache keeps that all seats share.
const CACHE_ENTRIES: usize = 65_536;

/// What seats are made of.
#[derive(Drop)]
pub(crate) struct Setting<K: Drop, T: Copy> {
    pub(crate) rt: T,
    pub(crate) alloc: Global,
    pub(crate) service: Service,
    pub(crate) trust: Trust,
    /// Each seat has a copy.
    pub(crate) clock: K,
}

/// The first holder of an empty cache. Clients choose which names are kept, so its hasher is random. The error is that memory ran out, or
/// that the system gave no random bytes.
pub(crate) fn cache_over<C: Picked, K: Drop, T: Wait + RandomSource + Copy>(
    setting: &Setting<K, T>,
) -> Result<SharedCache<PickedList<C>, RandomState, T>, NoMemory>
    requires { list_in setting.now.trust ≡ C.listed }
{
    let verifier = PickedList::of(&setting.trust.list)?;
    let Ok(hasher) = RandomState::new(&setting.rt) else {
        return Err(NoMemory);
    };
    SharedCache::with_hasher(setting.rt, setting.alloc, CACHE_ENTRIES, verifier, hasher)
}

/// A seat with a port, whose questions are looked up over a handle, by what the session trusts.
pub(crate) fn seat_over<P, H, C, K, T>(
    setting: &Setting<K, T>,
    cache: &SharedCache<PickedList<C>, RandomState, T>,
    protocol: Protocol,
    port: P,
    handle: H,
) -> Result<Seat<P, H, PickedList<C>, K, RandomState, T>, NoMemory>
where
    P: Port + Drop,
    H: DnsHandle + Drop,
    C: Picked,
    K: Clock + Clone + Drop,
    T: Wait + Copy,
    requires { list_in setting.now.trust ≡ C.listed }
    ensures port { IfOk result (λ s. s.port ≡ port) }
    ensures handle { IfOk result (λ s. inner_of s.validator ≡ handle) }
    ensures anchors { IfOk result (λ s. anchors_of s.validator ≡ setting.now.trust.anchors) }
    ensures protocol { IfOk result (λ s. s.protocol ≡ protocol) }
    ensures depth { IfOk result (λ s. s.depth ≡ setting.now.trust.depth) }
    ensures judging { IfOk result (λ s. judging_of s ≡ judging_in setting.now.trust protocol) }
{
    let anchors = setting.trust.anchors.try_clone()?;
    let verifier = PickedList::of(&setting.trust.list)?;
    let holder = cache.share()?;
    let clock = setting.clock.clone()?;
    let validator = DnssecDnsHandle::with_cache(handle, anchors, verifier, holder)?;
    Ok(Seat {
        port,
        validator,
        clock,
        protocol,
        depth: setting.trust.depth,
    })
}
