//! The rules as they are said, over a plain list of records: slow, and beside no index.

use dns_aggressive::{Kept, KeptRecord};
use dns_denial::{verify_nsec, verify_nsec3};
use dns_model::{Answered, Proof};
use dns_rdata::{Nsec3Record, NsecRecord};
use dns_record::{Name, NoMemory, Query, RecordType, ResponseCode};
use std::alloc::Global;

/// The codes of a denial, in the order in which they are tried.
const CODES: &[u16] = &[3, 0];

/// Up to so many iterations names are hashed, and with more than so many records are bogus (RFC 9276, 3.2).
const SOFT: u16 = 100;

const HARD: u16 = 500;

/// A code, and the seconds for which it may be kept.
pub(crate) type Denied = (u16, u32);

fn same_way(one: &Nsec3Record, two: &Nsec3Record) -> bool {
    one.iterations == two.iterations && one.salt == two.salt
}

fn same_place(one: &Kept, two: &Kept) -> bool {
    if one.zone != two.zone {
        return false;
    }
    match (&one.item, &two.item) {
        (KeptRecord::Nsec(one), KeptRecord::Nsec(two)) => one.owner == two.owner,
        (KeptRecord::Nsec3(one), KeptRecord::Nsec3(two)) => one.owner == two.owner
            && same_way(one, two),
        _ => false,
    }
}

/// A record goes last, in place of one of its place.
pub(crate) fn put(list: &mut Vec<Kept>, new: Kept) -> Result<(), NoMemory> {
    for place in (0..list.len()).rev() {
        if place < list.len() && same_place(&list[place], &new) {
            list.remove(place);
        }
    }
    list.push(new)?;
    Ok(())
}

/// The first ones go, down to a limit.
pub(crate) fn drop_first(list: &mut Vec<Kept>, limit: usize) {
    for _ in 0..list.len().saturating_sub(limit) {
        if !list.is_empty() {
            list.remove(0);
        }
    }
}

fn may_hold(zone: &Name, query: &Query) -> bool {
    zone.zone_of(&query.name) && (query.query_type != RecordType::DS || *zone != query.name)
}

// The place of a live record of the longest zone that may hold the query.
fn place_for(list: &[Kept], query: &Query, now: u64) -> Option<usize> {
    let mut longest = None;
    let mut labels = 0;
    for (place, kept) in list.iter().enumerate() {
        let count = kept.zone.label_count();
        let is_longer = longest.is_none() || labels < count;
        if now < kept.expires && is_longer && may_hold(&kept.zone, query) {
            longest = Some(place);
            labels = count;
        }
    }
    longest
}

// The longest zone of a live record that may hold the query.
fn zone_for<'a>(list: &'a [Kept], query: &Query, now: u64) -> Option<&'a Name> {
    let kept = list.get(place_for(list, query, now)?)?;
    Some(&kept.zone)
}

fn is_live(kept: &Kept, zone: &Name, now: u64) -> bool {
    now < kept.expires && kept.zone == *zone
}

// The seconds that are left, at most as many as a ttl can say.
fn left(kept: &Kept, now: u64) -> u32 {
    u32::try_from(kept.expires.saturating_sub(now)).unwrap_or(u32::MAX)
}

// The code that NSEC records prove of a response without answer, with a ttl.
fn denied_by_nsecs(query: &Query, zone: &Name, nsecs: &[NsecRecord], ttl: u32) -> Option<Denied> {
    for code in CODES {
        if verify_nsec(query, zone, ResponseCode(*code), Answered::No, nsecs) == Proof::Secure {
            return Some((*code, ttl));
        }
    }
    None
}

// The same of NSEC3 records.
fn denied_by_nsec3s(
    query: &Query,
    zone: &Name,
    nsec3s: &[Nsec3Record],
    ttl: u32,
) -> Option<Denied> {
    for code in CODES {
        let code = *code;
        if verify_nsec3(
            query,
            zone,
            ResponseCode(code),
            Answered::No,
            nsec3s,
            SOFT,
            HARD,
        ) == Proof::Secure
        {
            return Some((code, ttl));
        }
    }
    None
}

// What the live NSEC records of a zone deny.
fn by_nsecs(
    alloc: Global,
    list: &[Kept],
    query: &Query,
    zone: &Name,
    now: u64,
) -> Result<Option<Denied>, NoMemory> {
    let mut nsecs = Vec::new(alloc);
    let mut ttl = u32::MAX;
    for kept in list {
        if let KeptRecord::Nsec(nsec) = &kept.item {
            if is_live(kept, zone, now) {
                nsecs.push(nsec.try_clone()?)?;
                ttl = ttl.min(left(kept, now));
            }
        }
    }
    Ok(denied_by_nsecs(query, zone, &nsecs, ttl))
}

// What the live NSEC3 records of a zone deny that are hashed as this one.
fn by_way(
    alloc: Global,
    list: &[Kept],
    query: &Query,
    zone: &Name,
    now: u64,
    like: &Nsec3Record,
) -> Result<Option<Denied>, NoMemory> {
    let mut nsec3s = Vec::new(alloc);
    let mut ttl = u32::MAX;
    for kept in list {
        if let KeptRecord::Nsec3(nsec3) = &kept.item {
            if is_live(kept, zone, now) && same_way(nsec3, like) {
                nsec3s.push(nsec3.try_clone()?)?;
                ttl = ttl.min(left(kept, now));
            }
        }
    }
    Ok(denied_by_nsec3s(query, zone, &nsec3s, ttl))
}

// What the first of the groups of live NSEC3 records denies that denies the query.
fn by_ways(
    alloc: Global,
    list: &[Kept],
    query: &Query,
    zone: &Name,
    now: u64,
) -> Result<Option<Denied>, NoMemory> {
    for kept in list {
        if let KeptRecord::Nsec3(nsec3) = &kept.item {
            if is_live(kept, zone, now) {
                // a group that was tried before denies nothing again
                let found = by_way(alloc, list, query, zone, now, nsec3)?;
                if found.is_some() {
                    return Ok(found);
                }
            }
        }
    }
    Ok(None)
}

/// What the list denies. The query is of class IN, and of a type that zones hold as data.
pub(crate) fn denied(
    alloc: Global,
    list: &[Kept],
    query: &Query,
    now: u64,
) -> Result<Option<Denied>, NoMemory> {
    let Some(zone) = zone_for(list, query, now) else {
        return Ok(None);
    };
    let found = by_nsecs(alloc, list, query, zone, now)?;
    if found.is_some() {
        return Ok(found);
    }
    by_ways(alloc, list, query, zone, now)
}
