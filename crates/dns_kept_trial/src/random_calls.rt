//! Random calls, by a seed, on a store and on a plain list.

use crate::plain::{Denied, denied, drop_first, put};
use crate::random::Random;
use crate::records::{Way, add, hash_of, hashed_owner, name_of, no_records, nsec, nsec3};
use dns_aggressive::{Kept, KeptRecord, NegativeStore, Synthesized};
use dns_rdata::{Nsec3Record, NsecRecord};
use dns_record::{DNSClass, Name, NoMemory, Query, Record, RecordType};
use std::alloc::Global;

/// Zones, of which some lie in one another: `z.`, the same in upper case, `a.z.` and the root.
const ZONES: &[&[u8]] = &[
    b"\x01z\x00",
    b"\x01z\x00",
    b"\x01Z\x00",
    b"\x01a\x01z\x00",
    b"\x00",
];

/// Names of which records are made, and which are asked for.
const NAMES: &[&[u8]] = &[
    b"\x01z\x00",
    b"\x01a\x01z\x00",
    b"\x01A\x01z\x00",
    b"\x01b\x01z\x00",
    b"\x01b\x01a\x01z\x00",
    b"\x01c\x01z\x00",
    b"\x01*\x01z\x00",
    b"\x01x\x01b\x01z\x00",
    b"\x00",
];

/// What stands at owners, as a bitmap: an address, a delegation, an apex, mail and text, nothing.
const TYPES: &[&[u8]] = &[
    b"\x00\x01\x40",
    b"\x00\x01\x20",
    b"\x00\x01\x22",
    b"\x00\x03\x00\x01\x80",
    b"",
];

const SALTS: &[&[u8]] = &[b"", b"\xaa"];

/// Types that are asked for: A, MX, DS and NS.
const ASKED: &[u16] = &[1, 15, 43, 2];

/// Moments are below this, and each record lives for fewer seconds than half as many.
const MOMENTS: u64 = 12;

/// What calls come to.
#[derive(Clone, Copy)]
pub(crate) enum Outcome {
    /// The two answer alike, and so many queries are denied.
    Alike { denied: u32 },
    /// They answer the call with this number otherwise.
    Different { number: u32 },
}

/// A store, and beside it a plain list.
struct Pair {
    alloc: Global,
    random: Random,
    store: NegativeStore,
    list: Vec<Kept>,
    limit: usize,
    // How many queries were denied.
    denied: u32,
}

// By hand, as that of a store.
impl Drop for Pair {
    fn drop(self) {
        let Pair {
            alloc: _,
            random: _,
            store: _,
            list: _,
            limit: _,
            denied: _,
        } = self;
    }
}

// A random name.
fn draw_name(alloc: Global, random: &mut Random) -> Result<Name, NoMemory> {
    name_of(alloc, random.one_of(NAMES).unwrap_or(b"\x00"))
}

// A random way of hashing, now and then with Opt-Out.
fn draw_way(random: &mut Random) -> Way {
    Way {
        flags: u8::from(random.below(8) == 0),
        iterations: random.below(2) as u16,
        salt: random.one_of(SALTS).unwrap_or(b""),
    }
}

// A random record, as one of a zone.
fn draw_record(alloc: Global, random: &mut Random, zone: &[u8]) -> Result<Record, NoMemory> {
    let owner = draw_name(alloc, random)?;
    let next = draw_name(alloc, random)?;
    let types = random.one_of(TYPES).unwrap_or(b"");
    let ttl = random.below(MOMENTS / 2) as u32;
    if random.below(2) == 0 {
        return nsec(alloc, owner, &next, types, ttl);
    }
    let way = draw_way(random);
    let owner = hashed_owner(alloc, &hash_of(way, &owner), zone)?;
    nsec3(alloc, owner, &hash_of(way, &next), types, way, ttl)
}

// A record as one that may be kept.
fn item_of(alloc: Global, met: &Record) -> Result<Option<KeptRecord>, NoMemory> {
    if let Some(nsec) = NsecRecord::of(alloc, met)? {
        return Ok(Some(KeptRecord::Nsec(nsec)));
    }
    match Nsec3Record::of(alloc, met)? {
        Some(nsec3) if nsec3.flags == 0 => Ok(Some(KeptRecord::Nsec3(nsec3))),
        _ => Ok(None),
    }
}

// Whether two denials are alike.
fn is_denied(found: Option<&Synthesized>, wanted: Option<Denied>) -> bool {
    match (found, wanted) {
        (Some(found), Some((code, ttl))) => found.code.0 == code && found.ttl == ttl,
        (None, None) => true,
        _ => false,
    }
}

// Whether two records have one owner, in one spelling.
fn owner_is_same(one: &Kept, two: &Kept) -> bool {
    match (&one.item, &two.item) {
        (KeptRecord::Nsec(one), KeptRecord::Nsec(two)) => one.owner.eq_case(&two.owner),
        (KeptRecord::Nsec3(one), KeptRecord::Nsec3(two)) => one.owner.eq_case(&two.owner)
            && one.salt == two.salt,
        _ => false,
    }
}

impl Pair {
    fn new(alloc: Global, seed: u64, limit: u32) -> Pair {
        let limit = if limit == 0 { 1 } else { limit };
        Pair {
            alloc,
            random: Random::from_seed(seed),
            store: NegativeStore::new(alloc, limit),
            list: Vec::new(alloc),
            limit: limit as usize,
            denied: 0,
        }
    }

    // The list takes a record, if it may be kept; the answer is how many it takes.
    fn put(&mut self, met: &Record, zone: &[u8], now: u64) -> Result<u32, NoMemory> {
        let Some(item) = item_of(self.alloc, met)? else {
            return Ok(0);
        };
        let kept = Kept {
            zone: name_of(self.alloc, zone)?,
            item,
            expires: now.saturating_add(u64::from(met.ttl)),
        };
        put(&mut self.list, kept)?;
        Ok(1)
    }

    // Whether both take a random response alike: they count alike, and keep the same.
    fn learns_alike(&mut self, now: u64) -> Result<bool, NoMemory> {
        let zone = self.random.one_of(ZONES).unwrap_or(b"\x00");
        let mut response = no_records(self.alloc);
        let mut count: u32 = 0;
        for _ in 0..self.random.below(4) {
            let met = draw_record(self.alloc, &mut self.random, zone)?;
            count = count.saturating_add(self.put(&met, zone, now)?);
            add(self.alloc, &mut response, met, zone)?;
        }
        drop_first(&mut self.list, self.limit);
        let taken = self.store.learn(&response, now)?;
        Ok(taken == count && self.keep_alike())
    }

    // Whether both keep the same records in the same order.
    fn keep_alike(&self) -> bool {
        let kept = self.store.kept();
        if kept.len() != self.list.len() {
            return false;
        }
        for (one, two) in kept.iter().zip(self.list.iter()) {
            if one.expires != two.expires || !owner_is_same(one, two) {
                return false;
            }
        }
        true
    }

    // A random query.
    fn query(&mut self) -> Result<Query, NoMemory> {
        Ok(Query {
            name: draw_name(self.alloc, &mut self.random)?,
            query_type: RecordType(self.random.one_of(ASKED).unwrap_or(1)),
            query_class: DNSClass::IN,
        })
    }

    // Whether both deny a random query alike.
    fn denies_alike(&mut self, now: u64) -> Result<bool, NoMemory> {
        let query = self.query()?;
        let wanted = denied(self.alloc, &self.list, &query, now)?;
        self.denied = self.denied.saturating_add(u32::from(wanted.is_some()));
        let found = self.store.synthesize(&query, now)?;
        Ok(is_denied(found.as_ref(), wanted))
    }

    // Whether both answer a random call alike.
    fn answer_alike(&mut self) -> Result<bool, NoMemory> {
        let now = self.random.below(MOMENTS);
        if self.random.below(3) == 0 {
            self.learns_alike(now)
        } else {
            self.denies_alike(now)
        }
    }
}

/// What so many random calls come to, on a store that keeps so many records, at least one.
pub(crate) fn played(
    alloc: Global,
    seed: u64,
    count: u32,
    limit: u32,
) -> Result<Outcome, NoMemory> {
    let mut pair = Pair::new(alloc, seed, limit);
    for number in 0..count {
        if !pair.answer_alike()? {
            return Ok(Outcome::Different { number });
        }
    }
    Ok(Outcome::Alike {
        denied: pair.denied,
    })
}
