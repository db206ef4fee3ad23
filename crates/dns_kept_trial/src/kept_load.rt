//! A store of kept denials (RFC 8198) filled, asked and taught many times.
ghost use Rattle.std.specs.Prelude.{◌≤◌};

use crate::form::{Form, Work};
use crate::records::{Way, add, hash_of, hashed_owner, name_of, no_records, nsec, nsec3};
use dns_aggressive::NegativeStore;
use dns_handle::DnsResponse;
use dns_record::{DNSClass, Name, NoMemory, Query, Record, RecordType};
use std::alloc::Global;

/// The zone's apex: `z.`.
const APEX: &[u8] = b"\x01z\x00";

/// The name right below it with the number 0; the digits that follow are `b` to `p`.
const FIRST: &[u8; 12] = b"\x08naaaaaaa\x01z\x00";

/// What stands at each owner: an address alone (RFC 4034, 4.1.2).
const TYPES: &[u8] = b"\x00\x01\x40";

/// Names are hashed without salt, once.
const PLAIN: Way = Way {
    flags: 0,
    iterations: 0,
    salt: b"",
};

/// How many records a response has, where a store is filled.
const FILLED: u32 = 64;

/// How many records a response has that a full store learns.
const LEARNED: u32 = 3;

/// How many questions are asked, over and over.
const QUESTIONS: u32 = 4096;

/// The moment at which all is asked: what lives for a second is dead.
const NOW: u64 = 2;

/// Which records there are.
#[derive(Clone, Copy)]
struct Shape {
    /// NSEC3 records in place of NSEC records.
    is_hashed: bool,
    /// Every other record is dead.
    is_half_dead: bool,
}

// The shape with a number: 1 stands for NSEC3, and 2 for dead ones.
fn shape_of(number: u32) -> Shape {
    Shape {
        is_hashed: number % 2 == 1,
        is_half_dead: number / 2 % 2 == 1,
    }
}

// The name with a number. Names rise with their numbers.
fn numbered(alloc: Global, number: u32) -> Result<Name, NoMemory> {
    let mut wire = *FIRST;
    let mut left = number;
    for place in 0..7 {
        wire[8 - place] = b'a' + (left % 16) as u8;
        left /= 16;
    }
    name_of(alloc, wire.as_slice())
}

// The owner with a number: the apex, and then each second name, so that there are names between them.
fn owner_of(alloc: Global, number: u32) -> Result<Name, NoMemory> {
    if number == 0 {
        return name_of(alloc, APEX);
    }
    numbered(alloc, number.saturating_mul(2))
}

// The hashes of so many owners, in order.
fn hashes_of(alloc: Global, count: u32) -> Result<Vec<[u8; 20]>, NoMemory> {
    let mut hashes = Vec::new(alloc);
    for number in 0..count {
        let owner = owner_of(alloc, number)?;
        hashes.push(hash_of(PLAIN, &owner))?;
    }
    hashes.sort_unstable();
    Ok(hashes)
}

// At least one.
fn at_least_one(count: u32) -> u32
    ensures { 1 ≤ result }
{
    if count == 0 { 1 } else { count }
}

/// What makes the records of a store, one by one.
struct Maker {
    alloc: Global,
    shape: Shape,
    count: u32,
    // Of NSEC3 records the hashes, in order.
    hashes: Vec<[u8; 20]>,
    apex: [u8; 20],
}

// By hand, so that a function that lets one go calls this.
impl Drop for Maker {
    fn drop(self) {
        let Maker {
            alloc: _,
            shape: _,
            count: _,
            hashes: _,
            apex: _,
        } = self;
    }
}

impl Maker {
    fn new(alloc: Global, shape: Shape, count: u32) -> Result<Maker, NoMemory> {
        let apex = hash_of(PLAIN, &name_of(alloc, APEX)?);
        let hashed = if shape.is_hashed { count } else { 0 };
        let hashes = hashes_of(alloc, hashed)?;
        Ok(Maker {
            alloc,
            shape,
            count,
            hashes,
            apex,
        })
    }

    // How long a record with a number lives; the apex's lives long.
    fn ttl(&self, number: u32, is_apex: bool) -> u32 {
        if self.shape.is_half_dead && number % 2 == 1 && !is_apex {
            1
        } else {
            3600
        }
    }

    // The number behind a number; behind the last one comes 0.
    fn next(&self, number: u32) -> u32 {
        let next = number.saturating_add(1);
        if next < self.count { next } else { 0 }
    }

    // The hash with a number.
    fn hash(&self, number: u32) -> [u8; 20] {
        match self.hashes.get(number as usize) {
            Some(hash) => *hash,
            None => [0; 20],
        }
    }

    // The NSEC record with a number.
    fn nsec(&self, number: u32) -> Result<Record, NoMemory> {
        let owner = owner_of(self.alloc, number)?;
        let next = owner_of(self.alloc, self.next(number))?;
        nsec(
            self.alloc,
            owner,
            &next,
            TYPES,
            self.ttl(number, number == 0),
        )
    }

    // The NSEC3 record with a number.
    fn nsec3(&self, number: u32) -> Result<Record, NoMemory> {
        let hash = self.hash(number);
        let next = self.hash(self.next(number));
        let owner = hashed_owner(self.alloc, &hash, APEX)?;
        let ttl = self.ttl(number, hash == self.apex);
        nsec3(self.alloc, owner, &next, TYPES, PLAIN, ttl)
    }

    // The record with a number.
    fn record(&self, number: u32) -> Result<Record, NoMemory> {
        if self.shape.is_hashed {
            self.nsec3(number)
        } else {
            self.nsec(number)
        }
    }

    // A response with the records from a number on, so many at the most.
    fn response(&self, from: u32, many: u32) -> Result<DnsResponse, NoMemory> {
        let mut response = no_records(self.alloc);
        for number in from..from.saturating_add(many).min(self.count) {
            add(self.alloc, &mut response, self.record(number)?, APEX)?;
        }
        Ok(response)
    }
}

// A store that has learned all records.
fn filled(maker: &Maker) -> Result<NegativeStore, NoMemory> {
    let mut store = NegativeStore::new(maker.alloc, at_least_one(maker.count));
    for number in 0..maker.count / FILLED + 1 {
        let response = maker.response(number.saturating_mul(FILLED), FILLED)?;
        let _ = store.learn(&response, 0)?;
    }
    Ok(store)
}

// A question for the address of the name with a number.
fn question(alloc: Global, number: u32) -> Result<Query, NoMemory> {
    Ok(Query {
        name: numbered(alloc, number)?,
        query_type: RecordType::A,
        query_class: DNSClass::IN,
    })
}

// Questions over all of the zone: for names between owners, or, where they aren't to be denied, for owners. These owners have even numbers, so that
// their records live long, and none is the apex.
fn questions(alloc: Global, count: u32, denied: bool) -> Result<Vec<Query>, NoMemory> {
    let mut questions = Vec::new(alloc);
    let step = at_least_one(count / QUESTIONS);
    for number in 0..QUESTIONS {
        let owner = number.saturating_mul(step) % at_least_one(count) / 2 * 2;
        let name = owner
            .max(2)
            .saturating_mul(2)
            .saturating_add(u32::from(denied));
        questions.push(question(alloc, name)?)?;
    }
    Ok(questions)
}

// Whether a store denies the question with a number; behind the last one comes the first again.
fn is_denied(store: &NegativeStore, questions: &[Query], number: u32) -> Result<bool, NoMemory> {
    match questions.get((number % QUESTIONS) as usize) {
        Some(query) => Ok(store.synthesize(query, NOW)?.is_some()),
        None => Ok(false),
    }
}

// How many of so many questions are denied, or, of those that aren't to be, how many aren't.
fn asked(maker: &Maker, times: u32, denied: bool) -> Result<u64, NoMemory> {
    let store = filled(maker)?;
    let questions = questions(maker.alloc, maker.count, denied)?;
    let mut count: u64 = 0;
    for number in 0..times {
        let held = is_denied(&store, &questions, number)? == denied;
        count = count.saturating_add(u64::from(held));
    }
    Ok(count)
}

// How many records a store learns of a response with the records from a number on, or how many this has alone.
fn taught(
    maker: &Maker,
    store: &mut NegativeStore,
    from: u32,
    learns: bool,
) -> Result<u64, NoMemory> {
    let response = maker.response(from, LEARNED)?;
    if learns {
        Ok(u64::from(store.learn(&response, NOW)?))
    } else {
        Ok(response.message.authorities.len() as u64)
    }
}

// How many records a full store learns again in so many responses, or how many are made alone.
fn learned(maker: &Maker, responses: u32, learns: bool) -> Result<u64, NoMemory> {
    let mut store = filled(maker)?;
    let mut count: u64 = 0;
    for number in 0..responses {
        let from = number.wrapping_mul(LEARNED) % at_least_one(maker.count);
        let taken = taught(maker, &mut store, from, learns)?;
        count = count.saturating_add(taken);
    }
    Ok(count)
}

/// How often it went well with a store of so many records of a shape: so many questions were answered as they should be, or so many
/// responses learned.
pub(crate) fn kept_load(alloc: Global, form: Form) -> Result<u64, NoMemory> {
    let maker = Maker::new(alloc, shape_of(form.third), form.first)?;
    match form.work {
        Work::Hits => asked(&maker, form.second, true),
        Work::Misses => asked(&maker, form.second, false),
        Work::Learn => learned(&maker, form.second, true),
        _ => learned(&maker, form.second, false),
    }
}
