//! Random lists of NSEC and NSEC3 records, each beside its index: of few names and hashes, so that owners and ends fall together.
ghost use Rattle.std.specs.Prelude.{◌≡◌, ◌<◌};

use dns_denial::{nsec_covering, nsec3_covering};
use dns_denial_index::{Nsec3Index, NsecIndex};
use dns_evidence::Steps;
use dns_rdata::{Nsec3Record, NsecRecord, base32hex_encode};
use dns_record::{Name, NoMemory, Octets};
use std::alloc::Global;
use std::marker::Brand;
use std::sync::ledger::{Blank, Ledger};

/// So many lists there are of each kind.
const LISTS: u32 = 300_000;

/// A list has fewer records than this.
const MOST_RECORDS: u64 = 8;

/// More records than a list has.
const MANY: usize = 100;

/// The names of which lists are made, and which are looked for.
const NAMES: &[&[u8]] = &[
    b"\0",
    b"\x01a\0",
    b"\x01A\0",
    b"\x01b\0",
    b"\x01c\0",
    b"\x01a\x01b\0",
    b"\x01b\x01b\0",
    b"\x01c\x01b\x01b\0",
    b"\x01*\x01b\0",
];

/// What may stand at an owner: an address, a delegation, an apex, a DNAME.
const TYPES: &[&[u8]] = &[
    b"\0\x01\x40",
    b"\0\x01\x20",
    b"\0\x01\x22",
    b"\0\x05\0\0\0\0\x01",
];

/// The bytes of which hashes are made, and of which those are that are looked for.
const BYTES: &[u8] = &[0, 0x10, 0x20, 0x30, 0x40, 0xff];

/// The next number of a row that a seed begins.
fn draw(state: &mut u64) -> u64 {
    *state = state
        .wrapping_mul(6_364_136_223_846_793_005)
        .wrapping_add(1_442_695_040_888_963_407);
    *state >> 33
}

/// A number below a bound.
fn draw_below(state: &mut u64, bound: u64) -> u64
    ensures { 0 < bound → result < bound }
{
    if bound == 0 {
        return 0;
    }
    draw(state) % bound
}

fn names_of(alloc: Global) -> Result<Vec<Name>, NoMemory> {
    let mut names = Vec::new(alloc);
    for wire in NAMES {
        if let Some(name) = Name::from_wire(alloc, wire)? {
            names.push(name)?;
        }
    }
    Ok(names)
}

fn drawn(alloc: Global, state: &mut u64, names: &[Name]) -> Result<Name, NoMemory> {
    match names.get(draw_below(state, 9) as usize) {
        Some(name) => name.try_clone(),
        None => Name::root(alloc),
    }
}

fn drawn_types(alloc: Global, state: &mut u64) -> Result<Octets, NoMemory> {
    Octets::from_slice(alloc, TYPES[draw_below(state, 4) as usize])
}

fn random_nsec(alloc: Global, state: &mut u64, names: &[Name]) -> Result<NsecRecord, NoMemory> {
    let owner = drawn(alloc, state, names)?;
    let next = drawn(alloc, state, names)?;
    let types = drawn_types(alloc, state)?;
    Ok(NsecRecord { owner, next, types })
}

fn random_nsecs(
    alloc: Global,
    state: &mut u64,
    names: &[Name],
) -> Result<Vec<NsecRecord>, NoMemory> {
    let mut nsecs = Vec::new(alloc);
    for _ in 0..draw_below(state, MOST_RECORDS) {
        nsecs.push(random_nsec(alloc, state, names)?)?;
    }
    Ok(nsecs)
}

/// Index and list find the same record for each of the names.
fn names_are_alike<L: Ledger>(index: &NsecIndex, names: &[Name], blank: Blank) -> bool
    requires name { blank.name ≡ L.name }
    requires parts { blank.parts ≡ L.parts }
    requires some { 0 < blank.parts }
{
    let mut steps = Steps::<L>::new(blank);
    for name in names {
        if MANY < index.records().len() {
            return false;
        }
        if index.covering(name, &mut steps) != nsec_covering(name, index.records()) {
            return false;
        }
    }
    true
}

/// They do so for a random list.
fn is_alike(alloc: Global, state: &mut u64, names: &[Name]) -> Result<bool, NoMemory> {
    let nsecs = random_nsecs(alloc, state, names)?;
    if MANY < nsecs.len() {
        return Ok(false);
    }
    let index = NsecIndex::new(nsecs)?;
    Ok(names_are_alike::<Brand>(&index, names, Blank::new(1)))
}

fn are_alike(alloc: Global) -> Result<bool, NoMemory> {
    let names = names_of(alloc)?;
    let mut state = 20_150_401;
    for _ in 0..LISTS {
        if !is_alike(alloc, &mut state, &names)? {
            return Ok(false);
        }
    }
    Ok(true)
}

#[test]
fn an_index_of_a_random_list_finds_what_the_list_does(rt: HostRuntime) {
    let alike = are_alike(rt.alloc());
    assert!(&rt; alike == Ok(true));
}

/// The name right below the root whose label is the text of a hash.
fn owner_of(alloc: Global, byte: u8) -> Result<Name, NoMemory> {
    let text = base32hex_encode(&[byte; 20]);
    let mut wire = Vec::new(alloc);
    wire.push(32)?;
    wire.extend_from_slice(text.as_slice())?;
    wire.push(0)?;
    match Name::from_wire(alloc, wire.as_slice())? {
        Some(name) => Ok(name),
        None => Name::root(alloc),
    }
}

fn drawn_byte(state: &mut u64) -> u8 {
    BYTES[draw_below(state, 6) as usize]
}

/// Of flags above 1 the record is ignored.
fn random_nsec3(alloc: Global, state: &mut u64) -> Result<Nsec3Record, NoMemory> {
    let owner = owner_of(alloc, drawn_byte(state))?;
    let next = Octets::from_slice(alloc, [drawn_byte(state); 20].as_slice())?;
    Ok(Nsec3Record {
        owner,
        hash_algorithm: 1,
        flags: (draw_below(state, 8) / 3) as u8,
        iterations: 0,
        salt: Octets::empty(alloc),
        next,
        types: Octets::empty(alloc),
    })
}

fn random_nsec3s(alloc: Global, state: &mut u64) -> Result<Vec<Nsec3Record>, NoMemory> {
    let mut nsec3s = Vec::new(alloc);
    for _ in 0..draw_below(state, MOST_RECORDS) {
        nsec3s.push(random_nsec3(alloc, state)?)?;
    }
    Ok(nsec3s)
}

/// Index and list find the same record for each of the hashes.
fn hashes_are_alike<L: Ledger>(index: &Nsec3Index, blank: Blank) -> bool
    requires name { blank.name ≡ L.name }
    requires parts { blank.parts ≡ L.parts }
    requires some { 0 < blank.parts }
{
    let mut steps = Steps::<L>::new(blank);
    for byte in BYTES {
        if MANY < index.records().len() {
            return false;
        }
        let hash = [*byte; 20];
        if index.covering(&hash, &mut steps) != nsec3_covering(&hash, index.records()) {
            return false;
        }
    }
    true
}

/// They do so for a random list.
fn is_alike_by_hash(alloc: Global, state: &mut u64) -> Result<bool, NoMemory> {
    let nsec3s = random_nsec3s(alloc, state)?;
    if MANY < nsec3s.len() {
        return Ok(false);
    }
    let index = Nsec3Index::new(nsec3s)?;
    Ok(hashes_are_alike::<Brand>(&index, Blank::new(1)))
}

fn are_alike_by_hash(alloc: Global) -> Result<bool, NoMemory> {
    let mut state = 20_080_301;
    for _ in 0..LISTS {
        if !is_alike_by_hash(alloc, &mut state)? {
            return Ok(false);
        }
    }
    Ok(true)
}

#[test]
fn an_index_of_a_random_list_of_hashes_finds_what_the_list_does(rt: HostRuntime) {
    let alike = are_alike_by_hash(rt.alloc());
    assert!(&rt; alike == Ok(true));
}
