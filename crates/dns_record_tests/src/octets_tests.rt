//! Octets: copies and parts of few bytes and of many, and octets in another thread.
use crate::rows::{Row, check_held, check_rows};
use dns_record::{NoMemory, Octets};
use std::alloc::{AllocError, Global};
use std::thread::spawn;

/// How the octets are made.
#[derive(Clone, Copy)]
enum Made {
    Copied,
    Owned,
    Shared,
}

/// So many bytes, and the places at which a part begins and ends.
struct Part(usize, usize, usize);

/// Twenty-four bytes stand in the value itself, and no more.
const PARTS: &[(&str, Part)] = &[
    ("none of none", Part(0, 0, 0)),
    ("the one", Part(1, 0, 1)),
    ("all of 24", Part(24, 0, 24)),
    ("all of 25", Part(25, 0, 25)),
    ("the first 24 of 25", Part(25, 0, 24)),
    ("the last 24 of 25", Part(25, 1, 25)),
    ("the last 25 of 26", Part(26, 1, 26)),
    ("the middle of 200", Part(200, 3, 150)),
    ("the last of 200", Part(200, 199, 200)),
    ("none of 200", Part(200, 200, 200)),
    ("the middle of 70,000", Part(70_000, 1, 69_999)),
];

/// Each byte is its place, modulo 251.
fn counted(alloc: Global, len: usize) -> Result<Vec<u8>, AllocError> {
    let mut bytes = Vec::with_capacity(alloc, len)?;
    for place in 0..len {
        bytes.push((place % 251) as u8)?;
    }
    Ok(bytes)
}

fn octets_made(alloc: Global, how: Made, len: usize) -> Result<Octets, NoMemory> {
    let bytes = counted(alloc, len)?;
    match how {
        Made::Copied => Octets::from_slice(alloc, bytes.as_slice()),
        Made::Owned => Ok(Octets::from_vec(bytes)),
        Made::Shared => Octets::from_vec(bytes).into_shared(),
    }
}

/// Whether octets have the bytes that are counted from one place up to another.
fn are_counted(octets: &[u8], start: usize, end: usize) -> bool {
    let mut place = start;
    for byte in octets {
        if place >= end || usize::from(*byte) != place % 251 {
            return false;
        }
        place += 1;
    }
    place == end
}

/// A part of a part of octets that are gone; an error where they end before.
fn part_of(octets: Octets, row: &Part) -> Result<Octets, NoMemory> {
    let whole = octets.part(0, octets.len())?;
    // The part stands without them.
    drop(octets);
    if row.2 < row.1 || whole.len() < row.2 {
        return Err(NoMemory);
    }
    whole.part(row.1, row.2)
}

fn is_part(part: Result<Octets, NoMemory>, row: &Part) -> bool {
    match part {
        Ok(part) => are_counted(part.as_slice(), row.1, row.2),
        Err(_) => false,
    }
}

fn is_front(front: Result<Vec<u8>, NoMemory>, row: &Part) -> bool {
    match front {
        Ok(front) => are_counted(&front, 0, row.2),
        Err(_) => false,
    }
}

/// What is cut from octets stays in their copy.
fn are_cut(octets: Octets, copy: Octets, row: &Part) -> bool {
    let is_front = is_front(octets.truncated(row.2).into_vec(), row);
    let is_whole = are_counted(copy.as_slice(), 0, row.0);
    is_part(part_of(copy, row), row) && is_front && is_whole
}

fn is_copied_and_cut(made: Result<Octets, NoMemory>, row: &Part) -> bool {
    match made {
        Ok(octets) => match octets.try_clone() {
            Ok(copy) => are_cut(octets, copy, row),
            Err(_) => false,
        },
        Err(_) => false,
    }
}

impl Row for Part {
    fn holds(&self, alloc: Global, _name: &str) -> bool {
        is_copied_and_cut(octets_made(alloc, Made::Copied, self.0), self)
            && is_copied_and_cut(octets_made(alloc, Made::Owned, self.0), self)
            && is_copied_and_cut(octets_made(alloc, Made::Shared, self.0), self)
    }
}

#[test]
fn octets_are_copied_and_cut(rt: HostRuntime) {
    check_rows(&rt, rt.alloc(), PARTS);
}

const BYTES: &[u8] = &[7; 200];

fn shared(alloc: Global) -> Result<Octets, NoMemory> {
    let octets = Octets::from_slice(alloc, BYTES)?;
    octets.try_clone()
}

#[test]
fn octets_go_to_another_thread(rt: HostRuntime) {
    match shared(rt.alloc()) {
        Ok(octets) => match spawn(&rt, move || octets.len()) {
            Ok(reader) => check_held(&rt, "joined", reader.join(&rt) == BYTES.len()),
            Err(_) => check_held(&rt, "spawned", false),
        },
        Err(_) => check_held(&rt, "shared", false),
    }
}
