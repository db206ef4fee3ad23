//! Sets, rdatas and bitmaps that are larger than a byte or 16 bits count, and what is copied of them.
use crate::rdata_signed_tests::are_octets;
use crate::record_tests::record;
use crate::rows::check_held;
use dns_model::NameError;
use dns_rdata::{Nsec3Record, NsecRecord, canonical_rdata};
use dns_record::{NoMemory, Record, RecordSet, RecordType};
use std::alloc::Global;
use std::process::Abort;

const MANY: usize = 70_000;

/// Windows of a bitmap, each with every type; and the bytes of the bitmap.
const WINDOWS: u8 = 255;

const BITMAP: usize = 34 * 256;

/// Whether a set takes one more record, whose name, type and class it has.
fn takes_next(rt: &impl Abort, alloc: Global, set: &mut RecordSet) -> bool {
    let next = record(alloc, ".", 2, b"\x01b\0").expect(rt, "memory");
    if set.name != next.name
        || set.record_type != next.record_type
        || set.dns_class != next.dns_class
    {
        return false;
    }
    set.push(next).is_ok()
}

fn fill(rt: &impl Abort, alloc: Global, set: &mut RecordSet) -> bool {
    for _ in 0..MANY {
        if !takes_next(rt, alloc, set) {
            return false;
        }
    }
    true
}

/// The last record is one that was pushed.
fn is_filled(set: &RecordSet) -> bool {
    set.records.len() == MANY + 1
        && matches!(set.records.get(MANY), Some(last) if last.rdata.as_slice() == b"\x01b\0".as_slice())
}

fn grows(rt: &impl Abort, alloc: Global) -> bool {
    let first = record(alloc, ".", 2, b"\x01a\0").expect(rt, "memory");
    let mut set = RecordSet::of(alloc, first).expect(rt, "memory");
    let filled = fill(rt, alloc, &mut set);
    let copy = set.try_clone().expect(rt, "memory");
    // The copy stands without the set.
    drop(set);
    filled && is_filled(&copy)
}

#[test]
fn a_set_of_70_000_records_is_made_and_copied(rt: HostRuntime) {
    check_held(&rt, "NS records", grows(&rt, rt.alloc()));
}

/// A window with every type. As an array of a function it would be dear to prove, and so would a long salt.
const WINDOW: &[u8] = &[255; 32];

/// A bitmap of every type behind a front.
fn with_bitmap(alloc: Global, front: &[u8]) -> Result<Vec<u8>, NoMemory> {
    let mut bytes = Vec::from_slice(alloc, front)?;
    for window in 0..=WINDOWS {
        bytes.extend_from_slice(&[window, 32])?;
        bytes.extend_from_slice(WINDOW)?;
    }
    Ok(bytes)
}

/// A record of the root with a bitmap of every type behind a front.
fn at_root_with_bitmap(alloc: Global, number: u16, front: &[u8]) -> Result<Record, NameError> {
    let bytes = with_bitmap(alloc, front)?;
    record(alloc, ".", number, &bytes)
}

/// The copy has the owner, the next name and the last type.
fn nsec_is_copied(rt: &impl Abort, alloc: Global) -> bool {
    let from = at_root_with_bitmap(alloc, 47, b"\x01b\0").expect(rt, "memory");
    let nsec = NsecRecord::of(alloc, &from)
        .expect(rt, "memory")
        .expect(rt, "an NSEC record");
    let copy = nsec.try_clone().expect(rt, "memory");
    // The copy stands without the record.
    drop(nsec);
    copy.owner.is_root()
        && copy.next.wire() == b"\x01b\0".as_slice()
        && copy.type_set().contains(RecordType(65_535))
}

/// A salt of 255 bytes and a next hash of as many, each behind its size, all of the same byte.
const LONG: &[u8] = &[255; 512];

const PART: &[u8] = &[255; 255];

fn long_front(alloc: Global) -> Result<Vec<u8>, NoMemory> {
    let mut front = Vec::from_slice(alloc, b"\x01\0\0\x0c")?;
    front.extend_from_slice(LONG)?;
    Ok(front)
}

/// The copy has the owner, the iterations, the salt, the next hash and the last type.
fn nsec3_is_copied(rt: &impl Abort, alloc: Global) -> bool {
    let front = long_front(alloc).expect(rt, "memory");
    let from = at_root_with_bitmap(alloc, 50, &front).expect(rt, "memory");
    let nsec3 = Nsec3Record::of(alloc, &from)
        .expect(rt, "memory")
        .expect(rt, "an NSEC3 record");
    let copy = nsec3.try_clone().expect(rt, "memory");
    // The copy stands without the record.
    drop(nsec3);
    copy.owner.is_root()
        && copy.iterations == 12
        && *copy.salt.as_slice() == *PART
        && *copy.next.as_slice() == *PART
        && copy.type_set().contains(RecordType(65_535))
}

#[test]
fn denials_of_every_type_are_copied(rt: HostRuntime) {
    check_held(&rt, "NSEC", nsec_is_copied(&rt, rt.alloc()));
    check_held(&rt, "NSEC3", nsec3_is_copied(&rt, rt.alloc()));
}

/// An rdata with every type in its bitmap is its own canonical form.
fn is_canonical(alloc: Global) -> Result<bool, NoMemory> {
    let bytes = with_bitmap(alloc, b"\x01b\0")?;
    let canonical = canonical_rdata(alloc, RecordType::NSEC, &bytes);
    Ok(are_octets(canonical, &bytes) && bytes.len() == BITMAP + 3)
}

#[test]
fn a_long_rdata_has_its_canonical_form(rt: HostRuntime) {
    check_held(&rt, "NSEC", is_canonical(rt.alloc()) == Ok(true));
}
