//! Lists that are long: many keys that are given, many in one set, many sightings, and a long message.

use crate::counting::Counting;
use crate::parts::*;
use dns_anchor_roll::{Seen, Sighting, roll};
use dns_model::Proof;
use dns_record::{DNSClass, Name, Rdata, Record, RecordType};
use std::alloc::Global;
use std::cell::Cell;
use std::process::Abort;

/// More than 16 bits count.
const MANY: u32 = 70_000;

/// A key by its number.
fn numbered(rt: &impl Abort, alloc: Global, number: u32) -> Rdata {
    let [first, second, third, fourth] = number.to_be_bytes();
    rdata_of(rt, alloc, &[1, 1, 3, 13, first, second, third, fourth])
}

/// Many keys of the root.
fn numbered_records(rt: &impl Abort, alloc: Global) -> Vec<Record> {
    let mut records = Vec::new(alloc);
    for number in 0..MANY {
        let next = Record {
            name: Name::root(alloc).expect(rt, "memory"),
            record_type: RecordType::DNSKEY,
            dns_class: DNSClass::IN,
            ttl: 60,
            rdata: numbered(rt, alloc, number),
            proof: Proof::Indeterminate,
        };
        records.push(next).expect(rt, "memory");
    }
    records
}

#[test]
fn a_roll_follows_70_000_keys(rt: HostRuntime) {
    let alloc = rt.alloc();
    let questions = Cell::new(0);
    let counting = Counting {
        questions: &questions,
    };
    let mut keys = Vec::new(alloc);
    for number in 0..MANY {
        keys.push(numbered(&rt, alloc, number))
            .expect(&rt, "memory");
    }
    let last = numbered(&rt, alloc, MANY - 1);
    let mut first = sighting(&rt, alloc, 0, &[], &[(last.as_slice(), 3600)]);
    first.set.records = numbered_records(&rt, alloc);
    let mut second = sighting(&rt, alloc, 1, &[], &[(last.as_slice(), 3600)]);
    second.set.records = numbered_records(&rt, alloc);
    let mut sightings = Vec::new(alloc);
    sightings.push(first).expect(&rt, "memory");
    sightings.push(second).expect(&rt, "memory");
    let root = Name::root(alloc).expect(&rt, "memory");
    let mut followed = roll(alloc, counting, root, keys, &sightings).expect(&rt, "a roll");
    check_row(
        &rt,
        "accepted",
        followed.see(&sightings[1]) == Ok(Seen::Accepted),
    );
    let anchors = followed.anchors().expect(&rt, "memory");
    check_row(&rt, "each is trusted", anchors.len() == MANY as usize);
}
