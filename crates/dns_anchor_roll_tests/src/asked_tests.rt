//! How often the verifier is asked: of a signature and a key once.

use crate::counting::Counting;
use crate::parts::*;
use dns_anchor_roll::{Seen, Sighting};
use dns_record::{DNSClass, Name, Rdata, Record, RecordSet, RecordType};
use std::alloc::Global;
use std::cell::Cell;
use std::process::Abort;

/// How many keys of strangers there are.
const STRANGERS: u16 = 3_000;

/// A stranger's key, by its number, with the tag of `K`: the two halves of its public key have the sum of `K`'s public key.
fn stranger(rt: &impl Abort, alloc: Global, number: u16) -> Rdata {
    let [first, second] = number.to_be_bytes();
    let [third, fourth] = 0xaabb_u16.wrapping_sub(number).to_be_bytes();
    rdata_of(rt, alloc, &[1, 1, 3, 13, first, second, third, fourth])
}

/// `K` behind the keys of strangers.
fn crowd(rt: &impl Abort, alloc: Global) -> Vec<Record> {
    let mut records = Vec::new(alloc);
    for number in 1..=STRANGERS {
        let key = stranger(rt, alloc, number);
        let next = record(rt, alloc, RecordType::DNSKEY, key.as_slice());
        records.push(next).expect(rt, "memory");
    }
    let own = record(rt, alloc, RecordType::DNSKEY, K);
    records.push(own).expect(rt, "memory");
    records
}

/// A signature with the tag of `K` that isn't good, by its number.
fn bad_signature(rt: &impl Abort, alloc: Global, number: u8) -> Record {
    let good = signature_by(rt, alloc, K, 3600);
    let mut rdata = Vec::from_slice(alloc, good.rdata.as_slice()).expect(rt, "memory");
    rdata.push(number).expect(rt, "memory");
    record(rt, alloc, RecordType::RRSIG, &rdata)
}

/// Nine of them.
fn bad_signatures(rt: &impl Abort, alloc: Global) -> Vec<Record> {
    let mut rrsigs = Vec::new(alloc);
    for number in 0..9 {
        let next = bad_signature(rt, alloc, number);
        rrsigs.push(next).expect(rt, "memory");
    }
    rrsigs
}

#[test]
fn copies_are_asked_once(rt: HostRuntime) {
    let alloc = rt.alloc();
    let questions = Cell::new(0);
    let counting = Counting {
        questions: &questions,
    };
    let mut roll = roll_of(&rt, alloc, counting, &[K]);
    let keys: &[&[u8]] = &[K, K, K_REVOKED, K, K_REVOKED, K_REVOKED];
    let mut copies = sighting(
        &rt,
        alloc,
        0,
        keys,
        &[(K, 3600), (K, 3600), (K_REVOKED, 60)],
    );
    for signature in &mut copies.set.rrsigs {
        let mut rdata = Vec::from_slice(alloc, signature.rdata.as_slice()).expect(&rt, "memory");
        rdata.push(1).expect(&rt, "memory");
        signature.rdata = rdata_of(&rt, alloc, &rdata);
    }
    check_row(&rt, "ignored", roll.see(&copies) == Ok(Seen::Ignored));
    check_row(&rt, "once for each form", questions.get() == 2);
}

#[test]
fn strangers_cost_eight_questions(rt: HostRuntime) {
    let alloc = rt.alloc();
    let questions = Cell::new(0);
    let counting = Counting {
        questions: &questions,
    };
    let mut roll = roll_of(&rt, alloc, counting, &[K]);
    let set = RecordSet {
        name: Name::root(alloc).expect(&rt, "memory"),
        record_type: RecordType::DNSKEY,
        dns_class: DNSClass::IN,
        records: crowd(&rt, alloc),
        rrsigs: bad_signatures(&rt, alloc),
    };
    let sighting = Sighting { moment: 0, set };
    check_row(&rt, "ignored", roll.see(&sighting) == Ok(Seen::Ignored));
    check_row(
        &rt,
        "the trusted key once for each of eight signatures",
        questions.get() == 8,
    );
}
