//! What a message shows of a zone's keys.

use crate::parts::*;
use dns_anchor_roll::Sighting;
use dns_message::Message;
use dns_record::{DNSClass, Name, RecordType};
use std::alloc::Global;
use std::process::Abort;

/// A message with nothing in it.
fn empty_message(rt: &impl Abort, alloc: Global) -> Message {
    let bytes = b"\0\0\x84\0\0\0\0\0\0\0\0\0";
    Message::from_vec(alloc, bytes).expect(rt, "a message")
}

#[test]
fn a_message_shows_keys_with_their_signatures(rt: HostRuntime) {
    let alloc = rt.alloc();
    let root = Name::root(alloc).expect(&rt, "memory");
    let other = Name::from_ascii(alloc, "other.").expect(&rt, "a name");
    let mut message = empty_message(&rt, alloc);
    let none = Sighting::of(alloc, &message, &root, 5).expect(&rt, "memory");
    check_row(&rt, "no record", none.is_none());

    message
        .answers
        .push(signature_by(&rt, alloc, K, 3600))
        .expect(&rt, "memory");
    let alone = Sighting::of(alloc, &message, &root, 5).expect(&rt, "memory");
    check_row(&rt, "a signature alone", alone.is_none());

    for key in &[K, N_PLAIN, b"\x01"] {
        let next = record(&rt, alloc, RecordType::DNSKEY, key);
        message.answers.push(next).expect(&rt, "memory");
    }
    let mut chaos = record(&rt, alloc, RecordType::DNSKEY, N);
    chaos.dns_class = DNSClass(3);
    message.answers.push(chaos).expect(&rt, "memory");
    let unreadable = record(&rt, alloc, RecordType::RRSIG, b"\0\x30");
    message.answers.push(unreadable).expect(&rt, "memory");
    let mut elsewhere = record(&rt, alloc, RecordType::DNSKEY, N);
    elsewhere.name = other.try_clone().expect(&rt, "memory");
    message.answers.push(elsewhere).expect(&rt, "memory");
    let beside = record(&rt, alloc, RecordType::DNSKEY, N);
    message.authorities.push(beside).expect(&rt, "memory");

    let shown = Sighting::of(alloc, &message, &root, 5).expect(&rt, "memory");
    let right = match &shown {
        Some(seen) => {
            seen.moment == 5 && seen.set.records.len() == 3 && seen.set.rrsigs.len() == 1
        }
        None => false,
    };
    check_row(&rt, "three keys and a signature", right);
    let missing = Sighting::of(alloc, &message, &other, 5).expect(&rt, "memory");
    let one = match &missing {
        Some(seen) => seen.set.records.len() == 1 && seen.set.rrsigs.is_empty(),
        None => false,
    };
    check_row(&rt, "another zone's", one);
}
