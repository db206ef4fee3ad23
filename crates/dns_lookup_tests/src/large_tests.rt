//! Validations of much: of a name of 255 bytes, which has a thousand records; and of six hundred sets, for each of which a zone is sought in vain.
use crate::driven_tests::are_same;
use crate::given::{Answer, MOMENT, ask_scene, put_message, validator_over};
use crate::rows::check_held;
use crate::scenes::Scene;
use dns_handle::{DnsError, NetError};
use dns_record::RecordType;
use dns_recorded::Recorded;
use std::alloc::Global;
use std::process::Abort;

/// The name's address is asked for, and no key is trusted.
const ASKED: Scene = Scene {
    depth: 26,
    name: "aaaaaaaaaaaaaaaaaaaaaaaaaaaaaaaaaaaaaaaaaaaaaaaaaaaaaaaaaaaaaaa.bbbbbbbbbbbbbbbbbbbbbbbbbbbbbbbbbbbbbbbbbbbbbbbbbbbbbbbbbbbbbbb.ccccccccccccccccccccccccccccccccccccccccccccccccccccccccccccccc.ddddddddddddddddddddddddddddddddddddddddddddddddddddddddddddd.",
    query_type: RecordType::A,
    anchors: &[],
    accepts: &[],
    replies: &[],
};

/// The reply up to its records.
const FRONT: &[u8] =
    b"\x00\x00\x84\x00\x00\x01\x03\xe8\x00\x00\x00\x00?aaaaaaaaaaaaaaaaaaaaaaaaaaaaaaaaaaaaaaaaaaaaaaaaaaaaaaaaaaaaaaa?bbbbbbbbbbbbbbbbbbbbbbbbbbbbbbbbbbbbbbbbbbbbbbbbbbbbbbbbbbbbbbb?ccccccccccccccccccccccccccccccccccccccccccccccccccccccccccccccc=ddddddddddddddddddddddddddddddddddddddddddddddddddddddddddddd\x00\x00\x01\x00\x01";

/// One of the records, an address of the name.
const RECORD: &[u8] = b"\xc0\x0c\0\x01\0\x01\0\0\x0e\x10\0\x04\xc0\0\x02\x01";

/// How many there are.
const MANY: u16 = 1_000;

/// The whole reply.
fn reply(rt: &impl Abort, alloc: Global) -> Vec<u8> {
    let mut bytes = Vec::from_slice(alloc, FRONT).expect(rt, "memory");
    for _ in 0..MANY {
        bytes.extend_from_slice(RECORD).expect(rt, "memory");
    }
    bytes
}

#[test]
fn a_thousand_records_of_a_long_name_are_validated(rt: HostRuntime) {
    let bytes = reply(&rt, rt.alloc());
    let same = are_same(&rt, rt.alloc(), &ASKED, &bytes);
    check_held(&rt, "as a lookup does", same);
}

/// An address is asked for, and nothing else is answered.
const UNSIGNED: Scene = Scene {
    depth: 26,
    name: "aa.",
    query_type: RecordType::A,
    anchors: &[],
    accepts: &[],
    replies: &[],
};

/// A reply of six hundred records up to these.
const MANY_FRONT: &[u8] = b"\0\0\x84\0\0\x01\x02\x58\0\0\0\0\x02aa\0\0\x01\0\x01";

/// What follows the owner of each of them.
const ADDRESS: &[u8] = b"\0\0\x01\0\x01\0\0\x0e\x10\0\x04\xc0\0\x02\x01";

/// Addresses of `aa.`, `ab.` and so on, each a set of its own.
fn six_hundred(rt: &impl Abort, alloc: Global) -> Vec<u8> {
    let mut bytes = Vec::from_slice(alloc, MANY_FRONT).expect(rt, "memory");
    for first in b'a'..b'y' {
        for second in b'a'..b'z' {
            bytes
                .extend_from_slice(&[2, first, second])
                .expect(rt, "memory");
            bytes.extend_from_slice(ADDRESS).expect(rt, "memory");
        }
    }
    bytes
}

/// How many steps a lookup of six hundred sets has, where each ask but the first one fails.
fn steps_of_many(rt: &impl Abort, alloc: Global) -> Option<usize> {
    let bytes = six_hundred(rt, alloc);
    let mut recorded = Recorded::new(alloc);
    put_message(rt, alloc, &mut recorded, "aa.", RecordType::A, &bytes);
    let mut validator = validator_over(rt, alloc, recorded, &UNSIGNED);
    let answer = ask_scene(rt, alloc, &mut validator, &UNSIGNED, MOMENT);
    steps_in(&answer)
}

/// The steps of an answer's trail, or of the trail inside a denial.
fn steps_in(answer: &Answer) -> Option<usize> {
    match answer {
        Ok(response) => Some(response.trail.steps.len()),
        Err(NetError::Dns(DnsError::Nsec { response, .. })) => Some(response.trail.steps.len()),
        Err(_) => None,
    }
}

#[test]
fn six_hundred_asks_that_fail_are_answered(rt: HostRuntime) {
    let steps = steps_of_many(&rt, rt.alloc());
    check_held(
        &rt,
        "one step for the query and one for each set",
        steps == Some(601),
    );
}
