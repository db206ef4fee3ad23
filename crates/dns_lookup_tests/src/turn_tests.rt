//! Replies by turn, over several lookups. The rows of `rows/` have the trails of single ones.
use crate::given::{Answer, MOMENT, ask, put_message};
use crate::lookup_tests::handle_over;
use crate::rows::check_held;
use dns_handle::{DnsError, NetError};
use dns_model::Proof;
use dns_record::RecordType;
use dns_recorded::Recorded;
use std::alloc::Global;
use std::process::Abort;

/// No key of the root.
const NO_KEY: &[u8] = b"\0\0\x84\0\0\x01\0\0\0\0\0\0\0\0\x30\0\x01";

/// Its key set.
const KEY_SET: &[u8] =
    b"\0\0\x84\0\0\x01\0\x01\0\0\0\0\0\0\x30\0\x01\0\0\x30\0\x01\0\0\x0e\x10\0\x06\x01\x01\x03\x0d\xaa\xbb";

/// The keys are answered, or nothing is answered, and nothing shows that there are no keys.
fn is_end(answer: &Answer, has_keys: bool) -> bool {
    match answer {
        Ok(_) => has_keys,
        Err(NetError::Dns(DnsError::Nsec { proof, .. })) => !has_keys && *proof == Proof::Bogus,
        Err(_) => false,
    }
}

/// The lookups of the keys, one after another over such replies, have keys so.
fn end_so(rt: &impl Abort, alloc: Global, replies: Recorded, ends: &[bool]) -> bool {
    let mut replies = replies;
    put_message(rt, alloc, &mut replies, ".", RecordType::DNSKEY, NO_KEY);
    put_message(rt, alloc, &mut replies, ".", RecordType::DNSKEY, KEY_SET);
    let mut handle = handle_over(rt, alloc, replies);
    let mut held = true;
    for has_keys in ends {
        let answer = ask(rt, alloc, &mut handle, ".", RecordType::DNSKEY, 26, MOMENT);
        held = held && is_end(&answer, *has_keys);
    }
    held
}

#[test]
fn replies_are_taken_by_turn_or_the_first_again(rt: HostRuntime) {
    let alloc = rt.alloc();
    let ends = &[false, true, true];
    check_held(
        &rt,
        "by turn each send takes the next reply, and then the last",
        end_so(&rt, alloc, Recorded::in_turn(alloc), ends),
    );
    let ends = &[false, false, false];
    check_held(
        &rt,
        "else each send takes the first reply",
        end_so(&rt, alloc, Recorded::new(alloc), ends),
    );
}
