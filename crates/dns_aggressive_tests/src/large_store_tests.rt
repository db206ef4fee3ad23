//! A store of 65,536 records, and responses with tens of thousands of them.

use crate::given::*;
use dns_aggressive::NegativeStore;
use dns_handle::DnsResponse;
use dns_record::Name;
use std::alloc::Global;
use std::process::Abort;

/// How many records a store keeps.
const LIMIT: u32 = 65_536;

/// How many responses there are, and how many records each has.
const RESPONSES: u32 = 2;

const RECORDS: u32 = 35_000;

fn numbered(rt: &impl Abort, alloc: Global, number: u32) -> Name {
    let text = format!(in alloc; "n{number}.z.").expect(rt, "memory");
    name(rt, alloc, text.as_str())
}

/// A response whose NSEC records own these names; each has the next name right below its owner.
fn response(rt: &impl Abort, alloc: Global, from: u32) -> DnsResponse {
    let mut response = empty(alloc);
    for number in from..from.saturating_add(RECORDS) {
        let owner = numbered(rt, alloc, number);
        let text = format!(in alloc; "a.n{number}.z.").expect(rt, "memory");
        let data = nsec(rt, alloc, text.as_str(), &[A]);
        add(rt, alloc, &mut response, secure(owner, 47, 100, data), "z.");
    }
    response
}

#[test]
fn a_store_keeps_65_536_records_and_denies_by_them(rt: HostRuntime) {
    let alloc = rt.alloc();
    let mut store = NegativeStore::new(alloc, LIMIT);
    for number in 0..RESPONSES {
        let met = response(&rt, alloc, number.wrapping_mul(RECORDS));
        let count = store.learn(&met, 0).expect(&rt, "memory");
        check(&rt, "all are taken", count == RECORDS);
    }
    check(&rt, "the limit", store.kept().len() == 65_536);
    let last = query(&rt, alloc, "n69999.z.", MX);
    let found = store.synthesize(&last, 99).expect(&rt, "memory");
    check(&rt, "the last one", found.is_some());
    let first = query(&rt, alloc, "n0.z.", MX);
    let found = store.synthesize(&first, 99).expect(&rt, "memory");
    check(&rt, "the first one is gone", found.is_none());
}
