//! Calls on a store, and what each answers (RFC 8198, 5.1 to 5.4), row by row.

use crate::given::*;
use dns_aggressive::{Kept, KeptRecord, NegativeStore, Synthesized};
use dns_handle::DnsResponse;
use dns_model::{Proof, Section};
use dns_record::{Name, Record};
use std::alloc::Global;
use std::process::Abort;

/// A record: owner, next owner, types and ttl; where it is an NSEC3 record, the zone below which its owner's hash stands, and how names
/// are hashed. Where no zone is named, the owner is no hash.
struct Told(
    &'static str,
    &'static str,
    &'static [u16],
    u32,
    Option<(&'static str, Way)>,
);

/// An answer: zone, code and ttl.
type Denied = Option<(&'static str, u16, u32)>;

/// A call.
enum Call {
    /// At a moment a response by a zone gives records, so many.
    Learn(u64, &'static str, &'static [Told], u32),
    /// A name and type are asked for at a moment.
    Ask(&'static str, u16, u64, Denied),
    /// The owners that are kept, and when each expires.
    Kept(&'static [(&'static str, u64)]),
}

use Call::{Ask, Learn};

/// What it shows, the limit, and calls.
struct Row(&'static str, u32, &'static [Call]);

const AA: Way = Way {
    algorithm: 1,
    flags: 0,
    iterations: 1,
    salt: b"\xaa",
};

const BB: Way = Way {
    algorithm: 1,
    flags: 0,
    iterations: 1,
    salt: b"\xbb",
};

const AA_100: Way = Way {
    algorithm: 1,
    flags: 0,
    iterations: 100,
    salt: b"\xaa",
};

const AA_101: Way = Way {
    algorithm: 1,
    flags: 0,
    iterations: 101,
    salt: b"\xaa",
};

const AA_501: Way = Way {
    algorithm: 1,
    flags: 0,
    iterations: 501,
    salt: b"\xaa",
};

const TOP: u64 = 18_446_744_073_709_551_615;

#[rattlefmt::skip]
const ROWS: &[Row] = &[
    Row("a covered name, and one that isn't", 65_536, &[
        Learn(1000, "example.", &[Told("b.example.", "ns1.example.", &[NS], 3600, None), Told("example.", "a.example.", &[NS, SOA], 3600, None)], 2),
        Ask("mm.example.", A, 1000, Some(("example.", 3, 3600))), Ask("zz.example.", A, 1000, None),
    ]),
    Row("a limit of 1", 1, &[
        Learn(1000, "example.", &[Told("b.example.", "ns1.example.", &[NS], 3600, None), Told("example.", "a.example.", &[NS, SOA], 3600, None)], 2),
        Call::Kept(&[("example.", 4600)]), Ask("mm.example.", A, 1000, None),
    ]),
    Row("moments", 8, &[
        Learn(1000, "z.", &[Told("z.", "a.z.", &[NS, SOA], 100, None), Told("b.z.", "z.", &[A], 100, None)], 2),
        Ask("c.z.", A, 999, Some(("z.", 3, 101))), Ask("c.z.", A, 1000, Some(("z.", 3, 100))),
        Ask("c.z.", A, 1099, Some(("z.", 3, 1))), Ask("c.z.", A, 1100, None),
    ]),
    Row("the least ttl", 8, &[
        Learn(1000, "z.", &[Told("z.", "a.z.", &[NS, SOA], 50, None), Told("b.z.", "z.", &[A], 100, None)], 2),
        Ask("c.z.", A, 1049, Some(("z.", 3, 1))), Ask("c.z.", A, 1050, None),
        Ask("b.z.", MX, 1049, Some(("z.", 0, 1))), Ask("b.z.", MX, 1050, Some(("z.", 0, 50))),
    ]),
    Row("a ttl is cut", 2, &[
        Learn(10_000_000_000, "z.", &[Told("b.z.", "z.", &[A], 100, None)], 1),
        Ask("b.z.", MX, 0, Some(("z.", 0, 4_294_967_295))), Ask("b.z.", MX, 10_000_000_000, Some(("z.", 0, 100))),
    ]),
    Row("the last moment", 2, &[
        Learn(TOP, "z.", &[Told("b.z.", "z.", &[A], 100, None)], 1), Call::Kept(&[("b.z.", TOP)]),
        Ask("b.z.", MX, TOP, None), Ask("b.z.", MX, TOP - 1, Some(("z.", 0, 1))),
    ]),
    Row("the longest zone", 8, &[
        Learn(0, ".", &[Told(".", "b.", &[NS, SOA], 100, None)], 1), Learn(0, "a.", &[Told("a.", "b.a.", &[NS, SOA], 10, None)], 1),
        Ask("0.a.", A, 0, Some(("a.", 3, 10))), Ask("x.a.", A, 0, None),
        Ask("x.a.", A, 10, Some((".", 3, 90))), Ask("a.", A, 0, Some(("a.", 0, 10))), Ask("a.", A, 10, Some((".", 3, 90))),
        Ask("a.", DS, 0, Some((".", 3, 100))), Ask("aa.", A, 0, Some((".", 3, 100))), Ask(".", MX, 0, Some((".", 0, 100))),
        Ask(".", DS, 0, None),
    ]),
    Row("replaced and dropped", 2, &[
        Learn(0, "z.", &[Told("a.z.", "b.z.", &[A], 100, None), Told("b.z.", "c.z.", &[A], 100, None)], 2),
        Call::Kept(&[("a.z.", 100), ("b.z.", 100)]),
        Learn(10, "Z.", &[Told("A.Z.", "b.z.", &[MX], 50, None)], 1), Call::Kept(&[("b.z.", 100), ("A.Z.", 60)]),
        Learn(20, "z.", &[Told("c.z.", "d.z.", &[A], 100, None)], 1), Call::Kept(&[("A.Z.", 60), ("c.z.", 120)]),
        Ask("a.z.", A, 20, Some(("z.", 0, 40))), Ask("a.z.", MX, 20, None), Ask("b.z.", MX, 20, None), Ask("c.z.", MX, 20, Some(("z.", 0, 40))),
    ]),
    Row("two of one place in a response", 9, &[
        Learn(0, "z.", &[Told("a.z.", "b.z.", &[A], 100, None), Told("a.z.", "c.z.", &[MX], 100, None)], 2), Call::Kept(&[("a.z.", 100)]),
        Ask("a.z.", A, 0, Some(("z.", 0, 100))), Ask("a.z.", MX, 0, None),
    ]),
    Row("one owner in two zones", 9, &[
        Learn(0, "z.", &[Told("a.z.", "b.z.", &[A], 100, None)], 1), Learn(0, ".", &[Told("a.z.", "b.z.", &[MX], 100, None)], 1),
        Call::Kept(&[("a.z.", 100), ("a.z.", 100)]), Ask("a.z.", MX, 0, Some(("z.", 0, 100))), Ask("a.z.", A, 0, None),
    ]),
    Row("several ways of hashing", 9, &[
        Learn(0, "z.", &[Told("q.z.", "q.z.", &[A], 100, Some(("z.", AA)))], 1), Learn(0, "z.", &[Told("q.z.", "q.z.", &[TXT], 70, Some(("z.", BB)))], 1),
        Ask("q.z.", MX, 0, Some(("z.", 0, 100))),
        Learn(1, "z.", &[Told("q.z.", "q.z.", &[A], 100, Some(("z.", AA)))], 1), Ask("q.z.", MX, 1, Some(("z.", 0, 69))),
        Ask("q.z.", A, 1, Some(("z.", 0, 69))), Ask("q.z.", TXT, 1, Some(("z.", 0, 100))),
        Learn(2, "z.", &[Told("q.z.", "r.z.", &[A], 30, None)], 1), Ask("q.z.", MX, 2, Some(("z.", 0, 30))),
        Ask("q.z.", A, 2, Some(("z.", 0, 68))), Ask("q.z.", TXT, 2, Some(("z.", 0, 30))), Ask("q.z.", MX, 32, Some(("z.", 0, 38))),
    ]),
    Row("100 iterations", 9, &[Learn(0, "z.", &[Told("q.z.", "q.z.", &[A], 100, Some(("z.", AA_100)))], 1), Ask("q.z.", MX, 0, Some(("z.", 0, 100)))]),
    Row("101 iterations", 9, &[Learn(0, "z.", &[Told("q.z.", "q.z.", &[A], 100, Some(("z.", AA_101)))], 1), Ask("q.z.", MX, 0, None)]),
    Row("501 iterations", 9, &[Learn(0, "z.", &[Told("q.z.", "q.z.", &[A], 100, Some(("z.", AA_501)))], 1), Ask("q.z.", MX, 0, None)]),
    Row("the least ttl of a record that is no hash", 9, &[
        Learn(0, "z.", &[Told("q.z.", "q.z.", &[A], 100, Some(("z.", AA))), Told("nohash.z.", "q.z.", &[A], 20, Some(("", AA)))], 2),
        Ask("q.z.", MX, 0, Some(("z.", 0, 20))),
    ]),
    Row("a hash below another zone", 9, &[
        Learn(0, "z.", &[Told("q.z.", "q.z.", &[A], 100, Some(("z.", AA))), Told("q.z.", "q.z.", &[A], 100, Some(("y.z.", AA)))], 2),
        Ask("q.z.", MX, 0, None),
    ]),
    Row("spans that overlap", 9, &[
        Learn(0, "z.", &[Told("z.", "a.z.", &[NS, SOA], 100, None), Told("a.z.", "z.z.", &[A], 100, None), Told("b.z.", "c.z.", &[A], 100, None)], 3),
        Ask("m.z.", A, 0, Some(("z.", 3, 100))), Ask("bb.z.", A, 0, Some(("z.", 3, 100))), Ask("zz.z.", A, 0, None),
    ]),
    Row("below a delegation", 9, &[
        Learn(0, "z.", &[Told("z.", "a.z.", &[NS, SOA], 100, None), Told("a.z.", "z.z.", &[A], 100, None), Told("m.z.", "n.z.", &[NS], 50, None)], 3),
        Ask("x.m.z.", A, 0, None), Ask("x.m.z.", A, 50, Some(("z.", 3, 50))),
    ]),
];

/// The record that a row tells.
fn record(rt: &impl Abort, alloc: Global, told: &Told) -> Record {
    match told.4 {
        None => secure(
            name(rt, alloc, told.0),
            47,
            told.3,
            nsec(rt, alloc, told.1, told.2),
        ),
        Some((zone, way)) => {
            let owner = if zone.is_empty() {
                name(rt, alloc, told.0)
            } else {
                hashed_owner(rt, alloc, told.0, zone, way)
            };
            secure(owner, 50, told.3, nsec3(rt, alloc, told.1, told.2, way))
        }
    }
}

fn response(rt: &impl Abort, alloc: Global, zone: &str, all: &[Told]) -> DnsResponse {
    let mut response = empty(alloc);
    for told in all {
        add(rt, alloc, &mut response, record(rt, alloc, told), zone);
    }
    response
}

/// The answer is this one.
fn is_denied(rt: &impl Abort, alloc: Global, found: &Option<Synthesized>, want: Denied) -> bool {
    let Some(found) = found else {
        return want.is_none();
    };
    match want {
        Some((zone, code, ttl)) => {
            found.zone == name(rt, alloc, zone) && found.code.0 == code && found.ttl == ttl
        }
        None => false,
    }
}

fn owner_of(kept: &Kept) -> &Name {
    match &kept.item {
        KeptRecord::Nsec(nsec) => &nsec.owner,
        KeptRecord::Nsec3(nsec3) => &nsec3.owner,
    }
}

/// These owners are kept, spelled so, until these moments.
fn are_kept(rt: &impl Abort, alloc: Global, kept: &[Kept], want: &[(&str, u64)]) -> bool {
    if kept.len() != want.len() {
        return false;
    }
    for (one, want) in kept.iter().zip(want.iter()) {
        if !owner_of(one).eq_case(&name(rt, alloc, want.0)) || one.expires != want.1 {
            return false;
        }
    }
    true
}

/// A call answers as it is to.
fn holds(rt: &impl Abort, alloc: Global, store: &mut NegativeStore, call: &Call) -> bool {
    match call {
        Call::Learn(now, zone, all, count) => {
            let response = response(rt, alloc, zone, all);
            store.learn(&response, *now).expect(rt, "memory") == *count
        }
        Call::Ask(text, record_type, now, want) => {
            let query = query(rt, alloc, text, *record_type);
            let found = store.synthesize(&query, *now).expect(rt, "memory");
            is_denied(rt, alloc, &found, *want)
        }
        Call::Kept(want) => are_kept(rt, alloc, store.kept(), want),
    }
}

fn store_of(rt: &impl Abort, alloc: Global, limit: u32) -> NegativeStore {
    if limit == 0 {
        rt.panic("a limit of 0");
    }
    NegativeStore::new(alloc, limit)
}

#[test]
fn calls_answer_as_in_each_row(rt: HostRuntime) {
    for row in ROWS {
        let mut store = store_of(&rt, rt.alloc(), row.1);
        for (number, call) in row.2.iter().enumerate() {
            let held = holds(&rt, rt.alloc(), &mut store, call);
            assert!(&rt; held, "{}, call {number}", row.0);
        }
    }
}

/// One record, with a chain in a section or none, and its mark.
fn taken(
    rt: &impl Abort,
    alloc: Global,
    section: Option<Section>,
    proof: Proof,
    told: &Told,
) -> u32 {
    let mut met = record(rt, alloc, told);
    met.proof = proof;
    let mut response = empty(alloc);
    if let Some(section) = section {
        let link = chain(rt, alloc, section, &met, "z.");
        response.chains.push(link).expect(rt, "memory");
    }
    response.message.authorities.push(met).expect(rt, "memory");
    let mut store = NegativeStore::new(alloc, 9);
    store.learn(&response, 0).expect(rt, "memory")
}

const B: Told = Told("b.z.", "z.", &[A], 100, None);

const WITHOUT: Told = Told("q.z.", "q.z.", &[A], 100, Some(("z.", AA)));

const OPT_OUT: Told = Told(
    "q.z.",
    "q.z.",
    &[A],
    100,
    Some((
        "z.",
        Way {
            algorithm: 1,
            flags: 1,
            iterations: 1,
            salt: b"\xaa",
        },
    )),
);

const FLAGS: Told = Told(
    "q.z.",
    "q.z.",
    &[A],
    100,
    Some((
        "z.",
        Way {
            algorithm: 1,
            flags: 2,
            iterations: 1,
            salt: b"\xaa",
        },
    )),
);

const ALGORITHM: Told = Told(
    "q.z.",
    "q.z.",
    &[A],
    100,
    Some((
        "z.",
        Way {
            algorithm: 2,
            flags: 0,
            iterations: 1,
            salt: b"\xaa",
        },
    )),
);

#[test]
fn records_are_taken_where_they_prove_a_denial(rt: HostRuntime) {
    let alloc = rt.alloc();
    let there = Some(Section::Authority);
    check(
        &rt,
        "NSEC",
        taken(&rt, alloc, there, Proof::Secure, &B) == 1,
    );
    check(
        &rt,
        "NSEC3",
        taken(&rt, alloc, there, Proof::Secure, &WITHOUT) == 1,
    );
    check(
        &rt,
        "a chain elsewhere",
        taken(&rt, alloc, Some(Section::Answer), Proof::Secure, &B) == 0,
    );
    check(
        &rt,
        "no chain",
        taken(&rt, alloc, None, Proof::Secure, &B) == 0,
    );
    check(
        &rt,
        "bogus",
        taken(&rt, alloc, there, Proof::Bogus, &B) == 0,
    );
    check(
        &rt,
        "opt-out",
        taken(&rt, alloc, there, Proof::Secure, &OPT_OUT) == 0,
    );
    check(
        &rt,
        "unknown flags",
        taken(&rt, alloc, there, Proof::Secure, &FLAGS) == 0,
    );
    check(
        &rt,
        "another algorithm",
        taken(&rt, alloc, there, Proof::Secure, &ALGORITHM) == 0,
    );
}

const BY_TWO_SALTS: &[Told] = &[
    Told("q.z.", "q.z.", &[A], 100, Some(("z.", AA))),
    Told("q.z.", "q.z.", &[TXT], 100, Some(("z.", BB))),
];

#[test]
fn as_many_ways_of_hashing_are_tried_as_are_allowed(rt: HostRuntime) {
    let alloc = rt.alloc();
    let mut store = NegativeStore::new(alloc, 9);
    let met = response(&rt, alloc, "z.", BY_TWO_SALTS);
    store.learn(&met, 0).expect(&rt, "memory");
    let query = query(&rt, alloc, "q.z.", A);
    for (most, want) in [(0u32, false), (1, false), (2, true), (3, true)].as_slice() {
        store.most_groups(*most);
        let found = store.synthesize(&query, 0).expect(&rt, "memory");
        assert!(&rt; found.is_some() == *want, "{most} groups");
    }
}
