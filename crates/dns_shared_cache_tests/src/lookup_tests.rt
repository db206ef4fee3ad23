//! Lookups over one shared cache, one after another: which sets are served from it, and what one validator's results do to another's
//! answers.
use crate::given::{Lists, Lookup, anchors_of, is_looked_up, validator_over, verifier_of};
use crate::rows::check_held;
use dns_cache::{AcceptedBy, DefaultHasher, ListCache, LruValidationCache};
use dns_evidence::Listed;
use dns_lookup::DnssecDnsHandle;
use dns_model::{MarkOrigin, Proof};
use dns_recorded::Recorded;
use dns_shared_cache::SharedCache;
use std::alloc::Global;
use std::process::Abort;
use std::sync::Wait;

/// A lookup over a holder of its own: what the validator's verifier lists, whether it trusts the root's key, the lookup, and how often the
/// holder was hit, also by an entry that doesn't serve.
struct Turn(Lists, bool, Lookup, u64);

/// What is shown, what the cache's verifier lists, and turns over it.
struct Row(&'static str, Lists, &'static [Turn]);

#[rattlefmt::skip]
const ROWS: &[Row] = &[
    Row("the second is served what the first found", Lists::Servers, &[
        Turn(Lists::Servers, true, Lookup(1000, 2, Proof::Secure, 1000, MarkOrigin::Table), 0),
        Turn(Lists::Servers, true, Lookup(1000, 1, Proof::Secure, 1000, MarkOrigin::Cache), 1),
    ]),
    Row("another verifier judges anew", Lists::Servers, &[
        Turn(Lists::Servers, true, Lookup(1000, 2, Proof::Secure, 1000, MarkOrigin::Table), 0),
        Turn(Lists::ServersAndMore, true, Lookup(1000, 2, Proof::Secure, 1000, MarkOrigin::Table), 2),
    ]),
    Row("one that is listed in another order is the same", Lists::ServersAndMore, &[
        Turn(Lists::ServersAndMore, true, Lookup(1000, 2, Proof::Secure, 1000, MarkOrigin::Table), 0),
        Turn(Lists::MoreAndServers, true, Lookup(1500, 1, Proof::Secure, 500, MarkOrigin::Cache), 1),
    ]),
    Row("other anchors judge anew", Lists::Servers, &[
        Turn(Lists::Servers, true, Lookup(1000, 2, Proof::Secure, 1000, MarkOrigin::Table), 0),
        Turn(Lists::Servers, false, Lookup(1000, 2, Proof::Bogus, 3600, MarkOrigin::Table), 2),
    ]),
    Row("a Secure set that the cache's verifier doesn't accept isn't kept", Lists::Nothing, &[
        Turn(Lists::Servers, true, Lookup(1000, 2, Proof::Secure, 1000, MarkOrigin::Table), 0),
        Turn(Lists::Servers, true, Lookup(1000, 2, Proof::Secure, 1000, MarkOrigin::Table), 1),
    ]),
    Row("the Bogus of one that accepts less serves for a minute", Lists::Servers, &[
        Turn(Lists::NoSignature, true, Lookup(1000, 2, Proof::Bogus, 3600, MarkOrigin::Table), 0),
        Turn(Lists::Servers, true, Lookup(1000, 1, Proof::Bogus, 3600, MarkOrigin::Cache), 1),
        Turn(Lists::Servers, true, Lookup(1059, 1, Proof::Bogus, 3600, MarkOrigin::Cache), 1),
        Turn(Lists::Servers, true, Lookup(1060, 2, Proof::Secure, 940, MarkOrigin::Table), 1),
    ]),
    Row("and the Bogus of one with other anchors, in place of what was Secure", Lists::Servers, &[
        Turn(Lists::Servers, true, Lookup(1000, 2, Proof::Secure, 1000, MarkOrigin::Table), 0),
        Turn(Lists::Servers, false, Lookup(1000, 2, Proof::Bogus, 3600, MarkOrigin::Table), 2),
        Turn(Lists::Servers, true, Lookup(1059, 1, Proof::Bogus, 3600, MarkOrigin::Cache), 1),
        Turn(Lists::Servers, true, Lookup(1060, 2, Proof::Secure, 940, MarkOrigin::Table), 0),
    ]),
];

fn rows() -> &'static [Row] {
    ROWS
}

// A turn over a holder.
fn is_taken<R: Wait + Abort + Copy>(
    rt: R,
    alloc: Global,
    holder: SharedCache<Listed, DefaultHasher, R>,
    turn: &Turn,
) -> bool {
    let anchors = anchors_of(&rt, alloc, turn.1);
    let verifier = verifier_of(&rt, alloc, turn.0);
    let mut validator = validator_over(&rt, alloc, anchors, verifier, holder);
    let held = is_looked_up(&rt, alloc, &mut validator, &turn.2);
    held && validator.cache().hits() == turn.3
}

fn are_taken<R: Wait + Abort + Copy>(rt: R, alloc: Global, row: &Row) -> bool {
    let verifier = verifier_of(&rt, alloc, row.1);
    let first = SharedCache::new(rt, alloc, 100, verifier).expect(&rt, "memory");
    let mut all = true;
    for turn in row.2 {
        let holder = first.share().expect(&rt, "memory");
        all = is_taken(rt, alloc, holder, turn) && all;
    }
    all && first.hits() == 0
}

#[test]
fn holders_of_one_cache_are_served_one_after_another(rt: HostRuntime) {
    for row in rows() {
        check_held(&rt, row.0, are_taken(rt, rt.alloc(), row));
    }
}

/// The lookups by one validator over whatever cache.
#[rattlefmt::skip]
const LOOKUPS: &[Lookup] = &[
    Lookup(1000, 2, Proof::Secure, 1000, MarkOrigin::Table),
    Lookup(1500, 1, Proof::Secure, 500, MarkOrigin::Cache),
    Lookup(2000, 2, Proof::Secure, 0, MarkOrigin::Table),
    Lookup(2001, 2, Proof::Bogus, 3600, MarkOrigin::Table),
];

fn lookups() -> &'static [Lookup] {
    LOOKUPS
}

fn are_looked_up<C: AcceptedBy<Listed> + Drop>(rt: &impl Abort, alloc: Global, cache: C) -> bool {
    let anchors = anchors_of(rt, alloc, true);
    let verifier = verifier_of(rt, alloc, Lists::Servers);
    let mut validator = validator_over(rt, alloc, anchors, verifier, cache);
    let mut all = true;
    for lookup in lookups() {
        all = is_looked_up(rt, alloc, &mut validator, lookup) && all;
    }
    all
}

#[test]
fn one_validator_answers_alike_over_each_cache(rt: HostRuntime) {
    let alloc = rt.alloc();
    let list = are_looked_up(&rt, alloc, ListCache::new(alloc, 100));
    check_held(&rt, "over a list", list);
    let hashed = LruValidationCache::new(alloc, 100).expect(&rt, "memory");
    check_held(
        &rt,
        "over the default cache",
        are_looked_up(&rt, alloc, hashed),
    );
    let verifier = verifier_of(&rt, alloc, Lists::Servers);
    let shared = SharedCache::new(rt, alloc, 100, verifier).expect(&rt, "memory");
    check_held(
        &rt,
        "over a shared cache",
        are_looked_up(&rt, alloc, shared),
    );
}
