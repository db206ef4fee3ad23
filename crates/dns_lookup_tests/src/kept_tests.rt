//! Lookups one after another over a handle that keeps what it finds (RFC 4035, 4.5 and 4.7): which sets are served from its cache, and
//! which are judged anew.
use crate::given::{ask, validator_of};
use crate::rows::check_held;
use crate::scenes::{Scene, not_accepted, servers, too_deep};
use dns_evidence::Listed;
use dns_handle::DnsResponse;
use dns_lookup::DnssecDnsHandle;
use dns_model::{MarkOrigin, Proof};
use dns_record::RecordType;
use dns_recorded::Recorded;
use std::alloc::Global;
use std::process::Abort;

/// What is looked up over and over.
pub(crate) enum Given {
    /// The root's NS set with its signature, which ends at 2000, and its anchored key set; all ttls are 3600.
    Servers,
    /// The key set alone.
    Keys,
    /// The NS set, whose signature isn't accepted.
    NotAccepted,
    /// The NS set, whose signature may ask for no key.
    TooDeep,
}

pub(crate) fn scene_of(given: &Given) -> &'static Scene {
    match given {
        Given::Servers | Given::Keys => servers(),
        Given::NotAccepted => not_accepted(),
        Given::TooDeep => too_deep(),
    }
}

fn type_of(given: &Given) -> RecordType {
    match given {
        Given::Keys => RecordType::DNSKEY,
        _ => RecordType::NS,
    }
}

/// What is set of the handle before: the range of seconds for what isn't an error, that for errors, and then the size. A range from 1 to
/// 0 isn't set.
struct Setting {
    positive: (u64, u64),
    negative: (u64, u64),
    size: Option<usize>,
}

const NOTHING: Setting = Setting {
    positive: (1, 0),
    negative: (1, 0),
    size: None,
};

const LONG: Setting = Setting {
    positive: (7200, 7200),
    ..NOTHING
};

const SHORT_ERRORS: Setting = Setting {
    negative: (5, 10),
    ..NOTHING
};

const NO_ROOM: Setting = Setting {
    size: Some(0),
    ..NOTHING
};

const RESIZED: Setting = Setting {
    positive: (7200, 7200),
    negative: (7200, 7200),
    size: Some(10),
};

/// A lookup: its moment, how many sends it makes, and the mark, the ttl and the origin of the first set.
struct Lookup(u64, usize, Proof, u32, MarkOrigin);

struct Row(&'static str, Given, Setting, &'static [Lookup]);

#[rattlefmt::skip]
const ROWS: &[Row] = &[
    Row("served while its signature holds, with its ttl of then", Given::Servers, NOTHING, &[
        Lookup(1000, 2, Proof::Secure, 1000, MarkOrigin::Table),
        Lookup(1500, 1, Proof::Secure, 500, MarkOrigin::Cache),
        Lookup(2000, 2, Proof::Secure, 0, MarkOrigin::Table),
        Lookup(2001, 2, Proof::Bogus, 3600, MarkOrigin::Table),
    ]),
    Row("kept no longer than its chain holds", Given::Servers, LONG, &[
        Lookup(1000, 2, Proof::Secure, 1000, MarkOrigin::Table),
        Lookup(1999, 1, Proof::Secure, 1, MarkOrigin::Cache),
        Lookup(2000, 2, Proof::Secure, 0, MarkOrigin::Table),
    ]),
    Row("kept as the range says where the chain has no signature", Given::Keys, LONG, &[
        Lookup(1000, 1, Proof::Secure, 3600, MarkOrigin::Table),
        Lookup(8199, 1, Proof::Secure, 3600, MarkOrigin::Cache),
        Lookup(8200, 1, Proof::Secure, 3600, MarkOrigin::Table),
    ]),
    Row("an error is kept for a minute", Given::NotAccepted, NOTHING, &[
        Lookup(1000, 2, Proof::Bogus, 3600, MarkOrigin::Table),
        Lookup(1059, 1, Proof::Bogus, 3600, MarkOrigin::Cache),
        Lookup(1060, 2, Proof::Bogus, 3600, MarkOrigin::Table),
    ]),
    Row("an error is kept as its range says", Given::NotAccepted, SHORT_ERRORS, &[
        Lookup(1000, 2, Proof::Bogus, 3600, MarkOrigin::Table),
        Lookup(1009, 1, Proof::Bogus, 3600, MarkOrigin::Cache),
        Lookup(1010, 2, Proof::Bogus, 3600, MarkOrigin::Table),
    ]),
    Row("that an ask failed isn't kept", Given::TooDeep, NOTHING, &[
        Lookup(1000, 1, Proof::Bogus, 3600, MarkOrigin::Table),
        Lookup(1001, 1, Proof::Bogus, 3600, MarkOrigin::Table),
    ]),
    Row("with no room nothing is kept", Given::Servers, NO_ROOM, &[
        Lookup(1000, 2, Proof::Secure, 1000, MarkOrigin::Table),
        Lookup(1500, 2, Proof::Secure, 500, MarkOrigin::Table),
    ]),
    Row("a new size has the first range again for what isn't an error", Given::Keys, RESIZED, &[
        Lookup(1000, 1, Proof::Secure, 3600, MarkOrigin::Table),
        Lookup(4599, 1, Proof::Secure, 3600, MarkOrigin::Cache),
        Lookup(4600, 1, Proof::Secure, 3600, MarkOrigin::Table),
    ]),
    Row("and for errors", Given::NotAccepted, RESIZED, &[
        Lookup(1000, 2, Proof::Bogus, 3600, MarkOrigin::Table),
        Lookup(1059, 1, Proof::Bogus, 3600, MarkOrigin::Cache),
        Lookup(1060, 2, Proof::Bogus, 3600, MarkOrigin::Table),
    ]),
];

fn rows() -> &'static [Row] {
    ROWS
}

#[test]
fn sets_are_served_while_they_are_kept(rt: HostRuntime) {
    for row in rows() {
        check_held(&rt, row.0, are_so(&rt, rt.alloc(), row));
    }
}

// The lookups of a row, one after another over one handle.
fn are_so(rt: &impl Abort, alloc: Global, row: &Row) -> bool {
    let made = validator_of(rt, alloc, scene_of(&row.1));
    let ranged = negative(positive(made, row.2.positive), row.2.negative);
    let mut validator = sized(rt, alloc, ranged, row.2.size);
    let mut all = true;
    for lookup in row.3 {
        all = all && is_looked_up(rt, alloc, &mut validator, &row.1, lookup);
    }
    all
}

fn is_looked_up(
    rt: &impl Abort,
    alloc: Global,
    validator: &mut DnssecDnsHandle<Recorded, Listed>,
    given: &Given,
    lookup: &Lookup,
) -> bool {
    let scene = scene_of(given);
    let answer = ask(
        rt,
        alloc,
        validator,
        scene.name,
        type_of(given),
        scene.depth,
        lookup.0,
    );
    let response = answer.expect(rt, "an answer");
    is_so(&response, lookup)
}

fn is_so(response: &DnsResponse, lookup: &Lookup) -> bool {
    let Some(step) = response.trail.steps.last() else {
        return false;
    };
    let (Some(set), Some(record)) = (step.sets.first(), response.message.answers.first()) else {
        return false;
    };
    response.trail.steps.len() == lookup.1
        && set.mark == lookup.2
        && set.origin == lookup.4
        && record.proof == lookup.2
        && record.ttl == lookup.3
}

fn positive(
    validator: DnssecDnsHandle<Recorded, Listed>,
    range: (u64, u64),
) -> DnssecDnsHandle<Recorded, Listed> {
    if range.0 > range.1 {
        return validator;
    }
    validator.positive_validation_ttl(range.0..=range.1)
}

fn negative(
    validator: DnssecDnsHandle<Recorded, Listed>,
    range: (u64, u64),
) -> DnssecDnsHandle<Recorded, Listed> {
    if range.0 > range.1 {
        return validator;
    }
    validator.negative_validation_ttl(range.0..=range.1)
}

fn sized(
    rt: &impl Abort,
    alloc: Global,
    validator: DnssecDnsHandle<Recorded, Listed>,
    size: Option<usize>,
) -> DnssecDnsHandle<Recorded, Listed> {
    match size {
        Some(size) => validator
            .validation_cache_size(alloc, size)
            .expect(rt, "memory"),
        None => validator,
    }
}
