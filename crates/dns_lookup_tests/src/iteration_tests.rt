//! How many iterations of the hash of NSEC3 records a lookup counts, and whoever checks its trail (RFC 9276, 3.2). A name has no address,
//! as one record says that is hashed a hundred times.
use crate::given::{Answer, MOMENT, ask_scene, derives, validator_of};
use crate::rows::check_held;
use crate::scenes::hashed;
use dns_evidence::Limits;
use dns_handle::{DnsError, DnsResponse, NetError};
use dns_model::{Denial, Proof};
use std::alloc::Global;
use std::process::Abort;

/// What is shown, by which limits, and with which mark the denial counts.
struct Row(&'static str, Option<u16>, Option<u16>, Proof);

const ROWS: &[Row] = &[
    Row("by 100 and 500", None, None, Proof::Secure),
    Row("up to the soft limit", Some(100), Some(100), Proof::Secure),
    Row("above the soft one", Some(99), None, Proof::Insecure),
    Row("up to the hard one", Some(0), Some(100), Proof::Insecure),
    Row("above the hard one", Some(99), Some(99), Proof::Bogus),
    Row("above the hard one alone", None, Some(99), Proof::Bogus),
];

/// The answer by a validator with these limits.
fn look_up(rt: &impl Abort, alloc: Global, soft: Option<u16>, hard: Option<u16>) -> Answer {
    let made = validator_of(rt, alloc, hashed());
    let mut limited = made.nsec3_iteration_limits(soft, hard);
    ask_scene(rt, alloc, &mut limited, hashed(), MOMENT)
}

/// With which mark the denial counts: that of an answer, or of one that is refused.
fn mark_by(rt: &impl Abort, alloc: Global, row: &Row) -> Option<Proof> {
    let answer = look_up(rt, alloc, row.1, row.2);
    match &answer {
        Ok(response) => match response.denial {
            Denial::Absent(proof) => Some(proof),
            _ => None,
        },
        Err(NetError::Dns(DnsError::Nsec { proof, .. })) => Some(*proof),
        Err(_) => None,
    }
}

#[test]
fn iterations_count_up_to_the_limits_of_a_validator(rt: HostRuntime) {
    for row in ROWS {
        let mark = mark_by(&rt, rt.alloc(), row);
        check_held(&rt, row.0, mark == Some(row.3));
    }
}

#[test]
fn a_trail_holds_by_limits_that_count_its_records(rt: HostRuntime) {
    let held = holds_by_its_own(&rt, rt.alloc());
    check_held(&rt, "by its own limits, and not by less", held);
}

fn holds_by_its_own(rt: &impl Abort, alloc: Global) -> bool {
    let response = look_up(rt, alloc, None, None).expect(rt, "an answer");
    let own = derives_by(rt, alloc, &response, 100);
    let less = derives_by(rt, alloc, &response, 99);
    own && !less
}

/// The trail of a response is a derivation by this soft limit, and the hard one of 500.
fn derives_by(rt: &impl Abort, alloc: Global, response: &DnsResponse, soft: u16) -> bool {
    let limits = Limits {
        depth: hashed().depth,
        soft,
        hard: 500,
    };
    derives(rt, alloc, hashed(), MOMENT, &limits, &[], &response.trail)
}
