//! Until when what was found of a set is kept (RFC 4035, 4.7 and 5.3.3).

use crate::parts::{addresses, anchored, check_row, name_of, rdata};
use dns_cache::{ProofError, ProofErrorKind, RrsetProof, TtlRange, TtlRanges};
use dns_evidence::{Chain, Link};
use dns_model::{Proof, Section};
use dns_record::{DNSClass, RecordSet, RecordType};
use std::alloc::Global;
use std::process::Abort;

/// What was found of a set, and until when it is kept.
struct Row {
    shows: &'static str,
    now: u64,
    ttl: u32,
    proof: Proof,
    /// An error says so.
    fails: bool,
    /// The signatures of the chain.
    signed: &'static [&'static [u8]],
    /// The positive range.
    positive: (u64, u64),
    expires: u64,
}

const TWO_HOURS: (u64, u64) = (7200, 7200);

/// Signatures of original ttl 3600 up to second 2000, of 3600 up to 1100, and of 300 up to 1500 (RFC 4034, 3.1).
const LONG: &[u8] = b"\0\x01\x0d\x01\0\0\x0e\x10\0\0\x07\xd0\0\0\0\0\0\0\0\x01";

const NEARLY_EXPIRED: &[u8] = b"\0\x01\x0d\x01\0\0\x0e\x10\0\0\x04\x4c\0\0\0\0\0\0\0\x01";

const SHORT: &[u8] = b"\0\x01\x0d\x01\0\0\x01\x2c\0\0\x05\xdc\0\0\0\0\0\0\0\x01";

const FIRST: Row = Row {
    shows: "the least of ttl, original ttls and seconds left",
    now: 1000,
    ttl: 7200,
    proof: Proof::Secure,
    fails: false,
    signed: &[LONG, SHORT],
    positive: (0, u64::MAX),
    expires: 1300,
};

const ERROR: Row = Row {
    proof: Proof::Bogus,
    fails: true,
    ..FIRST
};

const INSECURE: Row = Row {
    proof: Proof::Insecure,
    ..FIRST
};

#[rattlefmt::skip]
const ROWS: &[Row] = &[
    FIRST,
    Row { shows: "the seconds left of a link that isn't the last", signed: &[NEARLY_EXPIRED, SHORT], expires: 1100,
        ..FIRST },
    Row { shows: "the ttl of the set", ttl: 200, expires: 1200, ..FIRST },
    Row { shows: "no signed link, and a range of one number", ttl: 3600, signed: &[], positive: TWO_HOURS,
        expires: 8200, ..FIRST },
    Row { shows: "a signed link lowers what the range raises", ttl: 0, signed: &[LONG], positive: TWO_HOURS,
        expires: 2000, ..FIRST },
    Row { shows: "an Insecure set has no chain that counts", expires: 8200, ..INSECURE },
    Row { shows: "an error for a minute", ttl: 3600, expires: 1060, ..ERROR },
    Row { shows: "an error for a second", ttl: 0, expires: 1001, ..ERROR },
    Row { shows: "the greatest moment", now: u64::MAX - 1, expires: u64::MAX, ..INSECURE },
];

fn found_by(row: &Row) -> Result<RrsetProof, ProofError> {
    if row.fails {
        return Err(ProofError::new(row.proof, ProofErrorKind::UnknownKeyAlgorithm));
    }
    Ok(RrsetProof {
        proof: row.proof,
        adjusted_ttl: None,
        rrsig_index: None,
    })
}

fn ranges_of(row: &Row) -> TtlRanges {
    TtlRanges {
        positive: TtlRange {
            least: row.positive.0,
            most: row.positive.1,
        },
        negative: TtlRanges::new().negative,
    }
}

/// A signed link, of which the signature alone is looked at.
fn signed_link(rt: &impl Abort, alloc: Global, signed: &[u8]) -> Link {
    Link::Signed {
        owner: name_of(rt, alloc, "."),
        class: DNSClass::IN,
        record_type: RecordType::A,
        rdatas: Vec::new(alloc),
        sig: rdata(rt, alloc, signed),
        key_link: 0,
        key: rdata(rt, alloc, b""),
    }
}

fn chain_of(rt: &impl Abort, alloc: Global, signed: &[&[u8]]) -> Chain {
    let mut links = Vec::new(alloc);
    links.push(anchored(rt, alloc, b"")).expect(rt, "memory");
    for next in signed {
        let link = signed_link(rt, alloc, next);
        links.push(link).expect(rt, "memory");
    }
    Chain {
        section: Section::Answer,
        links,
    }
}

/// Until when the set is kept.
fn expires(row: &Row, set: &RecordSet, chain: &Option<Chain>) -> u64 {
    let found = found_by(row);
    ranges_of(row).expires(row.now, set, &found, chain)
}

fn is_kept_so(rt: &impl Abort, alloc: Global, row: &Row) -> bool {
    // of two records the first one's ttl counts
    let set = addresses(rt, alloc, 1, row.ttl, 1);
    let chain = Some(chain_of(rt, alloc, row.signed));
    let expires = expires(row, &set, &chain);
    expires == row.expires
}

#[test]
fn nothing_is_kept_past_its_chain(rt: HostRuntime) {
    for row in ROWS {
        check_row(&rt, row.shows, is_kept_so(&rt, rt.alloc(), row));
    }
}
