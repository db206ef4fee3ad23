//! Steps whose sets are judged, and how they end.
use crate::rows::check_row;
use crate::sets_tests::{bare_message, push_record, query, record, records_of};
use dns_evidence::{ChainedSet, Limits, MarkedSet};
use dns_message::Message;
use dns_model::{Denial, Proof, Section};
use dns_outcome::{Outcome, outcome_of};
use dns_record::{Record, RecordSet, RecordType, ResponseCode};
use std::alloc::Global;
use std::process::Abort;

/// How far a lookup goes, if nothing else is said.
pub(crate) const LIMITS: Limits = Limits {
    depth: 26,
    soft: 100,
    hard: 500,
};

/// A set of one record in its section, with its mark, its signatures, and the place of the one that decided.
pub(crate) struct Told {
    pub(crate) section: Section,
    pub(crate) owner: &'static str,
    pub(crate) record_type: RecordType,
    pub(crate) rdata: &'static [u8],
    pub(crate) mark: Proof,
    pub(crate) signatures: &'static [&'static [u8]],
    pub(crate) decider: Option<u32>,
}

/// A query, the response's code, its sets, and how the step ends.
pub(crate) struct Row {
    pub(crate) shows: &'static str,
    pub(crate) name: &'static str,
    pub(crate) record_type: RecordType,
    pub(crate) code: ResponseCode,
    pub(crate) told: &'static [Told],
    pub(crate) outcome: Outcome,
}

/// A signature by `example.`, with two labels.
pub(crate) const BY_EXAMPLE: &[u8] =
    b"\0\x2f\x08\x02\0\0\0\xc8\0\0\x03\xe8\0\0\0\0\0\x01\x07example\0\x01";

/// `example.`, with NS and SOA, to `a.example.`: no wildcard is below it.
pub(crate) const APEX: Told = Told {
    section: Section::Authority,
    owner: "example.",
    record_type: RecordType::NSEC,
    rdata: b"\x01a\x07example\0\0\x01\x22",
    mark: Proof::Secure,
    signatures: &[BY_EXAMPLE],
    decider: Some(0),
};

/// `b.example.` to `ns1.example.`
pub(crate) const COVERS_ML: Told = Told {
    section: Section::Authority,
    owner: "b.example.",
    record_type: RecordType::NSEC,
    rdata: b"\x03ns1\x07example\0\0\x01\x20",
    mark: Proof::Secure,
    signatures: &[BY_EXAMPLE],
    decider: Some(0),
};

pub(crate) const PLAIN: Told = Told {
    section: Section::Answer,
    owner: "ml.example.",
    record_type: RecordType::A,
    rdata: b"\x01\x01\x01\x01",
    mark: Proof::Secure,
    signatures: &[BY_EXAMPLE],
    decider: Some(0),
};

/// The SOA set of an unsigned zone above the name.
pub(crate) const UNSIGNED: Told = Told {
    section: Section::Authority,
    owner: "example.",
    record_type: RecordType::SOA,
    rdata: b"\0\0\0\0\0\0\0\0\0\0\0\0\0\0\0\0\0\0\0\0\0\0",
    mark: Proof::Insecure,
    signatures: &[],
    decider: None,
};

pub(crate) const STANDS: Outcome = Outcome::Given(Denial::None);

pub(crate) const BOGUS: Outcome = Outcome::Denied(Proof::Bogus);

/// A name error for `ml.example.`; the rows are this one with other sets.
pub(crate) const NO_NAME: Row = Row {
    shows: "the name is covered, and the wildcard that would answer for it",
    name: "ml.example.",
    record_type: RecordType::A,
    code: ResponseCode::NX_DOMAIN,
    told: &[APEX, COVERS_ML],
    outcome: Outcome::Given(Denial::Absent(Proof::Secure)),
};

/// A plain answer; the rows are this one with other sets.
pub(crate) const ANSWER: Row = Row {
    shows: "an answer stands",
    name: "ml.example.",
    record_type: RecordType::A,
    code: ResponseCode::NO_ERROR,
    told: &[PLAIN],
    outcome: STANDS,
};

fn push_signatures(rt: &impl Abort, alloc: Global, records: &mut Vec<Record>, told: &Told) {
    for signature in told.signatures {
        push_record(rt, alloc, records, told.owner, RecordType::RRSIG, signature);
    }
}

/// Of a set the record, and then its signatures.
fn put_told(rt: &impl Abort, alloc: Global, message: &mut Message, told: &Told) {
    let records = records_of(message, told.section);
    push_record(rt, alloc, records, told.owner, told.record_type, told.rdata);
    push_signatures(rt, alloc, records, told);
}

/// The response of a row.
fn response(rt: &impl Abort, alloc: Global, row: &Row) -> Message {
    let mut message = bare_message(rt, alloc);
    message.response_code = row.code;
    for told in row.told {
        put_told(rt, alloc, &mut message, told);
    }
    message
}

pub(crate) fn signed_set(rt: &impl Abort, alloc: Global, told: &Told) -> RecordSet {
    let first = record(rt, alloc, told.owner, told.record_type, told.rdata);
    let mut set = RecordSet::of(alloc, first).expect(rt, "memory");
    push_signatures(rt, alloc, &mut set.rrsigs, told);
    set
}

/// A set as it is judged.
fn judged(rt: &impl Abort, alloc: Global, told: &Told) -> ChainedSet {
    ChainedSet {
        judged: MarkedSet {
            section: told.section,
            set: signed_set(rt, alloc, told),
            mark: told.mark,
            sig: told.decider,
        },
        chain: Vec::new(alloc),
    }
}

pub(crate) fn judged_sets(rt: &impl Abort, alloc: Global, all: &[Told]) -> Vec<ChainedSet> {
    let mut sets = Vec::new(alloc);
    for told in all {
        sets.push(judged(rt, alloc, told)).expect(rt, "memory");
    }
    sets
}

/// The step of a row ends as it says.
fn ends(rt: &impl Abort, alloc: Global, row: &Row) -> bool {
    let sets = judged_sets(rt, alloc, row.told);
    let query = query(rt, alloc, row.name, row.record_type);
    let response = response(rt, alloc, row);
    let outcome = outcome_of(alloc, &LIMITS, &query, &response, &sets);
    outcome.expect(rt, "memory") == row.outcome
}

/// Each step ends as its row says.
pub(crate) fn check_ends(rt: &impl Abort, alloc: Global, rows: &[Row]) {
    for row in rows {
        check_row(rt, row.shows, ends(rt, alloc, row));
    }
}
