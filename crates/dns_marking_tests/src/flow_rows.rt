//! Sets, what they ask, and what is found of them by that.
use crate::judged_steps::Told;
use dns_model::{Proof, Section};
use dns_record::RecordType;
use dns_trust::NsProbe;

/// What an ask comes to: what is seen of NS records, a refusal, or an answer that has `b.` Insecure.
pub(crate) enum Reply {
    Seen(NsProbe),
    Refused,
    Insecure,
}

/// An ask that is to be made, and what it comes to.
pub(crate) struct Asked {
    pub(crate) owner: &'static str,
    pub(crate) record_type: RecordType,
    pub(crate) judged: bool,
    pub(crate) reply: Reply,
}

/// A set, the asks that it makes, and the text of the error that is found of it, which begins with its mark.
pub(crate) struct Row {
    pub(crate) shows: &'static str,
    pub(crate) set: Told,
    pub(crate) asks: &'static [Asked],
    pub(crate) found: &'static str,
}

/// The NS records of `b.` and of `a.b.` aren't seen.
const NO_B: Asked = Asked {
    owner: "b.",
    record_type: RecordType::NS,
    judged: false,
    reply: Reply::Seen(NsProbe::Absent),
};

const NO_A_B: Asked = Asked {
    owner: "a.b.",
    ..NO_B
};

/// Those of `b.` are.
const B: Asked = Asked {
    reply: Reply::Seen(NsProbe::Found),
    ..NO_B
};

const DS: Asked = Asked {
    owner: "b.",
    record_type: RecordType::DS,
    judged: true,
    reply: Reply::Refused,
};

pub(crate) const FROM_NAME: &[Asked] = &[NO_A_B, NO_B];

pub(crate) const FROM_PARENT: &[Asked] = &[NO_B];

const ADDRESS: Told = Told {
    section: Section::Answer,
    owner: "a.b.",
    record_type: RecordType::A,
    rdata: b"",
    mark: Proof::Indeterminate,
    signatures: &[],
    decider: None,
};

const UNSIGNED: Row = Row {
    shows: "up to the root no zone is found",
    set: ADDRESS,
    asks: FROM_NAME,
    found: "Bogus: ds record should exist: a.b.",
};

/// A signature of type A by `b.`
const BY_B: &[u8] = b"\0\x01\x08\x02\0\0\0\xc8\0\0\x03\xe8\0\0\0\0\0\x01\x01b\0\x01";

const ROWS: &[Row] = &[
    UNSIGNED,
    Row {
        shows: "a fault ends the search",
        asks: &[Asked {
            reply: Reply::Seen(NsProbe::Failed),
            ..NO_A_B
        }],
        found: "Bogus: communication failure for query: a.b. IN NS",
        ..UNSIGNED
    },
    Row {
        shows: "the DS set of the zone is asked for",
        asks: &[NO_A_B, B, DS],
        found: "Bogus: communication failure for query: b. IN DS",
        ..UNSIGNED
    },
    Row {
        shows: "a zone that is Insecure leaves Insecure",
        asks: &[
            NO_A_B,
            B,
            Asked {
                reply: Reply::Insecure,
                ..DS
            },
        ],
        found: "Insecure: ds record does not exist: b.",
        ..UNSIGNED
    },
    Row {
        shows: "an NSEC3 set is searched from its parent",
        set: Told {
            record_type: RecordType::NSEC3,
            ..ADDRESS
        },
        asks: FROM_PARENT,
        found: "Bogus: ds record should exist: b.",
        ..UNSIGNED
    },
    Row {
        shows: "a DS set without a signature asks nothing",
        set: Told {
            record_type: RecordType::DS,
            ..ADDRESS
        },
        asks: &[],
        found: "Bogus: rrsigs are not present for: a.b. record_type: DS",
        ..UNSIGNED
    },
    Row {
        shows: "a key set asks for the DS set of its owner",
        set: Told {
            owner: "b.",
            record_type: RecordType::DNSKEY,
            signatures: &[BY_B],
            ..ADDRESS
        },
        asks: &[DS],
        found: "Bogus: communication failure for query: b. IN DS",
        ..UNSIGNED
    },
    Row {
        shows: "a signature asks for its signer's keys",
        set: Told {
            signatures: &[BY_B],
            ..ADDRESS
        },
        asks: &[Asked {
            record_type: RecordType::DNSKEY,
            ..DS
        }],
        found: "Bogus: communication failure for query: b. IN DNSKEY",
        ..UNSIGNED
    },
    Row {
        shows: "keys that aren't in the answer leave the signature unproved",
        set: Told {
            signatures: &[BY_B],
            ..ADDRESS
        },
        asks: &[Asked {
            record_type: RecordType::DNSKEY,
            reply: Reply::Insecure,
            ..DS
        }],
        found: "Bogus: rrsigs were not able to be verified: a.b., type: A",
        ..UNSIGNED
    },
];

/// A SOA set of `b.` that is Insecure.
pub(crate) const INSECURE_B: &[Told] = &[Told {
    section: Section::Authority,
    owner: "b.",
    record_type: RecordType::SOA,
    mark: Proof::Insecure,
    ..ADDRESS
}];

pub(crate) fn rows() -> &'static [Row] {
    ROWS
}
