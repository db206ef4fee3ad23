//! How a step ends without a denial by NSEC records that decides.
use crate::judged_steps::{
    ANSWER, APEX, BOGUS, BY_EXAMPLE, COVERS_ML, NO_NAME, PLAIN, Row, Told, UNSIGNED, check_ends,
};
use crate::sets_tests::{OVER_CNAME, OVER_EXPANDED};
use dns_model::{Denial, Proof, Section};
use dns_outcome::Outcome;
use dns_record::RecordType;

/// Records of another name and of another type than the query's, and an alias of its name; none of their sets is Secure.
const OTHER_NAME: Told = Told {
    owner: "b.",
    rdata: b"\x01",
    mark: Proof::Bogus,
    signatures: &[],
    decider: None,
    ..PLAIN
};

const OTHER_TYPE: Told = Told {
    owner: "a.",
    record_type: RecordType::TXT,
    rdata: b"\0",
    ..OTHER_NAME
};

const ALIAS: Told = Told {
    owner: "a.",
    record_type: RecordType::CNAME,
    rdata: b"\0",
    signatures: &[OVER_CNAME],
    ..OTHER_NAME
};

/// A query for A records of `A.`; the rows are this one with other sets.
const TO_A: Row = Row {
    shows: "no set at all",
    name: "A.",
    told: &[],
    outcome: Outcome::NeedsZone,
    ..ANSWER
};

const NSEC3: Told = Told {
    section: Section::Authority,
    owner: "c.example.",
    record_type: RecordType::NSEC3,
    rdata: b"\x01",
    mark: Proof::Secure,
    signatures: &[BY_EXAMPLE],
    decider: Some(0),
};

/// At `ns1.example.`, with A and RRSIG, salt AABBCCDD, 12 iterations (RFC 5155, appendix A).
const AT_NS1: Told = Told {
    owner: "2t7b4g4vsa5smi47k61mv5bv1a22bojr.example.",
    rdata: AT_NS1_RDATA,
    ..NSEC3
};

const AT_NS1_RDATA: &[u8] =
    b"\x01\x00\x00\x0c\x04\xaa\xbb\xcc\xdd\x14\x17\xf3\xdf\x17\xb2\xb2\xad\xae\xf6\x15\x25\x7d\xe4\xd2\x02\x0b\x80\xac\x6c\x7c\x00\x06\x40\x00\x00\x00\x00\x02";

/// The same with 100 iterations.
const ITERATED_100: &[u8] =
    b"\x01\x00\x00\x64\x04\xaa\xbb\xcc\xdd\x14\x17\xf3\xdf\x17\xb2\xb2\xad\xae\xf6\x15\x25\x7d\xe4\xd2\x02\x0b\x80\xac\x6c\x7c\x00\x06\x40\x00\x00\x00\x00\x02";

/// The same with 101 iterations.
const ITERATED_101: &[u8] =
    b"\x01\x00\x00\x65\x04\xaa\xbb\xcc\xdd\x14\x17\xf3\xdf\x17\xb2\xb2\xad\xae\xf6\x15\x25\x7d\xe4\xd2\x02\x0b\x80\xac\x6c\x7c\x00\x06\x40\x00\x00\x00\x00\x02";

/// The same with 500 iterations.
const ITERATED_500: &[u8] =
    b"\x01\x00\x01\xf4\x04\xaa\xbb\xcc\xdd\x14\x17\xf3\xdf\x17\xb2\xb2\xad\xae\xf6\x15\x25\x7d\xe4\xd2\x02\x0b\x80\xac\x6c\x7c\x00\x06\x40\x00\x00\x00\x00\x02";

/// The same with 501 iterations.
const ITERATED_501: &[u8] =
    b"\x01\x00\x01\xf5\x04\xaa\xbb\xcc\xdd\x14\x17\xf3\xdf\x17\xb2\xb2\xad\xae\xf6\x15\x25\x7d\xe4\xd2\x02\x0b\x80\xac\x6c\x7c\x00\x06\x40\x00\x00\x00\x00\x02";

/// A signature of the root's.
const BY_ROOT: &[u8] = b"\0\x32\x08\x02\0\0\0\xc8\0\0\x03\xe8\0\0\0\0\0\x01\0\x01";

const ABSENT_INSECURE: Outcome = Outcome::Given(Denial::Absent(Proof::Insecure));

#[rattlefmt::skip]
const OTHERS: &[Row] = &[
    TO_A,
    Row { shows: "sets of another name and of another type", told: &[OTHER_NAME, OTHER_TYPE], ..TO_A },
    Row {
        shows: "an alias beside them is an answer",
        told: &[OTHER_NAME, OTHER_TYPE, ALIAS],
        outcome: Outcome::Given(Denial::None),
        ..TO_A
    },
    // The second signature has no label, its owner one: the record came from a wildcard.
    Row {
        shows: "an alias that came from a wildcard isn't",
        told: &[Told {
            signatures: &[OVER_CNAME, OVER_EXPANDED],
            ..ALIAS
        }],
        ..TO_A
    },
    ANSWER,
    Row {
        shows: "an answer that is no expansion has no denial beside it",
        told: &[PLAIN, COVERS_ML],
        outcome: BOGUS,
        ..ANSWER
    },
    Row {
        shows: "an NSEC record that is asked for is an answer",
        name: "b.example.",
        record_type: RecordType::NSEC,
        told: &[Told {
            section: Section::Answer,
            ..COVERS_ML
        }],
        ..ANSWER
    },
    Row { shows: "nothing says anything", told: &[], outcome: Outcome::NeedsZone, ..ANSWER },
    Row {
        shows: "denials of the answer section count nothing",
        told: &[
            Told {
                section: Section::Answer,
                ..APEX
            },
            Told {
                section: Section::Answer,
                ..COVERS_ML
            },
        ],
        outcome: Outcome::NeedsZone,
        ..NO_NAME
    },
    Row {
        shows: "nor do those of the additional section",
        told: &[
            Told {
                section: Section::Additional,
                ..APEX
            },
            Told {
                section: Section::Additional,
                ..COVERS_ML
            },
        ],
        outcome: Outcome::NeedsZone,
        ..NO_NAME
    },
    Row {
        shows: "Secure NSEC3 records stand beside Secure NSEC records",
        told: &[PLAIN, APEX, NSEC3],
        outcome: BOGUS,
        ..ANSWER
    },
    Row { shows: "they stand beside a plain answer", told: &[PLAIN, NSEC3], outcome: BOGUS, ..ANSWER },
    Row {
        shows: "those of the answer section deny nothing",
        told: &[
            PLAIN,
            Told {
                section: Section::Answer,
                ..NSEC3
            },
        ],
        ..ANSWER
    },
    Row {
        shows: "nor do those of the additional section",
        told: &[
            PLAIN,
            Told {
                section: Section::Additional,
                ..NSEC3
            },
        ],
        ..ANSWER
    },
    Row { shows: "one that can't be read proves nothing", told: &[NSEC3], outcome: BOGUS, ..NO_NAME },
    Row {
        shows: "one at the name lacks the type",
        name: "ns1.example.",
        record_type: RecordType::MX,
        told: &[AT_NS1],
        outcome: Outcome::Given(Denial::Absent(Proof::Secure)),
        ..ANSWER
    },
    Row { shows: "it has the type", name: "ns1.example.", told: &[AT_NS1], outcome: BOGUS, ..ANSWER },
    Row {
        shows: "another zone made the second one",
        name: "ns1.example.",
        record_type: RecordType::MX,
        told: &[
            AT_NS1,
            Told {
                signatures: &[BY_ROOT],
                ..NSEC3
            },
        ],
        outcome: BOGUS,
        ..ANSWER
    },
        // the hash of the name is another with 100 iterations, and nothing matches it
    Row {
        shows: "it has as many iterations as are judged",
        name: "ns1.example.",
        record_type: RecordType::MX,
        told: &[Told {
            rdata: ITERATED_100,
            ..AT_NS1
        }],
        outcome: BOGUS,
        ..ANSWER
    },
    Row {
        shows: "it has more",
        name: "ns1.example.",
        record_type: RecordType::MX,
        told: &[Told {
            rdata: ITERATED_101,
            ..AT_NS1
        }],
        outcome: Outcome::Denied(Proof::Insecure),
        ..ANSWER
    },
    Row {
        shows: "it has as many as count at all",
        name: "ns1.example.",
        record_type: RecordType::MX,
        told: &[Told {
            rdata: ITERATED_500,
            ..AT_NS1
        }],
        outcome: Outcome::Denied(Proof::Insecure),
        ..ANSWER
    },
    Row {
        shows: "it has more than these",
        name: "ns1.example.",
        record_type: RecordType::MX,
        told: &[Told {
            rdata: ITERATED_501,
            ..AT_NS1
        }],
        outcome: BOGUS,
        ..ANSWER
    },
    Row { shows: "others say nothing", told: &[PLAIN, Told { mark: Proof::Bogus, ..NSEC3 }], ..ANSWER },
    Row { shows: "the zone above the name is Insecure", told: &[UNSIGNED], outcome: ABSENT_INSECURE, ..NO_NAME },
    Row { shows: "an answer stands beside it", told: &[PLAIN, UNSIGNED], ..ANSWER },
    Row {
        shows: "the Insecure set is beside the name",
        told: &[Told {
            owner: "l.example.",
            ..UNSIGNED
        }],
        outcome: Outcome::NeedsZone,
        ..NO_NAME
    },
    Row {
        shows: "another set of the section isn't Insecure",
        told: &[
            UNSIGNED,
            Told {
                record_type: RecordType::NS,
                mark: Proof::Bogus,
                ..UNSIGNED
            },
        ],
        outcome: Outcome::NeedsZone,
        ..NO_NAME
    },
    Row {
        shows: "signatures stand alone in the section",
        told: &[Told {
            record_type: RecordType::RRSIG,
            rdata: BY_EXAMPLE,
            ..UNSIGNED
        }],
        outcome: Outcome::NeedsZone,
        ..NO_NAME
    },
    Row {
        shows: "the Insecure set is of another section",
        told: &[
            Told {
                section: Section::Additional,
                ..UNSIGNED
            },
            Told {
                mark: Proof::Bogus,
                ..UNSIGNED
            },
        ],
        outcome: Outcome::NeedsZone,
        ..NO_NAME
    },
];

fn others() -> &'static [Row] {
    OTHERS
}

#[test]
fn a_step_without_denials_ends_by_its_other_sets(rt: HostRuntime) {
    check_ends(&rt, rt.alloc(), others());
}
