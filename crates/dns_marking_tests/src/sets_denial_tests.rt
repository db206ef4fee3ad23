use crate::judged_steps::{
    APEX, BOGUS, BY_EXAMPLE, COVERS_ML, NO_NAME, PLAIN, Row, STANDS, Told, UNSIGNED, check_ends,
};
use dns_model::{Denial, Proof, Section};
use dns_outcome::Outcome;
use dns_record::{RecordType, ResponseCode};

/// Signatures by `w.example.`, `b.example.` and `EXAMPLE.`, with two labels.
const BY_W_EXAMPLE: &[u8] =
    b"\0\x2f\x08\x02\0\0\0\xc8\0\0\x03\xe8\0\0\0\0\0\x01\x01w\x07example\0\x01";

const BY_B_EXAMPLE: &[u8] =
    b"\0\x2f\x08\x02\0\0\0\xc8\0\0\x03\xe8\0\0\0\0\0\x01\x01b\x07example\0\x01";

const BY_EXAMPLE_IN_CAPITALS: &[u8] =
    b"\0\x2f\x08\x02\0\0\0\xc8\0\0\x03\xe8\0\0\0\0\0\x01\x07EXAMPLE\0\x01";

/// A signature by `example.` with one label.
const OF_ONE_LABEL: &[u8] = b"\0\x05\x08\x01\0\0\0\xc8\0\0\x03\xe8\0\0\0\0\0\x01\x07example\0\x01";

/// `b.example.` to `a.ml.example.`
const ABOVE_NEXT: Told = Told {
    rdata: b"\x01a\x02ml\x07example\0\0\x01\x20",
    ..COVERS_ML
};

const UNREADABLE: Told = Told {
    owner: "c.example.",
    rdata: b"\x01",
    ..COVERS_ML
};

/// `*.w.example.` to `xw.example.`
const BELOW_W: Told = Told {
    owner: "*.w.example.",
    rdata: b"\x02xw\x07example\0\0\x02\0\x01",
    ..COVERS_ML
};

/// `a.example.` to `z.example.`
const BELOW_EXAMPLE: Told = Told {
    owner: "a.example.",
    rdata: b"\x01z\x07example\0\0\x01\x40",
    ..COVERS_ML
};

/// A set that was expanded from `*.w.example.`
const FROM_W: Told = Told {
    section: Section::Answer,
    owner: "x.w.example.",
    record_type: RecordType::MX,
    rdata: b"\0\x01\0",
    mark: Proof::Secure,
    signatures: &[BY_EXAMPLE],
    decider: Some(0),
};

/// A set of the same name that was expanded from `*.example.`
const FROM_EXAMPLE: Told = Told {
    record_type: RecordType::CNAME,
    rdata: b"\0",
    signatures: &[OF_ONE_LABEL],
    ..FROM_W
};

const ABSENT: Outcome = Outcome::Given(Denial::Absent(Proof::Secure));

const EXPANDED: Outcome = Outcome::Given(Denial::Expanded(Proof::Secure));

#[rattlefmt::skip]
const DENIALS: &[Row] = &[
    NO_NAME,
    Row {
        shows: "one record that covers the name doesn't deny the wildcard",
        told: &[COVERS_ML],
        outcome: BOGUS,
        ..NO_NAME
    },
    Row {
        shows: "the name is above the next owner, so it exists",
        told: &[APEX, ABOVE_NEXT],
        outcome: BOGUS,
        ..NO_NAME
    },
    Row { shows: "a record that can't be read says nothing", told: &[UNREADABLE], outcome: BOGUS, ..NO_NAME },
    Row { shows: "and the others still count", told: &[APEX, UNREADABLE, COVERS_ML], ..NO_NAME },
    Row {
        shows: "two zones made the records",
        told: &[
            APEX,
            Told {
                signatures: &[BY_W_EXAMPLE],
                ..COVERS_ML
            },
        ],
        outcome: BOGUS,
        ..NO_NAME
    },
    Row {
        shows: "one zone made them, by the signatures that decided",
        told: &[
            Told {
                signatures: &[BY_W_EXAMPLE, BY_EXAMPLE],
                decider: Some(1),
                ..APEX
            },
            COVERS_ML,
        ],
        ..NO_NAME
    },
    Row {
        shows: "one zone made them, with its name in two cases of letters",
        told: &[
            APEX,
            Told {
                signatures: &[BY_EXAMPLE_IN_CAPITALS],
                ..COVERS_ML
            },
        ],
        ..NO_NAME
    },
    Row {
        shows: "a zone beside the name made them",
        told: &[
            Told {
                signatures: &[BY_W_EXAMPLE],
                ..APEX
            },
            Told {
                signatures: &[BY_W_EXAMPLE],
                ..COVERS_ML
            },
        ],
        outcome: BOGUS,
        ..NO_NAME
    },
    Row {
        shows: "a zone doesn't deny DS at its own apex",
        name: "b.example.",
        record_type: RecordType::DS,
        code: ResponseCode::NO_ERROR,
        told: &[Told {
            signatures: &[BY_B_EXAMPLE],
            ..COVERS_ML
        }],
        outcome: BOGUS,
    },
    Row {
        shows: "the zone above it does",
        name: "b.example.",
        record_type: RecordType::DS,
        code: ResponseCode::NO_ERROR,
        told: &[COVERS_ML],
        outcome: ABSENT,
    },
    Row { shows: "an Insecure set beside them leaves what they say", told: &[APEX, UNSIGNED, COVERS_ML], ..NO_NAME },
];

/// An answer that was expanded from `*.w.example.`, with the denial of closer names; the rows are this one with other sets.
const FROM_WILDCARD: Row = Row {
    shows: "no name is closer than the wildcard",
    name: "x.w.example.",
    record_type: RecordType::MX,
    code: ResponseCode::NO_ERROR,
    told: &[FROM_W, BELOW_W],
    outcome: EXPANDED,
};

#[rattlefmt::skip]
const EXPANSIONS: &[Row] = &[
    FROM_WILDCARD,
    Row { shows: "closer names aren't denied", told: &[FROM_W], outcome: BOGUS, ..FROM_WILDCARD },
    Row {
        shows: "nor where another set of the answer section was expanded",
        name: "ml.example.",
        told: &[PLAIN, FROM_W],
        record_type: RecordType::A,
        outcome: BOGUS,
        ..FROM_WILDCARD
    },
    Row {
        shows: "the wildcard with the fewest labels counts",
        told: &[FROM_W, FROM_EXAMPLE, BELOW_EXAMPLE],
        ..FROM_WILDCARD
    },
    Row { shows: "whatever stands first", told: &[FROM_EXAMPLE, FROM_W, BELOW_EXAMPLE], ..FROM_WILDCARD },
    Row {
        shows: "a name that is closer than it isn't denied",
        told: &[FROM_W, FROM_EXAMPLE, BELOW_W],
        outcome: BOGUS,
        ..FROM_WILDCARD
    },
    Row {
        shows: "an expanded set that isn't Secure is left to its zone",
        told: &[Told {
            mark: Proof::Insecure,
            ..FROM_W
        }],
        outcome: Outcome::NeedsZone,
        ..FROM_WILDCARD
    },
    Row {
        shows: "also beside an Insecure authority section",
        told: &[
            Told {
                mark: Proof::Insecure,
                ..FROM_W
            },
            UNSIGNED,
        ],
        outcome: Outcome::NeedsZone,
        ..FROM_WILDCARD
    },
    Row {
        shows: "nor does a denial prove what isn't Secure",
        told: &[
            Told {
                mark: Proof::Insecure,
                ..FROM_W
            },
            BELOW_W,
        ],
        outcome: BOGUS,
        ..FROM_WILDCARD
    },
    Row {
        shows: "the wildcard's own name isn't expanded from it",
        name: "*.w.example.",
        told: &[Told {
            owner: "*.w.example.",
            ..FROM_W
        }],
        outcome: STANDS,
        ..FROM_WILDCARD
    },
    Row {
        shows: "but from one that is closer to the root",
        name: "*.w.example.",
        told: &[
            Told {
                owner: "*.w.example.",
                ..FROM_EXAMPLE
            },
            BELOW_EXAMPLE,
        ],
        ..FROM_WILDCARD
    },
    Row {
        shows: "which then has to be shown",
        name: "*.w.example.",
        told: &[Told {
            owner: "*.w.example.",
            ..FROM_EXAMPLE
        }],
        outcome: BOGUS,
        ..FROM_WILDCARD
    },
];

fn denials() -> &'static [Row] {
    DENIALS
}

#[test]
fn secure_denials_decide(rt: HostRuntime) {
    check_ends(&rt, rt.alloc(), denials());
}

fn expansions() -> &'static [Row] {
    EXPANSIONS
}

#[test]
fn an_expansion_stands_only_beside_its_denial(rt: HostRuntime) {
    check_ends(&rt, rt.alloc(), expansions());
}
