//! Messages with more records than one holds, and with names as long as may be.
use crate::parts::{ADDRESS, Given, SOA};
use crate::update_rows::Call;

/// A zone, what is built for it, and how many records the message's answer and authority sections have.
pub(crate) struct LargeRow(
    pub(crate) &'static str,
    pub(crate) &'static str,
    pub(crate) Call,
    pub(crate) usize,
    pub(crate) usize,
);

/// 70,000 addresses of `a.`.
const MANY: Given = Given {
    copies: 70_000,
    ..ADDRESS
};

const MANY_ROWS: &[LargeRow] = &[
    LargeRow("created", ".", Call::Create(&MANY), 1, 70_000),
    LargeRow("added to a set", ".", Call::AppendToSet(&MANY), 1, 70_000),
    LargeRow(
        "changed for as many",
        ".",
        Call::Swap(&MANY, &MANY),
        70_000,
        140_000,
    ),
    LargeRow("deleted", ".", Call::DeleteByRdata(&MANY), 0, 70_000),
    LargeRow("told of", ".", Call::NotifyWith(&MANY), 70_000, 0),
];

/// Rows of 70,000 records.
pub(crate) fn rows_of_many() -> &'static [LargeRow] {
    MANY_ROWS
}

/// A name of 255 bytes, as long as one may be.
pub(crate) const LONGEST: &str =
    "aaaaaaaaaaaaaaaaaaaaaaaaaaaaaaaaaaaaaaaaaaaaaaaaaaaaaaaaaaaaaaa.aaaaaaaaaaaaaaaaaaaaaaaaaaaaaaaaaaaaaaaaaaaaaaaaaaaaaaaaaaaaaaa.aaaaaaaaaaaaaaaaaaaaaaaaaaaaaaaaaaaaaaaaaaaaaaaaaaaaaaaaaaaaaaa.aaaaaaaaaaaaaaaaaaaaaaaaaaaaaaaaaaaaaaaaaaaaaaaaaaaaaaaaaaaaa.";

const LONGEST_SOA: Given = Given {
    owner: LONGEST,
    ..SOA
};

const LONGEST_ROWS: &[LargeRow] = &[
    LargeRow("a set", LONGEST, Call::DeleteRrset(&LONGEST_SOA), 0, 1),
    LargeRow("a name", LONGEST, Call::DeleteAll(&LONGEST_SOA), 0, 1),
    LargeRow("a zone", LONGEST, Call::Ixfr(&SOA), 0, 1),
];

/// Rows of the longest name.
pub(crate) fn rows_of_the_longest() -> &'static [LargeRow] {
    LONGEST_ROWS
}
