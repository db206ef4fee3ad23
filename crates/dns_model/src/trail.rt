//! Words of a trail: what an ask refers to, and where a mark comes from.

/// What stands in place of an ask of a step (RFC 4035, 5).
#[derive(Clone, Copy, Debug, PartialEq, Eq, Hash)]
pub enum AskRef {
    /// The ask was made: the number of its step, from 0.
    Step(u32),
    /// It was refused, since it would have been deeper than asks may go.
    TooDeep,
    /// It was refused, since as many asks were made as one lookup may make.
    TooMany,
}

/// Where the mark of a set comes from.
#[derive(Clone, Copy, Debug, PartialEq, Eq, Hash)]
pub enum MarkOrigin {
    /// The rules of validation (RFC 4035, 5.3), from what the set's asks came to.
    Table,
    /// The same set of an earlier step: its number.
    Repeat(u32),
    /// A result that was kept from an earlier lookup.
    Cache,
}
