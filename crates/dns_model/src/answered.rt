//! How an answer section answers its query.

/// Whether the answer section of a response answers its query, and how (RFC 4035, 5.3.4).
#[derive(Clone, Copy, Debug, PartialEq, Eq, Hash)]
pub enum Answered {
    /// It has no record of the query's name and type, and no CNAME there.
    No,
    /// It has one that stands at the name itself.
    Plain,
    /// It has one that was expanded from the wildcard below the name's last labels, this many.
    Expanded(u8),
}
