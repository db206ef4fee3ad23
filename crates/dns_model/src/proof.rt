//! The marks of validation.

/// What validation found out of a record (RFC 4035, 4.3).
#[derive(Clone, Copy, Debug, PartialEq, Eq, Hash)]
pub enum Proof {
    /// A chain of signatures leads from a trust anchor to the record.
    Secure,
    /// It is shown that no such chain can be expected.
    Insecure,
    /// A chain should be there, and none holds.
    Bogus,
    /// Nothing was judged.
    Indeterminate,
}
