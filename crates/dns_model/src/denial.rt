//! What an answer says of absent data.

use crate::Proof;

/// What an answer says of absent data (RFC 4035, 5.4).
#[derive(Clone, Copy, Debug, PartialEq, Eq, Hash)]
pub enum Denial {
    /// Nothing is denied.
    None,
    /// The queried records are absent, with this proof.
    Absent(Proof),
    /// The answer was expanded from a wildcard, and that no closer name exists has this proof.
    Expanded(Proof),
}
