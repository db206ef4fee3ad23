//! The sections of a message.

/// A section of a message that holds records (RFC 1035, 4.1).
#[derive(Clone, Copy, Debug, PartialEq, Eq, Hash)]
pub enum Section {
    /// The records that answer the question.
    Answer,
    /// The records that point at an authority, or show that an answer is absent.
    Authority,
    /// Records that may help.
    Additional,
}
