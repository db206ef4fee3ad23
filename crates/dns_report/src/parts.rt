//! How much a report shows.
/// What a report shows of an answer.
#[derive(Clone, Copy, Debug, PartialEq, Eq)]
pub enum Parts {
    /// Its code, what it denies, its records and its chains.
    Answer,
    /// All that, and how it came about: its trail.
    WithTrail,
}
