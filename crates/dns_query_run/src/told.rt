//! What a call comes to.

/// What a call comes to, before anything is written.
#[derive(Drop)]
pub(crate) struct Told {
    /// The status that the program ends with.
    pub(crate) status: u8,
    /// What is written to the standard output.
    pub(crate) text: Vec<u8>,
    /// What is written to the file that words name: nothing, or a session.
    pub(crate) saved: Vec<u8>,
    /// What is written to the standard error.
    pub(crate) complaint: Vec<u8>,
}
