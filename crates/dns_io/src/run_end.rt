//! How a run over a network ends.

/// How a run ended that was given a dialer.
#[derive(Drop)]
pub struct RunEnd<D: Drop> {
    /// The status.
    pub status: u8,
    /// The dialer that was given, which has each link and socket back; None only beside status 6.
    pub dial: Option<D>,
}
