//! What a read of a stream brings.
use dns_multiplexer::SerialMessage;

/// What one read brought.
#[derive(Drop)]
pub enum Feed {
    /// Bytes, and no whole message yet.
    More,
    /// The last bytes of a message, which is here without its length.
    Message(SerialMessage),
    /// The link has ended between two messages.
    Closed,
}
