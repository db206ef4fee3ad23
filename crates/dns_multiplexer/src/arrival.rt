//! What becomes of bytes that came.
use crate::RequestId;
use dns_message::DecodeError;

/// What became of bytes that came.
#[derive(Clone, Copy, Debug, PartialEq, Eq, Drop)]
pub enum Arrival {
    /// They are no message: the first fault.
    Undecodable(DecodeError),
    /// No live request has the message's id.
    Stranger,
    /// Nine items wait for the request that has it.
    Full,
    /// The message waits for this request.
    Queued(RequestId),
}
