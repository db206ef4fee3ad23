//! What goes wrong outside.

/// What went wrong outside, as the operating system says it. A kind that isn't listed is `Other`.
#[derive(Clone, Copy, Debug, PartialEq, Eq, Hash)]
pub enum IoKind {
    /// The system forbids it.
    PermissionDenied,
    /// The other side takes no connection.
    ConnectionRefused,
    /// The other side broke the connection off.
    ConnectionReset,
    /// The connection was given up.
    ConnectionAborted,
    /// There is no connection.
    NotConnected,
    /// The local address is taken.
    AddrInUse,
    /// The local address is none of this machine.
    AddrNotAvailable,
    /// The other side no longer reads.
    BrokenPipe,
    /// What was read has not its form.
    InvalidData,
    /// Nothing came in time.
    TimedOut,
    /// The input ended too early.
    UnexpectedEof,
    /// The request is longer than can be sent.
    RequestTooLong,
    /// Any other failure.
    Other,
}
