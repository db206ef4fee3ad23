//! What sends answered, as plain words.
use dns_handle::{DnsResponse, IoKind, NetError, Notice};

/// What a send answered.
#[derive(Clone, Copy, PartialEq)]
pub(crate) enum Heard {
    /// A response with the id.
    Id(u16),
    Fault(IoKind),
    Timeout,
    NoConnections,
    Busy,
    Full,
    Other,
}

/// How a fault of a kind is heard; what timed out is `Timeout`.
pub(crate) fn heard_as(kind: IoKind) -> Heard {
    if kind == IoKind::TimedOut {
        Heard::Timeout
    } else {
        Heard::Fault(kind)
    }
}

/// What a reply is heard as.
pub(crate) fn heard_reply(reply: &Result<DnsResponse, NetError>) -> Heard {
    match reply {
        Ok(response) => Heard::Id(response.message.id),
        Err(NetError::Io(kind)) => Heard::Fault(*kind),
        Err(NetError::Timeout) => Heard::Timeout,
        Err(NetError::NoConnections) => Heard::NoConnections,
        Err(NetError::Busy) => Heard::Busy,
        Err(NetError::Message(Notice::HistoryFull)) => Heard::Full,
        Err(_) => Heard::Other,
    }
}
