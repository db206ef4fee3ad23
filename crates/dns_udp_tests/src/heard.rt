//! What calls answered, as plain words: each reply with its error is looked at in one place.
use dns_handle::{DnsResponse, IoKind, NetError, Notice, ProtoError};

/// What a call answered.
#[derive(Clone, Copy, PartialEq)]
pub(crate) enum Heard {
    /// A response with the id.
    Id(u16),
    /// A response that asks for the original question, letter for letter.
    Original,
    /// What was to be made.
    Made,
    Waiting,
    Fault(IoKind),
    Timeout,
    Undecodable,
    CaseMismatch,
    Short,
    Other,
}

/// What an error is heard as.
pub(crate) fn heard_error(error: &NetError) -> Heard {
    match error {
        NetError::Io(kind) => Heard::Fault(*kind),
        NetError::Timeout => Heard::Timeout,
        NetError::Proto(ProtoError::Decode(_)) => Heard::Undecodable,
        NetError::QueryCaseMismatch => Heard::CaseMismatch,
        NetError::Message(Notice::NotAllBytesSent) => Heard::Short,
        _ => Heard::Other,
    }
}

/// What a reply is heard as.
pub(crate) fn heard_reply(reply: &Result<DnsResponse, NetError>) -> Heard {
    match reply {
        Ok(response) => Heard::Id(response.message.id),
        Err(error) => heard_error(error),
    }
}

/// What was made, or why it wasn't.
pub(crate) fn heard_made<X>(made: &Result<X, NetError>) -> Heard {
    match made {
        Ok(_) => Heard::Made,
        Err(error) => heard_error(error),
    }
}
