//! What calls answered, as plain words.
use dns_handle::{IoKind, NetError, Notice, ProtoError};
use dns_multiplexer::{Arrival, RequestId, Taken};
use dns_shared_exchange::ExchangeError;

/// What a call answered.
#[derive(Clone, Copy, PartialEq, Eq)]
pub(crate) enum Heard {
    Done,
    /// It is of the request with the number.
    Of(u64),
    /// The history is full.
    Full,
    Busy,
    Exhausted,
    TooLong,
    QueueFull,
    NoConnections,
    /// No live request has the id.
    Stranger,
    /// Nine responses wait.
    Waiting,
    /// A response with the id.
    Response(u16),
    Fault(IoKind),
    Pending,
    Ended,
    Other,
}

fn heard_error(error: &NetError) -> Heard {
    match error {
        NetError::Busy => Heard::Busy,
        NetError::NoConnections => Heard::NoConnections,
        NetError::Io(kind) => Heard::Fault(*kind),
        NetError::Proto(ProtoError::TooLong) => Heard::TooLong,
        NetError::Message(Notice::SendQueueFull) => Heard::QueueFull,
        NetError::Message(Notice::IdSpaceExhausted) => Heard::Exhausted,
        _ => Heard::Other,
    }
}

fn heard_refusal(error: &ExchangeError) -> Heard {
    match error {
        ExchangeError::HistoryFull => Heard::Full,
        ExchangeError::Net(error) => heard_error(error),
        ExchangeError::NoMemory => Heard::Other,
    }
}

/// What a call without a value answered.
pub(crate) fn heard_done(done: &Result<(), ExchangeError>) -> Heard {
    match done {
        Ok(()) => Heard::Done,
        Err(error) => heard_refusal(error),
    }
}

/// What a send answered.
pub(crate) fn heard_sent(sent: &Result<RequestId, ExchangeError>) -> Heard {
    match sent {
        Ok(id) => Heard::Of(id.0),
        Err(error) => heard_refusal(error),
    }
}

/// What an arrival answered.
pub(crate) fn heard_arrived(arrived: &Result<Arrival, ExchangeError>) -> Heard {
    match arrived {
        Ok(Arrival::Queued(id)) => Heard::Of(id.0),
        Ok(Arrival::Stranger) => Heard::Stranger,
        Ok(Arrival::Full) => Heard::Waiting,
        Ok(Arrival::Undecodable(_)) => Heard::Done,
        Err(error) => heard_refusal(error),
    }
}

/// What a take answered.
pub(crate) fn heard_taken(taken: &Result<Taken, ExchangeError>) -> Heard {
    match taken {
        Ok(Taken::Item(Ok(response))) => Heard::Response(response.message.id),
        Ok(Taken::Item(Err(error))) => heard_error(error),
        Ok(Taken::Pending) => Heard::Pending,
        Ok(Taken::Ended) => Heard::Ended,
        Err(error) => heard_refusal(error),
    }
}
