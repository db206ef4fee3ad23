//! What a journal keeps of each event.
ghost use Rattle.std.specs.Prelude.{◌≡◌};
ghost use Rattle.dns_handle.specs.Replies.{error_of};
ghost use Rattle.dns_journal.specs.Entries.{refusal_of};
ghost use Rattle.dns_journal.specs.Replays.{refusal_in};

use crate::drawn_ids::DrawnIds;
use dns_handle::{IoKind, NetError, Notice, ProtoError};
use dns_multiplexer::Arrival;
use dns_record::Octets;

/// What a take found.
#[derive(Clone, Copy, Debug, PartialEq, Eq, Drop)]
pub enum Found {
    /// The item that the entry at this place of the journal brought.
    At(u64),
    /// Nothing waited yet.
    Pending,
    /// Nothing waited, and nothing was to come.
    Ended,
}

/// Why a send was refused.
#[derive(Clone, Copy, Debug, PartialEq, Eq, Drop)]
pub(crate) enum SendRefusal {
    Busy,
    IdSpaceExhausted,
    TooLong,
    QueueFull,
    /// A close came before it.
    NoConnections,
}

impl SendRefusal {
    /// The refusal that an error of a multiplexer's send is. None of these is that memory ran out.
    pub(crate) fn of(error: &NetError) -> Option<SendRefusal>
        ensures { result ≡ refusal_in (error_of error.now) }
    {
        match error {
            NetError::Busy => Some(SendRefusal::Busy),
            NetError::Message(Notice::IdSpaceExhausted) => Some(SendRefusal::IdSpaceExhausted),
            NetError::Proto(ProtoError::TooLong) => Some(SendRefusal::TooLong),
            NetError::Message(Notice::SendQueueFull) => Some(SendRefusal::QueueFull),
            _ => None,
        }
    }

    /// The refusal as an error.
    pub(crate) fn error(self) -> NetError
        ensures { error_of result ≡ refusal_of self }
    {
        match self {
            SendRefusal::Busy => NetError::Busy,
            SendRefusal::IdSpaceExhausted => NetError::Message(Notice::IdSpaceExhausted),
            SendRefusal::TooLong => NetError::Proto(ProtoError::TooLong),
            SendRefusal::QueueFull => NetError::Message(Notice::SendQueueFull),
            SendRefusal::NoConnections => NetError::NoConnections,
        }
    }
}

/// An event, with its arguments and its reply. Requests go by their numbers, moments are milliseconds.
pub(crate) enum Entry {
    /// A request as it is encoded under its own id, None where it is too long; when it was sent; the ids that were drawn for
    /// it; and its number, or why it was refused.
    Send {
        request: Option<Octets>,
        moment: u64,
        drawn: DrawnIds,
        reply: Result<u64, SendRefusal>,
    },
    /// Bytes that came.
    Arrive {
        bytes: Octets,
        reply: Arrival,
    },
    /// What waits for a request was asked for.
    Take {
        number: u64,
        found: Found,
    },
    Cancel(u64),
    /// What is too old was ended.
    Tick(u64),
    Close(IoKind),
    /// The message that was to be sent first was taken out.
    Pop,
}

// By hand, so that a function that drops one calls this.
impl Drop for Entry {
    fn drop(self) {
        match self {
            Entry::Send {
                request: _,
                moment: _,
                drawn: _,
                reply: _,
            } => {}
            Entry::Arrive { bytes: _, reply: _ } => {}
            Entry::Take {
                number: _,
                found: _,
            } => {}
            Entry::Cancel(_) => {}
            Entry::Tick(_) => {}
            Entry::Close(_) => {}
            Entry::Pop => {}
        }
    }
}
