//! What came for a query of a lookup, as a session says it.
use dns_record::{Octets, Query};
use dns_session::ReplyFault;
use std::marker::Model;

/// What came for a query.
pub enum Came {
    /// The bytes of a message; where a reply by a datagram was truncated, of the one that came over TCP after it.
    Message(Octets),
    /// No message, and why.
    Fault(ReplyFault),
}

// By hand, so that a function that lets one go calls this.
impl Drop for Came {
    fn drop(self) {
        match self {
            Came::Message(_) => {}
            Came::Fault(_) => {}
        }
    }
}

/// One query that was sent for a lookup, and what came for it.
#[derive(Drop)]
pub struct SavedReply {
    /// What was asked.
    pub query: Query,
    /// What came, or why nothing did.
    pub came: Came,
}

impl Model for SavedReply {
    ghost use Rattle.dns_saved_session.specs.Saved.{SavedReplyValue};
    ghost use Rattle.dns_saved_session.specs.Coming.{came_of};

    ghost Value = { SavedReplyValue };

    ghost view = { λ r. record { question = r.query; came = came_of r.came } };
}
