//! What was asked and answered, and how long that took.
use dns_handle::{DnsResponse, NetError};
use dns_record::Query;
use std::marker::Model;

/// A query that was sent, what it was answered, and how long that took.
#[derive(Drop)]
pub struct Note {
    /// What was asked.
    pub query: Query,
    /// The response or the error.
    pub reply: Result<DnsResponse, NetError>,
    /// Milliseconds.
    pub elapsed_ms: u64,
}

impl Model for Note {
    ghost use Rattle.dns_handle.specs.Replies.{reply_of};
    ghost use Rattle.dns_query_handle.specs.Notes.{NoteValue};

    ghost Value = { NoteValue };

    ghost view = { λ n. record { question = n.query; reply = reply_of n.reply; elapsed = n.elapsed_ms } };
}
