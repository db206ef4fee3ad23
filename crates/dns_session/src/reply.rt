//! What an upstream says to a question.
use dns_message::{DecodeError, Message};
use dns_record::Query;
use std::marker::Model;

/// Why no message comes.
#[derive(Clone, Copy, Debug, PartialEq, Eq, Drop)]
pub enum ReplyFault {
    /// Nothing comes in time.
    Timeout,
    /// The outside fails.
    Io,
    /// The upstream has too much to do.
    Busy,
}

/// What comes in reply.
#[derive(Drop)]
pub enum ReplyKind {
    /// A message, or why the bytes are none. It is never that memory ran out.
    Message(Result<Message, DecodeError>),
    /// A message that comes as an error where it tells of a failure or that there are no such records (RFC 2308, 2); or why the
    /// bytes are none. It is never that memory ran out.
    Empty(Result<Message, DecodeError>),
    /// No message.
    Fault(ReplyFault),
}

/// What an upstream says to a question.
#[derive(Drop)]
pub struct SessionReply {
    /// What it replies to.
    pub query: Query,
    /// What is replied.
    pub kind: ReplyKind,
}

impl Model for SessionReply {
    ghost use Rattle.dns_session.specs.Kinds.{kind_of};
    ghost use Rattle.dns_session.specs.SessionValue.{ReplyValue};

    ghost Value = { ReplyValue };

    ghost view = { λ r. record { question = r.query; kind = kind_of r.kind } };
}
