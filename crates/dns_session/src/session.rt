//! What a session says.
use crate::reply::SessionReply;
use dns_record::{Name, Octets, Query};
use std::marker::Model;

/// A key that is trusted without a proof, for the keys of its owner.
#[derive(Drop)]
pub struct Anchor {
    /// The key's owner.
    pub owner: Name,
    /// The key's algorithm (RFC 4034, A.1).
    pub algorithm: u8,
    /// The public key alone, without flags and protocol.
    pub key: Octets,
}

impl Model for Anchor {
    ghost use Rattle.dns_model.specs.Keys as keys;

    ghost Value = { keys.AnchorValue };

    ghost view = { λ a. record { owner = a.owner; algorithm = a.algorithm; key = a.key } };
}

/// A signature that a verifier accepts.
#[derive(Drop)]
pub struct AcceptedSignature {
    /// The algorithm of the signature.
    pub algorithm: u8,
    /// The public key alone.
    pub key: Octets,
    /// The bytes that are signed.
    pub bytes: Octets,
    /// The signature.
    pub signature: Octets,
}

impl Model for AcceptedSignature {
    ghost use Rattle.dns_model.specs.Keys.{AcceptedSignatureValue};

    ghost Value = { AcceptedSignatureValue };

    ghost view = { λ a. record { algorithm = a.algorithm; key = a.key; bytes = a.bytes; signature = a.signature } };
}

/// What a session says.
#[derive(Drop)]
pub struct Session {
    /// Whether each send of a query takes the query's next reply, and the last one again and again; else it takes the first.
    pub by_turn: bool,
    /// Seconds.
    pub moment: u64,
    /// The greatest depth of an ask, where the session says one.
    pub depth: Option<u16>,
    /// The algorithms that the verifier supports.
    pub algorithms: Vec<u8>,
    /// The keys that are trusted.
    pub anchors: Vec<Anchor>,
    /// The signatures that the verifier accepts.
    pub accepts: Vec<AcceptedSignature>,
    /// What is looked up.
    pub query: Query,
    /// In the order in which they stand.
    pub replies: Vec<SessionReply>,
}

impl Model for Session {
    ghost use Rattle.dns_session.specs.SessionValue.{SessionValue};

    ghost Value = { SessionValue };

    ghost view = { λ s. record {
      by_turn = s.by_turn;
      moment = s.moment;
      depth = s.depth;
      algorithms = s.algorithms.items;
      anchors = s.anchors.items;
      accepts = s.accepts.items;
      query = s.query;
      replies = s.replies.items;
    } };
}
