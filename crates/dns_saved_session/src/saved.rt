//! What a session text is to say of a lookup.
use crate::saved_reply::SavedReply;
use dns_record::Query;
use dns_session::{AcceptedSignature, Anchor};
use std::marker::Model;

/// A lookup: when and what it asked for, by what it judged, and what came for its queries.
#[derive(Drop)]
pub struct SavedSession<'a> {
    /// Seconds since 1970.
    pub moment: u64,
    /// How deep queries could nest, where it isn't as deep as without a word on it.
    pub depth: Option<u16>,
    /// The algorithms that the verifier supports.
    pub algorithms: &'a [u8],
    /// The keys that are trusted.
    pub anchors: &'a [Anchor],
    /// The signatures that the verifier accepted.
    pub accepts: &'a [AcceptedSignature],
    /// What was looked up.
    pub query: &'a Query,
    /// What came, in the order in which the queries were sent.
    pub replies: &'a [SavedReply],
}

impl<'a> Model for SavedSession<'a> {
    ghost use Rattle.dns_saved_session.specs.Saved.{SavedValue};

    ghost Value = { SavedValue };

    ghost view = { λ s. record {
      moment = s.moment;
      depth = s.depth;
      algorithms = s.algorithms.now;
      anchors = s.anchors.now;
      accepts = s.accepts.now;
      query = s.query.now;
      replies = s.replies.now;
    } };
}
