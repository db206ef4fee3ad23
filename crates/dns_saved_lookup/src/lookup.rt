//! A lookup that is over.
use dns_handle::{DnsResponse, NetError};
use dns_record::Query;
use dns_saved_session::SavedReply;
use dns_session::Anchor;
use std::marker::Model;

/// A lookup that is over: when and what it asked for, by what it judged, what came for its queries, and to what it came.
#[derive(Drop)]
pub struct SavedLookup<'a> {
    /// Seconds since 1970.
    pub moment: u64,
    /// How deep queries could nest, where it isn't as deep as without a word on it.
    pub depth: Option<u16>,
    /// The algorithms that the verifier supports.
    pub algorithms: &'a [u8],
    /// The keys that are trusted.
    pub anchors: &'a [Anchor],
    /// What was looked up.
    pub query: &'a Query,
    /// What came, in the order in which the queries were sent.
    pub replies: &'a [SavedReply],
    /// The answer, or the error in its place.
    pub answer: &'a Result<DnsResponse, NetError>,
}

impl<'a> Model for SavedLookup<'a> {
    ghost use Rattle.dns_handle.specs.Replies.{reply_of};
    ghost use Rattle.dns_saved_lookup.specs.Lookups.{LookupValue};

    ghost Value = { LookupValue };

    ghost view = { λ l. record {
      moment = l.moment;
      depth = l.depth;
      algorithms = l.algorithms.now;
      anchors = l.anchors.now;
      query = l.query.now;
      replies = l.replies.now;
      answer = reply_of l.answer.now;
    } };
}
