//! What a lookup came to.
use dns_anchor_keys::TrustedKeys;
use dns_handle::{DnsResponse, NetError};
use dns_query_handle::Note;
use dns_trust::TrustAnchors;
use std::marker::Model;

/// What the lookup of a question came to.
#[derive(Drop)]
pub struct Looked {
    /// The answer, or the error in its place.
    pub reply: Result<DnsResponse, NetError>,
    /// The keys by which it was judged, as a set.
    pub anchors: TrustAnchors,
    /// The same keys in their order, and the key sets that zones were asked for.
    pub trusted: TrustedKeys,
    /// The lookup's queries, in order.
    pub notes: Vec<Note>,
}

impl Model for Looked {
    ghost use Rattle.dns_handle.specs.Replies.{reply_of};
    ghost use Rattle.dns_query_lookup.specs.LookedValues.{LookedValue};

    ghost Value = { LookedValue };

    ghost view = { λ l. record { reply = reply_of l.reply; anchors = l.anchors; trusted = l.trusted; notes = l.notes.items } };
}
