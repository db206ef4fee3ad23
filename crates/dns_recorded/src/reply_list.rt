//! Replies that are left, each to its query.
ghost use Rattle.std.specs.Prelude.{◌≡◌, ◌<◌, ◌⊎◌, ◌∷◌, ◌++◌, [], None, Some, Err, OnOk, OnErr, length, slice_set};
ghost use Rattle.dns_handle.specs.Errors as seen;
ghost use Rattle.dns_handle.specs.Replies.{reply_of};
ghost use Rattle.dns_recorded.specs.Recording.{IsServed};
ghost use Rattle.dns_recorded.specs.RecordedPlaces.{replies_by, reply_at};

use crate::reply_places::{ReplyPlaces, drop_place, note_place, turn_of};
use dns_handle::{DnsResponse, NetError, QueryKey};
use dns_record::{NoMemory, Query};
use std::alloc::Global;
use std::collections::BTreeMap;
use std::marker::Model;

/// A reply, and the query that it was recorded for.
struct Recording {
    query: Query,
    reply: Result<DnsResponse, NetError>,
}

impl Model for Recording {
    ghost use Rattle.dns_model.specs.Records.{Question};
    ghost use Rattle.dns_handle.specs.Errors.{Reply};
    ghost use Rattle.dns_handle.specs.Replies.{reply_of};

    ghost Value = { Question × Reply };

    ghost view = { λ r. (r.query, reply_of r.reply) };
}

// By hand, so that a function that drops a recording calls this, whatever the reply is.
impl Drop for Recording {
    fn drop(self) {
        let Recording { query: _, reply: _ } = self;
    }
}

impl Recording {
    // The reply, without its query.
    fn into_reply(self) -> Result<DnsResponse, NetError>
        ensures { reply_of result ≡ self.1 }
    {
        let Recording { query: _, reply } = self;
        reply
    }
}

/// Replies that are left, in the order in which they were put in.
#[derive(Drop)]
pub(crate) struct ReplyList {
    /// Each reply stays at its place until its turn is over.
    recordings: Vec<Option<Recording>>,
    places: ReplyPlaces,
}

impl Model for ReplyList {
    ghost use Rattle.std.specs.Prelude.{List};
    ghost use Rattle.dns_model.specs.Records.{Question};
    ghost use Rattle.dns_handle.specs.Errors.{Reply};
    ghost use Rattle.dns_recorded.specs.RecordedPlaces.{left, IndexesReplies};

    ghost Value = { List (Question × Reply) };

    ghost view = { λ r. left r.recordings.items };

    ghost invariant = { λ r. IndexesReplies r.places r.recordings.items };
}

// An equal reply in memory of its own, or that memory ran out.
fn clone_reply(reply: &Result<DnsResponse, NetError>) -> Result<DnsResponse, NetError>
    ensures { (reply_of result ≡ Err seen.NoMemory) ⊎ (reply_of result ≡ reply_of reply.now) }
{
    match reply {
        Ok(response) => Ok(response.try_clone()?),
        Err(error) => Err(error.try_clone()?),
    }
}

// The reply at a place, or `Timeout` where none stands there.
fn clone_at(recordings: &[Option<Recording>], place: usize) -> Result<DnsResponse, NetError>
    ensures { (reply_of result ≡ Err seen.NoMemory) ⊎ (reply_of result ≡ reply_at recordings.now place) }
{
    match recordings.get(place) {
        Some(Some(recording)) => clone_reply(&recording.reply),
        _ => Err(NetError::Timeout),
    }
}

// Takes the reply at a place away, or `Timeout` where none stands there.
fn take_at(recordings: &mut Vec<Option<Recording>>, place: usize) -> Result<DnsResponse, NetError>
    requires { place < length recordings.old.items }
    ensures reply { reply_of result ≡ reply_at recordings.old.items place }
    ensures gone { recordings.new.items ≡ slice_set recordings.old.items place None }
{
    match recordings[place].take() {
        None => Err(NetError::Timeout),
        Some(recording) => recording.into_reply(),
    }
}

impl ReplyList {
    /// No replies.
    pub(crate) fn new(alloc: Global) -> ReplyList
        ensures { result ≡ [] }
    {
        ReplyList {
            recordings: Vec::new(alloc),
            places: BTreeMap::new(alloc),
        }
    }

    /// Puts a reply behind the others. After an error nothing has changed.
    pub(crate) fn push(
        &mut self,
        query: Query,
        reply: Result<DnsResponse, NetError>,
    ) -> Result<(), NoMemory>
        ensures ok { OnOk result (self.new ≡ self.old ++ (query, reply_of reply) ∷ []) }
        ensures err { OnErr result (self.new ≡ self.old) }
    {
        let alloc = *self.recordings.allocator();
        let recording = Recording { query, reply };
        let key = QueryKey::of(alloc, &recording.query)?;
        let place = self.recordings.len();
        self.recordings.push(Some(recording))?;
        match note_place(alloc, &mut self.places, key, place) {
            Ok(()) => Ok(()),
            Err(error) => {
                let _ = self.recordings.pop();
                Err(error)
            }
        }
    }

    /// The first reply to a query, or `Timeout`. By turn it is gone then, unless it is the last one to its query. Where memory
    /// runs out nothing has changed.
    pub(crate) fn serve(&mut self, query: &Query, by_turn: bool) -> Result<DnsResponse, NetError>
        ensures { IsServed (replies_by by_turn self.old) (Some query.now) (replies_by by_turn self.new)
            (reply_of result) }
    {
        let key = QueryKey::of(*self.recordings.allocator(), query)?;
        let Some(turn) = turn_of(&self.places, &key, by_turn) else {
            return Err(NetError::Timeout);
        };
        if turn.stays {
            return clone_at(&self.recordings, turn.place);
        }
        drop_place(&mut self.places, &key);
        take_at(&mut self.recordings, turn.place)
    }
}
