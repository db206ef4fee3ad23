//! `Recorded`, and how it is put to and asked.
ghost use Rattle.std.specs.Prelude.{◌≡◌, ◌∷◌, ◌++◌, true, false, [], Some, OnOk, OnErr};
ghost use Rattle.dns_handle.specs.Replies.{reply_of};
ghost use Rattle.dns_handle.specs.Requests.{first_question};
ghost use Rattle.dns_recorded.specs.Recording.{replies_of, IsServed, AnswersFrom};
ghost use Rattle.dns_handle.specs.Causes.{faults_after};
ghost use Rattle.dns_recorded.specs.RecordedPlaces.{replies_by};

use crate::reply_list::ReplyList;
use dns_handle::{DnsHandle, DnsRequest, DnsResponse, NetError, faults_after};
use dns_record::{NoMemory, Query};
use std::alloc::Global;
use std::marker::Model;

/// A handle that answers from replies that were put in: the first for each query, or by turn each of them once, the last one
/// again and again. Names of queries are folded.
#[derive(Drop)]
pub struct Recorded {
    replies: ReplyList,
    by_turn: bool,
    sends: u64,
    faults: u64,
}

impl Model for Recorded {
    ghost use Rattle.dns_recorded.specs.Recording.{RecordedValue};

    ghost Value = { RecordedValue };

    ghost view = { λ r. record { sends = r.sends; faults = r.faults; replies = r.replies; by_turn = r.by_turn } };
}

impl Recorded {
    /// A handle with no reply, whose first reply to a query serves each send of it.
    ///
    /// ```
    /// fn recorded(alloc: Global, query: Query, response: DnsResponse) -> Result<Recorded, NoMemory> {
    ///     let mut upstream = Recorded::new(alloc);
    ///     upstream.push(query, Ok(response))?;
    ///     Ok(upstream)
    /// }
    /// ```
    pub fn new(alloc: Global) -> Recorded
        ensures { result ≡ record { sends = 0; faults = 0; replies = []; by_turn = false } }
    {
        Recorded {
            replies: ReplyList::new(alloc),
            by_turn: false,
            sends: 0,
            faults: 0,
        }
    }

    /// A handle with no reply, which serves by turn: each send of a query takes the next reply to it, and the last one serves
    /// all later sends.
    pub fn in_turn(alloc: Global) -> Recorded
        ensures { result ≡ record { sends = 0; faults = 0; replies = []; by_turn = true } }
    {
        Recorded {
            replies: ReplyList::new(alloc),
            by_turn: true,
            sends: 0,
            faults: 0,
        }
    }

    /// Puts a reply behind the others. Where memory runs out, which is the only error, nothing has changed.
    pub fn push(
        &mut self,
        query: Query,
        reply: Result<DnsResponse, NetError>,
    ) -> Result<(), NoMemory>
        ensures ok { OnOk result (self.new
            ≡ record self.old { replies = self.old.replies ++ (query, reply_of reply) ∷ [] }) }
        ensures err { OnErr result (self.new ≡ self.old) }
    {
        self.replies.push(query, reply)
    }
}

// The reply to the request's first question, or `Timeout` where it has none.
fn next_reply(
    list: &mut ReplyList,
    request: &DnsRequest,
    by_turn: bool,
) -> Result<DnsResponse, NetError>
    ensures { IsServed (replies_by by_turn list.old) (first_question request.now)
        (replies_by by_turn list.new) (reply_of result) }
{
    match request.message.queries.first() {
        None => Err(NetError::Timeout),
        Some(query) => list.serve(query, by_turn),
    }
}

impl DnsHandle for Recorded {
    ghost sends = { λ h. h.sends };

    ghost faults = { λ h. h.faults };

    ghost sent = { AnswersFrom };

    ghost told = { λ h. Some (replies_of h) };

    fn send(
        &mut self,
        _alloc: Global,
        request: DnsRequest,
        _now: u64,
    ) -> Result<DnsResponse, NetError> {
        let reply = next_reply(&mut self.replies, &request, self.by_turn);
        self.sends = self.sends.saturating_add(1);
        self.faults = faults_after(self.faults, &reply);
        reply
    }

    fn is_using_edns(&self) -> bool {
        true
    }
}
