//! What comes for a request, as a stream.
ghost use Rattle.std.specs.Prelude.{◌≡◌, ◌∷◌, [], ⊤, slice_get, drop, map, option_map, None, IfSome, OnSome};
ghost use Rattle.dns_handle.specs.Replies.{reply_of};
ghost use Rattle.dns_mux.specs.Streams.{before_timeout, in_front, is_timeout, poll_of};
ghost use Rattle.futures.specs.Task.{Covers, Keeps};
ghost use Rattle.futures.specs.Poll.{IfReady, OnPending};
ghost use Rattle.futures.specs.Runs.{After, Within};

use dns_handle::{DnsResponse, NetError};
use futures::Stream;
use futures::task::{Context, Poll};
use std::alloc::Global;
use std::collections::VecDeque;
use std::marker::Model;

/// What comes for a request: a response, or an error.
pub(crate) type Item = Result<DnsResponse, NetError>;

/// What comes for a request, the first one first. It ends before the first item that says that nothing came in time. It never
/// waits, and may be polled after its end, which it gives again. Contracts see it as the replies that are to come.
#[derive(Drop)]
pub struct DnsResponseStream {
    first: Option<Item>,
    rest: VecDeque<Item>,
}

impl Model for DnsResponseStream {
    ghost use Rattle.std.specs.Prelude.{List};
    ghost use Rattle.dns_handle.specs.Errors.{Reply};
    ghost use Rattle.dns_mux.specs.Streams.{before_timeout, in_front};

    ghost Value = { List Reply };

    ghost view = { λ s. before_timeout (in_front s.first s.rest.items) };
}

// Takes the item in front out.
fn next_of(first: &mut Option<Item>, rest: &mut VecDeque<Item>) -> Option<Item>
    ensures item { option_map reply_of result ≡ slice_get (in_front first.old rest.old.items) 0 }
    ensures rest { map reply_of rest.new.items ≡ drop 1 (in_front first.old rest.old.items) }
    ensures gone { first.new ≡ None }
{
    match first.take() {
        Some(item) => Some(item),
        None => rest.pop_front(),
    }
}

// Whether an item says that nothing came in time.
fn is_timeout(item: &Item) -> bool
    ensures { result ≡ is_timeout (reply_of item.now) }
{
    matches!(item, Err(NetError::Timeout))
}

impl DnsResponseStream {
    /// A stream of a single item.
    pub fn from_result(alloc: Global, item: Result<DnsResponse, NetError>) -> DnsResponseStream
        ensures { result ≡ before_timeout (reply_of item ∷ []) }
    {
        DnsResponseStream {
            first: Some(item),
            rest: VecDeque::new(alloc),
        }
    }

    /// A stream of these items in their order.
    pub fn from_items(items: Vec<Result<DnsResponse, NetError>>) -> DnsResponseStream
        ensures { result ≡ before_timeout (map reply_of items.items) }
    {
        DnsResponseStream {
            first: None,
            rest: VecDeque::from_vec(items),
        }
    }

    // Takes the next item out.
    #[tactic(auto, using(crate::proofs::StreamLemmas::front_none, crate::proofs::StreamLemmas::front_over, crate::proofs::StreamLemmas::front_goes))]
    fn pop(&mut self) -> Option<Item>
        ensures first { option_map reply_of result ≡ slice_get self.old 0 }
        ensures rest { self.new ≡ drop 1 self.old }
    {
        let item = next_of(&mut self.first, &mut self.rest)?;
        if is_timeout(&item) {
            self.rest.clear();
            return None;
        }
        Some(item)
    }
}

impl Stream for DnsResponseStream {
    ghost use Rattle.dns_mux.specs.Streams.{YieldsInTurn};

    type Item = Result<DnsResponse, NetError>;

    ghost yields = { YieldsInTurn };

    // The trait's clauses, and which item comes and what it leaves.
    #[tactic(auto, using(crate::proofs::StreamLemmas::after_first))]
    fn poll_next(&mut self, _cx: &mut Context<'_>) -> Poll<Option<Result<DnsResponse, NetError>>>
        ensures value { IfReady result (YieldsInTurn self.old []) }
        ensures rest { IfReady result
            (λ o. IfSome o (λ x. After (YieldsInTurn self.old) x (YieldsInTurn self.new))) }
        ensures goes { IfReady result (λ o. OnSome o ⊤) }
        ensures again { OnPending result ⊤ }
        ensures same { OnPending result (Within (YieldsInTurn self.old) (YieldsInTurn self.new)) }
        ensures registered { OnPending result (Covers _cx.new (λ _. ⊥)) }
        ensures kept { Keeps _cx.old _cx.new }
        ensures polled { poll_of result ≡ Poll.Ready (slice_get self.old 0) }
        ensures left { self.new ≡ drop 1 self.old }
    {
        Poll::Ready(self.pop())
    }
}
