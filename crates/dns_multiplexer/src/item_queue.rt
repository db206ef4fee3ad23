//! What waits for one request.
ghost use Rattle.std.specs.Prelude.{◌≡◌, ◌∷◌, ◌++◌, [], true, drop, slice_get, IfOk, option_map};
ghost use Rattle.dns_handle.specs.Replies.{reply_of};
ghost use Rattle.dns_multiplexer.specs.Machine.{has_room};

use dns_handle::{DnsResponse, NetError};
use dns_record::NoMemory;
use std::alloc::Global;
use std::collections::VecDeque;
use std::marker::Model;

/// What comes for a request: a response, or the fault by which the connection ended.
pub(crate) type Item = Result<DnsResponse, NetError>;

/// So many items wait for a request at most. Their room is made with the request, so that an item takes no memory.
const MOST_WAITING: usize = 9;

/// An item, and the number of the event that brought it.
pub(crate) struct Brought {
    item: Item,
    event: u64,
}

impl Model for Brought {
    ghost use Rattle.dns_handle.specs.Replies.{reply_of};
    ghost use Rattle.dns_multiplexer.specs.Tables.{BroughtValue};

    ghost Value = { BroughtValue };

    ghost view = { λ b. record { item = reply_of b.item; event = b.event } };
}

// By hand, so that a function that drops one calls this, whatever the item is.
impl Drop for Brought {
    fn drop(self) {
        let Brought { item: _, event: _ } = self;
    }
}

impl Brought {
    /// Both by themselves.
    pub(crate) fn into_parts(self) -> (Item, u64)
        ensures item { reply_of result.0 ≡ self.item }
        ensures event { result.1 ≡ self.event }
    {
        let Brought { item, event } = self;
        (item, event)
    }
}

/// The items that wait for a request, the first one first.
pub(crate) struct ItemQueue {
    /// The request's id on the wire.
    id: u16,
    items: VecDeque<Brought>,
}

impl Model for ItemQueue {
    ghost use Rattle.std.specs.Prelude.{◌≤◌, map};
    ghost use Rattle.std.specs.VecDeque.{deque_capacity};
    ghost use Rattle.dns_multiplexer.specs.Tables.{ItemQueueValue};

    ghost Value = { ItemQueueValue };

    ghost view = { λ q. record {
      id = q.id;
      items = map (λ b. b.item) q.items.items;
      events = map (λ b. b.event) q.items.items;
    } };

    ghost invariant = { λ q. 9 ≤ deque_capacity q.items };
}

// By hand, so that a function that drops one calls this.
impl Drop for ItemQueue {
    fn drop(self) {
        let ItemQueue { id: _, items: _ } = self;
    }
}

impl ItemQueue {
    /// An empty queue with room for nine items.
    pub(crate) fn new(alloc: Global, id: u16) -> Result<ItemQueue, NoMemory>
        ensures { IfOk result (λ q. q ≡ record { id = id; items = []; events = [] }) }
    {
        let items = VecDeque::with_capacity(alloc, MOST_WAITING)?;
        Ok(ItemQueue { id, items })
    }

    /// The request's id.
    pub(crate) fn id(&self) -> u16
        ensures { result ≡ self.now.id }
    {
        self.id
    }

    /// Whether nothing waits.
    pub(crate) fn is_empty(&self) -> bool
        ensures { result ≡ true → self.now.items ≡ [] }
    {
        self.items.is_empty()
    }

    /// Whether fewer than nine items wait.
    pub(crate) fn has_room(&self) -> bool
        ensures { result ≡ has_room self.now.items }
    {
        self.items.len() < MOST_WAITING
    }

    /// Puts an item behind the others.
    pub(crate) fn push(&mut self, item: Item, event: u64)
        requires { has_room self.old.items ≡ true }
        ensures { self.new ≡ record self.old {
          items = self.old.items ++ reply_of item ∷ [];
          events = self.old.events ++ event ∷ [];
        } }
    {
        self.items.push_back_reserved(Brought { item, event });
    }

    /// Takes the first item out.
    pub(crate) fn pop(&mut self) -> Option<Brought>
        ensures item { option_map (λ b. b.item) result ≡ slice_get self.old.items 0 }
        ensures event { option_map (λ b. b.event) result ≡ slice_get self.old.events 0 }
        ensures rest { self.new ≡ record self.old { items = drop 1 self.old.items; events = drop 1 self.old.events } }
    {
        self.items.pop_front()
    }
}
