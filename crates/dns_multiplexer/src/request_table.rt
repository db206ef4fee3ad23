//! The requests of a multiplexer: the live ones by their ids, and what waits for each by its number.
ghost use Rattle.std.specs.Prelude.{◌≡◌, ◌∷◌, ◌++◌, ℕ, [], None, Some, true, false, is_some, length, map, slice_get, option_map, nat_lt, ◌+◌, IfOk, OnOk, OnErr, if◌then◌else◌, drop};
ghost use Rattle.std.specs.List.{position};
ghost use Rattle.std.specs.Ordering.{nat_cmp};
ghost use Rattle.std.specs.BTreeMap as tree;
ghost use Rattle.dns_model.specs.SoundAnswers.{ResponseValue};
ghost use Rattle.dns_handle.specs.Replies.{reply_of};
ghost use Rattle.dns_multiplexer.specs.Views.{taken_of};
ghost use Rattle.dns_multiplexer.specs.Machine.{Request, is_taken_id, live_count, has_id, reply_at, changed_at, sent_under, with_item, without_first, cancelled, ticked, closed, taken_from, waiting_of};
ghost use Rattle.dns_multiplexer.specs.Runs.{life_of};
ghost use Rattle.dns_multiplexer.specs.Brought.{brought_at, with_event, brought_by_arrival, brought_by_close};
ghost use Rattle.dns_multiplexer.specs.Tables.{QueueChanged, FailsAll, IsAdded, IsUnadded, life_under, still_held, takes_item, pushed, without_item, first_item, first_event, after_queued};

use crate::item_queue::{Brought, Item, ItemQueue};
use crate::{Arrival, RequestId, Taken};
use dns_handle::{DnsResponse, IoKind, NetError};
use dns_record::NoMemory;
use std::alloc::Global;
use std::collections::BTreeMap;
use std::marker::Model;

/// The live request that has an id.
#[derive(Clone, Copy)]
pub(crate) struct Holder {
    number: u64,
    /// Milliseconds.
    moment: u64,
}

/// The live requests by their ids.
type Holders = BTreeMap<u16, Holder>;

/// What waits, by the numbers of requests: of each live one, and of those that ended and that nobody has asked for since.
type Queues = BTreeMap<u64, ItemQueue>;

/// The requests of a multiplexer.
#[derive(Drop)]
pub(crate) struct RequestTable {
    holders: Holders,
    queues: Queues,
    /// How many requests there were.
    count: u64,
}

impl Model for RequestTable {
    ghost use Rattle.std.specs.Ordering.{nat_cmp};
    ghost use Rattle.std.specs.BTreeMap as tree;
    ghost use Rattle.dns_multiplexer.specs.Tables.{IsTable, TableValue, events_of, requests_of};

    ghost Value = { TableValue };

    ghost view = { λ t. record {
      requests = requests_of (tree.get nat_cmp t.holders) (tree.get nat_cmp t.queues) t.count;
      brought = events_of (tree.get nat_cmp t.queues) t.count;
    } };

    ghost invariant = { λ t. IsTable (tree.get nat_cmp t.holders) (tree.get nat_cmp t.queues) t.count };
}

// Whether a request is live under an id.
fn is_held_by(holders: &Holders, id: u16, number: u64) -> bool
    ensures { result ≡ is_some (life_under id number (tree.get nat_cmp holders.now id)) }
{
    match holders.get(&id) {
        None => false,
        Some(holder) => holder.number == number,
    }
}

// Puts an item behind those that wait for a request, where fewer than nine do; whether it did.
fn push_item(queues: &mut Queues, number: u64, item: Item, event: u64) -> bool
    ensures room { result ≡ takes_item (tree.get nat_cmp queues.old number) }
    ensures after { QueueChanged (tree.get nat_cmp queues.old) (tree.get nat_cmp queues.new) number
        (pushed (reply_of item) event) }
{
    let Some(queue) = queues.get_mut(&number) else {
        return false;
    };
    if !queue.has_room() {
        return false;
    }
    queue.push(item, event);
    true
}

// Takes the first item that waits for a request.
fn pop_item(queues: &mut Queues, number: u64) -> Option<Brought>
    ensures item { option_map (λ b. b.item) result ≡ first_item (tree.get nat_cmp queues.old number) }
    ensures event { option_map (λ b. b.event) result ≡ first_event (tree.get nat_cmp queues.old number) }
    ensures after { QueueChanged (tree.get nat_cmp queues.old) (tree.get nat_cmp queues.new) number without_item }
{
    let queue = queues.get_mut(&number)?;
    queue.pop()
}

// Gives an id to a new request, and room for what will wait for it.
fn add(
    alloc: Global,
    holders: &mut Holders,
    queues: &mut Queues,
    id: u16,
    holder: Holder,
) -> Result<(), NoMemory>
    ensures ok { OnOk result (IsAdded (tree.get nat_cmp holders.old) (tree.get nat_cmp queues.old) id holder
        (tree.get nat_cmp holders.new) (tree.get nat_cmp queues.new)) }
    ensures err { OnErr result (IsUnadded (tree.get nat_cmp holders.old) (tree.get nat_cmp queues.old) holder.number
        (tree.get nat_cmp holders.new) (tree.get nat_cmp queues.new)) }
{
    let queue = ItemQueue::new(alloc, id)?;
    queues.insert(holder.number, queue)?;
    if holders.insert(id, holder).is_err() {
        queues.remove(&holder.number);
        return Err(NoMemory);
    }
    Ok(())
}

// Whether a request isn't too old.
fn is_in_time(holder: &Holder, timeout: u64, now: u64) -> bool
    ensures { result ≡ nat_lt now (holder.now.moment + timeout) }
{
    u128::from(now) < u128::from(holder.moment) + u128::from(timeout)
}

// Ends the requests that are too old.
fn expire(holders: &mut Holders, timeout: u64, now: u64)
    ensures { (id : ℕ) → tree.get nat_cmp holders.new id
        ≡ still_held timeout now (tree.get nat_cmp holders.old id) }
{
    holders.retain(|_, holder| is_in_time(holder, timeout, now));
}

// Ends all requests, each with a fault where it has room.
fn fail_all(holders: &mut Holders, queues: &mut Queues, fault: IoKind, event: u64)
    ensures { FailsAll fault event (tree.get nat_cmp holders.old) (tree.get nat_cmp queues.old)
        (tree.get nat_cmp holders.new) (tree.get nat_cmp queues.new) }
{
    'holders: while let Some((_, holder)) = holders.pop_first() {
        push_item(queues, holder.number, Err(NetError::from(fault)), event);
    }
}

impl RequestTable {
    /// No request. It takes no memory.
    pub(crate) fn new(alloc: Global) -> RequestTable
        ensures { result ≡ record { requests = []; brought = [] } }
    {
        RequestTable {
            holders: BTreeMap::new(alloc),
            queues: BTreeMap::new(alloc),
            count: 0,
        }
    }

    /// How many requests there were.
    pub(crate) fn count(&self) -> u64
        ensures requests { result ≡ length self.now.requests }
        ensures brought { result ≡ length self.now.brought }
    {
        self.count
    }

    /// How many requests are live.
    pub(crate) fn live(&self) -> usize
        ensures { result ≡ live_count self.now.requests }
    {
        self.holders.len()
    }

    /// Whether a live request has the id.
    pub(crate) fn has_id(&self, id: u16) -> bool
        ensures { result ≡ is_taken_id self.now.requests id }
    {
        self.holders.contains_key(&id)
    }

    // Whether a request is live.
    fn is_live(&self, number: u64) -> bool
        ensures { result ≡ is_some (life_of (slice_get self.now.requests number)) }
    {
        match self.queues.get(&number) {
            None => false,
            Some(queue) => is_held_by(&self.holders, queue.id(), number),
        }
    }

    /// One request more, under an id that no live one has; its number is how many there were. Where memory runs out nothing has
    /// changed. The error comes after 2^64 - 1 requests too.
    pub(crate) fn open(&mut self, alloc: Global, id: u16, moment: u64) -> Result<u64, NoMemory>
        requires { is_taken_id self.old.requests id ≡ false }
        ensures number { IfOk result (λ n. n ≡ length self.old.requests) }
        ensures ok { OnOk result (self.new.requests ≡ self.old.requests ++ sent_under id moment ∷ []) }
        ensures brought { OnOk result (self.new.brought ≡ self.old.brought ++ [] ∷ []) }
        ensures err { OnErr result (self.new ≡ self.old) }
    {
        let number = self.count;
        let Some(next) = number.checked_add(1) else {
            return Err(NoMemory);
        };
        let holder = Holder { number, moment };
        add(alloc, &mut self.holders, &mut self.queues, id, holder)?;
        self.count = next;
        Ok(number)
    }

    /// Puts a response, which an event brought, behind those that wait for the live request with the id.
    pub(crate) fn receive(&mut self, id: u16, response: DnsResponse, event: u64) -> Arrival
        ensures arrival { result ≡ reply_at self.old.requests (position (has_id id) self.old.requests) }
        ensures after { self.new.requests ≡ after_queued result response self.old.requests }
        ensures brought { self.new.brought ≡ brought_by_arrival result event self.old.brought }
    {
        let Some(holder) = self.holders.get(&id).copied() else {
            return Arrival::Stranger;
        };
        if !push_item(&mut self.queues, holder.number, Ok(response), event) {
            return Arrival::Full;
        }
        Arrival::Queued(RequestId(holder.number))
    }

    // What becomes of a request for which nothing waits. What is over is kept no longer.
    fn end_of(&mut self, number: u64) -> Taken
        requires waiting { waiting_of (slice_get self.old.requests number) ≡ [] }
        requires brought { brought_at self.old.brought number ≡ [] }
        ensures taken { taken_of result ≡ taken_from (slice_get self.old.requests number) }
        ensures kept { self.new ≡ self.old }
    {
        if self.is_live(number) {
            return Taken::Pending;
        }
        self.queues.remove(&number);
        Taken::Ended
    }

    /// Takes the first item that waits for a request, and says which event brought it.
    pub(crate) fn take(&mut self, number: u64) -> (Taken, Option<u64>)
        ensures taken { taken_of result.0 ≡ taken_from (slice_get self.old.requests number) }
        ensures event { result.1 ≡ slice_get (brought_at self.old.brought number) 0 }
        ensures after { self.new.requests ≡ changed_at number without_first self.old.requests }
        ensures brought { self.new.brought ≡ changed_at number (drop 1) self.old.brought }
    {
        let Some(brought) = pop_item(&mut self.queues, number) else {
            return (self.end_of(number), None);
        };
        let (item, event) = brought.into_parts();
        (Taken::Item(item), Some(event))
    }

    /// Ends a request and drops what waits for it.
    pub(crate) fn cancel(&mut self, number: u64)
        ensures after { self.new.requests ≡ changed_at number cancelled self.old.requests }
        ensures brought { self.new.brought ≡ changed_at number (λ _. []) self.old.brought }
    {
        let Some(queue) = self.queues.remove(&number) else {
            return;
        };
        let id = queue.id();
        if is_held_by(&self.holders, id, number) {
            self.holders.remove(&id);
        }
    }

    /// Ends the requests that were sent so many milliseconds ago, or earlier.
    pub(crate) fn tick(&mut self, timeout: u64, now: u64)
        ensures { self.new ≡ record self.old { requests = map (ticked timeout now) self.old.requests } }
    {
        expire(&mut self.holders, timeout, now);
    }

    /// Ends all requests, each with a fault, which an event brought, where fewer than nine items wait.
    pub(crate) fn close(&mut self, fault: IoKind, event: u64)
        ensures after { self.new.requests ≡ map (closed fault) self.old.requests }
        ensures brought { self.new.brought ≡ brought_by_close event self.old.requests self.old.brought }
    {
        fail_all(&mut self.holders, &mut self.queues, fault, event);
    }
}
