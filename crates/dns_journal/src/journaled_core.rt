//! `JournaledCore`, a multiplexer with the journal of its events.
ghost use Rattle.std.specs.Prelude.{◌≡◌, ◌≤◌, ◌<◌, ◌+◌, ◌^◌, [], true, false, length, IfOk, OnOk, OnErr, IfErr, IfSome, IsOk, Ok, Err};
ghost use Rattle.turns.specs.Turns.{Held};
ghost use Rattle.dns_multiplexer.specs.Views.{taken_of};
ghost use Rattle.dns_multiplexer.specs.Draws.{Drawn};
ghost use Rattle.dns_handle.specs.Errors.{NoConnections};
ghost use Rattle.dns_journal.specs.declared.refusal.Refusal.TheVariants.{HistoryFull};
ghost use Rattle.dns_journal.specs.Entries.{Send, Arrive, Cancel, Tick, Close, drawn_of, reply_of};
ghost use Rattle.dns_journal.specs.Limits.{request_len, kept_in, was_closed, send_fits, arrival_fits, call_fits, close_fits};
ghost use Rattle.dns_journal.specs.Calls.{IsJournal, IsAdded, IsRefused, IsTaken, IsPopped, IsSent, IsSendRefused, draws_of};
ghost use Rattle.dns_journal.specs.Replays.{IsAnswer, IsNoRoom, IsPlayedSend, IsUnplayedSend, found_by};

use crate::drawn_ids::DrawnIds;
use crate::entry::{Entry, Found, SendRefusal};
use crate::entry_list::EntryList;
use crate::{ExchangeError, RecordedDraws, Refusal};
use dns_handle::{IoKind, NetError};
use dns_multiplexer::{Arrival, Draws, MultiplexerCore, RequestId, SerialMessage, Taken};
use dns_record::{NoMemory, Octets};
use std::alloc::Global;
use std::marker::Model;

/// So many entries are kept at most, with the places of what can't be refused.
const MOST_ENTRIES: usize = 1_048_576;

/// So many bytes of messages are kept at most.
const MOST_BYTES: usize = 67_108_864;

/// The requests over one connection and what comes for them, as a `MultiplexerCore` has them (RFC 1035, 4.1.1; RFC 7766, 6.2.1),
/// with the journal of all that was done. Each call leaves one entry, also a send that is refused. A call that finds no room in
/// the journal is refused, and changes nothing; a place is kept for the first `close`, and for the `pop_outbound` of each message.
#[derive(Drop)]
pub struct JournaledCore {
    core: MultiplexerCore,
    entries: EntryList,
    /// Of requests and of what came.
    bytes: usize,
}

impl Model for JournaledCore {
    ghost use Rattle.turns.specs.Turns.{Held};
    ghost use Rattle.dns_multiplexer.specs.Machine.{Settings};
    ghost use Rattle.dns_journal.specs.Entries.{Entry};
    ghost use Rattle.dns_journal.specs.Replays.{IsReplay};

    ghost Value = { Held Settings Entry };

    ghost view = { λ j. record { about = j.core.machine.settings; journal = j.entries.items } };

    ghost invariant = { λ j. IsReplay j.core.machine.settings j.entries.items j.core j.bytes j.entries.room };
}

// The places that are kept: one for the first close, and one for each message that is to be sent.
fn kept_places(core: &MultiplexerCore) -> usize
    requires { kept_in core.now.machine ≤ 2 ^ 20 }
    ensures { result ≡ kept_in core.now.machine }
{
    if core.is_shutdown() {
        return core.outbound_len();
    }
    core.outbound_len() + 1
}

// Memory for so many entries more and for the places that are kept, or why they find no room.
fn make_room(
    alloc: Global,
    core: &MultiplexerCore,
    entries: &mut EntryList,
    more: usize,
) -> Result<(), Refusal>
    requires few { more ≤ 2 }
    requires room { kept_in core.now.machine ≤ entries.old.room }
    requires fits { length entries.old.items + kept_in core.now.machine ≤ 2 ^ 20 }
    ensures ok { OnOk result (length entries.old.items + kept_in core.now.machine + more ≤ 2 ^ 20) }
    ensures room { OnOk result (kept_in core.now.machine + more ≤ entries.new.room) }
    ensures err { IfErr result (IsNoRoom (length entries.old.items + kept_in core.now.machine + more)) }
    ensures items { entries.new.items ≡ entries.old.items }
    ensures same { OnErr result (entries.new ≡ entries.old) }
{
    let places = kept_places(core) + more;
    if entries.len() + places > MOST_ENTRIES {
        return Err(Refusal::HistoryFull);
    }
    entries.reserve(alloc, places)?;
    Ok(())
}

// Memory for a close: the first one has its place, which is then free.
fn make_close_room(
    alloc: Global,
    core: &MultiplexerCore,
    entries: &mut EntryList,
) -> Result<(), Refusal>
    requires room { kept_in core.now.machine ≤ entries.old.room }
    requires fits { length entries.old.items + kept_in core.now.machine ≤ 2 ^ 20 }
    ensures ok { OnOk result (length entries.old.items + length core.now.machine.state.outbound + 1 ≤ 2 ^ 20) }
    ensures room { OnOk result (length core.now.machine.state.outbound + 1 ≤ entries.new.room) }
    ensures err { IfErr result (IsNoRoom (length entries.old.items + kept_in core.now.machine + 1)) }
    ensures first { core.now.machine.is_shutdown ≡ false → IsOk result }
    ensures items { entries.new.items ≡ entries.old.items }
    ensures same { OnErr result (entries.new ≡ entries.old) }
{
    if !core.is_shutdown() {
        return Ok(());
    }
    make_room(alloc, core, entries, 1)
}

// The bytes with so many more, unless they are too many.
fn with_bytes(bytes: usize, more: usize) -> Result<usize, Refusal>
    requires { bytes ≤ 67108864 }
    ensures ok { IfOk result (λ sum. (sum ≡ bytes + more) × (sum ≤ 67108864)) }
    ensures err { IfErr result (λ refusal. (refusal ≡ HistoryFull) × (67108864 < bytes + more)) }
{
    if more > MOST_BYTES - bytes {
        return Err(Refusal::HistoryFull);
    }
    Ok(bytes + more)
}

// How many bytes a request has; none where it is too long.
fn len_of(request: &Option<Octets>) -> usize
    ensures { result ≡ request_len request.now }
{
    match request {
        None => 0,
        Some(bytes) => bytes.len(),
    }
}

// A copy of a request's bytes. It shares their octets.
fn copy_of(request: &Option<Octets>) -> Result<Option<Octets>, NoMemory>
    ensures { IfOk result (λ copy. copy ≡ request.now) }
{
    match request {
        None => Ok(None),
        Some(bytes) => Ok(Some(bytes.try_clone()?)),
    }
}

// What a take found, by the place of the entry that brought its item.
fn found(taken: &Taken, place: Option<u64>) -> Found
    ensures { result ≡ found_by (taken_of taken.now) place }
{
    if let Some(place) = place {
        return Found::At(place);
    }
    match taken {
        Taken::Pending => Found::Pending,
        _ => Found::Ended,
    }
}

/// A send that the multiplexer answered.
#[derive(Drop)]
struct PlayedSend {
    drawn: DrawnIds,
    reply: Result<u64, SendRefusal>,
}

// Sends an encoded request by the multiplexer, and keeps the ids that are drawn for it.
fn play_send<R: Draws + Drop>(
    alloc: Global,
    core: &mut MultiplexerCore,
    draws: &mut RecordedDraws<R>,
    request: Option<Octets>,
    now: u64,
) -> Result<PlayedSend, NoMemory>
    requires { IfSome request (λ bytes. 2 ≤ length bytes) }
    ensures ok { IfOk result (λ sent. IsPlayedSend (λ ids. Drawn R.draws_id (draws_of draws.old) ids (draws_of draws.new))
        core.old core.new request now (drawn_of sent.drawn) (reply_of sent.reply)) }
    ensures err { OnErr result (IsUnplayedSend (λ ids. Drawn R.draws_id (draws_of draws.old) ids (draws_of draws.new))
        core.old core.new) }
{
    draws.begin()?;
    match core.send(alloc, draws, request, now) {
        Ok(id) => Ok(PlayedSend {
            drawn: draws.take(),
            reply: Ok(id.0),
        }),
        Err(error) => match SendRefusal::of(&error) {
            None => Err(NoMemory),
            Some(refusal) => Ok(PlayedSend {
                drawn: draws.take(),
                reply: Err(refusal),
            }),
        },
    }
}

// What a send is answered.
fn answer_of(reply: Result<u64, SendRefusal>) -> Result<RequestId, ExchangeError>
    ensures { IsAnswer reply result }
{
    match reply {
        Ok(number) => Ok(RequestId(number)),
        Err(refusal) => Err(ExchangeError::Net(refusal.error())),
    }
}

impl JournaledCore {
    /// A multiplexer with an empty journal. It has accepted no send, nothing waits to be sent, and it isn't shut down. The only
    /// error is that memory ran out.
    pub fn new(alloc: Global, core: MultiplexerCore) -> Result<JournaledCore, NoMemory>
        requires requests { core.machine.state.requests ≡ [] }
        requires outbound { core.machine.state.outbound ≡ [] }
        requires open { core.machine.is_shutdown ≡ false }
        ensures new { IfOk result (λ j. j ≡ record { about = core.machine.settings; journal = [] }) }
        ensures journal { IfOk result IsJournal }
    {
        prove!(core.accepted() == 0);
        Ok(JournaledCore {
            core,
            entries: EntryList::new(alloc)?,
            bytes: 0,
        })
    }

    // A send after a close, which is refused.
    fn refuse_send(
        &mut self,
        alloc: Global,
        request: Option<Octets>,
        now_ms: u64,
    ) -> Result<(), Refusal>
        requires { was_closed self.old ≡ true }
        ensures ok { OnOk result (IsAdded (send_fits request self.old) self.old
            (Send request now_ms [] (Err NoConnections)) self.new) }
        ensures err { IfErr result (IsRefused (send_fits request self.old) self.old self.new) }
        ensures journal { IsJournal self.new }
    {
        let bytes = with_bytes(self.bytes, len_of(&request))?;
        make_room(alloc, &self.core, &mut self.entries, 1)?;
        self.bytes = bytes;
        self.entries.push(Entry::Send {
            request,
            moment: now_ms,
            drawn: DrawnIds::Nothing,
            reply: Err(SendRefusal::NoConnections),
        });
        Ok(())
    }

    // A send before any close.
    fn play<R: Draws + Drop>(
        &mut self,
        alloc: Global,
        draws: &mut RecordedDraws<R>,
        request: Option<Octets>,
        now_ms: u64,
    ) -> Result<RequestId, ExchangeError>
        requires long { IfSome request (λ bytes. 2 ≤ length bytes) }
        requires open { was_closed self.old ≡ false }
        ensures ok { IfOk result (λ id. IsSent (λ ids. Drawn R.draws_id (draws_of draws.old) ids (draws_of draws.new))
            self.old request now_ms (Ok id.0) self.new) }
        ensures err { IfErr result (IsSendRefused (λ ids. Drawn R.draws_id (draws_of draws.old) ids (draws_of draws.new))
            self.old request now_ms self.new) }
        ensures journal { IsJournal self.new }
    {
        let bytes = with_bytes(self.bytes, len_of(&request))?;
        make_room(alloc, &self.core, &mut self.entries, 2)?;
        let kept = copy_of(&request)?;
        let sent = play_send(alloc, &mut self.core, draws, request, now_ms)?;
        self.bytes = bytes;
        self.entries.push(Entry::Send {
            request: kept,
            moment: now_ms,
            drawn: sent.drawn,
            reply: sent.reply,
        });
        answer_of(sent.reply)
    }

    /// Sends a request at a time, in milliseconds, as `MultiplexerCore::send` does: it is given as it is encoded under its own id,
    /// or as None where that has more than 65,535 bytes. `HistoryFull` comes first, exactly where there is no room for the entry
    /// and, before a close, for that of its pop; it draws no id. Then `NoConnections` comes exactly after a close. Whatever else the
    /// multiplexer answers is an entry, and its answer. Where memory runs out, ids that were drawn stay drawn.
    pub fn send<R: Draws + Drop>(
        &mut self,
        alloc: Global,
        draws: &mut RecordedDraws<R>,
        request: Option<Octets>,
        now_ms: u64,
    ) -> Result<RequestId, ExchangeError>
        requires { IfSome request (λ bytes. 2 ≤ length bytes) }
        ensures ok { IfOk result (λ id. IsSent (λ ids. Drawn R.draws_id (draws_of draws.old) ids (draws_of draws.new))
            self.old request now_ms (Ok id.0) self.new) }
        ensures err { IfErr result (IsSendRefused (λ ids. Drawn R.draws_id (draws_of draws.old) ids (draws_of draws.new))
            self.old request now_ms self.new) }
        ensures journal { IsJournal self.new }
    {
        if !self.core.is_shutdown() {
            return self.play(alloc, draws, request, now_ms);
        }
        self.refuse_send(alloc, request, now_ms)?;
        Err(ExchangeError::Net(NetError::NoConnections))
    }

    /// Takes the next message that is to be sent out of the queue. None exactly where none waits. It takes no memory.
    pub fn pop_outbound(&mut self) -> Option<SerialMessage>
        ensures popped { IsPopped self.old self.new result }
        ensures journal { IsJournal self.new }
    {
        let message = self.core.pop_outbound()?;
        self.entries.push(Entry::Pop);
        Some(message)
    }

    /// Hands bytes that came to the live request that has their id, as `MultiplexerCore::arrive` does.
    pub fn arrive(&mut self, alloc: Global, bytes: Octets) -> Result<Arrival, Refusal>
        ensures ok { IfOk result (λ a. IsAdded (arrival_fits bytes self.old) self.old (Arrive bytes a) self.new) }
        ensures err { IfErr result (IsRefused (arrival_fits bytes self.old) self.old self.new) }
        ensures journal { IsJournal self.new }
    {
        let sum = with_bytes(self.bytes, bytes.len())?;
        make_room(alloc, &self.core, &mut self.entries, 1)?;
        let kept = bytes.try_clone()?;
        let reply = self.core.arrive(alloc, bytes, self.entries.len() as u64)?;
        self.bytes = sum;
        self.entries.push(Entry::Arrive { bytes: kept, reply });
        Ok(reply)
    }

    /// Takes the first item that waits for a request. The entry names the one that brought the item.
    pub fn take(&mut self, alloc: Global, id: RequestId) -> Result<Taken, Refusal>
        ensures ok { IfOk result (λ taken. IsTaken self.old id.0 (taken_of taken) self.new) }
        ensures err { IfErr result (IsRefused (call_fits self.old) self.old self.new) }
        ensures journal { IsJournal self.new }
    {
        make_room(alloc, &self.core, &mut self.entries, 1)?;
        let (taken, place) = self.core.take(id);
        self.entries.push(Entry::Take {
            number: id.0,
            found: found(&taken, place),
        });
        Ok(taken)
    }

    /// Ends a request and drops what waits for it.
    pub fn cancel(&mut self, alloc: Global, id: RequestId) -> Result<(), Refusal>
        ensures ok { OnOk result (IsAdded (call_fits self.old) self.old (Cancel id.0) self.new) }
        ensures err { IfErr result (IsRefused (call_fits self.old) self.old self.new) }
        ensures journal { IsJournal self.new }
    {
        make_room(alloc, &self.core, &mut self.entries, 1)?;
        self.core.cancel(id);
        self.entries.push(Entry::Cancel(id.0));
        Ok(())
    }

    /// Ends each request that was sent the timeout before a time, in milliseconds, or earlier; what waits for it stays.
    pub fn tick(&mut self, alloc: Global, now_ms: u64) -> Result<(), Refusal>
        ensures ok { OnOk result (IsAdded (call_fits self.old) self.old (Tick now_ms) self.new) }
        ensures err { IfErr result (IsRefused (call_fits self.old) self.old self.new) }
        ensures journal { IsJournal self.new }
    {
        make_room(alloc, &self.core, &mut self.entries, 1)?;
        self.core.tick(now_ms);
        self.entries.push(Entry::Tick(now_ms));
        Ok(())
    }

    /// Ends all requests, each with the fault as its last item where fewer than nine wait. The first close is never refused.
    pub fn close(&mut self, alloc: Global, fault: IoKind) -> Result<(), Refusal>
        ensures ok { OnOk result (IsAdded (close_fits self.old) self.old (Close fault) self.new) }
        ensures err { IfErr result (IsRefused (close_fits self.old) self.old self.new) }
        ensures first { was_closed self.old ≡ false → IsOk result }
        ensures journal { IsJournal self.new }
    {
        make_close_room(alloc, &self.core, &mut self.entries)?;
        self.core.close(fault, self.entries.len() as u64);
        self.entries.push(Entry::Close(fault));
        Ok(())
    }
}
