//! A handle that notes what it is asked and what it answers.
ghost use Rattle.std.specs.Prelude.{◌≡◌, ◌++◌, IfErr, IfOk, OnErr, OnOk, map};
ghost use Rattle.dns_handle.specs.Replies.{reply_of};
ghost use Rattle.dns_handle.specs.Requests.{first_question};
ghost use Rattle.dns_query_handle.specs.Notes.{AsksNoted, TimedSend, note_of};

use crate::note::Note;
use crate::stopwatch::Stopwatch;
use dns_handle::{DnsHandle, DnsRequest, DnsResponse, NetError, faults_after};
use dns_record::{NoMemory, Query};
use std::alloc::Global;
use std::mem;

/// A handle that sends each request by the handle inside, and notes the query, the answer and how long it took, in order. What it
/// answers is noted: where memory runs out for the note, it answers that instead. An error that it answers, other than that there are
/// no records and running out of memory, is a fault of this handle.
#[derive(Drop)]
pub struct NotingHandle<H: Drop, T: Drop> {
    handle: H,
    watch: T,
    notes: Vec<Note>,
    sends: u64,
    faults: u64,
}

impl<H: Drop, T: Drop> NotingHandle<H, T> {
    ghost use Rattle.std.specs.Prelude.{[]};
    ghost use Rattle.dns_query_handle.specs.NotingHandles.{faults_of, inner_of, notes_of, sends_of, watch_of};

    /// A handle that has noted nothing yet.
    pub fn new(alloc: Global, handle: H, watch: T) -> NotingHandle<H, T>
        ensures handle { inner_of result ≡ handle }
        ensures watch { watch_of result ≡ watch }
        ensures notes { notes_of result ≡ [] }
        ensures sends { sends_of result ≡ 0 }
        ensures faults { faults_of result ≡ 0 }
    {
        NotingHandle {
            handle,
            watch,
            notes: Vec::new(alloc),
            sends: 0,
            faults: 0,
        }
    }

    /// The notes so far. From now on it has none.
    pub fn take_notes(&mut self, alloc: Global) -> Vec<Note>
        ensures taken { result.items ≡ notes_of self.old }
        ensures notes { notes_of self.new ≡ [] }
        ensures handle { inner_of self.new ≡ inner_of self.old }
        ensures watch { watch_of self.new ≡ watch_of self.old }
        ensures sends { sends_of self.new ≡ sends_of self.old }
        ensures faults { faults_of self.new ≡ faults_of self.old }
    {
        mem::replace(&mut self.notes, Vec::new(alloc))
    }

    /// The handle that is asked, and the notes.
    pub fn into_parts(self) -> (H, Vec<Note>)
        ensures handle { result.0 ≡ inner_of self }
        ensures notes { result.1.items ≡ notes_of self }
    {
        let NotingHandle {
            handle,
            watch: _,
            notes,
            sends: _,
            faults: _,
        } = self;
        (handle, notes)
    }
}

// A copy of what a request asks.
fn first_query(request: &DnsRequest) -> Result<Option<Query>, NoMemory>
    ensures { IfOk result (λ q. q ≡ first_question request.now) }
{
    match request.message.queries.first() {
        Some(query) => Ok(Some(query.try_clone()?)),
        None => Ok(None),
    }
}

// A copy of a reply.
fn copied(reply: &Result<DnsResponse, NetError>) -> Result<Result<DnsResponse, NetError>, NoMemory>
    ensures { IfOk result (λ copy. reply_of copy ≡ reply_of reply.now) }
{
    match reply {
        Ok(response) => Ok(Ok(response.try_clone()?)),
        Err(error) => Ok(Err(error.try_clone()?)),
    }
}

// Notes what a query was answered; without one there is nothing to note. Where memory runs out, the notes stay.
fn note(
    notes: &mut Vec<Note>,
    query: Option<Query>,
    reply: &Result<DnsResponse, NetError>,
    elapsed_ms: u64,
) -> Result<(), NoMemory>
    ensures ok { OnOk result (notes.new.items ≡ notes.old.items ++ note_of query (reply_of reply.now) elapsed_ms) }
    ensures err { OnErr result (notes.new.items ≡ notes.old.items) }
{
    let Some(query) = query else {
        return Ok(());
    };
    let reply = copied(reply)?;
    notes.push(Note {
        query,
        reply,
        elapsed_ms,
    })?;
    Ok(())
}

// Sends the request, and tells how many milliseconds that took.
fn timed_send<H: DnsHandle, T: Stopwatch>(
    alloc: Global,
    handle: &mut H,
    watch: &mut T,
    request: DnsRequest,
    now: u64,
) -> (Result<DnsResponse, NetError>, u64)
    ensures { TimedSend H.DnsHandle T.reads handle.old watch.old request now handle.new watch.new (reply_of result.0) result.1 }
{
    let start = watch.elapsed_ms();
    let reply = handle.send(alloc, request, now);
    let end = watch.elapsed_ms();
    (reply, end.saturating_sub(start))
}

// Sends the request, and notes the answer.
fn ask_noted<H: DnsHandle, T: Stopwatch>(
    alloc: Global,
    handle: &mut H,
    watch: &mut T,
    notes: &mut Vec<Note>,
    request: DnsRequest,
    now: u64,
) -> Result<DnsResponse, NetError>
    ensures { AsksNoted H.DnsHandle T.reads handle.old watch.old notes.old.items request now handle.new watch.new notes.new.items
        (reply_of result) }
{
    let query = first_query(&request)?;
    let (reply, elapsed_ms) = timed_send(alloc, handle, watch, request, now);
    note(notes, query, &reply, elapsed_ms)?;
    reply
}

/// It tells nothing of its replies.
impl<H: DnsHandle + Drop, T: Stopwatch + Drop> DnsHandle for NotingHandle<H, T> {
    ghost use Rattle.std.specs.Prelude.{None};
    ghost use Rattle.dns_query_handle.specs.NotingHandles.{NotesQuestion, NotesRequest, faults_of, sends_of};

    ghost sends = { sends_of };

    ghost faults = { faults_of };

    ghost sent = { NotesQuestion H.DnsHandle T.reads };

    ghost told = { λ _. None };

    ghost requested = { NotesRequest H.DnsHandle T.reads };

    fn send(
        &mut self,
        alloc: Global,
        request: DnsRequest,
        now: u64,
    ) -> Result<DnsResponse, NetError> {
        let reply = ask_noted(
            alloc,
            &mut self.handle,
            &mut self.watch,
            &mut self.notes,
            request,
            now,
        );
        self.sends = self.sends.saturating_add(1);
        self.faults = faults_after(self.faults, &reply);
        reply
    }

    fn is_using_edns(&self) -> bool {
        true
    }
}
