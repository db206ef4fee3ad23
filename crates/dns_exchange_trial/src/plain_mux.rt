//! A multiplexer as one would write it with lists alone, and what both machines are told and answer.
ghost use Rattle.std.specs.Prelude.{◌<◌, length, IfSome};

use dns_multiplexer::{Arrival, Draws, RequestId};
use dns_record::NoMemory;
use std::alloc::Global;

/// So many requests are live at most: one more than there are ids.
pub(crate) const MAXIMUM: usize = 5;

/// So many messages wait beside one more at most.
pub(crate) const SIZE: usize = 4;

/// So many responses wait for one request at most.
const MOST_WAITING: usize = 9;

/// Milliseconds after which a request ends.
pub(crate) const TIMEOUT: u64 = 1000;

/// What happens.
#[derive(Clone, Copy)]
pub(crate) enum Event {
    /// A request is sent at a moment.
    Send(u64),
    /// A response with an id and a mark comes.
    Arrive(u16, u8),
    Take(u64),
    Cancel(u64),
    Tick(u64),
    Close,
    Pop,
}

/// What a call answers.
#[derive(Clone, Copy, PartialEq, Eq)]
pub(crate) enum Answer {
    Sent(u64),
    Busy,
    Exhausted,
    QueueFull,
    Arrived(Arrival),
    /// A response with this mark.
    Response(u8),
    Fault,
    Pending,
    Ended,
    /// The id of the message that was popped.
    Popped(u16),
    Nothing,
    /// An answer that neither should give.
    Other,
}

/// A request.
#[derive(Clone, Copy)]
struct PlainRequest {
    id: u16,
    moment: u64,
    is_live: bool,
    is_cancelled: bool,
}

/// What waits for the request with a number: a response with a mark, or the fault of a connection that was closed.
#[derive(Clone, Copy)]
struct Waiting {
    number: usize,
    mark: Option<u8>,
}

/// The requests in the order of their numbers, what waits for them in the order in which it came, and what is to be sent.
#[derive(Drop)]
pub(crate) struct Plain<D: Draws + Drop> {
    /// The last time that it was told, in milliseconds.
    pub(crate) now: u64,
    pub(crate) is_closed: bool,
    requests: Vec<PlainRequest>,
    waiting: Vec<Waiting>,
    outbound: Vec<u16>,
    draws: D,
}

// Where the first item of a request stands.
fn place_of(waiting: &[Waiting], number: usize) -> Option<usize>
    ensures { IfSome result (λ place. place < length waiting.now) }
{
    for place in 0..waiting.len() {
        if waiting[place].number == number {
            return Some(place);
        }
    }
    None
}

// How many items wait for a request.
fn count_of(waiting: &[Waiting], number: usize) -> usize {
    let mut count: usize = 0;
    for one in waiting {
        if one.number == number {
            count = count.saturating_add(1);
        }
    }
    count
}

// Puts an item behind those that wait for a request. False where there is no room for it.
fn add(waiting: &mut Vec<Waiting>, number: usize, mark: Option<u8>) -> Result<bool, NoMemory> {
    if count_of(waiting, number) >= MOST_WAITING {
        return Ok(false);
    }
    waiting.push(Waiting { number, mark })?;
    Ok(true)
}

// How many requests are live.
fn live_count(requests: &[PlainRequest]) -> usize {
    let mut count: usize = 0;
    for request in requests {
        if request.is_live {
            count = count.saturating_add(1);
        }
    }
    count
}

// The number of the live request with an id.
fn holder(requests: &[PlainRequest], id: u16) -> Option<usize> {
    for number in 0..requests.len() {
        if requests[number].is_live && requests[number].id == id {
            return Some(number);
        }
    }
    None
}

impl<D: Draws + Drop> Plain<D> {
    /// No request yet.
    pub(crate) fn new(alloc: Global, draws: D) -> Plain<D> {
        Plain {
            now: 0,
            is_closed: false,
            requests: Vec::new(alloc),
            waiting: Vec::new(alloc),
            outbound: Vec::new(alloc),
            draws,
        }
    }

    /// How many requests were sent.
    pub(crate) fn count(&self) -> u64 {
        self.requests.len() as u64
    }

    /// Whether an event that is answered so may be the next one: requests are sent, messages go out and responses come in their order.
    pub(crate) fn is_ready(&self, event: Event, answer: Answer) -> bool {
        match (event, answer) {
            (Event::Send(_), Answer::Sent(number)) => self.count() == number,
            (Event::Pop, Answer::Popped(id)) => self.outbound.first().copied() == Some(id),
            (Event::Take(number), Answer::Response(_)) => {
                place_of(&self.waiting, number as usize).is_some()
            }
            _ => true,
        }
    }

    // An id that no live request has, among a hundred that are drawn.
    fn draw(&mut self) -> Option<u16> {
        for _ in 0..100 {
            let id = self.draws.id();
            if holder(&self.requests, id).is_none() {
                return Some(id);
            }
        }
        None
    }

    // Sends a request.
    fn send(&mut self, moment: u64) -> Result<Answer, NoMemory> {
        if live_count(&self.requests) >= MAXIMUM {
            return Ok(Answer::Busy);
        }
        let Some(id) = self.draw() else {
            return Ok(Answer::Exhausted);
        };
        if self.outbound.len() > SIZE {
            return Ok(Answer::QueueFull);
        }
        let number = self.count();
        self.outbound.push(id)?;
        self.requests.push(PlainRequest {
            id,
            moment,
            is_live: true,
            is_cancelled: false,
        })?;
        Ok(Answer::Sent(number))
    }

    // A response with an id arrives.
    fn arrive(&mut self, id: u16, mark: u8) -> Result<Arrival, NoMemory> {
        let Some(number) = holder(&self.requests, id) else {
            return Ok(Arrival::Stranger);
        };
        if add(&mut self.waiting, number, Some(mark))? {
            Ok(Arrival::Queued(RequestId(number as u64)))
        } else {
            Ok(Arrival::Full)
        }
    }

    // Takes what came first for a request.
    fn take(&mut self, number: usize) -> Answer {
        let Some(request) = self.requests.get(number) else {
            return Answer::Ended;
        };
        if request.is_cancelled {
            return Answer::Ended;
        }
        match place_of(&self.waiting, number) {
            Some(place) => match self.waiting.remove(place).mark {
                Some(mark) => Answer::Response(mark),
                None => Answer::Fault,
            },
            None if request.is_live => Answer::Pending,
            None => Answer::Ended,
        }
    }

    // What waits for a cancelled request is never taken.
    fn cancel(&mut self, number: usize) {
        if let Some(request) = self.requests.get_mut(number) {
            request.is_live = false;
            request.is_cancelled = true;
        }
    }

    // Time passes: requests that are too old end.
    fn tick(&mut self, now: u64) {
        self.now = now;
        for request in &mut self.requests {
            if request.moment.saturating_add(TIMEOUT) <= now {
                request.is_live = false;
            }
        }
    }

    // The connection ends: each live request gets a fault.
    fn close(&mut self) -> Result<(), NoMemory> {
        self.is_closed = true;
        for number in 0..self.requests.len() {
            if let Some(request) = self.requests.get_mut(number)
                && request.is_live
            {
                request.is_live = false;
                let _ = add(&mut self.waiting, number, None)?;
            }
        }
        Ok(())
    }

    // The next message to send.
    fn pop(&mut self) -> Answer {
        if self.outbound.is_empty() {
            Answer::Nothing
        } else {
            Answer::Popped(self.outbound.remove(0))
        }
    }

    /// What an event is answered.
    pub(crate) fn answer(&mut self, event: Event) -> Result<Answer, NoMemory> {
        match event {
            Event::Send(moment) => return self.send(moment),
            Event::Arrive(id, mark) => return Ok(Answer::Arrived(self.arrive(id, mark)?)),
            Event::Take(number) => return Ok(self.take(number as usize)),
            Event::Pop => return Ok(self.pop()),
            Event::Cancel(number) => self.cancel(number as usize),
            Event::Tick(now) => self.tick(now),
            Event::Close => self.close()?,
        }
        Ok(Answer::Nothing)
    }
}
