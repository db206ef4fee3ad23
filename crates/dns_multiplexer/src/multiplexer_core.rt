//! A multiplexer without its generator of ids, which each send is lent: what stands under `DnsMultiplexer`.
ghost use Rattle.std.specs.Prelude.{◌≡◌, ◌≤◌, ◌<◌, ◌^◌, [], false, true, drop, length, slice_get, IfOk, IfSome, OnErr};
ghost use Rattle.dns_multiplexer.specs.Views.{sent_of, taken_of};
ghost use Rattle.dns_multiplexer.specs.Events.{Arrive, Take, Cancel, Tick, Close};
ghost use Rattle.dns_multiplexer.specs.Machine.{changed_at, is_taken_id, with_maximum};
ghost use Rattle.dns_multiplexer.specs.Brought.{brought_at, brought_by_send, brought_by_arrival, brought_by_close};
ghost use Rattle.dns_multiplexer.specs.Messages.{plain_response, with_id};
ghost use Rattle.dns_multiplexer.specs.Draws.{Drawn, IsEncoded, IsFreeDraw, IsUnreadable, IsPlaced, IsPop, IsSend, Plays, request_bytes};

use crate::request_table::RequestTable;
use crate::stream_handle::{BufDnsStreamHandle, DnsStreamHandle, StreamReceiver};
use crate::{Arrival, Draws, RequestId, SerialMessage, Taken};
use dns_evidence::Trail;
use dns_handle::{DnsRequest, DnsResponse, IoKind, NetError, Notice, ProtoError};
use dns_message::{DecodeError, DecodeKind, EncodeError, Message};
use dns_model::Denial;
use dns_record::{NoMemory, Octets};
use std::alloc::Global;
use std::marker::Model;

/// So many ids are drawn for a request at most.
const MOST_DRAWS: u32 = 100;

/// The requests over one connection and what comes for them, as `DnsMultiplexer` keeps them (RFC 1035, 4.1.1; RFC 7766,
/// 6.2.1), for those who keep the generator of ids elsewhere. A send is handed the encoded request and is lent the generator.
/// Whoever hands over bytes that came, or ends the connection, numbers that event, and `take` says of each item which event
/// brought it.
#[derive(Drop)]
pub struct MultiplexerCore {
    table: RequestTable,
    handle: BufDnsStreamHandle,
    queue: StreamReceiver,
    /// Milliseconds.
    timeout: u64,
    maximum: usize,
    is_shutdown: bool,
}

impl Model for MultiplexerCore {
    ghost use Rattle.dns_multiplexer.specs.Brought.{TracedCore};

    ghost Value = { TracedCore };

    ghost view = { λ c. record {
      machine = record {
        settings = record { timeout = c.timeout; maximum = c.maximum; buffer = c.handle.buffer; server = c.handle.addr };
        state = record { requests = c.table.requests; outbound = c.queue };
        is_shutdown = c.is_shutdown;
      };
      brought = c.table.brought;
    } };
}

// Draws ids until one is no live request's, as often as is left.
fn draw_free<R: Draws>(table: &RequestTable, draws: &mut R, left: u32) -> Option<u16>
    ensures { IsFreeDraw R.draws_id draws.old draws.new left (is_taken_id table.now.requests) result }
{
    if left == 0 {
        return None;
    }
    let id = draws.id();
    if table.has_id(id) {
        return draw_free(table, draws, left - 1);
    }
    Some(id)
}

// A message alone as a response.
fn response_of(alloc: Global, message: Message) -> DnsResponse
    ensures { result ≡ plain_response message }
{
    DnsResponse {
        message,
        chains: Vec::new(alloc),
        denial: Denial::None,
        trail: Trail::new(alloc),
    }
}

// What bytes are called that are no message; where memory ran out that isn't known.
fn unreadable(error: DecodeError) -> Result<Arrival, NoMemory>
    ensures { IsUnreadable error result }
{
    match error.kind {
        DecodeKind::NoMemory => Err(NoMemory),
        _ => Ok(Arrival::Undecodable(error)),
    }
}

// The bytes of a message with another id, which is their first two.
fn with_id(bytes: Octets, id: u16) -> Result<Octets, NoMemory>
    requires { 2 ≤ length bytes }
    ensures { IfOk result (λ sent. sent ≡ with_id id bytes) }
{
    let mut bytes = bytes.into_vec()?;
    bytes[0] = (id / 256) as u8;
    bytes[1] = (id % 256) as u8;
    Ok(Octets::from_vec(bytes))
}

/// A request as it is encoded under its own id, and as `MultiplexerCore::send` takes it: None where that has more than 65,535
/// bytes. The only error is that memory ran out.
pub fn encoded_request(request: &DnsRequest) -> Result<Option<Octets>, NoMemory>
    ensures encoded { IfOk result (λ bytes. bytes ≡ request_bytes request.now) }
    ensures long { IfOk result (λ bytes. IfSome bytes (λ b. 2 ≤ length b)) }
    ensures short { IfOk result (λ bytes. IfSome bytes (λ b. length b ≤ 65535)) }
{
    match request.message.to_vec() {
        Ok(bytes) => Ok(Some(bytes)),
        Err(EncodeError::TooLong) => Ok(None),
        Err(EncodeError::NoMemory) => Err(NoMemory),
    }
}

// An encoded request as it is sent under an id.
fn under_id(request: Option<Octets>, id: u16) -> Result<Octets, NetError>
    requires { IfSome request (λ bytes. 2 ≤ length bytes) }
    ensures { IsEncoded id request result }
{
    match request {
        Some(bytes) => Ok(with_id(bytes, id)?),
        None => Err(NetError::Proto(ProtoError::TooLong)),
    }
}

impl MultiplexerCore {
    /// No request yet; requests end after 5,000 milliseconds, and 32 are live at most. What waits in the queue already is
    /// sent first. Messages go to the handle's address.
    pub fn new(alloc: Global, handle: BufDnsStreamHandle, queue: StreamReceiver) -> MultiplexerCore
        ensures settings { result.machine.settings
            ≡ record { timeout = 5000; maximum = 32; buffer = handle.buffer; server = handle.addr } }
        ensures state { result.machine.state ≡ record { requests = []; outbound = queue } }
        ensures open { result.machine.is_shutdown ≡ false }
        ensures brought { result.brought ≡ [] }
    {
        MultiplexerCore {
            table: RequestTable::new(alloc),
            handle,
            queue,
            timeout: 5000,
            maximum: 32,
            is_shutdown: false,
        }
    }

    /// Requests end after so many milliseconds.
    pub fn set_timeout(&mut self, ms: u64)
        requires { self.old.machine.state.requests ≡ [] }
        ensures timeout { self.new.machine
            ≡ record self.old.machine { settings = record self.old.machine.settings { timeout = ms } } }
        ensures brought { self.new.brought ≡ self.old.brought }
    {
        self.timeout = ms;
    }

    /// So many requests are live at most. With 0 each send is `Busy`.
    pub fn set_max_active_requests(&mut self, max: usize)
        ensures maximum { self.new.machine
            ≡ record self.old.machine { settings = with_maximum max self.old.machine.settings } }
        ensures brought { self.new.brought ≡ self.old.brought }
    {
        self.maximum = max;
    }

    /// How many requests were accepted.
    pub fn accepted(&self) -> u64
        ensures requests { result ≡ length self.now.machine.state.requests }
        ensures brought { result ≡ length self.now.brought }
    {
        self.table.count()
    }

    /// How many messages are to be sent.
    pub fn outbound_len(&self) -> usize
        ensures { result ≡ length self.now.machine.state.outbound }
    {
        self.queue.len()
    }

    // Puts a request under an id into the queue, and keeps room for what comes for it.
    fn place(
        &mut self,
        alloc: Global,
        id: u16,
        request: Option<Octets>,
        now: u64,
    ) -> Result<RequestId, NetError>
        requires long { IfSome request (λ bytes. 2 ≤ length bytes) }
        requires free { is_taken_id self.old.machine.state.requests id ≡ false }
        ensures placed { IsPlaced self.old.machine.settings self.old.machine.state self.new.machine.state id
            request now (sent_of result) }
        ensures kept { self.new.machine ≡ record self.old.machine { state = self.new.machine.state } }
        ensures brought { self.new.brought ≡ brought_by_send (sent_of result) self.old.brought }
    {
        let message = SerialMessage {
            bytes: under_id(request, id)?,
            addr: self.handle.remote_addr(),
        };
        self.handle.send(&mut self.queue, message)?;
        match self.table.open(alloc, id, now) {
            Ok(number) => Ok(RequestId(number)),
            Err(error) => {
                self.queue.take_back();
                Err(NetError::from(error))
            }
        }
    }

    /// Sends a request at a time, in milliseconds, under an id that no live request has. The request is given as it is
    /// encoded under its own id, or as None where that has more than 65,535 bytes (`encoded_request`). In this order: `Busy`
    /// exactly where as many requests are live as may; that the id space is exhausted exactly where 100 ids that were drawn
    /// are all live requests'; `TooLong` exactly for None; that the queue is full exactly where one more than its size waits.
    /// A refusal adds no request, and ids that were drawn stay drawn. Memory may run out, and it is said to after 2^64 - 1
    /// accepted sends too.
    pub fn send<R: Draws>(
        &mut self,
        alloc: Global,
        draws: &mut R,
        request: Option<Octets>,
        now_ms: u64,
    ) -> Result<RequestId, NetError>
        requires { IfSome request (λ bytes. 2 ≤ length bytes) }
        ensures sent { IsSend (λ ids. Drawn R.draws_id draws.old ids draws.new) self.old.machine.settings
            self.old.machine.state self.new.machine.state request now_ms (sent_of result) }
        ensures kept { self.new.machine ≡ record self.old.machine { state = self.new.machine.state } }
        ensures brought { self.new.brought ≡ brought_by_send (sent_of result) self.old.brought }
    {
        if self.table.live() >= self.maximum {
            return Err(NetError::Busy);
        }
        let Some(id) = draw_free(&self.table, draws, MOST_DRAWS) else {
            return Err(NetError::Message(Notice::IdSpaceExhausted));
        };
        self.place(alloc, id, request, now_ms)
    }

    /// Takes the next message that is to be sent out of the queue. None exactly where none waits. It takes no memory.
    pub fn pop_outbound(&mut self) -> Option<SerialMessage>
        ensures popped { IsPop self.old.machine.settings self.old.machine.state self.new.machine.state result }
        ensures kept { self.new.machine ≡ record self.old.machine { state = self.new.machine.state } }
        ensures brought { self.new.brought ≡ self.old.brought }
    {
        self.queue.pop()
    }

    /// Hands bytes that came, by the event of a number, to the live request that has their id, whatever else they say
    /// (RFC 1035, 4.1.1). The response shares the bytes. The only error is that memory ran out, after which nothing has
    /// changed.
    pub fn arrive(&mut self, alloc: Global, bytes: Octets, event: u64) -> Result<Arrival, NoMemory>
        requires { length bytes < 2 ^ 32 }
        ensures arrived { IfOk result (λ a.
            Plays self.old.machine.settings self.old.machine.state self.new.machine.state (Arrive bytes a)) }
        ensures err { OnErr result (self.new ≡ self.old) }
        ensures kept { self.new.machine ≡ record self.old.machine { state = self.new.machine.state } }
        ensures brought { IfOk result (λ a. self.new.brought ≡ brought_by_arrival a event self.old.brought) }
    {
        let message = match Message::from_octets(bytes) {
            Ok(message) => message,
            Err(error) => return unreadable(error),
        };
        let id = message.id;
        let response = response_of(alloc, message);
        Ok(self.table.receive(id, response, event))
    }

    /// Takes the first item that waits for a request, with the number of the event that brought it, an arrival or a close. A
    /// request that was never given out has ended. It takes no memory.
    pub fn take(&mut self, id: RequestId) -> (Taken, Option<u64>)
        ensures taken { Plays self.old.machine.settings self.old.machine.state self.new.machine.state
            (Take id.0 (taken_of result.0)) }
        ensures event { result.1 ≡ slice_get (brought_at self.old.brought id.0) 0 }
        ensures kept { self.new.machine ≡ record self.old.machine { state = self.new.machine.state } }
        ensures brought { self.new.brought ≡ changed_at id.0 (drop 1) self.old.brought }
    {
        self.table.take(id.0)
    }

    /// Ends a request and drops what waits for it. It takes no memory.
    pub fn cancel(&mut self, id: RequestId)
        ensures cancelled { Plays self.old.machine.settings self.old.machine.state self.new.machine.state (Cancel id.0) }
        ensures kept { self.new.machine ≡ record self.old.machine { state = self.new.machine.state } }
        ensures brought { self.new.brought ≡ changed_at id.0 (λ _. []) self.old.brought }
    {
        self.table.cancel(id.0);
    }

    /// Ends each request that was sent the timeout before a time, in milliseconds, or earlier; what waits for it stays. It
    /// takes no memory.
    pub fn tick(&mut self, now_ms: u64)
        ensures ticked { Plays self.old.machine.settings self.old.machine.state self.new.machine.state (Tick now_ms) }
        ensures kept { self.new.machine ≡ record self.old.machine { state = self.new.machine.state } }
        ensures brought { self.new.brought ≡ self.old.brought }
    {
        self.table.tick(self.timeout, now_ms);
    }

    /// Ends all requests by the event of a number, each with the fault as its last item where fewer than nine wait, and shuts
    /// down. It takes no memory.
    pub fn close(&mut self, fault: IoKind, event: u64)
        ensures closed { Plays self.old.machine.settings self.old.machine.state self.new.machine.state (Close fault) }
        ensures kept { self.new.machine
            ≡ record self.old.machine { state = self.new.machine.state; is_shutdown = true } }
        ensures brought { self.new.brought
            ≡ brought_by_close event self.old.machine.state.requests self.old.brought }
    {
        self.table.close(fault, event);
        self.is_shutdown = true;
    }

    /// No request is to be sent any more. What is live stays live.
    pub fn shutdown(&mut self)
        ensures kept { self.new.machine ≡ record self.old.machine { is_shutdown = true } }
        ensures brought { self.new.brought ≡ self.old.brought }
    {
        self.is_shutdown = true;
    }

    /// Whether it was shut down.
    pub fn is_shutdown(&self) -> bool
        ensures { result ≡ self.now.machine.is_shutdown }
    {
        self.is_shutdown
    }
}
