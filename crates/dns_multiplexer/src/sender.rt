//! The trait of what sends many requests over one connection.
ghost use Rattle.std.specs.Prelude.{◌≡◌, ◌<◌, ◌^◌, ℕ, List, [], false, true, length, IfOk, OnErr};
ghost use Rattle.dns_multiplexer.specs.Views.{sent_of, taken_of};
ghost use Rattle.dns_multiplexer.specs.Events.{Arrive, Take, Cancel, Tick, Close};
ghost use Rattle.dns_multiplexer.specs.Draws.{CoreValue, IsSend, Plays, request_bytes};

use crate::{Arrival, RequestId, Taken};
use dns_handle::{DnsRequest, IoKind, NetError};
use dns_record::NoMemory;
use std::alloc::Global;

/// What sends many requests over one connection, and keeps for each what comes for it.
pub trait DnsRequestSender {
    /// The settings, the requests and what is to be sent.
    ghost machine: { Self → CoreValue };

    /// The sender before some draws of ids, the ids, and the sender after.
    ghost drew: { Self → List ℕ → Self → Type 0 };

    /// Sends a request at a time, in milliseconds, under an id that no live request has. In this order: `Busy` exactly where
    /// as many requests are live as may; that the id space is exhausted exactly where 100 ids that were drawn are all live
    /// requests'; `TooLong` exactly where the request has more than 65,535 bytes; that the queue is full exactly where one
    /// more than its size waits. A refusal adds no request, and ids that were drawn stay drawn. Memory may run out, and
    /// it is said to after 2^64 - 1 accepted sends too.
    fn send_message(
        &mut self,
        alloc: Global,
        request: &DnsRequest,
        now_ms: u64,
    ) -> Result<RequestId, NetError>
        requires { (machine self.old).is_shutdown ≡ false }
        ensures sent { IsSend (λ ids. drew self.old ids self.new) (machine self.old).settings (machine self.old).state
            (machine self.new).state (request_bytes request.now) now_ms (sent_of result) }
        ensures kept { machine self.new ≡ record (machine self.old) { state = (machine self.new).state } };

    /// No request is to be sent any more. What is live stays live.
    fn shutdown(&mut self)
        ensures kept { machine self.new ≡ record (machine self.old) { is_shutdown = true } }
        ensures draws { drew self.old [] self.new };

    /// Whether it was shut down.
    fn is_shutdown(&self) -> bool
        ensures { result ≡ (machine self.now).is_shutdown };

    /// Hands bytes that came to the live request that has their id, whatever else they say (RFC 1035, 4.1.1). The only error
    /// is that memory ran out, after which nothing has changed.
    ///
    /// ```
    /// fn received<S: DnsRequestSender>(
    ///     alloc: Global,
    ///     sender: &mut S,
    ///     id: RequestId,
    ///     bytes: &[u8],
    /// ) -> Result<Taken, NoMemory> {
    ///     if bytes.len() <= 65_535 {
    ///         sender.arrive(alloc, bytes)?;
    ///     }
    ///     Ok(sender.take(id))
    /// }
    /// ```
    fn arrive(&mut self, alloc: Global, bytes: &[u8]) -> Result<Arrival, NoMemory>
        requires { length bytes.now < 2 ^ 32 }
        ensures arrived { IfOk result (λ a. Plays (machine self.old).settings (machine self.old).state
            (machine self.new).state (Arrive bytes.now a)) }
        ensures err { OnErr result (machine self.new ≡ machine self.old) }
        ensures kept { machine self.new ≡ record (machine self.old) { state = (machine self.new).state } }
        ensures draws { drew self.old [] self.new };

    /// Takes the first item that waits for a request. A request that was never given out has ended. It takes no memory.
    fn take(&mut self, id: RequestId) -> Taken
        ensures taken { Plays (machine self.old).settings (machine self.old).state (machine self.new).state
            (Take id.0 (taken_of result)) }
        ensures kept { machine self.new ≡ record (machine self.old) { state = (machine self.new).state } }
        ensures draws { drew self.old [] self.new };

    /// Ends a request and drops what waits for it. It takes no memory.
    fn cancel(&mut self, id: RequestId)
        ensures cancelled { Plays (machine self.old).settings (machine self.old).state
            (machine self.new).state (Cancel id.0) }
        ensures kept { machine self.new ≡ record (machine self.old) { state = (machine self.new).state } }
        ensures draws { drew self.old [] self.new };

    /// Ends each request that was sent the timeout before a time, in milliseconds, or earlier; what waits for it stays. It
    /// takes no memory.
    fn tick(&mut self, now_ms: u64)
        ensures ticked { Plays (machine self.old).settings (machine self.old).state
            (machine self.new).state (Tick now_ms) }
        ensures kept { machine self.new ≡ record (machine self.old) { state = (machine self.new).state } }
        ensures draws { drew self.old [] self.new };

    /// Ends all requests, each with the fault as its last item where fewer than nine wait, and shuts down. It takes no memory.
    fn close(&mut self, fault: IoKind)
        ensures closed { Plays (machine self.old).settings (machine self.old).state
            (machine self.new).state (Close fault) }
        ensures kept { machine self.new
            ≡ record (machine self.old) { state = (machine self.new).state; is_shutdown = true } }
        ensures draws { drew self.old [] self.new };
}
