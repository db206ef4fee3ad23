//! Requests on their way from those who send to what sends for them.
ghost use Rattle.std.specs.Prelude.{◌≡◌, [], slice_get, drop};

use crate::DnsResponseReceiver;
use dns_handle::{DnsRequest, NetError};
use std::alloc::Global;
use std::collections::VecDeque;
use std::marker::Model;

/// So many requests wait in a queue at most.
const MOST_WAITING: usize = 33;

/// A request that waits to be sent, and the slot under which its caller waits for what comes of it.
#[derive(Drop)]
pub struct OneshotDnsRequest {
    /// What is to be sent.
    pub request: DnsRequest,
    /// How many requests the queue took before it.
    pub slot: u64,
}

impl Model for OneshotDnsRequest {
    ghost use Rattle.dns_mux.specs.RequestQueues.{OneshotValue};

    ghost Value = { OneshotValue };

    ghost view = { λ o. record { request = o.request; slot = o.slot } };
}

/// A queue of requests between those who send and what sends for them: 33 wait at most.
#[derive(Drop)]
pub struct BufDnsRequestStreamHandle {
    requests: VecDeque<OneshotDnsRequest>,
    slots: u64,
}

impl Model for BufDnsRequestStreamHandle {
    ghost use Rattle.dns_mux.specs.RequestQueues.{RequestQueueValue};

    ghost Value = { RequestQueueValue };

    ghost view = { λ q. record { waiting = q.requests.items; slots = q.slots } };
}

impl BufDnsRequestStreamHandle {
    ghost use Rattle.dns_mux.specs.RequestQueues.{IsQueued};

    /// An empty queue, whose first request gets slot 0.
    ///
    /// ```
    /// fn first_queued(alloc: Global, request: DnsRequest) -> Result<Option<u64>, NetError> {
    ///     let mut queue = BufDnsRequestStreamHandle::new(alloc);
    ///     queue.send(request)?;
    ///     Ok(queue.pop().map(|first| first.slot))
    /// }
    /// ```
    pub fn new(alloc: Global) -> BufDnsRequestStreamHandle
        ensures { result ≡ record { waiting = []; slots = 0 } }
    {
        BufDnsRequestStreamHandle {
            requests: VecDeque::new(alloc),
            slots: 0,
        }
    }

    /// Puts a request behind the others, and answers the receiver of its slot. `Busy` comes exactly where 33 wait; the only
    /// other error is `NoMemory`, which comes after 2^64 - 1 requests too. After an error the queue is as it was.
    pub fn send(&mut self, request: DnsRequest) -> Result<DnsResponseReceiver, NetError>
        ensures { IsQueued self.old request self.new result }
    {
        if self.requests.len() >= MOST_WAITING {
            return Err(NetError::Busy);
        }
        let slot = self.slots;
        let Some(slots) = slot.checked_add(1) else {
            return Err(NetError::NoMemory);
        };
        self.requests
            .push_back(OneshotDnsRequest { request, slot })?;
        self.slots = slots;
        Ok(DnsResponseReceiver::Receiver(slot))
    }

    /// Takes the first request out. None exactly where none waits. It takes no memory.
    pub fn pop(&mut self) -> Option<OneshotDnsRequest>
        ensures first { result ≡ slice_get self.old.waiting 0 }
        ensures rest { self.new ≡ record self.old { waiting = drop 1 self.old.waiting } }
    {
        self.requests.pop_front()
    }
}
