//! A handle that sends nothing more once its time is over.
ghost use Rattle.std.specs.Prelude.{◌≡◌};
ghost use Rattle.dns_handle.specs.Replies.{reply_of};
ghost use Rattle.dns_query_handle.specs.Deadlines.{AsksInTime};

use crate::stopwatch::Stopwatch;
use dns_handle::{DnsHandle, DnsRequest, DnsResponse, NetError, faults_after};
use std::alloc::Global;

/// A handle that answers `Timeout` to all that it is asked once so many milliseconds have passed, and sends nothing then. Before that it
/// sends by the handle inside, and a send that began in time is answered by it, however late. An error that it answers, other
/// than that there are no records and running out of memory, is a fault of this handle.
#[derive(Drop)]
pub struct DeadlineHandle<H: Drop, T: Drop> {
    handle: H,
    watch: T,
    limit_ms: u64,
    sends: u64,
    faults: u64,
}

impl<H: Drop, T: Drop> DeadlineHandle<H, T> {
    ghost use Rattle.dns_query_handle.specs.DeadlineHandles.{faults_of, inner_of, limit_of, sends_of, watch_of};

    /// A handle whose time is over when the stopwatch tells so many milliseconds.
    pub fn new(handle: H, watch: T, limit_ms: u64) -> DeadlineHandle<H, T>
        ensures handle { inner_of result ≡ handle }
        ensures watch { watch_of result ≡ watch }
        ensures limit { limit_of result ≡ limit_ms }
        ensures sends { sends_of result ≡ 0 }
        ensures faults { faults_of result ≡ 0 }
    {
        DeadlineHandle {
            handle,
            watch,
            limit_ms,
            sends: 0,
            faults: 0,
        }
    }

    /// The handle that is asked.
    pub fn into_inner(self) -> H
        ensures { result ≡ inner_of self }
    {
        self.handle
    }
}

// Sends the request, unless the time is over.
fn ask_in_time<H: DnsHandle, T: Stopwatch>(
    alloc: Global,
    handle: &mut H,
    watch: &mut T,
    limit_ms: u64,
    request: DnsRequest,
    now: u64,
) -> Result<DnsResponse, NetError>
    ensures { AsksInTime H.DnsHandle T.reads limit_ms handle.old watch.old request now handle.new watch.new (reply_of result) }
{
    if watch.elapsed_ms() >= limit_ms {
        return Err(NetError::Timeout);
    }
    handle.send(alloc, request, now)
}

/// It tells nothing of its replies.
impl<H: DnsHandle + Drop, T: Stopwatch + Drop> DnsHandle for DeadlineHandle<H, T> {
    ghost use Rattle.std.specs.Prelude.{None};
    ghost use Rattle.dns_query_handle.specs.DeadlineHandles.{StopsInTime, StopsQuestion, faults_of, sends_of};

    ghost sends = { sends_of };

    ghost faults = { faults_of };

    ghost sent = { StopsQuestion H.DnsHandle T.reads };

    ghost told = { λ _. None };

    ghost requested = { StopsInTime H.DnsHandle T.reads };

    fn send(
        &mut self,
        alloc: Global,
        request: DnsRequest,
        now: u64,
    ) -> Result<DnsResponse, NetError> {
        let reply = ask_in_time(
            alloc,
            &mut self.handle,
            &mut self.watch,
            self.limit_ms,
            request,
            now,
        );
        self.sends = self.sends.saturating_add(1);
        self.faults = faults_after(self.faults, &reply);
        reply
    }

    fn is_using_edns(&self) -> bool {
        true
    }
}
