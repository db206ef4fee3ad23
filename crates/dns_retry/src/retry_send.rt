//! A send that is made again, as a future.
ghost use Rattle.std.specs.Prelude.{◌≡◌, ◌⊎◌, ⊤, false, true};
ghost use Rattle.futures.specs.Task.{Covers, Keeps};
ghost use Rattle.futures.specs.Poll.{IfReady, OnPending};

use crate::attempts::Attempts;
use crate::retry_handle::RetryDnsHandle;
use crate::sending::send_copy;
use dns_handle::{DnsHandle, DnsRequest, DnsResponse, NetError, Notice};
use futures::Future;
use futures::task::{Context, Poll};
use std::alloc::Global;

/// A send of a `RetryDnsHandle` as a future. Each poll makes one send of the handle inside; where another one is due it is
/// pending, and asks to be polled again at once. Polled after its answer it is ready with `PolledAfterCompletion`.
#[derive(Drop)]
pub struct RetrySend<H: Drop> {
    pub(crate) alloc: Global,
    pub(crate) retry: RetryDnsHandle<H>,
    pub(crate) request: DnsRequest,
    /// Seconds.
    pub(crate) now: u64,
    pub(crate) attempts: Attempts,
    pub(crate) is_done: bool,
}

impl<H: DnsHandle + Drop> RetrySend<H> {
    ghost use Rattle.dns_retry.specs.RetrySends.{state_of};

    /// Gives the handle back. A send that has no answer yet is not counted.
    pub fn into_handle(self) -> RetryDnsHandle<H>
        ensures { result ≡ (state_of self).retry }
    {
        self.retry
    }
}

impl<H: DnsHandle + Drop> Future for RetrySend<H> {
    ghost use Rattle.dns_retry.specs.RetrySends.{MayAnswer, IsPolled};

    type Output = Result<DnsResponse, NetError>;

    ghost gives = { MayAnswer H.DnsHandle };

    // The trait's clauses, and what this poll sent.
    fn poll(&mut self, cx: &mut Context<'_>) -> Poll<Result<DnsResponse, NetError>>
        ensures value { IfReady result (MayAnswer H.DnsHandle self.old) }
        ensures again { OnPending result ⊤ }
        ensures same { OnPending result ((x : _) → MayAnswer H.DnsHandle self.new x → MayAnswer H.DnsHandle self.old x) }
        ensures registered { OnPending result (Covers cx.new (λ _. ⊥)) }
        ensures kept { Keeps cx.old cx.new }
        ensures polled { IsPolled H.DnsHandle self.old self.new result }
    {
        if self.is_done {
            return Poll::Ready(Err(NetError::Message(Notice::PolledAfterCompletion)));
        }
        let reply = send_copy(self.alloc, &mut self.retry.handle, &self.request, self.now);
        if self.attempts.go_on_after(&reply) {
            return cx.yield_now();
        }
        self.is_done = true;
        self.retry.count(&reply);
        Poll::Ready(reply)
    }
}
