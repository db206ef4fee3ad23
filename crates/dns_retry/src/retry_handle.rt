//! `RetryDnsHandle`, a handle that sends again after an error.
ghost use Rattle.std.specs.Prelude.{◌≡◌};
ghost use Rattle.dns_handle.specs.Requests.{RequestValue};

use crate::attempts::Attempts;
use crate::retry_send::RetrySend;
use crate::sending::send_again;
use dns_handle::{DnsHandle, DnsRequest, DnsResponse, NetError, faults_after};
use std::alloc::Global;

/// A handle that sends a request again after an error (RFC 1035, 4.2.1 and 7.1).
///
/// While attempts are left, an error brings another send. Four errors don't, since another send can't mend them: `NoConnections`,
/// `NoRecordsFound`, `DnssecBogus` and `NoMemory`. `Busy` is tried again without using up an attempt, up to the 64th time in one
/// call. With no attempt left each error is answered. An error that is answered, other than
/// `NoRecordsFound` and `NoMemory`, is a fault of this handle.
#[derive(Drop)]
pub struct RetryDnsHandle<H: Drop> {
    pub(crate) handle: H,
    attempts: usize,
    sends: u64,
    faults: u64,
}

impl<H: DnsHandle + Drop> RetryDnsHandle<H> {
    ghost use Rattle.std.specs.Prelude.{false};
    ghost use Rattle.dns_handle.specs.Replies.{reply_of};
    ghost use Rattle.dns_retry.specs.RetryHandles.{inner_of, attempts_of, sends_of, faults_of, CountsSend};
    ghost use Rattle.dns_retry.specs.RetrySends.{state_of};

    /// So many sends at most follow errors other than `Busy` in one call; the first send isn't counted.
    ///
    /// ```
    /// fn ask_again<H: DnsHandle + Drop>(
    ///     alloc: Global,
    ///     handle: H,
    ///     request: DnsRequest,
    ///     now: u64,
    /// ) -> Result<DnsResponse, NetError> {
    ///     let mut handle = RetryDnsHandle::new(handle, 2);
    ///     handle.send(alloc, request, now)
    /// }
    /// ```
    pub fn new(handle: H, attempts: usize) -> RetryDnsHandle<H>
        ensures handle { inner_of result ≡ handle }
        ensures attempts { attempts_of result ≡ attempts }
        ensures sends { sends_of result ≡ 0 }
        ensures faults { faults_of result ≡ 0 }
    {
        RetryDnsHandle {
            handle,
            attempts,
            sends: 0,
            faults: 0,
        }
    }

    /// The handle that is asked.
    pub fn inner(&self) -> &H
        ensures { result.now ≡ inner_of self.now }
    {
        &self.handle
    }

    /// The same send as a future, with one send of the handle inside in each poll. It gives this handle back.
    pub fn send_polled(self, alloc: Global, request: DnsRequest, now: u64) -> RetrySend<H>
        ensures { state_of result ≡ record {
          retry = self;
          request = request;
          now = now;
          left = attempts_of self;
          busy = 0;
          is_done = false;
        } }
    {
        let attempts = Attempts {
            left: self.attempts,
            busy: 0,
        };
        RetrySend {
            alloc,
            retry: self,
            request,
            now,
            attempts,
            is_done: false,
        }
    }

    /// Counts a call by what it is answered.
    pub(crate) fn count(&mut self, reply: &Result<DnsResponse, NetError>)
        ensures counted { CountsSend self.old self.new (reply_of reply.now) }
        ensures handle { inner_of self.new ≡ inner_of self.old }
    {
        self.sends = self.sends.saturating_add(1);
        self.faults = faults_after(self.faults, reply);
    }
}

/// Its replies are known beforehand where those of the handle inside are, unless that serves them by turn.
impl<H: DnsHandle + Drop> DnsHandle for RetryDnsHandle<H> {
    ghost use Rattle.dns_retry.specs.RetryHandles.{inner_of, sends_of, faults_of, RetriesQuestion, RetriesRequest};
    ghost use Rattle.dns_retry.specs.Telling.{still_told};

    ghost sends = { sends_of };

    ghost faults = { faults_of };

    ghost sent = { RetriesQuestion H.DnsHandle };

    ghost told = { λ h. still_told (H.told (inner_of h)) };

    ghost requested = { RetriesRequest H.DnsHandle };

    fn send(
        &mut self,
        alloc: Global,
        request: DnsRequest,
        now: u64,
    ) -> Result<DnsResponse, NetError> {
        let reply = send_again(alloc, &mut self.handle, &request, now, self.attempts);
        self.sends = self.sends.saturating_add(1);
        self.faults = faults_after(self.faults, &reply);
        reply
    }

    fn is_using_edns(&self) -> bool {
        true
    }
}
