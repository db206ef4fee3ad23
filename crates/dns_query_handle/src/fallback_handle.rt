//! A handle that asks another one where a response is truncated.
ghost use Rattle.std.specs.Prelude.{◌≡◌};
ghost use Rattle.dns_handle.specs.Replies.{reply_of};
ghost use Rattle.dns_query_handle.specs.Fallbacks.{AsksBoth, is_truncated};

use dns_handle::{DnsHandle, DnsRequest, DnsResponse, NetError, faults_after};
use std::alloc::Global;

/// A handle that sends each request by one handle, and again by a second one where the response to it is truncated (RFC 1035, 4.2.1;
/// RFC 2181, 9): what the second answers is the answer, also where it fails. Where memory runs out for a copy of the request, nothing is
/// sent. An error that it answers, other than that there are no records and running out of memory, is a fault of this handle.
#[derive(Drop)]
pub struct FallbackHandle<U: Drop, T: Drop> {
    first: U,
    second: T,
    sends: u64,
    faults: u64,
}

impl<U: Drop, T: Drop> FallbackHandle<U, T> {
    ghost use Rattle.dns_query_handle.specs.FallbackHandles.{faults_of, first_of, second_of, sends_of};

    /// A handle that asks the first, and then the second where it has to.
    pub fn new(first: U, second: T) -> FallbackHandle<U, T>
        ensures first { first_of result ≡ first }
        ensures second { second_of result ≡ second }
        ensures sends { sends_of result ≡ 0 }
        ensures faults { faults_of result ≡ 0 }
    {
        FallbackHandle {
            first,
            second,
            sends: 0,
            faults: 0,
        }
    }

    /// Both handles, the first one first.
    pub fn into_parts(self) -> (U, T)
        ensures first { result.0 ≡ first_of self }
        ensures second { result.1 ≡ second_of self }
    {
        let FallbackHandle {
            first,
            second,
            sends: _,
            faults: _,
        } = self;
        (first, second)
    }
}

// Whether it is a response of which a part was cut off.
fn is_truncated(reply: &Result<DnsResponse, NetError>) -> bool
    ensures { result ≡ is_truncated (reply_of reply.now) }
{
    match reply {
        Ok(response) => response.message.truncated,
        Err(_) => false,
    }
}

// Sends the request by the first, and by the second where the response to it is truncated.
fn ask_both<U: DnsHandle, T: DnsHandle>(
    alloc: Global,
    first: &mut U,
    second: &mut T,
    request: DnsRequest,
    now: u64,
) -> Result<DnsResponse, NetError>
    ensures { AsksBoth U.DnsHandle T.DnsHandle first.old second.old request now first.new second.new (reply_of result) }
{
    let copy = request.try_clone()?;
    let reply = first.send(alloc, copy, now);
    if is_truncated(&reply) {
        return second.send(alloc, request, now);
    }
    reply
}

/// It tells nothing of its replies.
impl<U: DnsHandle + Drop, T: DnsHandle + Drop> DnsHandle for FallbackHandle<U, T> {
    ghost use Rattle.std.specs.Prelude.{None};
    ghost use Rattle.dns_query_handle.specs.FallbackHandles.{FallsBack, FallsBackQuestion, faults_of, sends_of};

    ghost sends = { sends_of };

    ghost faults = { faults_of };

    ghost sent = { FallsBackQuestion U.DnsHandle T.DnsHandle };

    ghost told = { λ _. None };

    ghost requested = { FallsBack U.DnsHandle T.DnsHandle };

    fn send(
        &mut self,
        alloc: Global,
        request: DnsRequest,
        now: u64,
    ) -> Result<DnsResponse, NetError> {
        let reply = ask_both(alloc, &mut self.first, &mut self.second, request, now);
        self.sends = self.sends.saturating_add(1);
        self.faults = faults_after(self.faults, &reply);
        reply
    }

    fn is_using_edns(&self) -> bool {
        true
    }
}
