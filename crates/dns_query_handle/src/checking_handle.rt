//! A handle that sets or clears the CD bit.
ghost use Rattle.std.specs.Prelude.{◌≡◌};
ghost use Rattle.dns_query_handle.specs.Checking.{with_cd};

use dns_handle::{DnsHandle, DnsRequest, DnsResponse, NetError};
use std::alloc::Global;

/// A handle that gives each request its CD bit: where the bit is set, a resolver that validates answers with the records even if it
/// finds them Bogus (RFC 4035, 3.2.2).
#[derive(Drop)]
pub struct CheckingHandle<H: Drop> {
    handle: H,
    is_disabled: bool,
}

impl<H: Drop> CheckingHandle<H> {
    ghost use Rattle.dns_query_handle.specs.CheckingHandles.{inner_of, is_disabled_by};

    /// The CD bit of each request is set if checking is disabled, and else cleared.
    pub fn new(handle: H, is_disabled: bool) -> CheckingHandle<H>
        ensures handle { inner_of result ≡ handle }
        ensures disabled { is_disabled_by result ≡ is_disabled }
    {
        CheckingHandle {
            handle,
            is_disabled,
        }
    }

    /// The handle that is asked.
    pub fn into_inner(self) -> H
        ensures { result ≡ inner_of self }
    {
        self.handle
    }
}

// The same request with this CD bit.
fn with_cd(mut request: DnsRequest, is_disabled: bool) -> DnsRequest
    ensures { result ≡ with_cd is_disabled request }
{
    request.message.checking_disabled = is_disabled;
    request
}

/// It counts and tells what the handle inside does.
impl<H: DnsHandle + Drop> DnsHandle for CheckingHandle<H> {
    ghost use Rattle.dns_query_handle.specs.CheckingHandles.{inner_of, ChecksQuestion, ChecksRequest};

    ghost sends = { λ h. H.sends (inner_of h) };

    ghost faults = { λ h. H.faults (inner_of h) };

    ghost sent = { ChecksQuestion H.DnsHandle };

    ghost told = { λ h. H.told (inner_of h) };

    ghost requested = { ChecksRequest H.DnsHandle };

    ghost uses_edns = { λ h. H.uses_edns (inner_of h) };

    fn send(
        &mut self,
        alloc: Global,
        request: DnsRequest,
        now: u64,
    ) -> Result<DnsResponse, NetError> {
        let request = with_cd(request, self.is_disabled);
        self.handle.send(alloc, request, now)
    }

    fn is_using_edns(&self) -> bool {
        self.handle.is_using_edns()
    }
}
