//! A handle whose responses are the requests.
ghost use Rattle.std.specs.Prelude.{◌≡◌};

use crate::replies::response_with;
use dns_handle::{DnsHandle, DnsRequest, DnsResponse, NetError};
use std::alloc::Global;

/// Answers each request with its own message.
#[derive(Drop)]
pub(crate) struct Echo {
    sends: u64,
}

impl Echo {
    /// Nothing was sent yet.
    pub(crate) fn new() -> Echo {
        Echo { sends: 0 }
    }
}

impl DnsHandle for Echo {
    ghost use Rattle.std.specs.Prelude.{⊤, None};

    ghost sends = { λ h. h.sends };

    ghost faults = { λ _. 0 };

    ghost sent = { λ _ _ _ _. ⊤ };

    ghost told = { λ _. None };

    fn send(
        &mut self,
        alloc: Global,
        request: DnsRequest,
        _now: u64,
    ) -> Result<DnsResponse, NetError> {
        self.sends = self.sends.saturating_add(1);
        Ok(response_with(alloc, request.message))
    }

    fn is_using_edns(&self) -> bool {
        true
    }
}
