//! The sends of one call.
ghost use Rattle.std.specs.Prelude.{◌≡◌, ◌<◌};
ghost use Rattle.dns_handle.specs.Replies.{reply_of};
ghost use Rattle.dns_handle.specs.Requests.{first_question};
ghost use Rattle.dns_handle.specs.Handles.{ReplyIsTold};
ghost use Rattle.dns_retry.specs.Retries.{IsRetried, MaySend, SendsRequest};
ghost use Rattle.dns_retry.specs.Telling.{still_told};

use crate::attempts::Attempts;
use dns_handle::{DnsHandle, DnsRequest, DnsResponse, NetError};
use std::alloc::Global;

/// Sends a copy of the request, or answers that memory ran out for it.
pub(crate) fn send_copy<H: DnsHandle>(
    alloc: Global,
    handle: &mut H,
    request: &DnsRequest,
    now: u64,
) -> Result<DnsResponse, NetError>
    ensures sent { MaySend (SendsRequest H.DnsHandle request.now now) handle.old (reply_of result) handle.new }
    ensures told { still_told (H.told handle.new) ≡ still_told (H.told handle.old) }
    ensures reply { ReplyIsTold (still_told (H.told handle.old)) (first_question request.now) (reply_of result) }
{
    let copy = request.try_clone()?;
    handle.send(alloc, copy, now)
}

/// Sends the request until no other send is due.
pub(crate) fn send_again<H: DnsHandle>(
    alloc: Global,
    handle: &mut H,
    request: &DnsRequest,
    now: u64,
    attempts: usize,
) -> Result<DnsResponse, NetError>
    ensures retried { IsRetried (SendsRequest H.DnsHandle request.now now) attempts handle.old handle.new (reply_of result) }
    ensures told { still_told (H.told handle.new) ≡ still_told (H.told handle.old) }
    ensures reply { ReplyIsTold (still_told (H.told handle.old)) (first_question request.now) (reply_of result) }
{
    let mut attempts = Attempts {
        left: attempts,
        busy: 0,
    };
    'sends: loop {
        let reply = send_copy(alloc, handle, request, now);
        if let Some(answer) = attempts.last_reply(reply) {
            return answer;
        }
    }
}
