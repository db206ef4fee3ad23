//! One send of a message.
ghost use Rattle.dns_client.specs.Sends.{Sends, request_with};

use dns_handle::{DnsHandle, DnsRequest, DnsRequestOptions, DnsResponse, NetError};
use dns_message::Message;
use std::alloc::Global;

/// Sends a request.
pub(crate) fn send_request<H: DnsHandle>(
    alloc: Global,
    handle: &mut H,
    request: DnsRequest,
    now: u64,
) -> Result<DnsResponse, NetError>
    ensures { Sends H.DnsHandle request now handle.old handle.new result }
{
    handle.send(alloc, request, now)
}

/// Sends a message as it is, by default options.
pub(crate) fn send_message<H: DnsHandle>(
    alloc: Global,
    handle: &mut H,
    message: Message,
    now: u64,
) -> Result<DnsResponse, NetError>
    ensures { Sends H.DnsHandle (request_with message) now handle.old handle.new result }
{
    let request = DnsRequest {
        message,
        options: DnsRequestOptions::default(),
        original: None,
    };
    send_request(alloc, handle, request, now)
}
