//! What an upstream answers with what a session says of a reply.
ghost use Rattle.std.specs.Prelude.{◌≡◌, IfOk};
ghost use Rattle.dns_handle.specs.Errors as seen;
ghost use Rattle.dns_handle.specs.Replies.{error_of, reply_of, response_of};
ghost use Rattle.dns_handle.specs.declared.error.ProtoError.TheVariants.{Decode};
ghost use Rattle.dns_session.specs.Kinds.{kind_of};
ghost use Rattle.dns_session_lookup.specs.Replies.{answer_from, fault_from, reply_from, response_with};

use dns_evidence::Trail;
use dns_handle::{DnsError, DnsResponse, IoKind, NetError, ProtoError};
use dns_message::{DecodeError, Message};
use dns_model::Denial;
use dns_record::NoMemory;
use dns_session::{ReplyFault, ReplyKind};
use std::alloc::Global;

/// What an upstream answers with what comes in reply. The outer error is that memory ran out.
pub(crate) fn reply_from(
    alloc: Global,
    kind: ReplyKind,
) -> Result<Result<DnsResponse, NetError>, NoMemory>
    ensures { IfOk result (λ r. reply_of r ≡ reply_from (kind_of kind)) }
{
    match kind {
        ReplyKind::Message(Ok(message)) => Ok(Ok(response_with(alloc, message))),
        ReplyKind::Message(Err(error)) => Ok(Err(undecoded(error))),
        ReplyKind::Empty(Ok(message)) => {
            let told = DnsError::from_response(alloc, response_with(alloc, message))?;
            Ok(answer_from(told))
        }
        ReplyKind::Empty(Err(error)) => Ok(Err(undecoded(error))),
        ReplyKind::Fault(fault) => Ok(Err(fault_from(fault))),
    }
}

// A message as a response.
fn response_with(alloc: Global, message: Message) -> DnsResponse
    ensures { result ≡ response_with message }
{
    DnsResponse {
        message,
        chains: Vec::new(alloc),
        denial: Denial::None,
        trail: Trail::new(alloc),
    }
}

// A response, or what DNS itself answers in its place.
fn answer_from(told: Result<DnsResponse, DnsError>) -> Result<DnsResponse, NetError>
    ensures { reply_of result ≡ answer_from (response_of told) }
{
    told.map_err(NetError::Dns)
}

// The error of bytes that are no message.
fn undecoded(error: DecodeError) -> NetError
    ensures { error_of result ≡ seen.Proto (Decode error) }
{
    NetError::Proto(ProtoError::Decode(error))
}

// The error that says why no message comes.
fn fault_from(fault: ReplyFault) -> NetError
    ensures { error_of result ≡ fault_from fault }
{
    match fault {
        ReplyFault::Timeout => NetError::Timeout,
        ReplyFault::Io => NetError::Io(IoKind::Other),
        ReplyFault::Busy => NetError::Busy,
    }
}
