//! What a session says of what a query was answered.
ghost use Rattle.std.specs.Prelude.{◌≡◌, IfErr, IfOk};
ghost use Rattle.dns_handle.specs.Replies.{error_of, reply_of};
ghost use Rattle.dns_saved_lookup.specs.Heard.{IsSavedOf, IsUnsaid, SaysReply, fault_told};
ghost use Rattle.dns_saved_session.specs.Coming.{came_of};

use crate::save_error::SaveError;
use dns_handle::{DnsResponse, NetError};
use dns_message::EncodeError;
use dns_record::Query;
use dns_saved_session::{Came, SavedReply};
use dns_session::ReplyFault;

// The fault that stands for an error.
fn fault_told(error: &NetError) -> ReplyFault
    ensures { result ≡ fault_told (error_of error.now) }
{
    match error {
        NetError::Timeout => ReplyFault::Timeout,
        NetError::Busy => ReplyFault::Busy,
        _ => ReplyFault::Io,
    }
}

// What came, of a reply.
fn came_of(reply: &Result<DnsResponse, NetError>) -> Result<Came, SaveError>
    ensures ok { IfOk result (λ came. SaysReply (reply_of reply.now) (came_of came)) }
    ensures unsaid { IfErr result (IsUnsaid (reply_of reply.now)) }
{
    match reply {
        Ok(response) => match response.message.to_vec() {
            Ok(bytes) => Ok(Came::Message(bytes)),
            Err(EncodeError::TooLong) => Err(SaveError::LongMessage),
            Err(EncodeError::NoMemory) => Err(SaveError::NoMemory),
        },
        Err(error) => Ok(Came::Fault(fault_told(error))),
    }
}

/// What a session says of a query and what a handle answered to it: the message, with its names spelled out, or the fault that stands for
/// an error. Fails where the message has then more than 65,535 bytes, or memory runs out.
pub fn saved_reply(
    query: &Query,
    reply: &Result<DnsResponse, NetError>,
) -> Result<SavedReply, SaveError>
    ensures ok { IfOk result (λ saved. IsSavedOf query.now (reply_of reply.now) saved) }
    ensures unsaid { IfErr result (IsUnsaid (reply_of reply.now)) }
{
    let came = came_of(reply)?;
    let query = query.try_clone()?;
    Ok(SavedReply { query, came })
}
