//! Notify messages (RFC 1996).
ghost use Rattle.std.specs.Prelude.{◌≡◌, IfOk};
ghost use Rattle.dns_update.specs.Notifies.{hints_of, notify_message};

use crate::parts::{message_of, records_of};
use dns_message::Message;
use dns_record::{DNSClass, Name, NoMemory, OpCode, Query, Record, RecordSet, RecordType};
use std::alloc::Global;

/// A message that tells a server that the records of this name, class and type have changed, as a zone's SOA (RFC 1996, 3.6).
/// `rrset` may say what they are now; the server takes it for a hint (RFC 1996, 3.7). Its signatures aren't sent.
///
/// The only error is that memory ran out.
pub fn notify(
    alloc: Global,
    name: Name,
    class: DNSClass,
    query_type: RecordType,
    rrset: Option<RecordSet>,
    use_edns: bool,
) -> Result<Message, NoMemory>
    ensures { IfOk result
        (λ m. m ≡ notify_message (record { owner = name; rtype = query_type.0; class = class.0 }) rrset use_edns) }
{
    let question = Query {
        name,
        query_type,
        query_class: class,
    };
    let mut message = message_of(alloc, OpCode::NOTIFY, question, use_edns)?;
    message.answers = hints_of(alloc, rrset);
    Ok(message)
}

/// The records of the set that is given.
fn hints_of(alloc: Global, set: Option<RecordSet>) -> Vec<Record>
    ensures { result.items ≡ hints_of set }
{
    match set {
        None => Vec::new(alloc),
        Some(set) => records_of(alloc, set),
    }
}
