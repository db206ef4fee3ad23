//! What the messages of this crate are made of.
ghost use Rattle.std.specs.Prelude.{◌≡◌, ◌∷◌, [], IfOk};
ghost use Rattle.dns_update.specs.Parts.{empty_record, message_of, plain_edns};

use dns_message::{Edns, Message};
use dns_model::Proof;
use dns_record::{
    DNSClass, Name, NoMemory, Octets, OpCode, Query, Rdata, Record, RecordSet, RecordType,
};
use std::alloc::Global;
use std::mem;

/// The OPT record of a request that wants one: datagrams of up to 1,232 bytes, version 0.
fn plain_edns(alloc: Global, use_edns: bool) -> Option<Edns>
    ensures { result ≡ plain_edns use_edns }
{
    if !use_edns {
        return None;
    }
    Some(Edns {
        max_payload: 1232,
        version: 0,
        dnssec_ok: false,
        flags: 0,
        options: Octets::from_vec(Vec::new(alloc)),
    })
}

/// A request of one question, whose other sections are empty.
pub(crate) fn message_of(
    alloc: Global,
    op_code: OpCode,
    question: Query,
    use_edns: bool,
) -> Result<Message, NoMemory>
    ensures { IfOk result (λ m. m ≡ message_of op_code.0 question [] [] use_edns) }
{
    let mut message = Message::query(alloc);
    message.op_code = op_code;
    message.queries.push(question)?;
    message.edns = plain_edns(alloc, use_edns);
    Ok(message)
}

/// A record without rdata, which speaks of the whole set of its name and type.
pub(crate) fn empty_record(
    alloc: Global,
    name: Name,
    record_type: RecordType,
    dns_class: DNSClass,
) -> Record
    ensures { result ≡ empty_record name record_type.0 dns_class.0 }
{
    Record {
        name,
        record_type,
        dns_class,
        ttl: 0,
        rdata: Rdata::from_octets(Octets::from_vec(Vec::new(alloc))),
        proof: Proof::Indeterminate,
    }
}

/// The records of a set, without their signatures.
pub(crate) fn records_of(alloc: Global, mut set: RecordSet) -> Vec<Record>
    ensures { result.items ≡ set.records }
{
    mem::replace(&mut set.records, Vec::new(alloc))
}
