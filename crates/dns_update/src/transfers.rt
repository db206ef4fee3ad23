//! Queries for transfers of a zone (RFC 5936; RFC 1995).
ghost use Rattle.std.specs.Prelude.{◌≡◌, ◌∷◌, [], IfOk, IfSome, IsSome};
ghost use Rattle.dns_model.specs.RecordViews.{read_as};
ghost use Rattle.dns_model.specs.Types.{type_soa};
ghost use Rattle.dns_model.specs.Views.{soa_in};
ghost use Rattle.dns_update.specs.Transfers.{transfer_message, transfer_question};

use crate::parts::message_of;
use dns_message::Message;
use dns_record::{DNSClass, Name, NoMemory, OpCode, Query, Record, RecordType};
use std::alloc::Global;

/// A query for a zone of class IN, without EDNS: for all of it (AXFR; RFC 5936, 2.1), or, where the SOA of a version that is
/// known is given, for what has changed since (IXFR; RFC 1995, 3). That SOA is sent as the zone's, with ttl 0.
///
/// A record that is given must be an SOA that can be read. The only error is that memory ran out.
pub fn zone_transfer(
    alloc: Global,
    zone: Name,
    last_soa: Option<Record>,
) -> Result<Message, NoMemory>
    requires { IfSome last_soa (λ soa. IsSome (read_as type_soa soa_in soa)) }
    ensures { IfOk result (λ m. m ≡ transfer_message zone last_soa) }
{
    let Some(soa) = last_soa else {
        return transfer_query(alloc, zone, RecordType::AXFR);
    };
    let owner = zone.try_clone()?;
    let mut message = transfer_query(alloc, zone, RecordType::IXFR)?;
    message.authorities.push(Record {
        name: owner,
        dns_class: DNSClass::IN,
        ttl: 0,
        ..soa
    })?;
    Ok(message)
}

/// A query for a zone, with an empty authority section.
fn transfer_query(alloc: Global, zone: Name, query_type: RecordType) -> Result<Message, NoMemory>
    ensures { IfOk result (λ m. m ≡ transfer_question zone query_type.0 []) }
{
    let question = Query {
        name: zone,
        query_type,
        query_class: DNSClass::IN,
    };
    message_of(alloc, OpCode::QUERY, question, false)
}
