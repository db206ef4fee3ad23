//! Update messages (RFC 2136).
ghost use Rattle.std.specs.Prelude.{◌≡◌, ◌∷◌, [], IfOk, IsTrue, map};
ghost use Rattle.dns_model.specs.Names.{at_or_above};
ghost use Rattle.dns_update.specs.Updates.{append_message, create_message, delete_name_message, delete_records_message, delete_set_message, deletion_of, must_be, some_of, swap_message, update_message};

use crate::parts::{empty_record, message_of, records_of};
use dns_message::Message;
use dns_record::{
    DNSClass, Name, NoMemory, OpCode, Query, Record, RecordSet, RecordType, clone_records,
};
use std::alloc::Global;

/// An update of a zone that asks for nothing and changes nothing.
fn update_message(
    alloc: Global,
    zone: Name,
    class: DNSClass,
    use_edns: bool,
) -> Result<Message, NoMemory>
    ensures { IfOk result (λ m. m ≡ update_message zone class.0 [] [] use_edns) }
{
    let question = Query {
        name: zone,
        query_type: RecordType::SOA,
        query_class: class,
    };
    message_of(alloc, OpCode::UPDATE, question, use_edns)
}

/// Makes each record one that must be there, whatever its ttl.
#[tactic(auto, using(std::proofs::lemmas::List::Edits::map_over_more))]
fn require_each(records: &mut [Record])
    ensures { records.new ≡ map must_be records.old }
{
    for required in records.iter_mut() {
        required.ttl = 0;
    }
}

/// Makes each record one that is deleted.
#[tactic(auto, using(std::proofs::lemmas::List::Edits::map_over_more))]
fn delete_each(records: &mut [Record])
    ensures { records.new ≡ map deletion_of records.old }
{
    for deleted in records.iter_mut() {
        deleted.dns_class = DNSClass::NONE;
        deleted.ttl = 0;
    }
}

/// An update that adds these records where the zone has none of their name and type; where it has some, the server answers
/// YXRRSET and changes nothing (RFC 2136, 2.4.3 and 2.5.1). Their ttls are sent as given, and their signatures aren't sent.
///
/// The zone must be at or above the set's name, and its class is the set's. The only error is that memory ran out.
pub fn create(
    alloc: Global,
    rrset: RecordSet,
    zone: Name,
    use_edns: bool,
) -> Result<Message, NoMemory>
    requires { IsTrue (at_or_above zone rrset.owner) }
    ensures { IfOk result (λ m. m ≡ create_message rrset zone use_edns) }
{
    let mut message = update_message(alloc, zone, rrset.dns_class, use_edns)?;
    let name = rrset.name.try_clone()?;
    let none_of_them = empty_record(alloc, name, rrset.record_type, DNSClass::NONE);
    message.answers.push(none_of_them)?;
    message.authorities = records_of(alloc, rrset);
    Ok(message)
}

/// What must hold where records are added: that there are some of their name and type, if that is asked for.
fn some_of(alloc: Global, rrset: &RecordSet, must_exist: bool) -> Result<Vec<Record>, NoMemory>
    ensures { IfOk result (λ v. v.items ≡ some_of rrset.now must_exist) }
{
    let mut needed = Vec::new(alloc);
    if !must_exist {
        return Ok(needed);
    }
    let name = rrset.name.try_clone()?;
    let some_of_them = empty_record(alloc, name, rrset.record_type, DNSClass::ANY);
    needed.push(some_of_them)?;
    Ok(needed)
}

/// An update that adds these records (RFC 2136, 2.5.1). With `must_exist` it does so only where the zone has some of their name
/// and type; where it has none, the server answers NXRRSET and changes nothing (RFC 2136, 2.4.1). Their ttls are sent as given,
/// and their signatures aren't sent.
///
/// The zone must be at or above the set's name, and its class is the set's. The only error is that memory ran out.
pub fn append(
    alloc: Global,
    rrset: RecordSet,
    zone: Name,
    must_exist: bool,
    use_edns: bool,
) -> Result<Message, NoMemory>
    requires { IsTrue (at_or_above zone rrset.owner) }
    ensures { IfOk result (λ m. m ≡ append_message rrset zone must_exist use_edns) }
{
    let mut message = update_message(alloc, zone, rrset.dns_class, use_edns)?;
    message.answers = some_of(alloc, &rrset, must_exist)?;
    message.authorities = records_of(alloc, rrset);
    Ok(message)
}

/// An update that puts the records of `new` in the place of those of `current`, where the zone has exactly these; where it has
/// others, the server answers NXRRSET and changes nothing (RFC 2136, 2.4.2, 2.5.4 and 2.5.1). The ttls of `new` are sent as
/// given, and no signatures are sent.
///
/// The zone must be at or above both names, and its class is that of `current`. The only error is that memory ran out.
pub fn compare_and_swap(
    alloc: Global,
    current: RecordSet,
    new: RecordSet,
    zone: Name,
    use_edns: bool,
) -> Result<Message, NoMemory>
    requires current { IsTrue (at_or_above zone current.owner) }
    requires new { IsTrue (at_or_above zone new.owner) }
    ensures { IfOk result (λ m. m ≡ swap_message current new zone use_edns) }
{
    let mut message = update_message(alloc, zone, current.dns_class, use_edns)?;
    message.authorities = clone_records(&current.records)?;
    delete_each(&mut message.authorities);
    let mut added = records_of(alloc, new);
    message.authorities.append(&mut added)?;
    message.answers = records_of(alloc, current);
    require_each(&mut message.answers);
    Ok(message)
}

/// An update that deletes these records, each where the zone has it, whatever its ttl (RFC 2136, 2.5.4).
///
/// The zone must be at or above the set's name, and its class is the set's. The only error is that memory ran out.
pub fn delete_by_rdata(
    alloc: Global,
    rrset: RecordSet,
    zone: Name,
    use_edns: bool,
) -> Result<Message, NoMemory>
    requires { IsTrue (at_or_above zone rrset.owner) }
    ensures { IfOk result (λ m. m ≡ delete_records_message rrset zone use_edns) }
{
    let mut message = update_message(alloc, zone, rrset.dns_class, use_edns)?;
    message.authorities = records_of(alloc, rrset);
    delete_each(&mut message.authorities);
    Ok(message)
}

/// An update that deletes all records of this record's name and type, whatever its rdata (RFC 2136, 2.5.2).
///
/// The zone must be at or above the record's name, and its class is the record's. The only error is that memory ran out.
pub fn delete_rrset(
    alloc: Global,
    first: Record,
    zone: Name,
    use_edns: bool,
) -> Result<Message, NoMemory>
    requires { IsTrue (at_or_above zone first.owner) }
    ensures { IfOk result (λ m. m ≡ delete_set_message first zone use_edns) }
{
    let mut message = update_message(alloc, zone, first.dns_class, use_edns)?;
    let all_of_them = empty_record(alloc, first.name, first.record_type, DNSClass::ANY);
    message.authorities.push(all_of_them)?;
    Ok(message)
}

/// An update that deletes all records of a name (RFC 2136, 2.5.3).
///
/// The zone, which has this class, must be at or above the name. The only error is that memory ran out.
pub fn delete_all(
    alloc: Global,
    name: Name,
    zone: Name,
    class: DNSClass,
    use_edns: bool,
) -> Result<Message, NoMemory>
    requires { IsTrue (at_or_above zone name) }
    ensures { IfOk result (λ m. m ≡ delete_name_message name zone class.0 use_edns) }
{
    let mut message = update_message(alloc, zone, class, use_edns)?;
    let all_of_it = empty_record(alloc, name, RecordType::ANY, DNSClass::ANY);
    message.authorities.push(all_of_it)?;
    Ok(message)
}
