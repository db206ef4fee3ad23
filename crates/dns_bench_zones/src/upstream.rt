//! The upstream that tells of nested zones.
ghost use Rattle.std.specs.Prelude.{◌≡◌, ◌+◌, ◌++◌, ◌∷◌, [], option_to_list, IfOk, OnOk};
ghost use Rattle.dns_bench_zones.specs.NestedZones.{signature_record, question_of, message_with, response_with, told_with, keys_told, ds_told, host_told, zones_told, upstream};

use crate::ZoneCount;
use crate::records::{ds_record, host_record, key_record, signature_record};
use crate::zone::Zone;
use dns_evidence::Trail;
use dns_handle::DnsResponse;
use dns_message::Message;
use dns_model::Denial;
use dns_record::{NoMemory, OpCode, Query, Record, ResponseCode};
use dns_recorded::Recorded;
use std::alloc::Global;

/// The question for a record.
pub(crate) fn question_of(about: &Record) -> Result<Query, NoMemory>
    ensures { IfOk result (λ q. q ≡ question_of about.now) }
{
    let name = about.name.try_clone()?;
    Ok(Query {
        name,
        query_type: about.record_type,
        query_class: about.dns_class,
    })
}

// A message with these answers to a question.
fn message_with(alloc: Global, query: &Query, answers: Vec<Record>) -> Result<Message, NoMemory>
    ensures { IfOk result (λ m. m ≡ message_with query.now answers.items) }
{
    let mut queries = Vec::new(alloc);
    queries.push(query.try_clone()?)?;
    Ok(Message {
        id: 0,
        response: true,
        op_code: OpCode::QUERY,
        authoritative: true,
        truncated: false,
        recursion_desired: false,
        recursion_available: false,
        authentic_data: false,
        checking_disabled: false,
        response_code: ResponseCode::NO_ERROR,
        queries,
        answers,
        authorities: Vec::new(alloc),
        additionals: Vec::new(alloc),
        edns: None,
    })
}

// A message as a response.
fn response_with(alloc: Global, message: Message) -> DnsResponse
    ensures { result ≡ response_with message }
{
    DnsResponse {
        message,
        chains: Vec::new(alloc),
        denial: Denial::None,
        trail: Trail::new(alloc),
    }
}

// A record, with its signature if it has one.
fn answers_of(
    alloc: Global,
    about: Record,
    signature: Option<Record>,
) -> Result<Vec<Record>, NoMemory>
    ensures { IfOk result (λ v. v.items ≡ about ∷ option_to_list signature) }
{
    let mut answers = Vec::new(alloc);
    answers.push(about)?;
    if let Some(signature) = signature {
        answers.push(signature)?;
    }
    Ok(answers)
}

// Tells a record and its signature where it is asked for.
fn tell(
    alloc: Global,
    handle: &mut Recorded,
    about: Record,
    signature: Option<Record>,
) -> Result<(), NoMemory>
    ensures { OnOk result (handle.new ≡ record handle.old {
      replies = handle.old.replies ++ told_with about (option_to_list signature) ∷ [];
    }) }
{
    let query = question_of(&about)?;
    let answers = answers_of(alloc, about, signature)?;
    let message = message_with(alloc, &query, answers)?;
    handle.push(query, Ok(response_with(alloc, message)))
}

// Tells a record and the signature of a zone where it is asked for.
fn tell_signed(
    alloc: Global,
    handle: &mut Recorded,
    zone: &Zone,
    about: Record,
) -> Result<(), NoMemory>
    ensures { OnOk result (handle.new ≡ record handle.old {
      replies = handle.old.replies ++ told_with about (signature_record zone.now about ∷ []) ∷ [];
    }) }
{
    let signature = signature_record(alloc, zone, &about)?;
    tell(alloc, handle, about, Some(signature))
}

// Tells the keys of a zone.
fn tell_keys(alloc: Global, handle: &mut Recorded, zone: &Zone) -> Result<(), NoMemory>
    ensures { OnOk result (handle.new ≡ record handle.old {
      replies = handle.old.replies ++ keys_told zone.now ∷ [];
    }) }
{
    let keys = key_record(alloc, zone)?;
    tell(alloc, handle, keys, None)
}

// Tells the DS set of the zone below a zone.
fn tell_ds(alloc: Global, handle: &mut Recorded, zone: &Zone, child: &Zone) -> Result<(), NoMemory>
    requires { child.now ≡ zone.now + 1 }
    ensures { OnOk result (handle.new ≡ record handle.old {
      replies = handle.old.replies ++ ds_told zone.now ∷ [];
    }) }
{
    let ds = ds_record(alloc, child)?;
    tell_signed(alloc, handle, zone, ds)
}

// Tells the address of a zone's host.
fn tell_host(alloc: Global, handle: &mut Recorded, zone: &Zone) -> Result<(), NoMemory>
    ensures { OnOk result (handle.new ≡ record handle.old {
      replies = handle.old.replies ++ host_told zone.now ∷ [];
    }) }
{
    let host = host_record(alloc, zone)?;
    tell_signed(alloc, handle, zone, host)
}

// Tells of the root and of so many zones below it.
fn tell_zones(alloc: Global, handle: &mut Recorded, zones: ZoneCount) -> Result<(), NoMemory>
    ensures { OnOk result (handle.new ≡ record handle.old { replies = handle.old.replies ++ zones_told zones }) }
{
    let mut zone = Zone::root(alloc)?;
    tell_keys(alloc, handle, &zone)?;
    'zones: while zone.number() < zones.number() {
        let child = zone.child(alloc)?;
        tell_ds(alloc, handle, &zone, &child)?;
        tell_keys(alloc, handle, &child)?;
        zone = child;
    }
    Ok(())
}

/// The upstream that tells of so many zones below the root, and of the host in the last: of each zone its key set, unsigned, and
/// below the root its DS set, signed by the zone above. It fails only where memory
/// runs out.
pub fn bench_replies(alloc: Global, zones: ZoneCount) -> Result<Recorded, NoMemory>
    ensures { IfOk result (λ r. r ≡ upstream zones) }
{
    let last = Zone::last(alloc, zones)?;
    let mut handle = Recorded::new(alloc);
    tell_host(alloc, &mut handle, &last)?;
    tell_zones(alloc, &mut handle, zones)?;
    Ok(handle)
}
