//! Zones are asked for their key sets.
ghost use Rattle.std.specs.Prelude.{◌≡◌, ◌++◌, IfOk, OnOk};
ghost use Rattle.dns_anchor_keys.specs.Asking.{HearsZone, HearsZones, is_key_at, key_options, key_request, keys_in};

use crate::fault::AnchorsFault;
use dns_handle::{DnsHandle, DnsRequest, DnsRequestOptions, NetError};
use dns_record::{DNSClass, Name, NoMemory, Query, Record, RecordType};
use std::alloc::Global;

// An OPT record without DO: signatures aren't asked for.
fn key_options() -> DnsRequestOptions
    ensures { result ≡ key_options }
{
    let mut options = DnsRequestOptions::default();
    options.use_edns = true;
    options
}

// The request for a zone's key set.
fn key_request(alloc: Global, zone: &Name) -> Result<DnsRequest, NoMemory>
    ensures { IfOk result (λ r. r ≡ key_request zone.now) }
{
    let query = Query {
        name: zone.try_clone()?,
        query_type: RecordType::DNSKEY,
        query_class: DNSClass::IN,
    };
    DnsRequest::from_query(alloc, query, key_options())
}

// Whether a record is a key of a zone.
fn is_key(zone: &Name, found: &Record) -> bool
    ensures { result ≡ is_key_at zone.now found.now }
{
    found.record_type == RecordType::DNSKEY
        && found.dns_class == DNSClass::IN
        && found.name == *zone
}

// Puts the keys of a zone that stand among records behind others.
#[tactic(auto, unfolding(crate::specs::Asking::keys_in))]
fn push_keys(zone: &Name, records: &[Record], into: &mut Vec<Record>) -> Result<(), NoMemory>
    ensures { OnOk result (into.new.items ≡ into.old.items ++ keys_in zone.now records.now) }
{
    let mut rest = records;
    'records: while let Some((found, more)) = rest.split_first() {
        if is_key(zone, found) {
            let key = found.try_clone()?;
            into.push(key)?;
        }
        rest = more;
    }
    Ok(())
}

// Asks for one zone's key set, and puts its keys behind others.
fn ask_zone<H: DnsHandle>(
    alloc: Global,
    handle: &mut H,
    zone: &Name,
    now: u64,
    into: &mut Vec<Record>,
) -> Result<(), AnchorsFault>
    ensures { HearsZone H.DnsHandle now zone.now handle.old into.old.items handle.new into.new.items result }
{
    let request = key_request(alloc, zone)?;
    match handle.send(alloc, request, now) {
        Ok(response) => {
            push_keys(zone, &response.message.answers, into)?;
            Ok(())
        }
        Err(NetError::NoMemory) => Err(AnchorsFault::NoMemory),
        Err(error) => {
            let zone = zone.try_clone()?;
            Err(AnchorsFault::Unanswered(zone, error))
        }
    }
}

/// The keys of some zones' key sets, each of which is asked for.
pub(crate) fn ask_zones<H: DnsHandle>(
    alloc: Global,
    handle: &mut H,
    zones: &[Name],
    now: u64,
) -> Result<Vec<Record>, AnchorsFault>
    ensures { HearsZones H.DnsHandle now zones.now handle.old handle.new result }
{
    let mut keys = Vec::new(alloc);
    let mut rest = zones;
    'zones: while let Some((zone, more)) = rest.split_first() {
        ask_zone(alloc, handle, zone, now, &mut keys)?;
        rest = more;
    }
    Ok(keys)
}
