//! The addresses of name servers that a response gives beside NS records (RFC 1034, 4.2.1).
ghost use Rattle.std.specs.Prelude.{◌≡◌, ◌∷◌, [], IfOk, OnOk, map};
ghost use Rattle.std.specs.List.{filter};
ghost use Rattle.dns_model.specs.Names.{Labels, folded, wire};
ghost use Rattle.dns_model.specs.Types.{type_ns};
ghost use Rattle.dns_model.specs.Views.{ns_in};
ghost use Rattle.dns_model.specs.RecordViews.{read_as};
ghost use Rattle.dns_handle.specs.Responses.{forwarded, is_address_of, is_ns};
ghost use Rattle.dns_handle.specs.Glue.{Joined, addresses_at, forwarded_by, glue_by, is_address};

use crate::ForwardNSData;
use crate::query_key::folded_of;
use dns_rdata::Ns;
use dns_record::{NoMemory, Octets, Record, RecordType, clone_records};
use std::alloc::Global;
use std::collections::BTreeMap;

/// A and AAAA records by their owner, as its wire form with A to Z as a to z. No choice of names makes a search longer, as it
/// would where a hash can be foreseen.
type Addresses = BTreeMap<Octets, Vec<Record>>;

// Whether a record is an address, of either kind.
fn is_address(of: &Record) -> bool
    ensures { result ≡ is_address of.now }
{
    of.record_type == RecordType::A || of.record_type == RecordType::AAAA
}

// A list of one record.
fn list_of_one(alloc: Global, next: Record) -> Result<Vec<Record>, NoMemory>
    ensures { IfOk result (λ v. v.items ≡ next ∷ []) }
{
    let mut own = Vec::new(alloc);
    own.push(next)?;
    Ok(own)
}

// Puts a record behind the others of its owner, whose key is given.
fn join_at(
    alloc: Global,
    addresses: &mut Addresses,
    key: Octets,
    next: Record,
) -> Result<(), NoMemory>
    requires { key ≡ wire (folded next.owner) }
    ensures { OnOk result (Joined addresses.old addresses.new next) }
{
    if let Some(known) = addresses.get_mut(&key) {
        known.push(next)?;
        return Ok(());
    }
    let own = list_of_one(alloc, next)?;
    addresses.insert(key, own)?;
    Ok(())
}

// Puts a record behind the others of its owner.
fn join(alloc: Global, addresses: &mut Addresses, next: Record) -> Result<(), NoMemory>
    ensures { OnOk result (Joined addresses.old addresses.new next) }
{
    let key = folded_of(alloc, &next.name.borrowed())?;
    join_at(alloc, addresses, key, next)
}

// The A and AAAA records among these.
fn addresses_of(alloc: Global, records: Vec<Record>) -> Result<Addresses, NoMemory>
    ensures { IfOk result (λ a. (name : Labels) → addresses_at a name ≡ filter (is_address_of name) records.items) }
{
    let mut addresses = BTreeMap::new(alloc);
    for next in records {
        if is_address(&next) {
            join(alloc, &mut addresses, next)?;
        }
    }
    Ok(addresses)
}

// The addresses of the server that an NS record names.
fn glue_of(alloc: Global, addresses: &Addresses, ns: &Record) -> Result<Vec<Record>, NoMemory>
    ensures { IfOk result (λ v. v.items ≡ glue_by addresses.now (read_as type_ns ns_in ns.now)) }
{
    let Some(server) = Ns::of(ns) else {
        return Ok(Vec::new(alloc));
    };
    let key = folded_of(alloc, &server.name)?;
    match addresses.get(&key) {
        None => Ok(Vec::new(alloc)),
        Some(known) => clone_records(known),
    }
}

// An NS record with its addresses.
fn forwarded_of(
    alloc: Global,
    addresses: &Addresses,
    ns: &Record,
) -> Result<ForwardNSData, NoMemory>
    ensures { IfOk result (λ f. f ≡ forwarded_by addresses.now ns.now) }
{
    let glue = glue_of(alloc, addresses, ns)?;
    let ns = ns.try_clone()?;
    Ok(ForwardNSData { ns, glue })
}

// The NS records of a section, each with its addresses.
fn all_forwarded(
    alloc: Global,
    addresses: &Addresses,
    section: &[Record],
) -> Result<Vec<ForwardNSData>, NoMemory>
    ensures { IfOk result (λ v. v.items ≡ map (forwarded_by addresses.now) (filter is_ns section.now)) }
{
    let mut all = Vec::new(alloc);
    for next in section {
        if next.record_type == RecordType::NS {
            let forwarded = forwarded_of(alloc, addresses, next)?;
            all.push(forwarded)?;
        }
    }
    Ok(all)
}

/// The NS records of a section, each with the addresses of its server among the records given.
pub(crate) fn forwarded_among(
    alloc: Global,
    records: Vec<Record>,
    section: &[Record],
) -> Result<Vec<ForwardNSData>, NoMemory>
    ensures { IfOk result (λ v. v.items ≡ map (forwarded records.items) (filter is_ns section.now)) }
{
    let addresses = addresses_of(alloc, records)?;
    all_forwarded(alloc, &addresses, section)
}
