//! The zone `trial.example.` of a server of this machine, and records of it.
ghost use Rattle.std.specs.Prelude.{◌≡◌, ◌≤◌, length, IfOk, IfSome, IsSome};
ghost use Rattle.dns_model.specs.RecordViews.{read_as};
ghost use Rattle.dns_model.specs.Types.{type_soa};
ghost use Rattle.dns_model.specs.Views.{soa_in};

use dns_model::Proof;
use dns_rdata::Soa;
use dns_record::{DNSClass, Name, NoMemory, Rdata, Record, RecordSet, RecordType};
use dns_text::{push_decimal, push_octets};
use std::alloc::Global;
use std::net::{IpAddr, Ipv4Addr, SocketAddr};

/// A server of this machine, by its port.
pub(crate) fn server_at(port: u32) -> SocketAddr {
    let port = u16::try_from(port).unwrap_or(0);
    SocketAddr::new(IpAddr::V4(Ipv4Addr::new(127, 0, 0, 1)), port)
}

/// The zone's name.
pub(crate) fn zone(alloc: Global) -> Result<Name, NoMemory> {
    match Name::from_wire(alloc, b"\x05trial\x07example\0")? {
        Some(name) => Ok(name),
        None => Name::root(alloc),
    }
}

/// A name of one letter in the zone.
pub(crate) fn host(alloc: Global, letter: u8) -> Result<Name, NoMemory> {
    let mut wire = Vec::from_slice(alloc, b"\x01x\x05trial\x07example\0")?;
    if let Some(place) = wire.get_mut(1) {
        *place = letter;
    }
    match Name::from_wire(alloc, &wire)? {
        Some(name) => Ok(name),
        None => Name::root(alloc),
    }
}

// A record of class IN.
fn record(
    alloc: Global,
    name: Name,
    record_type: RecordType,
    bytes: &[u8],
) -> Result<Record, NoMemory>
    requires { length bytes.now ≤ 65535 }
    ensures { IfOk result (λ r. r.owner ≡ name) }
{
    Ok(Record {
        name,
        record_type,
        dns_class: DNSClass::IN,
        ttl: 60,
        rdata: Rdata::from_slice(alloc, bytes)?,
        proof: Proof::Indeterminate,
    })
}

/// An address of a name, 192.0.2 and this number.
pub(crate) fn address(alloc: Global, name: Name, number: u8) -> Result<Record, NoMemory>
    ensures { IfOk result (λ r. r.owner ≡ name) }
{
    record(alloc, name, RecordType::A, &[192, 0, 2, number])
}

/// The set of some addresses of a name.
pub(crate) fn addresses(alloc: Global, name: Name, numbers: &[u8]) -> Result<RecordSet, NoMemory>
    ensures { IfOk result (λ s. s.owner ≡ name) }
{
    let mut records = Vec::new(alloc);
    for number in numbers {
        records.push(address(alloc, name.try_clone()?, *number)?)?;
    }
    Ok(RecordSet {
        name,
        record_type: RecordType::A,
        dns_class: DNSClass::IN,
        records,
        rrsigs: Vec::new(alloc),
    })
}

/// An SOA with a serial number, of which a server looks at nothing else (RFC 1995, 3); none for 0.
pub(crate) fn known_soa(alloc: Global, serial: u32) -> Result<Option<Record>, NoMemory>
    ensures { IfOk result (λ known. IfSome known (λ soa. IsSome (read_as type_soa soa_in soa))) }
{
    if serial == 0 {
        return Ok(None);
    }
    let [first, second, third, fourth] = serial.to_be_bytes();
    let rdata = [
        0, 0, first, second, third, fourth, 0, 0, 0, 0, 0, 0, 0, 0, 0, 0, 0, 0, 0, 0, 0, 0,
    ];
    let soa = record(alloc, Name::root(alloc)?, RecordType::SOA, &rdata)?;
    if Soa::of(&soa).is_none() {
        return Ok(None);
    }
    Ok(Some(soa))
}

/// Puts the line of a record behind a text: name, type, class, ttl and rdata, the names and the rdata in hexadecimal.
pub(crate) fn push_record(text: &mut Vec<u8>, record: &Record) -> Result<(), NoMemory> {
    text.extend_from_slice(b"record ")?;
    push_octets(text, record.name.wire())?;
    text.push(b' ')?;
    push_decimal(text, u64::from(record.record_type.0))?;
    text.push(b' ')?;
    push_decimal(text, u64::from(record.dns_class.0))?;
    text.push(b' ')?;
    push_decimal(text, u64::from(record.ttl))?;
    text.push(b' ')?;
    push_octets(text, record.rdata.as_slice())?;
    text.push(b'\n')?;
    Ok(())
}
