//! Records, chains and responses, as a store of kept denials takes them.
ghost use Rattle.std.specs.Prelude.{◌≤◌, length};

use dns_evidence::{Chain, Link, Trail};
use dns_handle::DnsResponse;
use dns_message::Message;
use dns_model::{Denial, Proof, Section};
use dns_rdata::{base32hex_encode, nsec3_hash_of};
use dns_record::{DNSClass, Name, NoMemory, Rdata, Record, RecordType};
use std::alloc::Global;

/// How names are hashed by SHA-1: flags, iterations and salt (RFC 5155, 3.1).
#[derive(Clone, Copy)]
pub(crate) struct Way {
    pub(crate) flags: u8,
    pub(crate) iterations: u16,
    pub(crate) salt: &'static [u8],
}

/// A signature up to its signer: it can be read, and says nothing else.
const SIGNATURE: &[u8; 18] = &[0; 18];

/// The name with a wire form; the root, where no name has it.
pub(crate) fn name_of(alloc: Global, wire: &[u8]) -> Result<Name, NoMemory> {
    match Name::from_wire(alloc, wire)? {
        Some(name) => Ok(name),
        None => Name::root(alloc),
    }
}

/// The hash of a name.
pub(crate) fn hash_of(way: Way, name: &Name) -> [u8; 20] {
    nsec3_hash_of(way.salt, &name.borrowed(), way.iterations)
}

/// The name right below a zone whose first label is a hash.
pub(crate) fn hashed_owner(alloc: Global, hash: &[u8; 20], zone: &[u8]) -> Result<Name, NoMemory> {
    let label = base32hex_encode(hash);
    let mut wire = Vec::new(alloc);
    wire.push(32)?;
    wire.extend_from_slice(label.as_slice())?;
    wire.extend_from_slice(zone)?;
    name_of(alloc, &wire)
}

// The bytes, where an rdata can have so many, and else none.
fn fitting(bytes: &[u8]) -> &[u8]
    ensures { length result.now ≤ 65535 }
{
    if bytes.len() <= 65_535 { bytes } else { &[] }
}

// A Secure record of class IN.
fn secure(
    alloc: Global,
    name: Name,
    record_type: RecordType,
    ttl: u32,
    bytes: &[u8],
) -> Result<Record, NoMemory> {
    Ok(Record {
        name,
        record_type,
        dns_class: DNSClass::IN,
        ttl,
        rdata: Rdata::from_slice(alloc, fitting(bytes))?,
        proof: Proof::Secure,
    })
}

/// An NSEC record of an owner, with the next one and the bitmap of its types (RFC 4034, 4.1).
pub(crate) fn nsec(
    alloc: Global,
    owner: Name,
    next: &Name,
    types: &[u8],
    ttl: u32,
) -> Result<Record, NoMemory> {
    let mut bytes = Vec::new(alloc);
    bytes.extend_from_slice(next.wire())?;
    bytes.extend_from_slice(types)?;
    secure(alloc, owner, RecordType::NSEC, ttl, &bytes)
}

// What stands in front of the next hash of an NSEC3 record (RFC 5155, 3.2).
fn push_way(bytes: &mut Vec<u8>, way: Way) -> Result<(), NoMemory> {
    bytes.push(1)?;
    bytes.push(way.flags)?;
    bytes.extend_from_slice(way.iterations.to_be_bytes().as_slice())?;
    bytes.push(way.salt.len().min(255) as u8)?;
    bytes.extend_from_slice(way.salt)?;
    Ok(())
}

/// An NSEC3 record of an owner, with the next hash and the bitmap of its types (RFC 5155, 3.2).
pub(crate) fn nsec3(
    alloc: Global,
    owner: Name,
    next: &[u8; 20],
    types: &[u8],
    way: Way,
    ttl: u32,
) -> Result<Record, NoMemory> {
    let mut bytes = Vec::new(alloc);
    push_way(&mut bytes, way)?;
    bytes.push(20)?;
    bytes.extend_from_slice(next.as_slice())?;
    bytes.extend_from_slice(types)?;
    secure(alloc, owner, RecordType::NSEC3, ttl, &bytes)
}

// The rdata of a signature by a zone.
fn signature(alloc: Global, zone: &[u8]) -> Result<Rdata, NoMemory> {
    let mut bytes = Vec::new(alloc);
    bytes.extend_from_slice(SIGNATURE)?;
    bytes.extend_from_slice(zone)?;
    Rdata::from_slice(alloc, fitting(&bytes))
}

// A chain that ends at a record's set, signed by a zone.
fn chain_for(alloc: Global, met: &Record, zone: &[u8]) -> Result<Chain, NoMemory> {
    let mut links = Vec::new(alloc);
    links.push(Link::Signed {
        owner: met.name.try_clone()?,
        class: DNSClass::IN,
        record_type: met.record_type,
        rdatas: Vec::new(alloc),
        sig: signature(alloc, zone)?,
        key_link: 0,
        key: Rdata::from_slice(alloc, &[])?,
    })?;
    Ok(Chain {
        section: Section::Authority,
        links,
    })
}

/// A response without records.
pub(crate) fn no_records(alloc: Global) -> DnsResponse {
    DnsResponse {
        message: Message::query(alloc),
        chains: Vec::new(alloc),
        denial: Denial::None,
        trail: Trail::new(alloc),
    }
}

/// Adds a record to the authority section, and a chain for its set, signed by a zone.
pub(crate) fn add(
    alloc: Global,
    response: &mut DnsResponse,
    met: Record,
    zone: &[u8],
) -> Result<(), NoMemory> {
    response.chains.push(chain_for(alloc, &met, zone)?)?;
    response.message.authorities.push(met)?;
    Ok(())
}
