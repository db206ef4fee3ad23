//! The keys of the root followed over as many sightings (RFC 5011).
ghost use Rattle.std.specs.Prelude.{◌≤◌, length};

use crate::weighing::Weighing;
use dns_anchor_roll::{AnchorRoll, RollError, Seen, Sighting};
use dns_model::Proof;
use dns_record::{DNSClass, Name, NoMemory, Rdata, Record, RecordSet, RecordType};
use std::alloc::Global;

/// So many keys stand in the set that is seen.
const KEYS: u8 = 4;

/// A signature of the set by its first key, with an original ttl of an hour, good from 1970 to 2038 (RFC 4034, 3.1).
const SIGNATURE: &[u8; 21] = b"\0\x30\x0d\0\0\0\x0e\x10\x7f\xff\xff\xff\0\0\0\0\xae\x0e\0\xc0\xde";

// A key by its number: a secure entry point of algorithm 13 (RFC 4034, 2.1). The tag of the first is 0xae0e.
fn key(number: u8) -> [u8; 6] {
    [1, 1, 3, 13, 0xaa, number]
}

// A record of the root.
fn record(alloc: Global, record_type: RecordType, bytes: &[u8]) -> Result<Record, NoMemory>
    requires { length bytes.now ≤ 65535 }
{
    Ok(Record {
        name: Name::root(alloc)?,
        record_type,
        dns_class: DNSClass::IN,
        ttl: 3600,
        rdata: Rdata::from_slice(alloc, bytes)?,
        proof: Proof::Indeterminate,
    })
}

// The set of the keys, signed by the first.
fn key_set(alloc: Global) -> Result<RecordSet, NoMemory> {
    let mut set = RecordSet::of(alloc, record(alloc, RecordType::DNSKEY, &key(0))?)?;
    for number in 1..KEYS {
        let next = record(alloc, RecordType::DNSKEY, &key(number))?;
        set.records.push(next)?;
    }
    let signature = record(alloc, RecordType::RRSIG, SIGNATURE)?;
    set.rrsigs.push(signature)?;
    Ok(set)
}

// A roll of the root that trusts the first key.
fn begun(alloc: Global) -> Result<AnchorRoll<Weighing>, NoMemory> {
    let mut keys = Vec::new(alloc);
    keys.push(Rdata::from_slice(alloc, &key(0))?)?;
    AnchorRoll::new(alloc, Weighing::new(0), Name::root(alloc)?, keys)
}

// Whether a sighting is accepted.
fn is_accepted(roll: &mut AnchorRoll<Weighing>, sighting: &Sighting) -> Result<bool, NoMemory> {
    match roll.see(sighting) {
        Ok(seen) => Ok(matches!(seen, Seen::Accepted)),
        Err(RollError::Earlier { last: _ }) => Ok(false),
        Err(RollError::NoMemory) => Err(NoMemory),
    }
}

/// How many of so many sightings of the set are accepted, a second apart.
pub(crate) fn followed(alloc: Global, count: u32) -> Result<u64, NoMemory> {
    let mut roll = begun(alloc)?;
    let set = key_set(alloc)?;
    let mut sighting = Sighting { moment: 0, set };
    let mut accepted: u64 = 0;
    for second in 0..count {
        sighting.moment = u64::from(second);
        let held = is_accepted(&mut roll, &sighting)?;
        accepted = accepted.saturating_add(u64::from(held));
    }
    Ok(accepted)
}
