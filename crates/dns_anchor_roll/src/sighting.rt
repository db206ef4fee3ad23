//! Sightings of a zone's key set (RFC 5011, 2.3).
ghost use Rattle.std.specs.Prelude.{◌≡◌, ◌==◌, ◌&&◌, IfOk};
ghost use Rattle.std.specs.List.{filter};
ghost use Rattle.dns_anchor_roll.specs.Sightings.{sighting_of, key_sighting, is_of_zone as is_of_zone_in, is_key_record as is_key_record_in, is_key_signature as is_key_signature_in};

use dns_message::Message;
use dns_rdata::Rrsig;
use dns_record::{DNSClass, Name, NoMemory, Record, RecordSet, RecordType};
use std::alloc::Global;
use std::marker::Model;

/// A set that was seen, and when.
pub struct Sighting {
    /// Seconds since 1970.
    pub moment: u64,
    /// The set. One of another owner, type or class than the keys of the zone that is followed has no signature that counts.
    pub set: RecordSet,
}

impl Model for Sighting {
    ghost use Rattle.dns_anchor_roll.specs.Sightings.{SightingValue};

    ghost Value = { SightingValue };

    ghost view = { λ s. record { moment = s.moment; set = s.set } };
}

// By hand, so that a function that drops a sighting calls this.
impl Drop for Sighting {
    fn drop(self) {
        let Sighting { moment: _, set: _ } = self;
    }
}

impl Sighting {
    /// What a message shows of the keys of a zone: the key records of its answer section, of class IN, with the readable signatures
    /// over them. None where it shows no key. The message's question, code and flags don't matter.
    pub fn of(
        alloc: Global,
        message: &Message,
        zone: &Name,
        moment: u64,
    ) -> Result<Option<Sighting>, NoMemory>
        ensures { IfOk result (λ s. s ≡ sighting_of zone.now moment message.now) }
    {
        let records = key_records(alloc, zone, &message.answers)?;
        if records.is_empty() {
            return Ok(None);
        }
        let rrsigs = key_signatures(alloc, zone, &message.answers)?;
        let set = RecordSet {
            name: zone.try_clone()?,
            record_type: RecordType::DNSKEY,
            dns_class: DNSClass::IN,
            records,
            rrsigs,
        };
        Ok(Some(Sighting { moment, set }))
    }
}

// The key records of a zone in a section.
fn key_records(alloc: Global, zone: &Name, section: &[Record]) -> Result<Vec<Record>, NoMemory>
    ensures { IfOk result (λ v. v.items ≡ filter (is_key_record_in zone.now) section.now) }
{
    let mut all = Vec::new(alloc);
    for next in section {
        if is_key_record(zone, next) {
            let own = next.try_clone()?;
            all.push(own)?;
        }
    }
    Ok(all)
}

// The readable signatures over the keys of a zone in a section.
fn key_signatures(alloc: Global, zone: &Name, section: &[Record]) -> Result<Vec<Record>, NoMemory>
    ensures { IfOk result (λ v. v.items ≡ filter (is_key_signature_in zone.now) section.now) }
{
    let mut all = Vec::new(alloc);
    for next in section {
        if is_key_signature(zone, next) {
            let own = next.try_clone()?;
            all.push(own)?;
        }
    }
    Ok(all)
}

// Whether a record stands at the zone's name, in class IN.
fn is_of_zone(zone: &Name, of: &Record) -> bool
    ensures { result ≡ is_of_zone_in zone.now of.now }
{
    *zone == of.name && of.dns_class == DNSClass::IN
}

// Whether a record is one of the zone's keys.
fn is_key_record(zone: &Name, of: &Record) -> bool
    ensures { result ≡ is_key_record_in zone.now of.now }
{
    is_of_zone(zone, of) && of.record_type == RecordType::DNSKEY
}

// Whether a record is a signature over the zone's keys.
fn is_key_signature(zone: &Name, of: &Record) -> bool
    ensures { result ≡ is_key_signature_in zone.now of.now }
{
    if !is_of_zone(zone, of) {
        return false;
    }
    match Rrsig::of(of) {
        Some(sig) => sig.type_covered == RecordType::DNSKEY,
        None => false,
    }
}
