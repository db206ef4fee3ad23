//! The bytes that a signature is over (RFC 4034, 3.1.8.1).
ghost use Rattle.std.specs.Prelude.{◌≡◌, ◌++◌, IfOk, OnOk, length, map};
ghost use Rattle.std.specs.List.{concat};
ghost use Rattle.dns_model.specs.Bytes.{u16_bytes, u32_bytes};
ghost use Rattle.dns_model.specs.Names.{wire};
ghost use Rattle.dns_model.specs.Shapes.{canonical_form};
ghost use Rattle.dns_model.specs.Signing.{signed_bytes, signed_head as head_of, signed_owner, rising_once};
ghost use Rattle.dns_model.specs.Chains.{rdatas_of};

use crate::canonical::is_lowered;
use crate::write::{push_u16, push_u32};
use crate::{Rrsig, canonical_rdata};
use dns_record::{DNSClass, Name, NoMemory, Octets, Rdata, Record, RecordSet, RecordType};
use std::alloc::Global;
use std::collections::BTreeSet;

/// The rdatas of one name, type and class, in any order (RFC 2181, 5).
#[derive(Clone, Copy)]
pub struct RdataSet<'a> {
    /// The owner of the records.
    pub name: &'a Name,
    /// The type of the records.
    pub record_type: RecordType,
    /// The class of the records.
    pub dns_class: DNSClass,
    /// What each record holds.
    pub rdatas: &'a [Rdata],
}

/// The bytes that a signature of a set is over (RFC 4034, 3.1.8.1 and 6; RFC 4035, 5.3.2): the signature's rdata without
/// the signature, and then each record in canonical form, in rising order of the rdata, equal ones once.
#[tactic(auto, unfolding(dns_model::specs::Signing::signed_bytes))]
pub fn signed_data(alloc: Global, set: &RecordSet, sig: &Rrsig) -> Result<Octets, NoMemory>
    ensures { IfOk result (λ o. o
        ≡ signed_bytes set.now.owner set.now.rtype set.now.class (rdatas_of set.now.records) sig.now) }
{
    let rising = rising_set(alloc, set)?;
    let front = set_front(alloc, set, sig)?;
    signed_octets(alloc, sig, &front, &rising)
}

/// The same for the rdatas of a set.
#[tactic(auto, unfolding(dns_model::specs::Signing::signed_bytes))]
pub fn signed_data_of(alloc: Global, set: &RdataSet<'_>, sig: &Rrsig) -> Result<Octets, NoMemory>
    ensures { IfOk result (λ o. o
        ≡ signed_bytes set.now.name.now set.now.record_type.0 set.now.dns_class.0 set.now.rdatas.now sig.now) }
{
    let rising = rising_rdatas(alloc, set.record_type, set.rdatas)?;
    let front = record_front(alloc, set.name, set.record_type, set.dns_class, sig)?;
    signed_octets(alloc, sig, &front, &rising)
}

// The rdatas in canonical form, in rising order, each once.
fn rising_rdatas(
    alloc: Global,
    record_type: RecordType,
    rdatas: &[Rdata],
) -> Result<BTreeSet<Rdata>, NoMemory>
    ensures { IfOk result (λ s. s.keys ≡ rising_once (map (canonical_form record_type.0) rdatas.now)) }
{
    let mut rising = BTreeSet::new(alloc);
    for index in (0..rdatas.len()).rev() {
        let rdata = canonical(alloc, record_type, &rdatas[index])?;
        rising.insert(rdata)?;
    }
    Ok(rising)
}

// The same of a set.
fn rising_set(alloc: Global, set: &RecordSet) -> Result<BTreeSet<Rdata>, NoMemory>
    ensures { IfOk result (λ s. s.keys ≡ rising_once (map (canonical_form set.now.rtype) (rdatas_of set.now.records))) }
{
    rising_records(alloc, set.record_type, &set.records)
}

// The same of records.
fn rising_records(
    alloc: Global,
    record_type: RecordType,
    records: &[Record],
) -> Result<BTreeSet<Rdata>, NoMemory>
    ensures { IfOk result (λ s. s.keys ≡ rising_once (map (canonical_form record_type.0) (rdatas_of records.now))) }
{
    let mut rising = BTreeSet::new(alloc);
    for index in (0..records.len()).rev() {
        let record = &records[index];
        let rdata = canonical(alloc, record_type, &record.rdata)?;
        rising.insert(rdata)?;
    }
    Ok(rising)
}

// An rdata in canonical form, which is as long. One that stays as it is is no copy.
#[tactic(auto, using(crate::proofs::CanonicalLemmas::canonical_as))]
fn canonical(alloc: Global, record_type: RecordType, rdata: &Rdata) -> Result<Rdata, NoMemory>
    ensures { IfOk result (λ r. r ≡ canonical_form record_type.0 rdata.now) }
{
    if !is_lowered(record_type) {
        return rdata.try_clone();
    }
    let bytes = canonical_rdata(alloc, record_type, rdata.as_slice())?;
    Ok(Rdata::from_octets(bytes))
}

// The signature's own bytes, and those of each record, which all have this front.
fn signed_octets(
    alloc: Global,
    sig: &Rrsig,
    front: &[u8],
    rising: &BTreeSet<Rdata>,
) -> Result<Octets, NoMemory>
    ensures { IfOk result (λ o. o ≡ head_of sig.now
        ++ concat (map (λ rdata. front.now ++ u16_bytes (length rdata) ++ rdata) rising.now.keys)) }
{
    let mut text = signed_head(alloc, sig)?;
    push_records(&mut text, front, rising)?;
    Ok(Octets::from_vec(text))
}

// Room for the signed bytes of a small set at once.
const ROOM: usize = 512;

// A signature's rdata without the signature itself, the signer lower-cased.
fn signed_head(alloc: Global, sig: &Rrsig) -> Result<Vec<u8>, NoMemory>
    ensures { IfOk result (λ v. v.items ≡ head_of sig.now) }
{
    let mut head = Vec::with_capacity(alloc, ROOM)?;
    push_u16(&mut head, sig.type_covered.0)?;
    head.extend_from_slice(&[sig.algorithm, sig.labels])?;
    push_u32(&mut head, sig.original_ttl)?;
    push_u32(&mut head, sig.expiration.0)?;
    push_u32(&mut head, sig.inception.0)?;
    push_u16(&mut head, sig.key_tag)?;
    sig.signer.push_folded(&mut head)?;
    Ok(head)
}

// What each record of a set begins with.
fn set_front(alloc: Global, set: &RecordSet, sig: &Rrsig) -> Result<Vec<u8>, NoMemory>
    ensures { IfOk result (λ v. v.items ≡ wire (signed_owner set.now.owner sig.now.labels)
        ++ u16_bytes set.now.rtype ++ u16_bytes set.now.class ++ u32_bytes sig.now.original_ttl) }
{
    record_front(alloc, &set.name, set.record_type, set.dns_class, sig)
}

// The same by parts: owner, type, class and original ttl.
fn record_front(
    alloc: Global,
    owner: &Name,
    record_type: RecordType,
    dns_class: DNSClass,
    sig: &Rrsig,
) -> Result<Vec<u8>, NoMemory>
    ensures { IfOk result (λ v. v.items ≡ wire (signed_owner owner.now sig.now.labels)
        ++ u16_bytes record_type.0 ++ u16_bytes dns_class.0 ++ u32_bytes sig.now.original_ttl) }
{
    let mut front = owner_front(alloc, owner, sig.labels)?;
    push_u16(&mut front, record_type.0)?;
    push_u16(&mut front, dns_class.0)?;
    push_u32(&mut front, sig.original_ttl)?;
    Ok(front)
}

// The owner as it was signed: the wildcard that it was expanded from, where the Labels field counts fewer labels.
fn owner_front(alloc: Global, owner: &Name, labels: u8) -> Result<Vec<u8>, NoMemory>
    ensures { IfOk result (λ v. v.items ≡ wire (signed_owner owner.now labels)) }
{
    let mut front = Vec::with_capacity(alloc, owner.wire().len().saturating_add(8))?;
    let name = owner.borrowed();
    if labels < name.num_labels() {
        front.extend_from_slice(&[1, b'*'])?;
        name.last_labels(labels).push_folded(&mut front)?;
    } else {
        owner.push_folded(&mut front)?;
    }
    Ok(front)
}

// Appends each record: the front that they share, the rdata's length and the rdata.
fn push_records(into: &mut Vec<u8>, front: &[u8], rdatas: &BTreeSet<Rdata>) -> Result<(), NoMemory>
    ensures { OnOk result (into.new.items ≡ into.old.items
        ++ concat (map (λ rdata. front.now ++ u16_bytes (length rdata) ++ rdata) rdatas.now.keys)) }
{
    for rdata in rdatas {
        let bytes = rdata.as_slice();
        into.extend_from_slice(front)?;
        push_u16(into, bytes.len() as u16)?;
        into.extend_from_slice(bytes)?;
    }
    Ok(())
}
