//! DS records and the keys that they match (RFC 4034, 5.1.4; RFC 4035, 5.2).

ghost use Rattle.std.specs.Prelude.{◌≡◌, ◌↔◌, ◌==◌, ◌&&◌, ℕ, [], IfOk, OnOk, IsTrue};
ghost use Rattle.std.specs.List.{filter, find};
ghost use Rattle.std.specs.Option.{option_copied};
ghost use Rattle.dns_model.specs.Views.{dnskey_in};
ghost use Rattle.dns_model.specs.RecordViews.{dnskey_of};
ghost use Rattle.dns_model.specs.Keys.{ds_covers_key};
ghost use Rattle.dns_rules.specs.Delegations.{is_supported_ds as is_supported_record, is_ds_for as is_record_for, matching_ds as matching_record};
ghost use Rattle.dns_trust.specs.Delegating.{shown, counted_at, counted_after, algorithm_and_tag, KeepsFirstTwo, is_delegation_at};

use dns_evidence::Verifier;
use dns_rdata::{DigestType, Dnskey, Ds, key_tag};
use dns_record::{Name, NoMemory, Record, RecordType};
use std::alloc::Global;
use std::collections::BTreeMap;
use std::marker::Model;

// How many DS records of one algorithm and tag count.
const MOST_COUNTED: usize = 2;

// The DS records that count, by algorithm and tag.
type CountedDs<'a> = BTreeMap<(u8, u16), Vec<&'a Record>>;

/// DS records, to be found by the keys of an owner that they match: of one algorithm and tag the first two of that owner count.
#[derive(Drop)]
pub struct DsIndex<'a> {
    owner: &'a Name,
    records: Vec<&'a Record>,
    counted: CountedDs<'a>,
}

impl<'a> Model for DsIndex<'a> {
    ghost use Rattle.dns_trust.specs.Delegating.{DsIndexValue, shown, KeepsFirstTwo};

    ghost Value = { DsIndexValue };

    ghost view = { λ d. record { owner = d.owner.now; records = shown d.records.items } };

    ghost invariant = { λ d. KeepsFirstTwo d.owner.now (shown d.records.items) d.counted };
}

impl<'a> DsIndex<'a> {
    /// An index of these records, for the keys of an owner.
    pub fn of(
        alloc: Global,
        owner: &'a Name,
        records: &'a [Record],
    ) -> Result<DsIndex<'a>, NoMemory>
        ensures owner { IfOk result (λ d. d.owner ≡ owner.now) }
        ensures records { IfOk result (λ d. d.records ≡ records.now) }
    {
        let records = all_of(alloc, records)?;
        indexed(alloc, owner, records)
    }

    /// An index of those of these records whose algorithm and digest type are supported.
    pub fn of_supported<V: Verifier>(
        alloc: Global,
        verifier: &V,
        owner: &'a Name,
        records: &'a [Record],
    ) -> Result<DsIndex<'a>, NoMemory>
        ensures owner { IfOk result (λ d. d.owner ≡ owner.now) }
        ensures records { IfOk result (λ d. d.records
            ≡ filter (is_supported_record (V.answers verifier.now)) records.now) }
    {
        let records = supported(alloc, verifier, records)?;
        indexed(alloc, owner, records)
    }

    /// Whether there is no record.
    pub fn is_empty(&self) -> bool
        ensures { IsTrue result ↔ (self.now.records ≡ []) }
    {
        self.records.is_empty()
    }

    /// The first record that counts and matches a key as one of the owner (RFC 4035, 5.2).
    pub fn matching<V: Verifier>(&self, verifier: &V, key: &Record) -> Option<&'a Record>
        ensures { option_copied result ≡ matching_record (V.answers verifier.now) self.now.owner key.now
            self.now.records }
    {
        let pair = algorithm_and_tag_of(key)?;
        let counted = self.counted.get(&pair)?;
        first_match(verifier, self.owner, key, counted.as_slice())
    }
}

/// The first of the records that counts and matches a key of an owner, where no index is worth its memory.
pub fn matching_ds<'a, V: Verifier>(
    verifier: &V,
    owner: &Name,
    key: &Record,
    records: &'a [Record],
) -> Option<&'a Record>
    ensures { option_copied result ≡ matching_record (V.answers verifier.now) owner.now key.now records.now }
{
    let mut counted = 0;
    for ds in records {
        if counted == MOST_COUNTED {
            return None;
        }
        if is_ds_for(owner, key, ds) {
            counted += 1;
            if is_match(verifier, owner, key, ds) {
                return Some(ds);
            }
        }
    }
    None
}

/// The record can be read as a DS, of a supported algorithm and digest type.
#[tactic(auto, using(crate::proofs::Delegated::supported_type))]
pub fn is_supported_ds<V: Verifier>(verifier: &V, ds: &Record) -> bool
    ensures { result ≡ is_supported_record (V.answers verifier.now) ds.now }
{
    match Ds::of(ds) {
        Some(read) => {
            verifier.supports(read.algorithm) && DigestType::of(read.digest_type).is_some()
        }
        None => false,
    }
}

// References to all of some records, in order.
fn all_of<'a>(alloc: Global, records: &'a [Record]) -> Result<Vec<&'a Record>, NoMemory>
    ensures { IfOk result (λ v. shown v.items ≡ records.now) }
{
    let mut all = Vec::new(alloc);
    for ds in records {
        all.push(ds)?;
    }
    Ok(all)
}

// References to the supported ones of some records, in order.
fn supported<'a, V: Verifier>(
    alloc: Global,
    verifier: &V,
    records: &'a [Record],
) -> Result<Vec<&'a Record>, NoMemory>
    ensures { IfOk result (λ v. shown v.items ≡ filter (is_supported_record (V.answers verifier.now)) records.now) }
{
    let mut supported = Vec::new(alloc);
    for ds in records {
        if is_supported_ds(verifier, ds) {
            supported.push(ds)?;
        }
    }
    Ok(supported)
}

// An index of the records that these references show.
fn indexed<'a>(
    alloc: Global,
    owner: &'a Name,
    records: Vec<&'a Record>,
) -> Result<DsIndex<'a>, NoMemory>
    ensures owner { IfOk result (λ d. d.owner ≡ owner.now) }
    ensures records { IfOk result (λ d. d.records ≡ shown records.entry.items) }
{
    let counted = counted_in(alloc, owner, &records)?;
    Ok(DsIndex {
        owner,
        records,
        counted,
    })
}

// The first two of each algorithm and tag.
fn counted_in<'a>(
    alloc: Global,
    owner: &Name,
    records: &[&'a Record],
) -> Result<CountedDs<'a>, NoMemory>
    ensures { IfOk result (λ m. KeepsFirstTwo owner.now (shown records.now) m) }
{
    let mut counted = BTreeMap::new(alloc);
    for ds in records {
        count(alloc, &mut counted, owner, ds)?;
    }
    Ok(counted)
}

// Counts a record, where it is a DS of the owner and one of the first two.
fn count<'a>(
    alloc: Global,
    counted: &mut CountedDs<'a>,
    owner: &Name,
    ds: &'a Record,
) -> Result<(), NoMemory>
    ensures { OnOk result ((a t : ℕ) → counted_at counted.new a t ≡
        counted_after counted.old (is_delegation_at owner.now a t ds.now) ds.now a t) }
{
    if *owner != ds.name {
        return Ok(());
    }
    match Ds::of(ds) {
        Some(read) => add(alloc, counted, read.algorithm, read.key_tag, ds),
        None => Ok(()),
    }
}

// Adds a record to those of an algorithm and a tag, of which two are kept.
fn add<'a>(
    alloc: Global,
    counted: &mut CountedDs<'a>,
    algorithm: u8,
    tag: u16,
    ds: &'a Record,
) -> Result<(), NoMemory>
    ensures { OnOk result ((a t : ℕ) → counted_at counted.new a t ≡
        counted_after counted.old ((a == algorithm) && (t == tag)) ds.now a t) }
{
    if let Some(there) = counted.get_mut(&(algorithm, tag)) {
        if there.len() < MOST_COUNTED {
            there.push(ds)?;
        }
        return Ok(());
    }
    let mut first = Vec::new(alloc);
    first.push(ds)?;
    counted.insert((algorithm, tag), first)?;
    Ok(())
}

// The first of some records that matches a key of an owner.
fn first_match<'a, V: Verifier>(
    verifier: &V,
    owner: &Name,
    key: &Record,
    records: &[&'a Record],
) -> Option<&'a Record>
    ensures { option_copied result ≡
        find (λ r. ds_covers_key (V.answers verifier.now) owner.now key.now.rdata r.rdata) (shown records.now) }
{
    for ds in records {
        let ds = *ds;
        if is_match(verifier, owner, key, ds) {
            return Some(ds);
        }
    }
    None
}

// The rdata of a record, as that of a DS, matches that of a key of an owner.
fn is_match<V: Verifier>(verifier: &V, owner: &Name, key: &Record, ds: &Record) -> bool
    ensures { result ≡ ds_covers_key (V.answers verifier.now) owner.now key.now.rdata ds.now.rdata }
{
    ds_matches(verifier, owner, key.rdata.as_slice(), ds.rdata.as_slice())
}

/// The rdata of a DS matches that of a key of an owner (RFC 4034, 5.1.4).
pub fn ds_matches<V: Verifier>(verifier: &V, owner: &Name, key: &[u8], ds: &[u8]) -> bool
    ensures { result ≡ ds_covers_key (V.answers verifier.now) owner.now key.now ds.now }
{
    let Some((algorithm, tag)) = algorithm_and_tag_in(key) else {
        return false;
    };
    let Some(read) = Ds::read(ds) else {
        return false;
    };
    algorithm == read.algorithm
        && tag == read.key_tag
        && verifier.supports(read.algorithm)
        && read.covers(owner, key)
}

// The record is a DS of the owner with the algorithm and the tag of a key.
fn is_ds_for(owner: &Name, key: &Record, ds: &Record) -> bool
    ensures { result ≡ is_record_for owner.now key.now ds.now }
{
    let Some((algorithm, tag)) = algorithm_and_tag_of(key) else {
        return false;
    };
    let Some(read) = Ds::of(ds) else {
        return false;
    };
    *owner == ds.name && algorithm == read.algorithm && tag == read.key_tag
}

// The algorithm and the tag of a key, where it can be read.
fn algorithm_and_tag_of(key: &Record) -> Option<(u8, u16)>
    ensures { result ≡ algorithm_and_tag key.now.rdata (dnskey_of key.now) }
{
    if key.record_type != RecordType::DNSKEY {
        return None;
    }
    algorithm_and_tag_in(key.rdata.as_slice())
}

// The algorithm and the tag that a key's rdata gives.
#[tactic(auto, unfolding(dns_model::specs::Views::dnskey_in))]
fn algorithm_and_tag_in(rdata: &[u8]) -> Option<(u8, u16)>
    ensures { result ≡ algorithm_and_tag rdata.now (dnskey_in rdata.now) }
{
    let dnskey = Dnskey::read(rdata)?;
    let tag = key_tag(rdata)?;
    Some((dnskey.algorithm, tag))
}
