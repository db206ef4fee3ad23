//! The chains of Secure sets: a chain that is there already, with the links of one set more (RFC 4035, 5.2 and 5.3).

ghost use Rattle.std.specs.Prelude.{◌≡◌, ◌+◌, ◌-◌, ◌++◌, IfOk, [], length, map};
ghost use Rattle.std.specs.Option.{option_copied, option_map_or};
ghost use Rattle.dns_model.specs.Chains.{KeySet, Signed, rdatas_of as rdatas_in};
ghost use Rattle.dns_evidence.specs.Link.{link_value};
ghost use Rattle.dns_rules.specs.ChainedSets.{numbers_from, signed_chain as signed_chain_of, self_signed_chain as self_signed_chain_of, whole_chain, anchored_link as anchored_link_of, matched_link as matched_link_of, trusted_link as trusted_link_of};
ghost use Rattle.dns_trust.specs.Judge.{judge_of};
ghost use Rattle.dns_trust.specs.Signers.{signed_value};

use crate::keys::is_anchored;
use crate::{DsIndex, Judge, SignedBy};
use dns_evidence::{Link, Verifier, clone_links};
use dns_record::{NoMemory, Rdata, Record, RecordSet};
use std::alloc::Global;

/// The chain of a key set with one link more: its key signed this set.
pub(crate) fn signed_chain(
    alloc: Global,
    set: &RecordSet,
    sig: &Record,
    chain: &Vec<Link>,
    key: &Record,
) -> Result<Vec<Link>, NoMemory>
    ensures { IfOk result (λ v. map link_value v.items ≡
        signed_chain_of set.now sig.now (map link_value chain.now.items) key.now) }
{
    let key_link = last_number(chain)?;
    let mut links = clone_links(chain)?;
    links.push(signed_link(alloc, set, sig, key_link, key)?)?;
    Ok(links)
}

/// Behind other links the link of a key of a key set, and then the set that it signed.
pub(crate) fn self_signed_chain(
    alloc: Global,
    set: &RecordSet,
    front: Vec<Link>,
    link: Link,
    by: &SignedBy<'_>,
) -> Result<Vec<Link>, NoMemory>
    ensures { IfOk result (λ v. map link_value v.items ≡
        self_signed_chain_of set.now (map link_value front.items) (link_value link) (signed_value by.now)) }
{
    let mut links = front;
    links.push(link)?;
    let key_link = last_number(&links)?;
    links.push(signed_link(alloc, set, by.signature, key_link, by.key)?)?;
    Ok(links)
}

/// A link for each key of a wholly anchored key set, and then the set.
pub(crate) fn anchored_chain(alloc: Global, set: &RecordSet) -> Result<Vec<Link>, NoMemory>
    ensures { IfOk result (λ v. map link_value v.items ≡ whole_chain set.now [] (anchored_link_of set.now)) }
{
    let mut links = anchored_links(alloc, set)?;
    links.push(key_set_link(alloc, set, 0)?)?;
    Ok(links)
}

/// Behind the chain of a DS set a link for each key of a key set that is anchored or matched, and then the set.
pub(crate) fn trusted_chain<V: Verifier>(
    alloc: Global,
    judge: &Judge<'_, V>,
    set: &RecordSet,
    front: &Vec<Link>,
    ds: &DsIndex<'_>,
) -> Result<Vec<Link>, NoMemory>
    requires { ds.now.owner ≡ set.now.owner }
    ensures { IfOk result (λ v. map link_value v.items ≡ whole_chain set.now (map link_value front.now.items)
        (trusted_link_of (judge_of V.answers judge.now) set.now (length front.now.items - 1) ds.now.records)) }
{
    let mut links = trusted_links(judge, set, front, ds)?;
    links.push(key_set_link(alloc, set, front.len())?)?;
    Ok(links)
}

// A link for each key of a set, in order.
fn anchored_links(alloc: Global, set: &RecordSet) -> Result<Vec<Link>, NoMemory>
    ensures { IfOk result (λ v. map link_value v.items ≡ map (anchored_link_of set.now) set.now.records) }
{
    let mut links = Vec::new(alloc);
    for key in &set.records {
        links.push(anchored_link(set, key)?)?;
    }
    Ok(links)
}

// Behind the chain of a DS set a link for each key of a set, in order.
fn trusted_links<V: Verifier>(
    judge: &Judge<'_, V>,
    set: &RecordSet,
    front: &Vec<Link>,
    ds: &DsIndex<'_>,
) -> Result<Vec<Link>, NoMemory>
    requires { ds.now.owner ≡ set.now.owner }
    ensures { IfOk result (λ v. map link_value v.items ≡ map link_value front.now.items
        ++ map (trusted_link_of (judge_of V.answers judge.now) set.now (length front.now.items - 1) ds.now.records)
        set.now.records) }
{
    let ds_link = last_number(front)?;
    let mut links = clone_links(front)?;
    for key in &set.records {
        links.push(trusted_link(judge, set, ds_link, ds, key)?)?;
    }
    Ok(links)
}

/// The number of the last link of a chain.
pub(crate) fn last_number(chain: &Vec<Link>) -> Result<u32, NoMemory>
    ensures { IfOk result (λ n. n ≡ length chain.now.items - 1) }
{
    match u32::try_from(chain.len().saturating_sub(1)) {
        Ok(number) => Ok(number),
        Err(_) => Err(NoMemory),
    }
}

// The link by which a key of a set is trusted that is anchored or matched.
fn trusted_link<V: Verifier>(
    judge: &Judge<'_, V>,
    set: &RecordSet,
    ds_link: u32,
    ds: &DsIndex<'_>,
    key: &Record,
) -> Result<Link, NoMemory>
    requires { ds.now.owner ≡ set.now.owner }
    ensures { IfOk result (λ l. link_value l ≡
        trusted_link_of (judge_of V.answers judge.now) set.now ds_link ds.now.records key.now) }
{
    if is_anchored(judge, set, key) {
        return anchored_link(set, key);
    }
    let found = ds.matching(judge.verifier, key);
    link_by_found(set, ds_link, key, found)
}

/// The link of a key of a set by the DS that was found to match it; without one it is the link of an anchored key.
pub(crate) fn link_by_found(
    set: &RecordSet,
    ds_link: u32,
    key: &Record,
    found: Option<&Record>,
) -> Result<Link, NoMemory>
    ensures { IfOk result (λ l. link_value l ≡
        option_map_or (matched_link_of set.now ds_link key.now) (option_copied found.entry)
        (anchored_link_of set.now key.now)) }
{
    match found {
        Some(record) => link_by_ds(set, ds_link, key, record),
        None => anchored_link(set, key),
    }
}

// The link of a key of a set that is matched by this DS.
fn link_by_ds(set: &RecordSet, ds_link: u32, key: &Record, ds: &Record) -> Result<Link, NoMemory>
    ensures { IfOk result (λ l. link_value l ≡ matched_link_of set.now ds_link key.now ds.now) }
{
    Ok(Link::Matched {
        owner: set.name.try_clone()?,
        class: set.dns_class,
        key: key.rdata.try_clone()?,
        ds_link,
        ds: ds.rdata.try_clone()?,
    })
}

/// The link of an anchored key of a set.
pub(crate) fn anchored_link(set: &RecordSet, key: &Record) -> Result<Link, NoMemory>
    ensures { IfOk result (λ l. link_value l ≡ anchored_link_of set.now key.now) }
{
    Ok(Link::Anchored {
        owner: set.name.try_clone()?,
        class: set.dns_class,
        key: key.rdata.try_clone()?,
    })
}

// The link of a key set, whose keys the links from a number on show.
fn key_set_link(alloc: Global, set: &RecordSet, first: usize) -> Result<Link, NoMemory>
    ensures { IfOk result (λ l. link_value l ≡
        KeySet set.now.owner set.now.class (rdatas_in set.now.records)
        (numbers_from first (rdatas_in set.now.records))) }
{
    let owner = set.name.try_clone()?;
    let keys = rdatas_of(alloc, &set.records)?;
    let links = numbers(alloc, first, &keys)?;
    Ok(Link::KeySet {
        owner,
        class: set.dns_class,
        keys,
        links,
    })
}

// The link of a set that a key signed.
fn signed_link(
    alloc: Global,
    set: &RecordSet,
    sig: &Record,
    key_link: u32,
    key: &Record,
) -> Result<Link, NoMemory>
    ensures { IfOk result (λ l. link_value l ≡
        Signed set.now.owner set.now.class set.now.rtype (rdatas_in set.now.records)
        sig.now.rdata key_link key.now.rdata) }
{
    Ok(Link::Signed {
        owner: set.name.try_clone()?,
        class: set.dns_class,
        record_type: set.record_type,
        rdatas: rdatas_of(alloc, &set.records)?,
        sig: sig.rdata.try_clone()?,
        key_link,
        key: key.rdata.try_clone()?,
    })
}

// The rdatas of records, in order.
fn rdatas_of(alloc: Global, records: &[Record]) -> Result<Vec<Rdata>, NoMemory>
    ensures { IfOk result (λ v. v.items ≡ rdatas_in records.now) }
{
    let mut rdatas = Vec::new(alloc);
    for record in records {
        rdatas.push(record.rdata.try_clone()?)?;
    }
    Ok(rdatas)
}

// A number, the next one and so on, one for each key.
fn numbers(alloc: Global, first: usize, keys: &[Rdata]) -> Result<Vec<u32>, NoMemory>
    ensures { IfOk result (λ v. v.items ≡ numbers_from first keys.now) }
{
    let mut numbers = Vec::new(alloc);
    for place in 0..keys.len() {
        numbers.push(number_at(first, place)?)?;
    }
    Ok(numbers)
}

// A number and a place, where their sum fits in fewer bits.
fn number_at(first: usize, place: usize) -> Result<u32, NoMemory>
    ensures { IfOk result (λ n. n ≡ first + place) }
{
    let Some(sum) = first.checked_add(place) else {
        return Err(NoMemory);
    };
    match u32::try_from(sum) {
        Ok(number) => Ok(number),
        Err(_) => Err(NoMemory),
    }
}
