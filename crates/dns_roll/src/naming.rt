//! The rdatas that a text names, in its order, and each key by the first of them.
ghost use Rattle.std.specs.Prelude.{◌≡◌, ◌++◌, [], drop, map, IfOk, OnOk};
ghost use Rattle.std.specs.List.{flat_map};
ghost use Rattle.dns_roll.specs.TrustedText.{first_rdatas, named_rdatas, rdatas_in, texts_of};

use crate::roll_text::GivenKey;
use dns_anchor_roll::Sighting;
use dns_record::{NoMemory, Rdata, Record};
use std::alloc::Global;
use std::collections::BTreeSet;

/// The rdatas of keys, again.
pub(crate) fn rdatas_of(alloc: Global, keys: &[GivenKey]) -> Result<Vec<Rdata>, NoMemory>
    ensures { IfOk result (λ v. v.items ≡ keys.now) }
{
    let mut all = Vec::new(alloc);
    for key in keys {
        let own = key.rdata.try_clone()?;
        all.push(own)?;
    }
    Ok(all)
}

// Adds the rdatas of keys.
fn push_given<'a>(into: &mut Vec<&'a [u8]>, keys: &'a [GivenKey]) -> Result<(), NoMemory>
    ensures { OnOk result (texts_of into.new.items ≡ texts_of into.old.items ++ keys.now) }
{
    for key in keys {
        into.push(key.rdata.as_slice())?;
    }
    Ok(())
}

// Adds the rdatas of records.
fn push_records<'a>(into: &mut Vec<&'a [u8]>, records: &'a [Record]) -> Result<(), NoMemory>
    ensures { OnOk result (texts_of into.new.items ≡ texts_of into.old.items ++ map (λ r. r.rdata) records.now) }
{
    for next in records {
        into.push(next.rdata.as_slice())?;
    }
    Ok(())
}

/// The rdatas of keys that are given, and those of sightings, in their order.
pub(crate) fn named_rdatas<'a>(
    alloc: Global,
    keys: &'a [GivenKey],
    sightings: &'a [Sighting],
) -> Result<Vec<&'a [u8]>, NoMemory>
    ensures { IfOk result (λ v. texts_of v.items ≡ named_rdatas keys.now sightings.now) }
{
    let mut all = Vec::new(alloc);
    push_given(&mut all, keys)?;
    for sighting in sightings {
        push_records(&mut all, &sighting.set.records)?;
    }
    Ok(all)
}

// The algorithm and the public key of a DNSKEY rdata, which stand behind its flags and its protocol (RFC 4034, 2.1).
fn behind_protocol(rdata: &[u8]) -> &[u8]
    ensures { result.now ≡ drop 3 rdata.now }
{
    if rdata.len() < 3 {
        return &[];
    }
    &rdata[3..]
}

/// Each key by the rdata that is the first of it.
pub(crate) fn first_rdatas<'a>(
    alloc: Global,
    rdatas: &[&'a [u8]],
) -> Result<Vec<&'a [u8]>, NoMemory>
    ensures { IfOk result (λ v. texts_of v.items ≡ first_rdatas [] (texts_of rdatas.now)) }
{
    let mut all = Vec::new(alloc);
    let mut seen = BTreeSet::new(alloc);
    for rdata in rdatas {
        let rdata = *rdata;
        if seen.insert(behind_protocol(rdata))? {
            all.push(rdata)?;
        }
    }
    Ok(all)
}
