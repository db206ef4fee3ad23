//! What the records of the sets that deny existence say; those that can't be read say nothing.
ghost use Rattle.std.specs.Prelude.{◌≡◌, ◌++◌, [], ◌∷◌, IfOk, OnOk};
ghost use Rattle.std.specs.List.{filter_map};
ghost use Rattle.dns_rules.specs.ChainedSets.{bare};
ghost use Rattle.dns_rules.specs.Denying.{owned_nsec, denials, owned_nsec3, hashed_denials};

use crate::denying::is_denying;
use dns_evidence::{ChainedSet, MarkedSet};
use dns_rdata::{Nsec3Record, NsecRecord};
use dns_record::{NoMemory, Record, RecordType};
use std::alloc::Global;

// ---- NSEC

/// What the Secure NSEC records of the authority section say, in order.
pub fn nsec_denials(alloc: Global, sets: &[ChainedSet]) -> Result<Vec<NsecRecord>, NoMemory>
    ensures { IfOk result (λ v. v.items ≡ denials (bare sets.now)) }
{
    let mut nsecs = Vec::new(alloc);
    for set in sets {
        push_denials(alloc, &mut nsecs, &set.judged)?;
    }
    Ok(nsecs)
}

// Adds what the records of a set say, if it is one of NSEC records that denies existence.
fn push_denials(alloc: Global, nsecs: &mut Vec<NsecRecord>, set: &MarkedSet) -> Result<(), NoMemory>
    ensures { OnOk result (nsecs.new.items ≡ nsecs.old.items ++ denials (set.now ∷ [])) }
{
    if !is_denying(RecordType::NSEC, set) {
        return Ok(());
    }
    push_nsecs(alloc, nsecs, &set.set.records)
}

// Adds what records say as NSEC records.
fn push_nsecs(
    alloc: Global,
    nsecs: &mut Vec<NsecRecord>,
    records: &[Record],
) -> Result<(), NoMemory>
    ensures { OnOk result (nsecs.new.items ≡ nsecs.old.items ++ filter_map owned_nsec records.now) }
{
    for found in records {
        push_nsec(alloc, nsecs, found)?;
    }
    Ok(())
}

// Adds what a record says, if it can be read as an NSEC record.
fn push_nsec(alloc: Global, nsecs: &mut Vec<NsecRecord>, found: &Record) -> Result<(), NoMemory>
    ensures { OnOk result (nsecs.new.items ≡ nsecs.old.items ++ filter_map owned_nsec (found.now ∷ [])) }
{
    if let Some(nsec) = NsecRecord::of(alloc, found)? {
        nsecs.push(nsec)?;
    }
    Ok(())
}

// ---- NSEC3

/// What the Secure NSEC3 records of the authority section say, set by set.
pub fn nsec3_denials(alloc: Global, sets: &[ChainedSet]) -> Result<Vec<Nsec3Record>, NoMemory>
    ensures { IfOk result (λ v. v.items ≡ hashed_denials (bare sets.now)) }
{
    let mut nsec3s = Vec::new(alloc);
    for set in sets {
        push_hashed_denials(alloc, &mut nsec3s, &set.judged)?;
    }
    Ok(nsec3s)
}

// Adds what the records of a set say, if it is one of NSEC3 records that denies existence.
fn push_hashed_denials(
    alloc: Global,
    nsec3s: &mut Vec<Nsec3Record>,
    set: &MarkedSet,
) -> Result<(), NoMemory>
    ensures { OnOk result (nsec3s.new.items ≡ nsec3s.old.items ++ hashed_denials (set.now ∷ [])) }
{
    if !is_denying(RecordType::NSEC3, set) {
        return Ok(());
    }
    push_nsec3s(alloc, nsec3s, &set.set.records)
}

// Adds what records say as NSEC3 records.
fn push_nsec3s(
    alloc: Global,
    nsec3s: &mut Vec<Nsec3Record>,
    records: &[Record],
) -> Result<(), NoMemory>
    ensures { OnOk result (nsec3s.new.items ≡ nsec3s.old.items ++ filter_map owned_nsec3 records.now) }
{
    for found in records {
        push_nsec3(alloc, nsec3s, found)?;
    }
    Ok(())
}

// Adds what a record says, if it can be read as an NSEC3 record.
fn push_nsec3(alloc: Global, nsec3s: &mut Vec<Nsec3Record>, found: &Record) -> Result<(), NoMemory>
    ensures { OnOk result (nsec3s.new.items ≡ nsec3s.old.items ++ filter_map owned_nsec3 (found.now ∷ [])) }
{
    if let Some(nsec3) = Nsec3Record::of(alloc, found)? {
        nsec3s.push(nsec3)?;
    }
    Ok(())
}
