//! What the NSEC3 sets of a message show of a delegation (RFC 5155, 8.9).

ghost use Rattle.std.specs.Prelude.{◌≡◌, [], ◌∷◌, ◌++◌, map, IfOk, OnOk};
ghost use Rattle.std.specs.List.{list_all};
ghost use Rattle.dns_model.specs.declared.section.Section.TheVariants.{Authority};
ghost use Rattle.dns_model.specs.SoundAnswers.{is_secure};
ghost use Rattle.dns_rules.specs.ChainedSets.{bare};
ghost use Rattle.dns_marks.specs.ZoneVerdicts.{are_secure as are_secure_records, hashes_show_no_ds as shown_by_hashes, marked_set, marked_sets, of_class as of_class_in};

use dns_denial::verify_nsec3_insecure_delegation;
use dns_denying::nsec3_denials;
use dns_evidence::{ChainedSet, MarkedSet};
use dns_model::{Proof, Section};
use dns_outcome::sets_in;
use dns_record::{DNSClass, Name, NoMemory, Record, RecordSet};
use std::alloc::Global;

/// The Secure NSEC3 sets of a class show that a zone's delegation has no DS, or that an unsigned zone may be there.
pub(crate) fn hashes_show_no_ds(
    alloc: Global,
    zone: &Name,
    class: DNSClass,
    authorities: &[Record],
) -> Result<bool, NoMemory>
    ensures { IfOk result (λ b. b ≡ shown_by_hashes class.0 zone.now authorities.now) }
{
    let own = of_class(alloc, class, authorities)?;
    let sets = secure_sets(alloc, &own)?;
    let nsec3s = nsec3_denials(alloc, &sets)?;
    Ok(verify_nsec3_insecure_delegation(zone, &nsec3s))
}

// The records of a class.
fn of_class(alloc: Global, class: DNSClass, records: &[Record]) -> Result<Vec<Record>, NoMemory>
    ensures { IfOk result (λ v. v.items ≡ of_class_in class.0 records.now) }
{
    let mut own = Vec::new(alloc);
    for found in records {
        push_own(&mut own, class, found)?;
    }
    Ok(own)
}

// Adds a record, if it is of the class.
fn push_own(own: &mut Vec<Record>, class: DNSClass, found: &Record) -> Result<(), NoMemory>
    ensures { OnOk result (own.new.items ≡ own.old.items ++ of_class_in class.0 (found.now ∷ [])) }
{
    if class == found.dns_class {
        own.push(found.try_clone()?)?;
    }
    Ok(())
}

// The sets of an authority section, each Secure where all its records are.
#[tactic(auto, using(crate::proofs::HashedLemmas::sets_more))]
fn secure_sets(alloc: Global, authorities: &[Record]) -> Result<Vec<ChainedSet>, NoMemory>
    ensures { IfOk result (λ v. bare v.items ≡ marked_sets Authority authorities.now) }
{
    let mut sets = Vec::new(alloc);
    for set in sets_in(alloc, authorities)? {
        sets.push(marked(alloc, set))?;
    }
    Ok(sets)
}

// A set, Secure where all its records are, without a chain.
fn marked(alloc: Global, set: RecordSet) -> ChainedSet
    ensures { result.judged ≡ marked_set Authority set }
{
    let mark = if are_secure(&set.records) {
        Proof::Secure
    } else {
        Proof::Bogus
    };
    let judged = MarkedSet {
        section: Section::Authority,
        set,
        mark,
        sig: None,
    };
    ChainedSet {
        judged,
        chain: Vec::new(alloc),
    }
}

// Each record is Secure.
fn are_secure(records: &[Record]) -> bool
    ensures { result ≡ are_secure_records records.now }
{
    for next in records {
        if next.proof != Proof::Secure {
            return false;
        }
    }
    true
}
