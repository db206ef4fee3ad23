//! Which sets deny existence, and who made them (RFC 4035, 5.4).
ghost use Rattle.std.specs.Prelude.{◌≡◌, not, ◌||◌};
ghost use Rattle.std.specs.List.{list_any, list_all, find};
ghost use Rattle.std.specs.Option.{option_copied};
ghost use Rattle.dns_rules.specs.ChainedSets.{bare};
ghost use Rattle.dns_rules.specs.Denying.{is_denying_as, denying_as};
ghost use Rattle.dns_rules.specs.Outcome.{signer_of, is_made_by as is_made_by_zone, one_signer as one_signer_of};

use dns_evidence::{ChainedSet, MarkedSet, decider};
use dns_model::{Proof, Section};
use dns_rdata::Rrsig;
use dns_record::{NameRef, RecordType};

/// Whether a set of this type denies existence: one of the authority section that is Secure.
pub fn has_denying(record_type: RecordType, sets: &[ChainedSet]) -> bool
    ensures { result ≡ list_any (λ c. is_denying_as record_type.0 c.judged) sets.now }
{
    for set in sets {
        if is_denying(record_type, &set.judged) {
            return true;
        }
    }
    false
}

// Whether a set is of this type and of the authority section, and Secure.
pub(crate) fn is_denying(record_type: RecordType, set: &MarkedSet) -> bool
    ensures { result ≡ is_denying_as record_type.0 set.now }
{
    set.section == Section::Authority
        && set.mark == Proof::Secure
        && set.set.record_type == record_type
}

/// The zone that made all sets of this type that deny existence; None where there is none, or several zones made them.
#[tactic(auto, using(crate::proofs::DenyingLemmas::one_signer_is))]
pub fn one_signer(record_type: RecordType, sets: &[ChainedSet]) -> Option<NameRef<'_>>
    ensures { result ≡ one_signer_of (denying_as record_type.0 (bare sets.now)) }
{
    let zone = signer(&first_denying(record_type, sets)?.judged)?;
    if are_made_by(record_type, &zone, sets) {
        Some(zone)
    } else {
        None
    }
}

// The first set of a type that denies existence.
fn first_denying<'a>(record_type: RecordType, sets: &'a [ChainedSet]) -> Option<&'a ChainedSet>
    ensures { option_copied result ≡ find (λ c. is_denying_as record_type.0 c.judged) sets.now }
{
    for set in sets {
        if is_denying(record_type, &set.judged) {
            return Some(set);
        }
    }
    None
}

// Whether a zone made all sets of a type that deny existence.
fn are_made_by(record_type: RecordType, zone: &NameRef<'_>, sets: &[ChainedSet]) -> bool
    ensures { result ≡ list_all
        (λ c. not (is_denying_as record_type.0 c.judged) || is_made_by_zone zone.now c.judged) sets.now }
{
    for set in sets {
        if is_denying(record_type, &set.judged) && !is_made_by(zone, &set.judged) {
            return false;
        }
    }
    true
}

// Whether a zone made the signature that decided.
fn is_made_by(zone: &NameRef<'_>, set: &MarkedSet) -> bool
    ensures { result ≡ is_made_by_zone zone.now set.now }
{
    match signer(set) {
        Some(signer) => zone.eq_name(&signer),
        None => false,
    }
}

// The zone that made the signature that decided.
fn signer(set: &MarkedSet) -> Option<NameRef<'_>>
    ensures { result ≡ signer_of set.now }
{
    let sig = Rrsig::of(decider(set)?)?;
    Some(sig.signer)
}
