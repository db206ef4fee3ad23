//! What a judged step comes to: its answer, a denial, or the search for its zone (RFC 4035, 3.1.3, 4.3 and 5.4).
ghost use Rattle.std.specs.Prelude.{◌≡◌, ◌==◌, ◌&&◌, not, IfOk};
ghost use Rattle.std.specs.List.{find};
ghost use Rattle.std.specs.Option.{option_copied};
ghost use Rattle.dns_model.specs.SoundAnswers.{told_by};
ghost use Rattle.dns_rules.specs.ChainedSets.{bare};
ghost use Rattle.dns_rules.specs.Delegations.{ZoneVerdict, is_insecure};
ghost use Rattle.dns_rules.specs.Unsigned.{unsigned_mark};
ghost use Rattle.dns_rules.specs.Outcome.{outcome_of as told_outcome, outcome_by_zone as told_by_zone, is_insecure_authority as is_told_insecure, insecure_answer as told_insecure, foreign_record as foreign_in};
ghost use Rattle.dns_outcome.specs.Outcome.{outcome_value};

use crate::answering::{has_answer, has_expanded_answer, has_wildcard_signature};
use crate::denying::{outcome_by_denials, outcome_by_hashed_denials};
use crate::insecure_authority::is_insecure_authority;
use dns_denying::has_denying;
use dns_evidence::{ChainedSet, Limits};
use dns_message::Message;
use dns_model::{Denial, Proof};
use dns_record::{DNSClass, NoMemory, Query, Record, RecordType};
use std::alloc::Global;

/// How a judged step ends.
#[derive(Clone, Copy, Debug, PartialEq, Eq)]
pub enum Outcome {
    /// Its response is an answer.
    Given(Denial),
    /// The zone of its query decides, and has to be searched.
    NeedsZone,
    /// Its response is refused, with this proof.
    Denied(Proof),
}

/// How a step ends whose sets are judged: the first case that holds decides (RFC 4035, 5.3.4 and 5.4; RFC 5155, 8). NSEC3 records
/// are judged up to the soft limit of iterations.
#[tactic(auto, using(crate::proofs::Joining::any_map), unfolding(dns_rules::specs::Outcome::outcome_of))]
pub fn outcome_of(
    alloc: Global,
    limits: &Limits,
    query: &Query,
    message: &Message,
    sets: &[ChainedSet],
) -> Result<Outcome, NoMemory>
    ensures { IfOk result (λ o. outcome_value o ≡ told_outcome limits.now query.now (told_by message.now) (bare sets.now)) }
{
    let from_wildcard = has_wildcard_signature(&message.answers);
    if is_left_unsigned(alloc, query, message, sets, from_wildcard)? {
        return Ok(insecure_answer(query, message));
    }
    let by_hash = has_denying(RecordType::NSEC3, sets);
    // a zone has NSEC records or NSEC3 records, never both (RFC 5155, 7.1 and 10.4)
    if has_denying(RecordType::NSEC, sets) {
        if by_hash {
            return Ok(Outcome::Denied(Proof::Bogus));
        }
        // what is denied has to follow from the denials of one zone (RFC 4035, 5.4)
        return outcome_by_denials(alloc, query, message, sets);
    }
    // and so has what is denied by hashes (RFC 5155, 8)
    if by_hash {
        return outcome_by_hashed_denials(alloc, limits, query, message, sets);
    }
    // an expansion without a denial of closer names (RFC 4035, 5.3.4)
    if has_expanded_answer(sets) {
        return Ok(Outcome::Denied(Proof::Bogus));
    }
    if has_answer(query, &message.answers) && !from_wildcard {
        return Ok(Outcome::Given(Denial::None));
    }
    // a signed zone would have denied (RFC 4035, 3.1.3)
    Ok(Outcome::NeedsZone)
}

// Whether the zone above the name is Insecure, and nothing is said to come from a wildcard (RFC 4035, 4.3).
fn is_left_unsigned(
    alloc: Global,
    query: &Query,
    message: &Message,
    sets: &[ChainedSet],
    from_wildcard: bool,
) -> Result<bool, NoMemory>
    ensures { IfOk result (λ b. b
        ≡ (is_told_insecure query.now (told_by message.now) (bare sets.now) && not from_wildcard)) }
{
    if from_wildcard {
        return Ok(false);
    }
    is_insecure_authority(alloc, query, message, sets)
}

/// How a step ends whose query's zone was searched, by the mark that the zone leaves to what is unsigned: where it is Insecure,
/// the response stands as it is (RFC 4035, 4.3 and 5.2).
#[tactic(auto, using(crate::proofs::OutcomeLemmas::ends_insecure, crate::proofs::OutcomeLemmas::ends_denied))]
pub fn outcome_by_zone(query: &Query, message: &Message, mark: Proof) -> Outcome
    ensures { (zone : ZoneVerdict) → is_insecure mark ≡ is_insecure (unsigned_mark zone).mark
        → outcome_value result ≡ told_by_zone query.now (told_by message.now) zone }
{
    if mark == Proof::Insecure {
        insecure_answer(query, message)
    } else {
        Outcome::Denied(Proof::Bogus)
    }
}

// An answer of which no more than Insecure can be expected: it stands, or nothing is there.
fn insecure_answer(query: &Query, message: &Message) -> Outcome
    ensures { outcome_value result ≡ told_insecure query.now (told_by message.now) }
{
    if has_answer(query, &message.answers) {
        Outcome::Given(Denial::None)
    } else {
        Outcome::Given(Denial::Absent(Proof::Insecure))
    }
}

/// The first record, in the order of the sections, whose class isn't the query's (RFC 1035, 3.2.4).
#[tactic(auto, using(crate::proofs::OutcomeLemmas::found_before, crate::proofs::OutcomeLemmas::found_behind))]
pub fn foreign_record<'a>(query: &Query, message: &'a Message) -> Option<&'a Record>
    ensures { option_copied result ≡ foreign_in query.now (told_by message.now) }
{
    let class = query.query_class;
    if let Some(found) = first_foreign(class, &message.answers) {
        return Some(found);
    }
    if let Some(found) = first_foreign(class, &message.authorities) {
        return Some(found);
    }
    first_foreign(class, &message.additionals)
}

// The first record whose class is another.
fn first_foreign(class: DNSClass, records: &[Record]) -> Option<&Record>
    ensures { option_copied result ≡ find (λ r. not (r.class == class.0)) records.now }
{
    for found in records {
        if found.dns_class != class {
            return Some(found);
        }
    }
    None
}
