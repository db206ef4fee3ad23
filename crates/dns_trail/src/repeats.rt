//! Sets of which an entry says what an earlier step with the same question found of the same one.

ghost use Rattle.std.specs.Prelude.{◌≡◌, ◌&&◌, IfOk, slice_get};
ghost use Rattle.std.specs.List.{list_any};
ghost use Rattle.std.specs.Cmp.Lexicographic.{pointwise};
ghost use Rattle.dns_rules.specs.CacheKeys.{same_bytes as are_same};
ghost use Rattle.dns_rules.specs.ChainedSets.{bare};
ghost use Rattle.dns_rules.specs.Derivation.{is_empty, is_repeat as is_repeat_of};
ghost use Rattle.dns_model.specs.Records.{question_eq};
ghost use Rattle.dns_model.specs.SoundAnswers.{PlacedSet};
ghost use Rattle.dns_evidence.specs.Finding.{passes_at};
ghost use Rattle.dns_trail.specs.Entries.{has_repeats as has_repeats_in, is_repeated_by, repeats_from, step_repeats as repeats_in};

use crate::places::{SetKey, places_of};
use crate::step_context::{Ended, StepContext};
use dns_evidence::{Asked, ChainedSet, JudgedSet, MarkedSet, PlacedSet};
use dns_model::MarkOrigin;
use dns_record::{NoMemory, Query, Record, RecordSet};
use std::alloc::Global;

/// The entry asks nothing, and says what the step with a number found of an equal set for the same question.
pub(crate) fn is_repeated<V>(
    context: &StepContext<'_, '_, V>,
    placed: &PlacedSet,
    entry: &JudgedSet,
    number: u32,
) -> Result<bool, NoMemory>
    ensures { IfOk result (λ b. b ≡ (is_empty entry.now.asked
        && repeats_from context.now.query.now placed.now entry.now (slice_get context.now.earlier number))) }
{
    let Some(step) = context.earlier.steps.get(number as usize) else {
        return Ok(false);
    };
    let Some(ended) = context.earlier.ended.get(number as usize) else {
        return Ok(false);
    };
    if !entry.asked.is_empty() || !asks_same(context.query, step) {
        return Ok(false);
    }
    found_alike(context.alloc, ended, placed, entry)
}

// The step asks the same question.
fn asks_same(query: &Query, step: &Asked) -> bool
    ensures { result ≡ question_eq query.now step.now.query }
{
    *query == step.query
}

// Some judged set of a step is equal, and the entry has its mark.
fn found_alike(
    alloc: Global,
    ended: &Ended,
    placed: &PlacedSet,
    entry: &JudgedSet,
) -> Result<bool, NoMemory>
    ensures { IfOk result (λ b. b ≡ list_any (is_repeat_of placed.now entry.now) ended.now.sets) }
{
    match &ended.places {
        Some(places) => {
            let key = SetKey::of(alloc, &placed.set)?;
            let there = places_of(places, &key);
            Ok(has_repeat_at(ended.sets(), there, placed, entry))
        }
        None => Ok(has_repeat(ended.sets(), placed, entry)),
    }
}

// One of the sets at some places is equal.
fn has_repeat_at(
    sets: &[ChainedSet],
    places: &[usize],
    placed: &PlacedSet,
    entry: &JudgedSet,
) -> bool
    ensures { result ≡ list_any (passes_at (is_repeat_of placed.now entry.now) (bare sets.now)) places.now }
{
    places
        .iter()
        .any(|place| is_repeat_at(sets, *place, placed, entry))
}

// There is a set at a place, and it is equal.
fn is_repeat_at(sets: &[ChainedSet], place: usize, placed: &PlacedSet, entry: &JudgedSet) -> bool
    ensures { result ≡ passes_at (is_repeat_of placed.now entry.now) (bare sets.now) place }
{
    match sets.get(place) {
        Some(set) => is_repeat(&placed.set, entry, &set.judged),
        None => false,
    }
}

// One of the sets is equal.
fn has_repeat(sets: &[ChainedSet], placed: &PlacedSet, entry: &JudgedSet) -> bool
    ensures { result ≡ list_any (λ c. is_repeat_of placed.now entry.now c.judged) sets.now }
{
    sets.iter()
        .any(|set| is_repeat(&placed.set, entry, &set.judged))
}

// A judged set has the records and signatures of a set, and its mark is that of the entry.
fn is_repeat(set: &RecordSet, entry: &JudgedSet, judged: &MarkedSet) -> bool
    ensures { (p : PlacedSet) → p.set ≡ set.now → result ≡ is_repeat_of p entry.now judged.now }
{
    same_records(&set.records, &judged.set.records)
        && same_records(&set.rrsigs, &judged.set.rrsigs)
        && judged.mark == entry.mark
        && judged.sig == entry.sig
}

// The same records in the same order, byte for byte, but for ttls and marks.
fn same_records(mut some: &[Record], mut others: &[Record]) -> bool
    ensures { result ≡ pointwise are_same some.entry.now others.entry.now }
{
    'records: while let Some((one, more)) = some.split_first() {
        let Some((other, more_others)) = others.split_first() else {
            return false;
        };
        if !is_same_bytes(one, other) {
            return false;
        }
        some = more;
        others = more_others;
    }
    others.is_empty()
}

// One record with another, byte for byte, but for ttl and mark.
fn is_same_bytes(one: &Record, other: &Record) -> bool
    ensures { result ≡ are_same one.now other.now }
{
    one.name.wire() == other.name.wire()
        && one.record_type == other.record_type
        && one.dns_class == other.dns_class
        && one.rdata == other.rdata
}

/// Some entry of a trail says that an earlier step found its mark.
pub(crate) fn has_repeats(steps: &[Asked]) -> bool
    ensures { result ≡ has_repeats_in steps.now }
{
    steps.iter().any(step_repeats)
}

// Some entry of a step says so.
fn step_repeats(step: &Asked) -> bool
    ensures { result ≡ repeats_in step.now }
{
    step.sets.iter().any(entry_repeats)
}

// The entry says so.
fn entry_repeats(entry: &JudgedSet) -> bool
    ensures { result ≡ is_repeated_by entry.now.origin }
{
    matches!(entry.origin, MarkOrigin::Repeat(_))
}
