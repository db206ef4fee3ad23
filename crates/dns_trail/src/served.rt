//! Sets of which an entry says what was kept of the same one before the lookup (RFC 4035, 4.5).

ghost use Rattle.std.specs.Prelude.{◌≡◌, ◌&&◌, IfOk};
ghost use Rattle.std.specs.List.{list_any};
ghost use Rattle.dns_rules.specs.CacheKeys.{key_of};
ghost use Rattle.dns_rules.specs.CacheEntries.{live};
ghost use Rattle.dns_rules.specs.Derivation.{has_mark_of, is_empty, is_served_by};
ghost use Rattle.dns_rules.specs.Serving.{judged_as};
ghost use Rattle.dns_model.specs.SoundAnswers.{PlacedSet};
ghost use Rattle.dns_evidence.specs.Finding.{passes_at};
ghost use Rattle.dns_trail.specs.Entries.{serves_at as serves_in};
ghost use Rattle.dns_trust.specs.Judge.{judge_of};

use crate::step_context::StepContext;
use dns_cache::{CacheKey, Entry};
use dns_chain_check::{mark_of, sig_of, still_holds};
use dns_evidence::{JudgedSet, PlacedSet, Verifier};
use dns_record::NoMemory;

/// The entry asks nothing, and says what one that was kept does and that may serve the set.
pub(crate) fn is_served<V: Verifier>(
    context: &StepContext<'_, '_, V>,
    placed: &PlacedSet,
    entry: &JudgedSet,
) -> Result<bool, NoMemory>
    ensures { IfOk result (λ b. b ≡ (is_empty entry.now.asked
        && list_any (is_served_by (judge_of V.answers context.now.judge.now) context.now.query.now placed.now entry.now)
        (live context.now.judge.now.moment context.now.cached.now))) }
{
    if !entry.asked.is_empty() {
        return Ok(false);
    }
    let key = CacheKey::of(context.query, &placed.set)?;
    let mut left = context.cached.places_with(&key);
    'kept: while let Some((place, more)) = left.split_first() {
        if serves_at(context, &key, placed, entry, *place)? {
            return Ok(true);
        }
        left = more;
    }
    Ok(false)
}

// There is something kept at a place, and it serves the set with this key.
fn serves_at<V: Verifier>(
    context: &StepContext<'_, '_, V>,
    key: &CacheKey,
    placed: &PlacedSet,
    entry: &JudgedSet,
    place: usize,
) -> Result<bool, NoMemory>
    requires key { key.now ≡ key_of context.now.query.now placed.now.set }
    ensures { IfOk result (λ b. b ≡ passes_at (serves_in context.now.judge.now.moment (judge_of V.answers context.now.judge.now)
        context.now.query.now placed.now entry.now) context.now.cached.now place) }
{
    match context.cached.as_slice().get(place) {
        Some(kept) => serves(context, key, placed, entry, kept),
        None => Ok(false),
    }
}

// What was kept isn't up, says what the entry does, and may serve the set with this key.
#[tactic(auto, using(crate::proofs::ServedLemmas::is_up, crate::proofs::ServedLemmas::of_another_key))]
fn serves<V: Verifier>(
    context: &StepContext<'_, '_, V>,
    key: &CacheKey,
    placed: &PlacedSet,
    entry: &JudgedSet,
    kept: &Entry,
) -> Result<bool, NoMemory>
    requires key { key.now ≡ key_of context.now.query.now placed.now.set }
    ensures { IfOk result (λ b. b ≡ serves_in context.now.judge.now.moment (judge_of V.answers context.now.judge.now)
        context.now.query.now placed.now entry.now kept.now) }
{
    if kept.expires <= context.judge.moment {
        return Ok(false);
    }
    if *key != kept.key {
        return Ok(false);
    }
    if !says(kept, entry) {
        return Ok(false);
    }
    still_holds(context.alloc, context.judge, placed, kept)
}

// What was kept has the mark and the signature of the entry.
fn says(kept: &Entry, entry: &JudgedSet) -> bool
    ensures { (p : PlacedSet) → result ≡ has_mark_of (judged_as p kept.now.found) entry.now }
{
    mark_of(&kept.result) == entry.mark && sig_of(&kept.result) == entry.sig
}
