//! The steps of a trail, one after another: the lines of each follow from what it heard and from the steps before it.

ghost use Rattle.std.specs.Prelude.{◌≡◌, [], None, Some, IfOk};
ghost use Rattle.dns_model.specs.SoundAnswers.{told_by};
ghost use Rattle.dns_rules.specs.CacheEntries.{live};
ghost use Rattle.dns_rules.specs.Derivation.{if_answered, steps_hold as steps_follow, told_in};
ghost use Rattle.dns_rules.specs.DerivationParts.{judged_holds, step_holds_by};
ghost use Rattle.dns_rules.specs.ChainedSets.{bare};
ghost use Rattle.dns_rules.specs.Outcome.{foreign_record as foreign_in};
ghost use Rattle.dns_evidence.specs.Trail.{ending_value};
ghost use Rattle.dns_trail.specs.Ended.{ended_if, nothing_if};
ghost use Rattle.dns_trail.specs.Indexed.{MayBeIndexed};
ghost use Rattle.dns_trail.specs.StepContexts.{IsOfStep, step_context_by};
ghost use Rattle.dns_trust.specs.Judge.{judge_of};

use crate::ending::{ending_holds, is_failed, is_foreign, is_seen};
use crate::entries::judged_sets;
use crate::kept::KeptEntries;
use crate::places::{PlacesByKey, places_of_sets};
use crate::repeats::has_repeats;
use crate::step_context::{Earlier, Ended, StepContext};
use dns_evidence::{Asked, ChainedSet, Ending, Limits, Reply, Told, Verifier};
use dns_message::Message;
use dns_outcome::{foreign_record, judged_part, told_message};
use dns_record::NoMemory;
use dns_trust::Judge;
use std::alloc::Global;

/// The lines of each step follow.
pub(crate) fn steps_hold<'a, V: Verifier>(
    alloc: Global,
    judge: &'a Judge<'_, V>,
    limits: Limits,
    cached: &'a KeptEntries<'a>,
    steps: &'a [Asked],
) -> Result<bool, NoMemory>
    ensures { IfOk result (λ b. b ≡ steps_follow (judge_of V.answers judge.now) limits
        (live judge.now.moment cached.now) [] steps.now) }
{
    let repeats = has_repeats(steps);
    let mut ended = Vec::new(alloc);
    'steps: for (number, step) in steps.iter().enumerate() {
        let missing = None;
        let earlier = Earlier {
            steps: &steps[..number],
            ended: ended.as_slice(),
            missing: &missing,
        };
        let context = StepContext {
            alloc,
            judge: &*judge,
            limits,
            cached: &*cached,
            earlier,
            query: &step.query,
            depth: step.depth,
            repeats,
        };
        let Some(next) = end_step(&context, step)? else {
            return Ok(false);
        };
        ended.push(next)?;
    }
    Ok(true)
}

// What a step comes to; None where its lines don't follow.
fn end_step<V: Verifier>(
    context: &StepContext<'_, '_, V>,
    step: &Asked,
) -> Result<Option<Ended>, NoMemory>
    requires own { IsOfStep context.now step.now }
    ensures { IfOk result (λ o. o ≡ ended_if
        (step_holds_by (step_context_by V.answers context.now) step.now step.now.reply) step.now) }
{
    match &step.reply {
        Reply::Told(told) => end_told(context, step, told),
        Reply::Fault => Ok(end_bare(context.alloc, step, is_failed(&step.ending))),
    }
}

// A step that heard records.
fn end_told<V: Verifier>(
    context: &StepContext<'_, '_, V>,
    step: &Asked,
    told: &Told,
) -> Result<Option<Ended>, NoMemory>
    requires own { IsOfStep context.now step.now }
    requires told { told_in step.now.reply ≡ Some told.now.0 }
    ensures { IfOk result (λ o. o ≡ ended_if
        (step_holds_by (step_context_by V.answers context.now) step.now step.now.reply) step.now) }
{
    if !step.judged {
        return Ok(end_bare(context.alloc, step, is_seen(&step.ending)));
    }
    let message = told_message(context.alloc, told)?;
    end_judged(context, step, &message)
}

// A step nothing of which is judged, and whether its ending is the one that it may have.
fn end_bare(alloc: Global, step: &Asked, is_so: bool) -> Option<Ended>
    ensures { result ≡ nothing_if is_so step.now }
{
    if is_so && step.sets.is_empty() && step.excuse.is_empty() {
        Some(Ended {
            answer: None,
            others: Vec::new(alloc),
            places: None,
        })
    } else {
        None
    }
}

// A judged step that heard records.
fn end_judged<V: Verifier>(
    context: &StepContext<'_, '_, V>,
    step: &Asked,
    message: &Message,
) -> Result<Option<Ended>, NoMemory>
    requires own { IsOfStep context.now step.now }
    requires told { told_in step.now.reply ≡ Some (told_by message.now) }
    ensures { IfOk result (λ o. o ≡ ended_if
        (judged_holds (step_context_by V.answers context.now) step.now (told_by message.now)
        (foreign_in step.now.query (told_by message.now))) step.now) }
{
    if let Some(found) = foreign_record(context.query, message) {
        return Ok(end_bare(context.alloc, step, is_foreign(found, &step.ending)));
    }
    let placed = judged_part(context.alloc, context.depth, message)?;
    let Some(sets) = judged_sets(context, placed, &step.sets)? else {
        return Ok(None);
    };
    if !ending_holds(context, message, &sets, step)? {
        return Ok(None);
    }
    let places = places_if(context.alloc, context.repeats, &sets)?;
    Ok(Some(ended_with(context.alloc, sets, places, &step.ending)))
}

// Where judged sets stand, if they have to be found.
fn places_if(
    alloc: Global,
    repeats: bool,
    sets: &[ChainedSet],
) -> Result<Option<PlacesByKey>, NoMemory>
    ensures { IfOk result (λ p. MayBeIndexed p (bare sets.now)) }
{
    if repeats {
        Ok(Some(places_of_sets(alloc, sets)?))
    } else {
        Ok(None)
    }
}

// The judged sets of a step, which are its answer where it ends with one.
fn ended_with(
    alloc: Global,
    sets: Vec<ChainedSet>,
    places: Option<PlacesByKey>,
    ending: &Ending,
) -> Ended
    requires { MayBeIndexed places (bare sets.items) }
    ensures { result
        ≡ record { answer = if_answered (ending_value ending.now) (bare sets.items); sets = bare sets.items } }
{
    match ending {
        Ending::Answered(_) => Ended {
            answer: Some(sets),
            others: Vec::new(alloc),
            places,
        },
        _ => unanswered(sets, places),
    }
}

// The judged sets of a step that has no answer.
fn unanswered(sets: Vec<ChainedSet>, places: Option<PlacesByKey>) -> Ended
    requires { MayBeIndexed places (bare sets.items) }
    ensures { result ≡ record { answer = None; sets = bare sets.items } }
{
    Ended {
        answer: None,
        others: sets,
        places,
    }
}
