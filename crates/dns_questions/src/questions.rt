//! The questions of a trail.
ghost use Rattle.std.specs.Prelude.{◌≡◌, IfOk, OnOk, []};
ghost use Rattle.std.specs.List.{flat_map};
ghost use Rattle.dns_evidence.specs.Listing.{answers_of};
ghost use Rattle.dns_model.specs.Chains.{judge};
ghost use Rattle.dns_questions.specs.Gathering.{judge_by, steps_of, then_once};
ghost use Rattle.dns_questions.specs.Questions.{of_sets, of_step, questions};

use crate::keys::Context;
use crate::question_list::QuestionList;
use crate::sets::add_set;
use dns_evidence::{Asked, JudgedSet, Listed, PlacedSet, Reply, Trail};
use dns_outcome::{judged_part, told_message};
use dns_record::{NoMemory, Query};
use dns_session::AcceptedSignature;
use std::alloc::Global;

// Adds the questions of sets with their entries, as long as there are both.
fn add_sets(
    into: &mut QuestionList,
    context: &Context<'_>,
    query: &Query,
    placed: &[PlacedSet],
    entries: &[JudgedSet],
) -> Result<(), NoMemory>
    ensures { OnOk result (into.new
        ≡ then_once into.old (of_sets (judge_by context.now) (steps_of context.now) query.now placed.now entries.now)) }
{
    let mut left = placed;
    let mut right = entries;
    'sets: while let Some((next, more)) = left.split_first() {
        let Some((entry, others)) = right.split_first() else {
            return Ok(());
        };
        add_set(into, context, query, &next.set, &entry.asked)?;
        left = more;
        right = others;
    }
    Ok(())
}

// Adds the questions of a step: of each of its sets that has an entry, in order.
#[tactic(auto, using(crate::proofs::OnceLemmas::then_none))]
fn add_step(into: &mut QuestionList, context: &Context<'_>, step: &Asked) -> Result<(), NoMemory>
    ensures { OnOk result (into.new ≡ then_once into.old (of_step (judge_by context.now) (steps_of context.now) step.now)) }
{
    let Reply::Told(told) = &step.reply else {
        return Ok(());
    };
    let message = told_message(context.alloc, told)?;
    let placed = judged_part(context.alloc, step.depth, &message)?;
    add_sets(into, context, &step.query, &placed, &step.sets)
}

// Adds the questions of all steps, in order.
fn add_steps(into: &mut QuestionList, context: &Context<'_>) -> Result<(), NoMemory>
    ensures { OnOk result (into.new
        ≡ then_once into.old (flat_map (of_step (judge_by context.now) (steps_of context.now)) (steps_of context.now))) }
{
    let mut left = context.steps;
    'steps: while let Some((step, more)) = left.split_first() {
        add_step(into, context, step)?;
        left = more;
    }
    Ok(())
}

/// The questions that a trail could put to a verifier at a moment, in seconds since 1970: each signature that was tried, with each key
/// by which it could be good. They stand in the order of the trail, each once. Of the verifier only which algorithms it supports
/// counts. It fails only where memory runs out.
pub fn trail_questions(
    alloc: Global,
    verifier: &Listed,
    now: u64,
    trail: &Trail,
) -> Result<Vec<AcceptedSignature>, NoMemory>
    ensures { IfOk result (λ v. v.items ≡ questions (judge (answers_of verifier.now) [] now) trail.now) }
{
    let context = Context {
        alloc,
        verifier,
        moment: now,
        steps: &trail.steps,
    };
    let mut into = QuestionList::new(alloc);
    add_steps(&mut into, &context)?;
    Ok(into.into_all())
}
