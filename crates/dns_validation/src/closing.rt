//! A step of which all is judged ends.

ghost use Rattle.std.specs.Prelude.{◌≡◌, OnOk};
ghost use Rattle.dns_flow.specs.Phases.{Answer};
ghost use Rattle.dns_outcome.specs.Outcome.{outcome_value};
ghost use Rattle.dns_trust.specs.Judge.{judge_of};
ghost use Rattle.dns_trust.specs.Verdicts.{listed};
ghost use Rattle.dns_validation.specs.Terms.{terms_of};
ghost use Rattle.dns_validation.specs.Machine.{answered_last, step_ended, step_of, with_step};
ghost use Rattle.dns_validation.specs.Steps.{given_sets};

use crate::answers::{JudgedReply, answer_of};
use crate::context::Context;
use crate::keeping::keep;
use crate::open_step::StepSoFar;
use crate::state::{State, add_step, end_with, none_open};
use crate::steps::{StepEnd, ended, ending_of};
use dns_evidence::{ChainedSet, Verifier};
use dns_flow::Got;
use dns_model::AskRef;
use dns_outcome::Outcome;
use dns_record::NoMemory;
use std::mem;

/// A step ends by what its judged sets come to: the last open one makes the answer, and another answers the step beneath it.
pub(crate) fn end_step<V: Verifier>(
    context: &Context<'_, V>,
    state: &mut State,
    so_far: StepSoFar,
    excuse: Vec<AskRef>,
    outcome: Outcome,
) -> Result<(), NoMemory>
    ensures { OnOk result (state.new ≡ step_ended (terms_of V.answers context.now) so_far excuse.items
        (outcome_value outcome) state.old) }
{
    keep(context, state, &so_far)?;
    if none_open(state) {
        end_last(context, state, so_far, excuse, outcome)
    } else {
        end_nested(context, state, so_far, excuse, outcome)
    }
}

// A nested step ends.
fn end_nested<V: Verifier>(
    context: &Context<'_, V>,
    state: &mut State,
    so_far: StepSoFar,
    excuse: Vec<AskRef>,
    outcome: Outcome,
) -> Result<(), NoMemory>
    ensures { OnOk result (state.new ≡ with_step (judge_of V.answers context.now.judge)
        (step_of so_far excuse.items (outcome_value outcome))
        (Answer (given_sets (outcome_value outcome) so_far.sets)) state.old) }
{
    let StepSoFar {
        query,
        depth,
        received,
        left: _,
        sets,
        entries,
        causes: _,
    } = so_far;
    let end = StepEnd {
        reply: received.into_reply(),
        ending: ending_of(outcome),
    };
    let step = ended(query, depth, end, entries, excuse);
    add_step(context, state, step, Got::Answer(given(outcome, sets)))
}

// The judged sets of a step whose answer is given.
fn given(outcome: Outcome, sets: Vec<ChainedSet>) -> Option<Vec<ChainedSet>>
    ensures { listed result ≡ given_sets (outcome_value outcome) sets.items }
{
    match outcome {
        Outcome::Given(_) => Some(sets),
        Outcome::NeedsZone | Outcome::Denied(_) => None,
    }
}

// The step for the query ends, and with it the validation.
fn end_last<V: Verifier>(
    context: &Context<'_, V>,
    state: &mut State,
    so_far: StepSoFar,
    excuse: Vec<AskRef>,
    outcome: Outcome,
) -> Result<(), NoMemory>
    ensures { OnOk result (state.new ≡ answered_last context.now.judge.moment so_far excuse.items
        (outcome_value outcome) state.old) }
{
    let steps = mem::replace(&mut state.closed, Vec::new(context.alloc));
    let StepSoFar {
        query,
        depth: _,
        received,
        left: _,
        sets,
        entries,
        causes: _,
    } = so_far;
    let reply = JudgedReply {
        query,
        received,
        steps,
        sets,
        entries,
        excuse,
    };
    let answer = answer_of(context.alloc, context.judge.moment, reply, outcome)?;
    end_with(state, answer);
    Ok(())
}
