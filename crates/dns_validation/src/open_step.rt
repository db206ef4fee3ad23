//! A step that is open: its sets are judged one after another, and then its ending is found.

ghost use Rattle.std.specs.Prelude.{◌≡◌, IfOk, OnOk, drop};
ghost use Rattle.dns_model.specs.SoundAnswers.{told_by};
ghost use Rattle.dns_flow.specs.Phases.{after as after_of};
ghost use Rattle.dns_flow.specs.Values.{got_value, phase_value};
ghost use Rattle.dns_trust.specs.Judge.{judge_of};
ghost use Rattle.dns_validation.specs.Terms.{terms_of};
ghost use Rattle.std.specs.Option.{option_map};
ghost use Rattle.dns_cache.specs.Kinds.{kind_value};
ghost use Rattle.dns_flow.specs.Causes.{cause_after as cause_by};
ghost use Rattle.dns_flow.specs.Leads.{entry_of};
ghost use Rattle.dns_validation.specs.Machine.{first_left, ending_item as ending_item_of, set_item as set_item_of, opened, went_on, with_set, answered as answered_by};

use crate::context::{Context, limits_of};
use crate::receiving::ReceivedMessage;
use crate::state::{State, put};
use crate::steps::entry_for;
use dns_cache::ProofErrorKind;
use dns_evidence::{ChainedSet, JudgedSet, PlacedSet, Verifier};
use dns_flow::{Got, Phase, start_cause, start_ending, start_set};
use dns_model::{AskRef, MarkOrigin};
use dns_outcome::judged_part;
use dns_record::{NoMemory, Query};
use std::marker::Model;

/// What a step came to so far.
#[derive(Drop)]
pub(crate) struct StepSoFar {
    pub(crate) query: Query,
    pub(crate) depth: u16,
    pub(crate) received: ReceivedMessage,
    /// The sets that aren't judged yet, the next one last.
    pub(crate) left: Vec<PlacedSet>,
    pub(crate) sets: Vec<ChainedSet>,
    pub(crate) entries: Vec<JudgedSet>,
    /// Why each set isn't Secure; None where it was served.
    pub(crate) causes: Vec<Option<ProofErrorKind>>,
}

impl Model for StepSoFar {
    ghost use Rattle.std.specs.Prelude.{map, reverse};
    ghost use Rattle.std.specs.Option.{option_map};
    ghost use Rattle.dns_cache.specs.Kinds.{kind_value};
    ghost use Rattle.dns_validation.specs.Machine.{SoFar};

    ghost Value = { SoFar };

    ghost view = { λ s. record {
      query = s.query;
      depth = s.depth;
      message = s.received.message;
      empty = s.received.empty;
      left = reverse s.left.items;
      sets = s.sets.items;
      entries = s.entries.items;
      causes = map (option_map kind_value) s.causes.items;
    } };
}

/// A step, and how far its next set has come, or its ending.
#[derive(Drop)]
pub(crate) struct OpenStep {
    /// In a box, since each turn moves the step.
    pub(crate) so_far: Box<StepSoFar>,
    /// What the set, or the ending, asked.
    pub(crate) asked: Vec<AskRef>,
    pub(crate) phase: Phase,
    /// Why the set isn't Secure, so far; None for an ending.
    pub(crate) cause: Option<ProofErrorKind>,
}

/// A set whose turn has come: what was kept of it is sought.
#[derive(Drop)]
pub(crate) struct Seeking {
    pub(crate) so_far: Box<StepSoFar>,
    pub(crate) placed: PlacedSet,
}

impl Model for Seeking {
    ghost use Rattle.dns_validation.specs.Machine.{SeekingValue};

    ghost Value = { SeekingValue };

    ghost view = { λ s. record { so_far = s.so_far.value; placed = s.placed } };
}

impl Model for OpenStep {
    ghost use Rattle.std.specs.Option.{option_map};
    ghost use Rattle.dns_flow.specs.Values.{phase_value};
    ghost use Rattle.dns_cache.specs.Kinds.{kind_value};
    ghost use Rattle.dns_validation.specs.Machine.{OpenValue};

    ghost Value = { OpenValue };

    ghost view = { λ s. record { so_far = s.so_far.value; asked = s.asked.items; phase = phase_value s.phase; cause = option_map kind_value s.cause } };
}

/// A step opens.
pub(crate) fn open_step<V: Verifier>(
    context: &Context<'_, V>,
    state: &mut State,
    query: Query,
    depth: u16,
    received: ReceivedMessage,
) -> Result<(), NoMemory>
    ensures { OnOk result (state.new ≡ opened (terms_of V.answers context.now) query depth received.message
        received.empty state.old) }
{
    let alloc = context.alloc;
    let mut left = judged_part(alloc, depth, &received.message)?;
    left.reverse();
    let so_far = StepSoFar {
        query,
        depth,
        received,
        left,
        sets: Vec::new(alloc),
        entries: Vec::new(alloc),
        causes: Vec::new(alloc),
    };
    let so_far = Box::new(alloc, so_far)?;
    go_on(context, state, so_far)
}

/// The next set of a step waits for what was kept of it, or its ending begins.
pub(crate) fn go_on<V: Verifier>(
    context: &Context<'_, V>,
    state: &mut State,
    so_far: Box<StepSoFar>,
) -> Result<(), NoMemory>
    ensures { OnOk result (state.new ≡ went_on (terms_of V.answers context.now) so_far.value state.old) }
{
    let mut so_far = so_far;
    match next_set(&mut so_far) {
        Some(placed) => {
            state.seeking = Some(Seeking { so_far, placed });
            Ok(())
        }
        None => {
            let step = ending_item(context, so_far)?;
            put(state, step)
        }
    }
}

// The next set that isn't judged.
fn next_set(so_far: &mut StepSoFar) -> Option<PlacedSet>
    ensures next { result ≡ first_left so_far.old.left }
    ensures left { so_far.new ≡ record so_far.old { left = drop 1 so_far.old.left } }
{
    so_far.left.pop()
}

// The ending of a step begins.
fn ending_item<V: Verifier>(
    context: &Context<'_, V>,
    so_far: Box<StepSoFar>,
) -> Result<OpenStep, NoMemory>
    ensures { IfOk result (λ s. s ≡ ending_item_of (terms_of V.answers context.now) so_far.value) }
{
    let phase = start_ending(
        context.alloc,
        &limits_of(context),
        &so_far.query,
        &so_far.received.message,
        &so_far.sets,
    )?;
    Ok(OpenStep {
        so_far,
        asked: Vec::new(context.alloc),
        phase,
        cause: None,
    })
}

/// A set of a step begins by the rules.
pub(crate) fn set_item<V: Verifier>(
    context: &Context<'_, V>,
    so_far: Box<StepSoFar>,
    placed: PlacedSet,
) -> Result<OpenStep, NoMemory>
    ensures { IfOk result (λ s. s ≡ set_item_of (terms_of V.answers context.now) so_far.value placed) }
{
    let cause = start_cause(&placed.set)?;
    let phase = start_set(
        context.alloc,
        &context.judge,
        &so_far.query,
        &so_far.received.message,
        placed,
    )?;
    Ok(OpenStep {
        so_far,
        asked: Vec::new(context.alloc),
        phase,
        cause: Some(cause),
    })
}

/// The set of a step is judged.
pub(crate) fn set_ended<V: Verifier>(
    context: &Context<'_, V>,
    state: &mut State,
    so_far: Box<StepSoFar>,
    asked: Vec<AskRef>,
    cause: Option<ProofErrorKind>,
    set: ChainedSet,
) -> Result<(), NoMemory>
    ensures { OnOk result (state.new ≡ went_on (terms_of V.answers context.now)
        (with_set so_far.value set (entry_of set.judged asked.items) (option_map kind_value cause)) state.old) }
{
    let entry = entry_for(&set.judged, MarkOrigin::Table, asked)?;
    go_on_with(context, state, so_far, set, entry, cause)
}

/// A set of a step is judged, by this entry and for this cause, and the step goes on.
pub(crate) fn go_on_with<V: Verifier>(
    context: &Context<'_, V>,
    state: &mut State,
    so_far: Box<StepSoFar>,
    set: ChainedSet,
    entry: JudgedSet,
    cause: Option<ProofErrorKind>,
) -> Result<(), NoMemory>
    ensures { OnOk result (state.new ≡ went_on (terms_of V.answers context.now)
        (with_set so_far.value set entry (option_map kind_value cause)) state.old) }
{
    let mut so_far = so_far;
    add_set(&mut so_far, set, entry, cause)?;
    go_on(context, state, so_far)
}

// Adds a judged set, its entry and its cause.
fn add_set(
    so_far: &mut StepSoFar,
    set: ChainedSet,
    entry: JudgedSet,
    cause: Option<ProofErrorKind>,
) -> Result<(), NoMemory>
    ensures { OnOk result (so_far.new ≡ with_set so_far.old set entry (option_map kind_value cause)) }
{
    so_far.sets.push(set)?;
    so_far.entries.push(entry)?;
    so_far.causes.push(cause)?;
    Ok(())
}

/// The ask of a step got an answer.
pub(crate) fn answered<V: Verifier>(
    context: &Context<'_, V>,
    step: OpenStep,
    ask: AskRef,
    got: Got,
) -> Result<OpenStep, NoMemory>
    ensures { IfOk result (λ s. s ≡ answered_by (judge_of V.answers context.now.judge) ask (got_value got) step) }
{
    let mut step = step;
    step.asked.push(ask)?;
    let OpenStep {
        so_far,
        asked,
        phase,
        cause,
    } = step;
    let (phase, cause) = after_ask(context, &so_far, phase, cause, got)?;
    Ok(OpenStep {
        so_far,
        asked,
        phase,
        cause,
    })
}

// The phase and the cause to which an ask leads.
fn after_ask<V: Verifier>(
    context: &Context<'_, V>,
    so_far: &StepSoFar,
    phase: Phase,
    cause: Option<ProofErrorKind>,
    got: Got,
) -> Result<(Phase, Option<ProofErrorKind>), NoMemory>
    ensures cause { IfOk result (λ p. option_map kind_value p.1 ≡ option_map (cause_by (judge_of V.answers context.now.judge)
        (phase_value phase) (got_value got)) (option_map kind_value cause)) }
    ensures phase { IfOk result (λ p. phase_value p.0 ≡ after_of (judge_of V.answers context.now.judge)
        so_far.now.query (told_by so_far.now.message) (phase_value phase) (got_value got)) }
{
    let Some(cause) = cause else {
        let phase = after_answer(context, so_far, phase, got)?;
        return Ok((phase, None));
    };
    let (phase, cause) = phase.after_with_cause(
        context.alloc,
        &context.judge,
        &so_far.query,
        &so_far.received.message,
        got,
        cause,
    )?;
    Ok((phase, Some(cause)))
}

// The phase to which an answer leads.
fn after_answer<V: Verifier>(
    context: &Context<'_, V>,
    so_far: &StepSoFar,
    phase: Phase,
    got: Got,
) -> Result<Phase, NoMemory>
    ensures { IfOk result (λ p. phase_value p ≡ after_of (judge_of V.answers context.now.judge)
        so_far.now.query (told_by so_far.now.message) (phase_value phase) (got_value got)) }
{
    phase.after(
        context.alloc,
        &context.judge,
        &so_far.query,
        &so_far.received.message,
        got,
    )
}
