//! What the sets of a step are judged by: the steps before it, and what these came to.

ghost use Rattle.std.specs.Prelude.{◌≡◌, ◌+◌, Some, slice_get};
ghost use Rattle.std.specs.Option.{option_map};
ghost use Rattle.dns_rules.specs.ChainedSets.{bare};
ghost use Rattle.dns_rules.specs.Derivation.{finished_answer as finished_for, is_ask as is_ask_in, is_plain_ask as is_plain_ask_in};
ghost use Rattle.dns_rules.specs.DerivationParts.{is_judged_ask, is_plain_step as is_plain_in};
ghost use Rattle.dns_trust.specs.Verdicts.{listed};

use crate::kept::KeptEntries;
use crate::places::PlacesByKey;
use dns_evidence::{Asked, ChainedSet, Limits};
use dns_model::AskRef;
use dns_record::Query;
use dns_trust::Judge;
use std::alloc::Global;
use std::marker::Model;

/// By what the sets of a step are judged.
#[derive(Drop)]
pub(crate) struct StepContext<'a, 'j, V> {
    pub(crate) alloc: Global,
    /// Verifier, trust anchors and moment.
    pub(crate) judge: &'a Judge<'j, V>,
    /// How far the lookup went.
    pub(crate) limits: Limits,
    /// What was kept before it.
    pub(crate) cached: &'a KeptEntries<'a>,
    /// The steps before it.
    pub(crate) earlier: Earlier<'a>,
    /// The question of the step.
    pub(crate) query: &'a Query,
    /// How deep it was asked.
    pub(crate) depth: u16,
    /// Some entry of the trail repeats a set, so that sets have to be found.
    pub(crate) repeats: bool,
}

/// The steps before one, of which is known what they came to.
#[derive(Drop)]
pub(crate) struct Earlier<'a> {
    /// These steps, in order.
    pub(crate) steps: &'a [Asked],
    /// What these came to, by their numbers.
    pub(crate) ended: &'a [Ended],
    /// The answer of an ask that has none.
    pub(crate) missing: &'a Option<Vec<ChainedSet>>,
}

impl<'a> Model for Earlier<'a> {
    ghost use Rattle.std.specs.Prelude.{List};
    ghost use Rattle.dns_model.specs.Trails.{AskedValue};
    ghost use Rattle.dns_trust.specs.Verdicts.{listed};
    ghost use Rattle.dns_trail.specs.Ended.{AreKnown};

    ghost Value = { List AskedValue };

    ghost view = { λ e. e.steps.now };

    ghost invariant = { λ e. AreKnown e.steps.now e.ended.now (listed e.missing.now) };
}

/// The judged sets of a step that has ended. They have no chains: no table looks at these.
#[derive(Drop)]
pub(crate) struct Ended {
    /// The sets, where the step answered.
    pub(crate) answer: Option<Vec<ChainedSet>>,
    /// The sets, where it didn't.
    pub(crate) others: Vec<ChainedSet>,
    /// Where they stand, if some entry of the trail repeats a set.
    pub(crate) places: Option<PlacesByKey>,
}

impl Model for Ended {
    ghost use Rattle.dns_trust.specs.Verdicts.{listed};
    ghost use Rattle.dns_trail.specs.Ended.{EndedValue, ended_value};
    ghost use Rattle.dns_trail.specs.Indexed.{MayBeIndexed};

    ghost Value = { EndedValue };

    ghost view = { λ e. ended_value (listed e.answer) e.others.items };

    ghost invariant = { λ e. MayBeIndexed e.places (ended_value (listed e.answer) e.others.items).sets };
}

impl Ended {
    /// The sets of its answer, if it has one.
    pub(crate) fn answer(&self) -> &Option<Vec<ChainedSet>>
        ensures { option_map bare (listed result.now) ≡ self.now.answer }
    {
        &self.answer
    }

    /// Its judged sets, whether it answered or not.
    pub(crate) fn sets(&self) -> &[ChainedSet]
        ensures { bare result.now ≡ self.now.sets }
    {
        match &self.answer {
            Some(sets) => sets.as_slice(),
            None => self.others.as_slice(),
        }
    }
}

/// The ask stands for a judged ask for this question, one deeper than the step.
pub(crate) fn is_ask<V>(context: &StepContext<'_, '_, V>, query: &Query, ask: AskRef) -> bool
    ensures { result ≡ is_ask_in context.now.limits.depth context.now.earlier (context.now.depth + 1) query.now ask }
{
    let may_ask = context.depth < context.limits.depth;
    match ask {
        AskRef::Step(number) => { may_ask && is_judged_step(context, query, number) }
        AskRef::TooDeep => !may_ask,
        AskRef::TooMany => may_ask,
    }
}

// The step is there, judges what it hears, and asks this question one deeper than the step that is judged.
fn is_judged_step<V>(context: &StepContext<'_, '_, V>, query: &Query, number: u32) -> bool
    ensures { result ≡ is_judged_ask (context.now.depth + 1) query.now (slice_get context.now.earlier number) }
{
    match context.earlier.steps.get(number as usize) {
        Some(step) => is_judged_at(u32::from(context.depth) + 1, query, step),
        None => false,
    }
}

// The step judges what it hears, and asks this question at this depth.
fn is_judged_at(depth: u32, query: &Query, step: &Asked) -> bool
    ensures { result ≡ is_judged_ask depth query.now (Some step.now) }
{
    step.judged && u32::from(step.depth) == depth && *query == step.query
}

/// The ask stands for a plain ask for this question, as deep as the step.
pub(crate) fn is_plain_ask<V>(context: &StepContext<'_, '_, V>, query: &Query, ask: AskRef) -> bool
    ensures { result ≡ is_plain_ask_in context.now.earlier context.now.depth query.now ask }
{
    match ask {
        AskRef::Step(number) => { is_plain_step(context, query, number) }
        AskRef::TooDeep => false,
        AskRef::TooMany => true,
    }
}

// The step is there, only sees what it hears, and asks this question at this depth.
fn is_plain_step<V>(context: &StepContext<'_, '_, V>, query: &Query, number: u32) -> bool
    ensures { result ≡ is_plain_in context.now.depth query.now (slice_get context.now.earlier number) }
{
    match context.earlier.steps.get(number as usize) {
        Some(step) => is_plain_at(context.depth, query, step),
        None => false,
    }
}

// The step only sees what it hears, and asks this question at this depth.
fn is_plain_at(depth: u16, query: &Query, step: &Asked) -> bool
    ensures { result ≡ is_plain_in depth query.now (Some step.now) }
{
    !step.judged && step.depth == depth && *query == step.query
}

/// The judged sets of the answer that an ask got: none where it was refused, or where its step ends otherwise.
pub(crate) fn answer_of<'a>(earlier: &Earlier<'a>, ask: AskRef) -> &'a Option<Vec<ChainedSet>>
    ensures { option_map bare (listed result.now) ≡ finished_for earlier.now ask }
{
    match ask {
        AskRef::Step(number) => match earlier.ended.get(number as usize) {
            Some(ended) => ended.answer(),
            None => earlier.missing,
        },
        AskRef::TooDeep | AskRef::TooMany => earlier.missing,
    }
}
