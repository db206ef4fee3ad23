//! The state of a validation, and one turn of it.

ghost use Rattle.std.specs.Prelude.{◌≡◌, ◌∷◌, false, Some, OnOk, reverse};
ghost use Rattle.dns_flow.specs.Phases.{turn as turn_of};
ghost use Rattle.dns_flow.specs.Values.{got_value};
ghost use Rattle.dns_rules.specs.Asking.{depth_limit};
ghost use Rattle.dns_handle.specs.Replies.{reply_of};
ghost use Rattle.dns_trust.specs.Judge.{judge_of};
ghost use Rattle.dns_validation.specs.Terms.{terms_of};
ghost use Rattle.dns_validation.specs.Machine.{none_open as none_open_in, give as given, with_step, nothing_got, on_top, refusal as refusal_of, asked_by, turned as turned_by, tick};
ghost use Rattle.dns_validation.specs.Runs.{moves as moves_on, Turns};

use crate::closing::end_step;
use crate::context::{Context, limit_of};
use crate::made::MadeList;
use crate::open_step::{OpenStep, Seeking, answered, set_ended};
use crate::steps::next_number;
use dns_cache::Entry;
use dns_evidence::{Asked, MOST_SENDS, Verifier};
use dns_flow::{Ask, Got, Need};
use dns_handle::{DnsResponse, NetError};
use dns_model::AskRef;
use dns_record::NoMemory;
use dns_trust::NsProbe;
use std::collections::VecDeque;
use std::marker::Model;

/// How far a validation has come.
#[derive(Drop)]
pub(crate) struct State {
    /// The steps that have ended, nested ones before their asker.
    pub(crate) closed: Vec<Asked>,
    /// The open steps, the innermost last.
    pub(crate) steps: Vec<OpenStep>,
    /// The set that waits for what was kept of it, of a step inside all of these.
    pub(crate) seeking: Option<Seeking>,
    /// The ask that waits for its reply.
    pub(crate) pending: Option<Ask>,
    /// How many replies were heard.
    pub(crate) sends: usize,
    /// What was given out to be kept.
    pub(crate) made: MadeList,
    /// What is still to be given out, the first one first.
    pub(crate) kept: VecDeque<Entry>,
    /// The answer with which it has come to its end.
    pub(crate) ended: Option<Result<DnsResponse, NetError>>,
}

impl Model for State {
    ghost use Rattle.std.specs.Prelude.{reverse};
    ghost use Rattle.std.specs.Option.{option_map};
    ghost use Rattle.dns_handle.specs.Replies.{reply_of};
    ghost use Rattle.dns_validation.specs.Machine.{StateValue};

    ghost Value = { StateValue };

    ghost view = { λ s. record {
      closed = s.closed.items;
      steps = reverse s.steps.items;
      seeking = s.seeking;
      pending = s.pending;
      sends = s.sends;
      made = s.made;
      kept = s.kept.items;
      ended = option_map reply_of s.ended;
    } };
}

/// It waits neither for a reply nor for what was kept of a set, and has an open step.
pub(crate) fn moves(state: &State) -> bool
    ensures { result ≡ moves_on state.now }
{
    state.pending.is_none() && state.seeking.is_none() && !none_open(state)
}

/// No step is open.
pub(crate) fn none_open(state: &State) -> bool
    ensures { result ≡ none_open_in state.now.steps }
{
    state.steps.is_empty()
}

/// A step ends, and answers the one that asked for it.
pub(crate) fn add_step<V: Verifier>(
    context: &Context<'_, V>,
    state: &mut State,
    step: Asked,
    got: Got,
) -> Result<(), NoMemory>
    ensures { OnOk result (state.new ≡ with_step (judge_of V.answers context.now.judge) step (got_value got) state.old) }
{
    let number = next_number(&state.closed)?;
    state.closed.push(step)?;
    give(context, &mut state.steps, AskRef::Step(number), got)
}

// The innermost open step has its answer.
fn give<V: Verifier>(
    context: &Context<'_, V>,
    steps: &mut Vec<OpenStep>,
    ask: AskRef,
    got: Got,
) -> Result<(), NoMemory>
    ensures { OnOk result (reverse steps.new.items
        ≡ given (judge_of V.answers context.now.judge) ask (got_value got) (reverse steps.old.items)) }
{
    let Some(step) = steps.pop() else {
        return Ok(());
    };
    let answered = answered(context, step, ask, got)?;
    steps.push(answered)?;
    Ok(())
}

// Why an ask is refused, if it is.
fn refusal(limit: u16, sends: usize, depth: u16, judged: bool) -> Option<AskRef>
    ensures { result ≡ refusal_of limit sends depth judged }
{
    if judged && depth >= limit {
        Some(AskRef::TooDeep)
    } else if sends >= MOST_SENDS {
        Some(AskRef::TooMany)
    } else {
        None
    }
}

// What an ask gets that is refused.
fn nothing(judged: bool) -> Got
    ensures { got_value result ≡ nothing_got judged }
{
    if judged {
        Got::Answer(None)
    } else {
        Got::Probe(NsProbe::Failed)
    }
}

// An open step makes its ask, unless it is refused.
fn make_ask<V: Verifier>(
    context: &Context<'_, V>,
    state: &mut State,
    step: OpenStep,
    ask: Ask,
) -> Result<(), NoMemory>
    ensures { OnOk result (state.new ≡ asked_by (judge_of V.answers context.now.judge)
        (refusal_of (depth_limit context.now.options.max_request_depth) state.old.sends step.so_far.depth ask.judged)
        ask step state.old) }
{
    let refused = refusal(
        limit_of(context),
        state.sends,
        step.so_far.depth,
        ask.judged,
    );
    match refused {
        None => wait(state, step, ask),
        Some(refused) => {
            let answered = answered(context, step, refused, nothing(ask.judged))?;
            put(state, answered)
        }
    }
}

// An open step waits for the reply to its ask.
fn wait(state: &mut State, step: OpenStep, ask: Ask) -> Result<(), NoMemory>
    ensures { OnOk result (state.new ≡ record state.old { steps = step ∷ state.old.steps; pending = Some ask }) }
{
    state.steps.push(step)?;
    state.pending = Some(ask);
    Ok(())
}

/// An open step goes on top of the others.
pub(crate) fn put(state: &mut State, step: OpenStep) -> Result<(), NoMemory>
    ensures { OnOk result (state.new ≡ on_top step state.old) }
{
    state.steps.push(step)?;
    Ok(())
}

/// It ends with this answer.
pub(crate) fn end_with(state: &mut State, answer: Result<DnsResponse, NetError>)
    ensures { state.new ≡ record state.old { ended = Some (reply_of answer) } }
{
    state.ended = Some(answer);
}

// One turn of an open step, which isn't among the others.
fn turn_step<V: Verifier>(
    context: &Context<'_, V>,
    state: &mut State,
    step: OpenStep,
) -> Result<(), NoMemory>
    ensures { OnOk result (state.new ≡ turned_by (terms_of V.answers context.now) step state.old (turn_of step.phase)) }
{
    let OpenStep {
        so_far,
        asked,
        phase,
        cause,
    } = step;
    match phase.turn(context.alloc)? {
        Need::SetEnds(set) => set_ended(context, state, so_far, asked, cause, set),
        Need::StepEnds(outcome) => {
            let so_far = Box::into_inner(so_far);
            end_step(context, state, so_far, asked, outcome)
        }
        Need::Asks(ask, phase) => {
            let step = OpenStep {
                so_far,
                asked,
                phase,
                cause,
            };
            make_ask(context, state, step, ask)
        }
    }
}

// One turn of the innermost open step.
fn turn_once<V: Verifier>(context: &Context<'_, V>, state: &mut State) -> Result<(), NoMemory>
    ensures { OnOk result (state.new ≡ tick (terms_of V.answers context.now) state.old) }
{
    let Some(step) = state.steps.pop() else {
        return Ok(());
    };
    turn_step(context, state, step)
}

/// Turns, until it asks or has come to its end.
pub(crate) fn settle<V: Verifier>(
    context: &Context<'_, V>,
    state: &mut State,
) -> Result<(), NoMemory>
    ensures turns { OnOk result (Turns (terms_of V.answers context.now) state.old state.new) }
    ensures settled { OnOk result (moves_on state.new ≡ false) }
{
    'turns: while moves(state) {
        turn_once(context, state)?;
    }
    Ok(())
}
