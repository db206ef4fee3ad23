//! What a validation does with a reply.

ghost use Rattle.std.specs.Prelude.{◌≡◌, ◌+◌, ◌∷◌, [], true, false, Some, None, List, Err, IfOk, OnOk};
ghost use Rattle.dns_model.specs.SoundAnswers.{told_by};
ghost use Rattle.dns_model.specs.Trails.{Records, Seen};
ghost use Rattle.dns_rules.specs.Derivation.{probe_of};
ghost use Rattle.dns_rules.specs.Outcome.{foreign_record as foreign_in};
ghost use Rattle.dns_handle.specs.Replies.{reply_of};
ghost use Rattle.dns_evidence.specs.Trail.{heard_value, ending_value};
ghost use Rattle.dns_flow.specs.Phases.{Answer, Probe};
ghost use Rattle.dns_trust.specs.Judge.{judge_of};
ghost use Rattle.dns_validation.specs.Terms.{terms_of};
ghost use Rattle.dns_validation.specs.Received.{is_out_of_memory};
ghost use Rattle.dns_validation.specs.ReceivedParts.{as_received};
ghost use Rattle.dns_validation.specs.Machine.{heard as heard_of, heard_by, heard_first, heard_own, heard_judged, heard_nested, heard_plain, with_step, depth_below, taken};
ghost use Rattle.dns_validation.specs.Steps.{judged_step, plain_step};

use crate::answers::foreign_error;
use crate::context::Context;
use crate::open_step::open_step;
use crate::receiving::{Received, ReceivedMessage, receive};
use crate::state::{State, add_step, end_with};
use crate::steps::{StepEnd, by_fault, ended, foreign_of, only_seen};
use dns_evidence::{Ending, Verifier};
use dns_flow::{Ask, Got, probe_of as probe_in};
use dns_handle::{DnsResponse, NetError};
use dns_outcome::foreign_record;
use dns_record::{NoMemory, Query};
use dns_trust::NsProbe;

/// Hears the reply to the ask that waits for it. One that waits for none lets it go.
pub(crate) fn hear<V: Verifier>(
    context: &Context<'_, V>,
    state: &mut State,
    reply: Result<DnsResponse, NetError>,
) -> Result<(), NoMemory>
    ensures heard { OnOk result (state.new ≡ heard_of (terms_of V.answers context.now) state.old (reply_of reply)) }
    ensures kept { OnOk result (is_out_of_memory (reply_of reply) ≡ false) }
{
    let received = receive(context.alloc, reply)?;
    match take_ask(state)? {
        Some(ask) => hear_for(context, state, ask, received),
        None => Ok(()),
    }
}

// Takes the ask that waits, and counts its send.
fn take_ask(state: &mut State) -> Result<Option<Ask>, NoMemory>
    ensures ask { IfOk result (λ a. a ≡ state.old.pending) }
    ensures state { OnOk result (state.new ≡ taken state.old state.old.pending) }
{
    let Some(ask) = state.pending.take() else {
        return Ok(None);
    };
    state.sends = one_more(state.sends)?;
    Ok(Some(ask))
}

// One more send. There are at most 1,024.
fn one_more(sends: usize) -> Result<usize, NoMemory>
    ensures { IfOk result (λ n. n ≡ sends + 1) }
{
    sends.checked_add(1).ok_or(NoMemory)
}

// One level deeper. There are at most 255.
fn deeper(depth: u16) -> Result<u16, NoMemory>
    ensures { IfOk result (λ n. n ≡ depth + 1) }
{
    depth.checked_add(1).ok_or(NoMemory)
}

// Hears what was received for an ask.
fn hear_for<V: Verifier>(
    context: &Context<'_, V>,
    state: &mut State,
    ask: Ask,
    received: Received,
) -> Result<(), NoMemory>
    ensures { OnOk result (state.new ≡ heard_by (terms_of V.answers context.now) state.old ask.query ask.judged
        (depth_below state.old.steps) (as_received received)) }
{
    let Ask { query, judged } = ask;
    let asker = depth_of(state);
    match (asker, judged) {
        (None, true) => hear_first(context, state, query, received),
        (None, false) => Ok(()),
        (Some(depth), true) => hear_below(context, state, query, depth, received),
        (Some(depth), false) => hear_plain(context, state, query, depth, received),
    }
}

// Hears the reply to a judged ask of a step of this depth.
fn hear_below<V: Verifier>(
    context: &Context<'_, V>,
    state: &mut State,
    query: Query,
    depth: u16,
    received: Received,
) -> Result<(), NoMemory>
    ensures { OnOk result (state.new ≡ heard_judged (terms_of V.answers context.now) state.old query (depth + 1)
        (as_received received)) }
{
    let depth = deeper(depth)?;
    hear_judged(context, state, query, depth, received)
}

// How deep the innermost open step is, if there is one.
fn depth_of(state: &State) -> Option<u16>
    ensures { result ≡ depth_below state.now.steps }
{
    let step = state.steps.last()?;
    Some(step.so_far.depth)
}

// Hears the reply to the first ask.
fn hear_first<V: Verifier>(
    context: &Context<'_, V>,
    state: &mut State,
    query: Query,
    received: Received,
) -> Result<(), NoMemory>
    ensures { OnOk result (state.new ≡ heard_first (terms_of V.answers context.now) state.old query (as_received received)) }
{
    match received {
        Received::Failed(error) => {
            end_with(state, Err(error));
            Ok(())
        }
        Received::Message(received) => hear_own(context, state, query, received),
    }
}

// Judges the message of the first ask, unless it has a record of another class.
fn hear_own<V: Verifier>(
    context: &Context<'_, V>,
    state: &mut State,
    query: Query,
    received: ReceivedMessage,
) -> Result<(), NoMemory>
    ensures { OnOk result (state.new ≡ heard_own (terms_of V.answers context.now) state.old query
        received.message received.empty (foreign_in query (told_by received.message))) }
{
    let Some(record) = foreign_record(&query, &received.message) else {
        return open_step(context, state, query, 0, received);
    };
    let error = foreign_error(record)?;
    end_with(state, Err(error));
    Ok(())
}

// Hears the reply to a judged ask of a step.
fn hear_judged<V: Verifier>(
    context: &Context<'_, V>,
    state: &mut State,
    query: Query,
    depth: u16,
    received: Received,
) -> Result<(), NoMemory>
    ensures { OnOk result (state.new ≡ heard_judged (terms_of V.answers context.now) state.old query depth
        (as_received received)) }
{
    match received {
        Received::Failed(_) => end_bare(context, state, query, depth, by_fault()),
        Received::Message(received) => hear_nested(context, state, query, depth, received),
    }
}

// Judges the message of a judged ask, unless it has a record of another class.
fn hear_nested<V: Verifier>(
    context: &Context<'_, V>,
    state: &mut State,
    query: Query,
    depth: u16,
    received: ReceivedMessage,
) -> Result<(), NoMemory>
    ensures { OnOk result (state.new ≡ heard_nested (terms_of V.answers context.now) state.old query depth
        received.message received.empty (foreign_in query (told_by received.message))) }
{
    match foreign_of(&query, &received.message)? {
        Some(ending) => {
            let reply = received.into_reply();
            end_bare(context, state, query, depth, StepEnd { reply, ending })
        }
        None => open_step(context, state, query, depth, received),
    }
}

// A step ends of which nothing is judged.
fn end_bare<V: Verifier>(
    context: &Context<'_, V>,
    state: &mut State,
    query: Query,
    depth: u16,
    end: StepEnd,
) -> Result<(), NoMemory>
    ensures { OnOk result (state.new ≡ with_step (judge_of V.answers context.now.judge)
        (judged_step depth query (heard_value end.reply) [] (ending_value end.ending) []) (Answer None) state.old) }
{
    let alloc = context.alloc;
    let step = ended(query, depth, end, Vec::new(alloc), Vec::new(alloc));
    add_step(context, state, step, Got::Answer(None))
}

// Hears the reply to a plain ask of a step.
fn hear_plain<V: Verifier>(
    context: &Context<'_, V>,
    state: &mut State,
    query: Query,
    depth: u16,
    received: Received,
) -> Result<(), NoMemory>
    ensures { OnOk result (state.new ≡ heard_plain (judge_of V.answers context.now.judge) state.old query depth
        (as_received received)) }
{
    match received {
        Received::Failed(_) => {
            let step = only_seen(context.alloc, query, depth, by_fault());
            add_step(context, state, step, Got::Probe(NsProbe::Failed))
        }
        Received::Message(received) => see(context, state, query, depth, received),
    }
}

// Sees the message of a plain ask.
fn see<V: Verifier>(
    context: &Context<'_, V>,
    state: &mut State,
    query: Query,
    depth: u16,
    received: ReceivedMessage,
) -> Result<(), NoMemory>
    ensures { OnOk result (state.new ≡ with_step (judge_of V.answers context.now.judge)
        (plain_step depth query (Records (told_by received.message) received.empty) Seen)
        (Probe (probe_of query.owner (Records (told_by received.message) received.empty))) state.old) }
{
    let probe = probe_in(&query.name, &received.message, received.empty);
    let end = StepEnd {
        reply: received.into_reply(),
        ending: Ending::Seen,
    };
    let step = only_seen(context.alloc, query, depth, end);
    add_step(context, state, step, Got::Probe(probe))
}
