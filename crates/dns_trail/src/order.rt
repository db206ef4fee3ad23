//! Trails in order: each step after those that it waited for, as they were sent and ended (RFC 4035, 4.3 and 5).

ghost use Rattle.std.specs.Prelude.{◌≡◌, ◌<◌, ◌-◌, suc, length};
ghost use Rattle.dns_rules.specs.Asking.{most_sends};
ghost use Rattle.dns_rules.specs.DerivationParts.{asks_of_sets, is_top};
ghost use Rattle.dns_rules.specs.Derivation.{has_order, top_step};
ghost use Rattle.dns_trail.specs.Counting.{count_ask as ask_counted, count_asks as asks_counted, count_step as step_counted, asking_step, none_yet, ends_with};

use dns_evidence::{Asked, JudgedSet, MOST_SENDS};
use dns_model::AskRef;

/// How far a walk over the steps has come.
#[derive(Clone, Copy)]
pub(crate) struct Counts {
    /// How many steps were sent.
    pub(crate) sent: usize,
    /// How many steps have ended.
    pub(crate) ended: usize,
}

/// Whether the steps of a trail stand in order: there are at most 1,024, the last one is judged at depth 0, and from it
/// on each is sent once, before what it asks, and ends after that with the next number; an ask is refused as one too
/// many exactly where 1,024 steps were sent (RFC 4035, 4.3 and 5). What the steps heard and how they were judged isn't
/// looked at. It takes time that grows as the steps and their asks.
pub fn is_in_order(steps: &[Asked]) -> bool
    ensures { result ≡ has_order steps.now }
{
    if steps.len() > MOST_SENDS {
        return false;
    }
    if !has_top(steps) {
        return false;
    }
    end_in_turn(steps)
}

// The last step is judged, at depth 0.
fn has_top(steps: &[Asked]) -> bool
    ensures { result ≡ is_top (top_step steps.now) }
{
    match steps.get(steps.len().saturating_sub(1)) {
        Some(top) => top.judged && top.depth == 0,
        None => false,
    }
}

// The walk from the last step on ends all steps.
fn end_in_turn(steps: &[Asked]) -> bool
    ensures { result ≡ ends_with (length steps.now)
        (step_counted (length steps.now) steps.now (length steps.now - 1) none_yet) }
{
    if steps.is_empty() {
        return false;
    }
    let none = Counts { sent: 0, ended: 0 };
    match count_step(steps, steps.len() - 1, none) {
        Some(counts) => counts.ended == steps.len(),
        None => false,
    }
}

// Sends a step, then what it asks, and ends it with the next number. Where a step was sent before, its number is past,
// as are those of what it asks, and the walk stops at the first of them that asks for no step. So no step is gone
// through more than twice.
#[cycle(count)]
fn count_step(steps: &[Asked], n: usize, from: Counts) -> Option<Counts>
    requires few { from.sent < most_sends }
    ensures { result ≡ step_counted (suc n) steps.now n from }
{
    let step = steps.get(n)?;
    let sent = Counts {
        sent: from.sent + 1,
        ended: from.ended,
    };
    let judged = count_sets(steps, n, &step.sets, sent)?;
    let asked = count_asks(steps, n, &step.excuse, judged)?;
    if asked.ended == n {
        Some(Counts {
            sent: asked.sent,
            ended: n + 1,
        })
    } else {
        None
    }
}

// The asks of the sets of step n, in order.
#[cycle(count)]
fn count_sets(steps: &[Asked], n: usize, sets: &[JudgedSet], from: Counts) -> Option<Counts>
    ensures { result ≡ asks_counted (asking_step steps.now n) n (asks_of_sets sets.now) from }
{
    let mut counts = from;
    for set in sets {
        counts = count_asks(steps, n, &set.asked, counts)?;
    }
    Some(counts)
}

// Asks of step n, in order.
#[cycle(count)]
fn count_asks(steps: &[Asked], n: usize, asks: &[AskRef], from: Counts) -> Option<Counts>
    ensures { result ≡ asks_counted (asking_step steps.now n) n asks.now from }
{
    let mut counts = from;
    for ask in asks {
        counts = count_ask(steps, n, ask, counts)?;
    }
    Some(counts)
}

// One ask of step n: a step before it, while fewer were sent than may be; or one too many, where as many were sent.
#[cycle(count)]
#[tactic(auto, unfolding(crate::specs::Counting::count_ask))]
fn count_ask(steps: &[Asked], n: usize, ask: &AskRef, from: Counts) -> Option<Counts>
    ensures { result ≡ ask_counted (asking_step steps.now n) n ask.now from }
{
    match *ask {
        AskRef::TooDeep => Some(from),
        AskRef::TooMany => {
            if from.sent < MOST_SENDS {
                None
            } else {
                Some(from)
            }
        }
        AskRef::Step(number) => {
            let number = number as usize;
            if number < n && from.sent < MOST_SENDS {
                count_step(steps, number, from)
            } else {
                None
            }
        }
    }
}
