//! How a set of a reply begins (RFC 4035, 5.2 and 5.3).

ghost use Rattle.std.specs.Prelude.{◌≡◌, ◌==◌, true, IfOk};
ghost use Rattle.dns_model.specs.SoundAnswers.{Told, told_by};
ghost use Rattle.dns_model.specs.Trails.{JudgedSetValue};
ghost use Rattle.dns_rules.specs.Derivation.{StepContext, is_by_rules};
ghost use Rattle.dns_rules.specs.Unsigned.{set_start as start_of};
ghost use Rattle.dns_trust.specs.Beside.{chained_beside};
ghost use Rattle.dns_trust.specs.Judge.{judge_of};
ghost use Rattle.dns_trust.specs.Verdicts.{listed};
ghost use Rattle.dns_flow.specs.Leads.{leads_to_mark};
ghost use Rattle.dns_flow.specs.Phases.{Marked, start_set as set_begins, start_keys as keys_begin, search_at as search_from};
ghost use Rattle.dns_flow.specs.Values.{phase_value};

use crate::phases::{Phase, Seeker, set_of};
use crate::searching::search_at;
use crate::signatures::try_from;
use dns_evidence::{ChainedSet, PlacedSet, Verifier};
use dns_message::Message;
use dns_record::{DNSClass, NoMemory, Query};
use dns_trust::{Judge, KeysStep, is_key_set, judged_beside, keys_step_of, needs_zone, set_start};
use std::alloc::Global;

/// How a set of the reply to a query begins: a key set by anchors, an unsigned set by the search for its zone, and another by its
/// first signatures (RFC 4035, 4.3, 5.2 and 5.3). From there exactly the asks that a row of the tables names lead to its mark.
#[tactic(auto, using(crate::proofs::Rows::set_rows), unfolding(crate::specs::Phases::start_set))]
pub fn start_set<V: Verifier>(
    alloc: Global,
    judge: &Judge<'_, V>,
    query: &Query,
    message: &Message,
    placed: PlacedSet,
) -> Result<Phase, NoMemory>
    ensures begins { IfOk result (λ p. phase_value p
        ≡ set_begins (judge_of V.answers judge.now) query.now (told_by message.now) placed) }
    ensures rows { (g : StepContext) (told : Told) (entry : JudgedSetValue)
        → is_by_rules g placed entry ≡ leads_to_mark g told placed entry }
{
    if is_key_set(set_of(&placed)) {
        return start_keys(alloc, judge, placed);
    }
    if needs_zone(set_of(&placed)) {
        return start_unsigned(alloc, query, message, placed);
    }
    try_from(query, placed, Vec::new(alloc))
}

// A key set, which needs the DS set of its owner where no anchor decides.
fn start_keys<V: Verifier>(
    alloc: Global,
    judge: &Judge<'_, V>,
    placed: PlacedSet,
) -> Result<Phase, NoMemory>
    ensures { IfOk result (λ p. phase_value p ≡ keys_begin (judge_of V.answers judge.now) placed) }
{
    match keys_step_of(alloc, judge, placed)? {
        KeysStep::Done(set) => Ok(Phase::Marked(set)),
        KeysStep::NeedsDs(placed) => Ok(Phase::NeedsDs(placed)),
    }
}

/// Where the answer to the ask for the DS set of a key set's owner leads the key set. Its anchors were tried before.
pub(crate) fn after_ds<V: Verifier>(
    alloc: Global,
    judge: &Judge<'_, V>,
    placed: PlacedSet,
    answer: &Option<Vec<ChainedSet>>,
) -> Result<Phase, NoMemory>
    ensures { IfOk result (λ p. phase_value p
        ≡ Marked (chained_beside (judge_of V.answers judge.now) placed (listed answer.now))) }
{
    let (set, _row) = judged_beside(alloc, judge, placed, answer)?;
    Ok(Phase::Marked(set))
}

// An unsigned set, whose zone is searched.
fn start_unsigned(
    alloc: Global,
    query: &Query,
    message: &Message,
    placed: PlacedSet,
) -> Result<Phase, NoMemory>
    ensures { IfOk result (λ p. phase_value p ≡ search_from query.now (told_by message.now) (Seeker.Set placed)
        placed.set.class (start_of placed.set)) }
{
    let class = class_of(&placed);
    let start = set_start(set_of(&placed))?;
    Ok(search_at(alloc, query, message, Seeker::Set(placed), class, start))
}

// The class of a set.
fn class_of(placed: &PlacedSet) -> DNSClass
    ensures { result.0 ≡ placed.now.set.class }
{
    placed.set.dns_class
}
