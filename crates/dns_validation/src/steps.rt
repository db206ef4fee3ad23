//! The steps that a validation adds to its trail.

ghost use Rattle.std.specs.Prelude.{◌≡◌, ◌+◌, IfOk, length};
ghost use Rattle.std.specs.Option.{option_map};
ghost use Rattle.dns_model.specs.SoundAnswers.{told_by};
ghost use Rattle.dns_model.specs.Trails.{Failed, Fault, Records};
ghost use Rattle.dns_rules.specs.Derivation.{ending_by};
ghost use Rattle.dns_rules.specs.Outcome.{foreign_record as foreign_in};
ghost use Rattle.dns_evidence.specs.Trail.{heard_value, ending_value};
ghost use Rattle.dns_outcome.specs.Outcome.{outcome_value};
ghost use Rattle.dns_flow.specs.Leads.{entry_of};
ghost use Rattle.dns_validation.specs.Steps.{judged_step, plain_step, foreign_ending};

use dns_evidence::{Asked, Ending, JudgedSet, MarkedSet, Reply};
use dns_message::Message;
use dns_model::{AskRef, MarkOrigin};
use dns_outcome::{Outcome, foreign_record};
use dns_record::{NoMemory, Query, Record};
use std::alloc::Global;

/// How a step ends: what it heard, and its ending.
#[derive(Drop)]
pub(crate) struct StepEnd {
    pub(crate) reply: Reply,
    pub(crate) ending: Ending,
}

/// A step that heard a fault failed.
pub(crate) fn by_fault() -> StepEnd
    ensures reply { heard_value result.reply ≡ Fault }
    ensures ending { ending_value result.ending ≡ Failed }
{
    StepEnd {
        reply: Reply::Fault,
        ending: Ending::Failed,
    }
}

/// A step of a query whose sets are judged, by how it ends and by the asks on which that stands.
pub(crate) fn ended(
    query: Query,
    depth: u16,
    end: StepEnd,
    sets: Vec<JudgedSet>,
    excuse: Vec<AskRef>,
) -> Asked
    ensures { result ≡ judged_step depth query (heard_value end.reply) sets.items (ending_value end.ending)
        excuse.items }
{
    let StepEnd { reply, ending } = end;
    Asked {
        depth,
        judged: true,
        query,
        reply,
        sets,
        ending,
        excuse,
    }
}

/// A step of a query whose reply is only seen, by how it ends.
pub(crate) fn only_seen(alloc: Global, query: Query, depth: u16, end: StepEnd) -> Asked
    ensures { result ≡ plain_step depth query (heard_value end.reply) (ending_value end.ending) }
{
    let StepEnd { reply, ending } = end;
    Asked {
        depth,
        judged: false,
        query,
        reply,
        sets: Vec::new(alloc),
        ending,
        excuse: Vec::new(alloc),
    }
}

/// The entry of a set with its mark's origin and these asks.
pub(crate) fn entry_for(
    set: &MarkedSet,
    origin: MarkOrigin,
    asked: Vec<AskRef>,
) -> Result<JudgedSet, NoMemory>
    ensures { IfOk result (λ entry. entry ≡ record (entry_of set.now asked.items) { origin = origin }) }
{
    let owner = set.set.name.try_clone()?;
    Ok(JudgedSet {
        section: set.section,
        owner,
        record_type: set.set.record_type,
        mark: set.mark,
        origin,
        sig: set.sig,
        asked,
    })
}

/// The ending of a step by what its judged sets come to; no step ends with a search.
pub(crate) fn ending_of(outcome: Outcome) -> Ending
    ensures { ending_value result ≡ ending_by (outcome_value outcome) }
{
    match outcome {
        Outcome::Given(denial) => Ending::Answered(denial),
        Outcome::NeedsZone => Ending::Failed,
        Outcome::Denied(proof) => Ending::Denied(proof),
    }
}

/// The ending of a step with a record of another class than its query.
pub(crate) fn foreign_of(query: &Query, message: &Message) -> Result<Option<Ending>, NoMemory>
    ensures { IfOk result (λ e. option_map ending_value e
        ≡ option_map foreign_ending (foreign_in query.now (told_by message.now))) }
{
    match foreign_record(query, message) {
        Some(record) => Ok(Some(foreign_by(record)?)),
        None => Ok(None),
    }
}

// The ending that names a record of another class.
fn foreign_by(foreign: &Record) -> Result<Ending, NoMemory>
    ensures { IfOk result (λ e. ending_value e ≡ foreign_ending foreign.now) }
{
    let owner = foreign.name.try_clone()?;
    Ok(Ending::Foreign {
        owner,
        class: foreign.dns_class,
        record_type: foreign.record_type,
    })
}

/// The number of the next step. A validation has at most 1,024 of them.
pub(crate) fn next_number(steps: &[Asked]) -> Result<u32, NoMemory>
    ensures { IfOk result (λ n. n ≡ length steps.now) }
{
    u32::try_from(steps.len()).map_err(|_| NoMemory)
}
