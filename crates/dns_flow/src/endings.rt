//! How the ending of a step begins, once all its sets are judged (RFC 4035, 5.4).

ghost use Rattle.std.specs.Prelude.{◌≡◌, IfOk};
ghost use Rattle.dns_model.specs.SoundAnswers.{Told, told_by};
ghost use Rattle.dns_model.specs.Trails.{AskedValue};
ghost use Rattle.dns_rules.specs.ChainedSets.{bare};
ghost use Rattle.dns_rules.specs.Derivation.{StepContext, ending_holds};
ghost use Rattle.dns_rules.specs.Outcome.{outcome_of as outcome_by};
ghost use Rattle.dns_flow.specs.Leads.{leads_to_ending};
ghost use Rattle.dns_flow.specs.Phases.{start_ending as ending_begins};
ghost use Rattle.dns_flow.specs.Values.{phase_value};

use crate::phases::{Phase, Seeker};
use crate::searching::search_at;
use dns_evidence::{ChainedSet, Limits};
use dns_message::Message;
use dns_outcome::{Outcome, outcome_of};
use dns_record::{NoMemory, Query};
use dns_trust::question_start;
use std::alloc::Global;

/// How the ending of a step begins, once all sets of the reply to its query are judged: they decide, or leave it to the zone of
/// the query, which is searched (RFC 4035, 3.1.3, 4.3, 5.3.4 and 5.4). From there exactly the asks that the table of answers
/// names lead to the ending.
#[tactic(auto, using(crate::proofs::Rows::ending_rows), unfolding(crate::specs::Phases::start_ending))]
pub fn start_ending(
    alloc: Global,
    limits: &Limits,
    query: &Query,
    message: &Message,
    sets: &[ChainedSet],
) -> Result<Phase, NoMemory>
    ensures begins { IfOk result (λ p. phase_value p ≡ ending_begins limits.now query.now (told_by message.now) (bare sets.now)) }
    ensures rows { (g : StepContext) (told : Told) (step : AskedValue) → step.query ≡ g.query
        → ending_holds g step told (outcome_by g.limits g.query told (bare sets.now))
        ≡ leads_to_ending g told (bare sets.now) step }
{
    match outcome_of(alloc, limits, query, message, sets)? {
        Outcome::NeedsZone => {
            let start = question_start(query)?;
            Ok(search_at(
                alloc,
                query,
                message,
                Seeker::Ending,
                query.query_class,
                start,
            ))
        }
        outcome => Ok(Phase::Concluded(outcome)),
    }
}
