//! The ending of a step: it follows from what its judged sets come to (RFC 4035, 5.3.4 and 5.4).

ghost use Rattle.std.specs.Prelude.{◌≡◌, ◌&&◌, IfOk};
ghost use Rattle.dns_model.specs.SoundAnswers.{told_by};
ghost use Rattle.dns_rules.specs.ChainedSets.{bare};
ghost use Rattle.dns_rules.specs.Derivation.{ending_eq, ending_by};
ghost use Rattle.dns_rules.specs.DerivationParts.{is_failed as is_failure, is_foreign as names_foreign, is_seen as is_sight};
ghost use Rattle.dns_rules.specs.Outcome.{outcome_of as told_outcome};
ghost use Rattle.dns_model.specs.Trails.{Answered, Denied as Refused};
ghost use Rattle.dns_evidence.specs.Trail.{ending_value};
ghost use Rattle.dns_outcome.specs.Outcome.{outcome_value};
ghost use Rattle.dns_trail.specs.Endings.{ending_fits};
ghost use Rattle.dns_trail.specs.StepContexts.{step_context_by};

use crate::search::search_zone;
use crate::step_context::StepContext;
use dns_evidence::{Asked, ChainedSet, Ending, Verifier};
use dns_message::Message;
use dns_model::{Denial, Proof};
use dns_outcome::{Outcome, outcome_by_zone, outcome_of};
use dns_record::{NoMemory, Record};
use dns_trust::question_start;

/// The ending of a step and the asks on which it stands follow from its judged sets.
pub(crate) fn ending_holds<V: Verifier>(
    context: &StepContext<'_, '_, V>,
    message: &Message,
    sets: &[ChainedSet],
    step: &Asked,
) -> Result<bool, NoMemory>
    ensures { IfOk result (λ b. b ≡ ending_fits (step_context_by V.answers context.now) (told_by message.now)
        (told_outcome context.now.limits context.now.query.now (told_by message.now) (bare sets.now)) step.now.ending step.now.excuse) }
{
    let query = context.query;
    let ending = &step.ending;
    let excuse = &step.excuse;
    match outcome_of(context.alloc, &context.limits, query, message, sets)? {
        Outcome::Given(denial) => Ok(is_answered(ending, denial) && excuse.is_empty()),
        Outcome::Denied(proof) => Ok(is_denied(ending, proof) && excuse.is_empty()),
        Outcome::NeedsZone => {
            let start = question_start(query)?;
            match search_zone(context, query.query_class, &start, excuse)? {
                Some(mark) => Ok(is_ending(outcome_by_zone(query, message, mark), ending)),
                None => Ok(false),
            }
        }
    }
}

// The ending is that of an outcome; no step ends with a search.
fn is_ending(outcome: Outcome, ending: &Ending) -> bool
    ensures { result ≡ ending_eq (ending_by (outcome_value outcome)) (ending_value ending.now) }
{
    match outcome {
        Outcome::Given(denial) => is_answered(ending, denial),
        Outcome::NeedsZone => is_failed(ending),
        Outcome::Denied(proof) => is_denied(ending, proof),
    }
}

// The step ended with an answer that denies this.
fn is_answered(ending: &Ending, denial: Denial) -> bool
    ensures { result ≡ ending_eq (Answered denial) (ending_value ending.now) }
{
    match ending {
        Ending::Answered(given) => *given == denial,
        _ => false,
    }
}

// The step ended with a denial of this proof.
fn is_denied(ending: &Ending, proof: Proof) -> bool
    ensures { result ≡ ending_eq (Refused proof) (ending_value ending.now) }
{
    match ending {
        Ending::Denied(given) => *given == proof,
        _ => false,
    }
}

/// The step ended without an answer.
pub(crate) fn is_failed(ending: &Ending) -> bool
    ensures { result ≡ is_failure (ending_value ending.now) }
{
    matches!(ending, Ending::Failed)
}

/// The step's reply was only seen.
pub(crate) fn is_seen(ending: &Ending) -> bool
    ensures { result ≡ is_sight (ending_value ending.now) }
{
    matches!(ending, Ending::Seen)
}

/// The ending names a record of another class.
pub(crate) fn is_foreign(found: &Record, ending: &Ending) -> bool
    ensures { result ≡ names_foreign found.now (ending_value ending.now) }
{
    match ending {
        Ending::Foreign {
            owner,
            class,
            record_type,
        } => {
            found.name == *owner && found.dns_class == *class && found.record_type == *record_type
        }
        _ => false,
    }
}
