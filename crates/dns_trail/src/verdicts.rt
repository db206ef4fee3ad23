//! The verdicts of a set's signatures, by the answers to the asks that an entry names.

ghost use Rattle.std.specs.Prelude.{◌≡◌, IfOk, map};
ghost use Rattle.std.specs.Option.{option_map};
ghost use Rattle.dns_rules.specs.ChainedSets.{bare_verdicts};
ghost use Rattle.dns_rules.specs.Derivation.{verdicts_by as verdicts_for};
ghost use Rattle.dns_rules.specs.Marks as marks;
ghost use Rattle.dns_trust.specs.Verdicts.{verdict_value};
ghost use Rattle.dns_trail.specs.StepContexts.{step_context_by};
ghost use Rattle.dns_trail.specs.Trying.{tried_by};
ghost use Rattle.dns_trail.specs.Values.{tried_value};
ghost use Rattle.dns_rules.specs.Derivation.{is_empty};
ghost use Rattle.dns_trail.specs.Ended.{some_if};

use crate::step_context::{StepContext, answer_of, is_ask};
use dns_evidence::Verifier;
use dns_model::AskRef;
use dns_rdata::Rrsig;
use dns_record::{NoMemory, Record, RecordSet};
use dns_trust::{SetSignature, Verdict, chained_verdict, is_skipped_read, key_query};

// The verdict of a signature, and the asks that are left after its own.
#[derive(Drop)]
struct Tried<'a> {
    verdict: Verdict,
    left: &'a [AskRef],
}

/// The verdicts of signatures of a set, up to the first that proves it; None where these aren't the asks that they
/// make.
pub(crate) fn verdicts_by<V: Verifier>(
    context: &StepContext<'_, '_, V>,
    set: &RecordSet,
    mut signatures: &[Record],
    mut asks: &[AskRef],
) -> Result<Option<Vec<Verdict>>, NoMemory>
    ensures { IfOk result (λ o. option_map (λ v. bare_verdicts (map verdict_value v.items)) o
        ≡ verdicts_for (step_context_by V.answers context.now) set.now signatures.entry.now asks.entry.now) }
{
    let mut verdicts = Vec::new(context.alloc);
    'signatures: while let Some((signature, others)) = signatures.split_first() {
        let Some(tried) = try_signature(context, set, signature, asks)? else {
            return Ok(None);
        };
        let Tried { verdict, left } = tried;
        let proved = verdict.is_proved();
        verdicts.push(verdict)?;
        if proved {
            return Ok(if_last(left, verdicts));
        }
        signatures = others;
        asks = left;
    }
    Ok(if_last(asks, verdicts))
}

// These verdicts, where no ask is left.
fn if_last(left: &[AskRef], verdicts: Vec<Verdict>) -> Option<Vec<Verdict>>
    ensures { option_map (λ v. v.items) result ≡ some_if (is_empty left.now) verdicts.items }
{
    if left.is_empty() {
        Some(verdicts)
    } else {
        None
    }
}

// The verdict of one signature by the first of the asks that are left; None where that isn't its own.
fn try_signature<'a, V: Verifier>(
    context: &StepContext<'_, '_, V>,
    set: &RecordSet,
    signature: &Record,
    asks: &'a [AskRef],
) -> Result<Option<Tried<'a>>, NoMemory>
    ensures { IfOk result (λ o. option_map tried_value o
        ≡ tried_by (step_context_by V.answers context.now) set.now signature.now asks.now) }
{
    let Some(read) = Rrsig::of(signature) else {
        return Ok(Some(untried(asks)));
    };
    if is_skipped_read(context.query, set, &read) {
        return Ok(Some(untried(asks)));
    }
    let Some((ask, left)) = asks.split_first() else {
        return Ok(None);
    };
    let question = key_query(context.alloc, set, &read)?;
    if !is_ask(context, &question, *ask) {
        return Ok(None);
    }
    let answer = answer_of(&context.earlier, *ask);
    let signature = SetSignature {
        set,
        sig: signature,
        read: &read,
    };
    let verdict = chained_verdict(context.alloc, context.judge, &signature, answer)?;
    Ok(Some(Tried { verdict, left }))
}

// What comes of a signature that isn't asked for.
fn untried(asks: &[AskRef]) -> Tried<'_>
    ensures { tried_value result ≡ (marks.Failed, asks.now) }
{
    Tried {
        verdict: Verdict::Failed,
        left: asks,
    }
}
