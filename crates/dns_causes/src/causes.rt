//! The causes of a trail's sets, step by step (RFC 4035, 4.3, 5.2 and 5.3).

ghost use Rattle.std.specs.Prelude.{◌≡◌, [], IfOk};
ghost use Rattle.std.specs.Option.{option_map};
ghost use Rattle.dns_cache.specs.Kinds.{kind_value};
ghost use Rattle.dns_model.specs.Chains.{judge as judge_by};
ghost use Rattle.dns_model.specs.SoundAnswers.{told_by};
ghost use Rattle.dns_rules.specs.CacheKeys.{key_of};
ghost use Rattle.dns_flow.specs.Causes.{is_net as is_failed_ask};
ghost use Rattle.dns_trust.specs.Judge.{judge_of};
ghost use Rattle.dns_causes.specs.Causes.{causes, causes_from, repeated, step_causes as causes_of_step, step_gives, set_causes as causes_in, sets_give, set_cause as cause_of_set, with_set, with_cause, led_cause as cause_to, is_error as tells_error};
ghost use Rattle.dns_causes.specs.Contexts.{context_by};
ghost use Rattle.dns_causes.specs.Values.{kinds_by_step, kinds_of};

use crate::asks::led_cause;
use crate::context::Context;
use crate::given::GivenCauses;
use dns_cache::{CacheKey, ProofErrorKind};
use dns_evidence::{Asked, JudgedSet, Limits, PlacedSet, Reply, Trail, Verifier, effective};
use dns_flow::{start_cause, start_set};
use dns_message::Message;
use dns_model::{MarkOrigin, Proof};
use dns_outcome::{judged_part, told_message};
use dns_record::{NoMemory, Query, RecordSet};
use dns_trust::{Judge, TrustAnchors};
use std::alloc::Global;

// The causes of some sets of a step, and what these give to later steps.
#[derive(Drop)]
struct StepCauses {
    causes: Vec<Option<ProofErrorKind>>,
    given: GivenCauses,
}

/// Why each set of a trail isn't Secure, step by step, one for each of a step's sets: the kind of the error with which it was
/// marked, by these anchors and this verifier at a moment, in seconds since 1970; None where the set is Secure or a signature
/// decided. A set that repeats another has the cause that the step which it names found, and one that was kept before the lookup
/// has none. It takes any trail, and fails only where memory runs out.
pub fn trail_causes<V: Verifier>(
    alloc: Global,
    anchors: &TrustAnchors,
    verifier: &V,
    now: u64,
    limits: &Limits,
    trail: &Trail,
) -> Result<Vec<Vec<Option<ProofErrorKind>>>, NoMemory>
    ensures { IfOk result (λ v. kinds_by_step v.items
        ≡ causes (judge_by (V.answers verifier.now) anchors.now now) limits.now trail.now) }
{
    let judge = Judge {
        verifier,
        anchors,
        moment: now,
    };
    steps_causes(alloc, &judge, effective(limits), &trail.steps)
}

// The causes of each step's sets.
fn steps_causes<V: Verifier>(
    alloc: Global,
    judge: &Judge<'_, V>,
    limits: Limits,
    steps: &[Asked],
) -> Result<Vec<Vec<Option<ProofErrorKind>>>, NoMemory>
    ensures { IfOk result (λ v. kinds_by_step v.items
        ≡ causes_from (judge_of V.answers judge.now) limits [] [] steps.now) }
{
    let mut found = Vec::new(alloc);
    let mut given = Vec::new(alloc);
    'steps: for (number, step) in steps.iter().enumerate() {
        let context = Context {
            alloc,
            judge: &*judge,
            limits,
            earlier: &steps[..number],
            given: given.as_slice(),
            query: &step.query,
            depth: step.depth,
        };
        let next = step_causes(&context, step)?;
        let StepCauses {
            causes,
            given: gives,
        } = next;
        found.push(causes)?;
        given.push(gives)?;
    }
    Ok(found)
}

// The causes of a step's sets; a fault has none.
fn step_causes<V: Verifier>(
    context: &Context<'_, '_, V>,
    step: &Asked,
) -> Result<StepCauses, NoMemory>
    ensures causes { IfOk result (λ s. kinds_of s.causes.items
        ≡ causes_of_step (context_by V.answers context.now) context.now.given.now step.now) }
    ensures given { IfOk result (λ s. s.given ≡ step_gives (context_by V.answers context.now) context.now.given.now step.now) }
{
    let Reply::Told(told) = &step.reply else {
        return Ok(StepCauses {
            causes: Vec::new(context.alloc),
            given: GivenCauses::new(context.alloc),
        });
    };
    let message = told_message(context.alloc, told)?;
    let placed = judged_part(context.alloc, step.depth, &message)?;
    set_causes(context, &message, &placed, &step.sets)
}

// The causes of sets with their entries, as long as there are both.
fn set_causes<V: Verifier>(
    context: &Context<'_, '_, V>,
    message: &Message,
    placed: &[PlacedSet],
    entries: &[JudgedSet],
) -> Result<StepCauses, NoMemory>
    ensures causes { IfOk result (λ s. kinds_of s.causes.items
        ≡ causes_in (context_by V.answers context.now) context.now.given.now (told_by message.now) placed.now entries.now) }
    ensures given { IfOk result (λ s. s.given
        ≡ sets_give (context_by V.answers context.now) context.now.given.now (told_by message.now) placed.now entries.now []) }
{
    let mut causes = Vec::new(context.alloc);
    let mut given = GivenCauses::new(context.alloc);
    let mut left = placed;
    let mut right = entries;
    'sets: while let Some((next, more)) = left.split_first() {
        let Some((entry, others)) = right.split_first() else {
            return Ok(StepCauses { causes, given });
        };
        let cause = set_cause(context, message, next, entry)?;
        let with_one = given_with(context.query, given, next, entry, &cause)?;
        causes.push(cause)?;
        given = with_one;
        left = more;
        right = others;
    }
    Ok(StepCauses { causes, given })
}

// The cause of a set, where its entry tells an error.
#[tactic(auto, unfolding(crate::specs::Causes::set_cause))]
fn set_cause<V: Verifier>(
    context: &Context<'_, '_, V>,
    message: &Message,
    placed: &PlacedSet,
    entry: &JudgedSet,
) -> Result<Option<ProofErrorKind>, NoMemory>
    ensures { IfOk result (λ o. option_map kind_value o ≡ cause_of_set (context_by V.answers context.now)
        context.now.given.now (told_by message.now) placed.now entry.now) }
{
    if !is_error(entry) {
        return Ok(None);
    }
    match entry.origin {
        MarkOrigin::Table => {
            let cause = cause_by_rules(context, message, placed, entry)?;
            Ok(Some(cause))
        }
        MarkOrigin::Repeat(number) => repeated_cause(context, &placed.set, number),
        MarkOrigin::Cache => Ok(None),
    }
}

// The entry tells an error: its set isn't Secure, and no signature decided that.
fn is_error(entry: &JudgedSet) -> bool
    ensures { result ≡ tells_error entry.now }
{
    entry.mark != Proof::Secure && entry.sig.is_none()
}

// The cause to which the asks of an entry lead its set.
fn cause_by_rules<V: Verifier>(
    context: &Context<'_, '_, V>,
    message: &Message,
    placed: &PlacedSet,
    entry: &JudgedSet,
) -> Result<ProofErrorKind, NoMemory>
    ensures { IfOk result (λ k. kind_value k
        ≡ cause_to (context_by V.answers context.now) (told_by message.now) placed.now entry.now) }
{
    let cause = start_cause(&placed.set)?;
    let own = PlacedSet {
        section: placed.section,
        set: placed.set.try_clone()?,
    };
    let phase = start_set(context.alloc, context.judge, context.query, message, own)?;
    led_cause(context, message, phase, cause, &entry.asked)
}

// The cause that the step with a number found of a set.
fn repeated_cause<V>(
    context: &Context<'_, '_, V>,
    set: &RecordSet,
    number: u32,
) -> Result<Option<ProofErrorKind>, NoMemory>
    ensures { IfOk result (λ o. option_map kind_value o
        ≡ repeated context.now.given.now context.now.query.now set.now number) }
{
    let Some(given) = context.given.get(number as usize) else {
        return Ok(None);
    };
    let key = CacheKey::of(context.query, set)?;
    match given.of(&key) {
        Some(cause) => {
            let cause = cause.try_clone()?;
            Ok(Some(cause))
        }
        None => Ok(None),
    }
}

// What a step gives, with the cause of one set more, where the rules judged it.
fn given_with(
    query: &Query,
    given: GivenCauses,
    placed: &PlacedSet,
    entry: &JudgedSet,
    cause: &Option<ProofErrorKind>,
) -> Result<GivenCauses, NoMemory>
    ensures { IfOk result (λ g. g ≡ with_set query.now placed.now entry.now (option_map kind_value cause.now) given) }
{
    match entry.origin {
        MarkOrigin::Table => given_by_rules(query, given, &placed.set, cause),
        MarkOrigin::Repeat(_) => Ok(given),
        MarkOrigin::Cache => Ok(given),
    }
}

// With the cause of a set that the rules judged, unless an ask failed: that is found anew.
fn given_by_rules(
    query: &Query,
    given: GivenCauses,
    set: &RecordSet,
    cause: &Option<ProofErrorKind>,
) -> Result<GivenCauses, NoMemory>
    ensures { IfOk result (λ g. g ≡ with_cause (key_of query.now set.now) (option_map kind_value cause.now) given) }
{
    let Some(cause) = cause else {
        return Ok(given);
    };
    if is_net(cause) {
        return Ok(given);
    }
    let key = CacheKey::of(query, set)?;
    given.with(key, cause.try_clone()?)
}

// An ask failed.
fn is_net(cause: &ProofErrorKind) -> bool
    ensures { result ≡ is_failed_ask (kind_value cause.now) }
{
    matches!(cause, ProofErrorKind::Net { .. })
}
