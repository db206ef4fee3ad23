//! What the asks of an entry came to, by the steps of the trail, and the cause to which they lead its set (RFC 4035, 4.3, 5.2 and 5.3).

ghost use Rattle.std.specs.Prelude.{◌≡◌, IfOk};
ghost use Rattle.dns_cache.specs.Kinds.{kind_value};
ghost use Rattle.dns_evidence.specs.Trail.{heard_value};
ghost use Rattle.dns_model.specs.SoundAnswers.{told_by};
ghost use Rattle.dns_model.specs.Trails.{Records};
ghost use Rattle.dns_rules.specs.Derivation.{probe_by as probe_in, probe_of as probe_for};
ghost use Rattle.dns_trust.specs.Judge.{judge_of};
ghost use Rattle.dns_trust.specs.Searching.{probe_value};
ghost use Rattle.dns_flow.specs.Causes.{cause_after as cause_by};
ghost use Rattle.dns_flow.specs.CauseRows.{caused};
ghost use Rattle.dns_flow.specs.Leads.{bare_phase, got_of as got_for};
ghost use Rattle.dns_flow.specs.Phases.{after as after_got};
ghost use Rattle.dns_flow.specs.Values.{got_value, phase_value};
ghost use Rattle.dns_causes.specs.Contexts.{context_by};

use crate::context::Context;
use crate::marked::answer_of;
use dns_cache::ProofErrorKind;
use dns_evidence::{Asked, Reply, Told, Verifier};
use dns_flow::{Ask, Got, Need, Phase};
use dns_message::Message;
use dns_model::AskRef;
use dns_record::{Name, NoMemory};
use dns_trust::{NsProbe, has_ns_record};

/// The cause to which asks lead from a phase and a cause. A phase asks at most as often as a name has labels, or a set signatures
/// that are tried, so the calls stay few.
#[tactic(auto, unfolding(dns_flow::specs::CauseRows::caused))]
pub(crate) fn led_cause<V: Verifier>(
    context: &Context<'_, '_, V>,
    message: &Message,
    phase: Phase,
    cause: ProofErrorKind,
    asked: &[AskRef],
) -> Result<ProofErrorKind, NoMemory>
    ensures { IfOk result (λ k. kind_value k ≡ caused (context_by V.answers context.now) (told_by message.now) asked.now
        (bare_phase (phase_value phase)) (kind_value cause)) }
{
    let Some((made, rest)) = asked.split_first() else {
        return Ok(cause);
    };
    match phase.turn(context.alloc)? {
        Need::SetEnds(_) => Ok(cause),
        Need::StepEnds(_) => Ok(cause),
        Need::Asks(ask, phase) => {
            let (phase, cause) = after_ask(context, message, phase, cause, &ask, *made)?;
            led_cause(context, message, phase, cause, rest)
        }
    }
}

// The phase and the cause to which one ask leads.
fn after_ask<V: Verifier>(
    context: &Context<'_, '_, V>,
    message: &Message,
    phase: Phase,
    cause: ProofErrorKind,
    ask: &Ask,
    made: AskRef,
) -> Result<(Phase, ProofErrorKind), NoMemory>
    ensures phase { IfOk result (λ p. phase_value p.0 ≡ after_got (judge_of V.answers context.now.judge.now)
        context.now.query.now (told_by message.now) (phase_value phase) (got_for context.now.earlier.now ask.now made)) }
    ensures cause { IfOk result (λ p. kind_value p.1 ≡ cause_by (judge_of V.answers context.now.judge.now)
        (phase_value phase) (got_for context.now.earlier.now ask.now made) (kind_value cause)) }
{
    let got = got_of(context, ask, made)?;
    phase.after_with_cause(
        context.alloc,
        context.judge,
        context.query,
        message,
        got,
        cause,
    )
}

// What an ask came to.
fn got_of<V>(context: &Context<'_, '_, V>, ask: &Ask, made: AskRef) -> Result<Got, NoMemory>
    ensures { IfOk result (λ got. got_value got ≡ got_for context.now.earlier.now ask.now made) }
{
    if ask.judged {
        let answer = answer_of(context.alloc, context.earlier, made)?;
        Ok(Got::Answer(answer))
    } else {
        Ok(Got::Probe(probe_by(context.earlier, &ask.query.name, made)))
    }
}

// What a plain ask for the NS records of a name came to.
fn probe_by(earlier: &[Asked], name: &Name, made: AskRef) -> NsProbe
    ensures { probe_value result ≡ probe_in earlier.now name.now made }
{
    match made {
        AskRef::Step(number) => match earlier.get(number as usize) {
            Some(step) => probe_at(name, &step.reply),
            None => NsProbe::Failed,
        },
        AskRef::TooDeep | AskRef::TooMany => NsProbe::Failed,
    }
}

// What a reply shows of the NS records of a name.
fn probe_at(name: &Name, reply: &Reply) -> NsProbe
    ensures { probe_value result ≡ probe_for name.now (heard_value reply.now) }
{
    match reply {
        Reply::Told(told) => probe_told(name, told),
        Reply::Fault => NsProbe::Failed,
    }
}

// A reply that says that there are no records leads on, whatever records come with it.
fn probe_told(name: &Name, told: &Told) -> NsProbe
    ensures { probe_value result ≡ probe_for name.now (Records told.now.0 told.now.1) }
{
    if !told.empty && has_ns_record(name, &told.answers, &told.authorities, &told.additionals) {
        NsProbe::Found
    } else {
        NsProbe::Absent
    }
}
