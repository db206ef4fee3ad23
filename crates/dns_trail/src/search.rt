//! The search for the zone of a name, by the plain asks that an entry or an ending names (RFC 4035, 4.3 and 5.2).

ghost use Rattle.std.specs.Prelude.{◌≡◌, not, IfOk};
ghost use Rattle.std.specs.Option.{option_map};
ghost use Rattle.dns_model.specs.Names.{Labels};
ghost use Rattle.dns_rules.specs.Derivation.{is_empty, search_by, probe_by as probe_in, probe_of, zone_asked};
ghost use Rattle.dns_trust.specs.Searching.{probe_value};
ghost use Rattle.dns_trail.specs.StepContexts.{step_context_by};
ghost use Rattle.dns_trail.specs.Ended.{some_if};
ghost use Rattle.dns_trail.specs.Trying.{zone_proof};
ghost use Rattle.dns_model.specs.Trails.{Records};

use crate::step_context::{Earlier, StepContext, answer_of, is_ask, is_plain_ask};
use dns_evidence::{Asked, Reply, Told, Verifier};
use dns_model::{AskRef, Proof};
use dns_record::{DNSClass, Name, NoMemory};
use dns_trust::{NsProbe, ds_query, has_ns_record, ns_query, zone_mark};

/// What the zone of a name leaves to what is unsigned in it, by the asks of the search for it; None where these aren't
/// the asks that it makes.
pub(crate) fn search_zone<V: Verifier>(
    context: &StepContext<'_, '_, V>,
    class: DNSClass,
    name: &Name,
    asks: &[AskRef],
) -> Result<Option<Proof>, NoMemory>
    ensures { IfOk result (λ m. (start : Labels) → m ≡ option_map zone_proof
        (search_by (step_context_by V.answers context.now) class.0 start name.now asks.now)) }
{
    if name.is_root() {
        return Ok(bogus_if_last(asks));
    }
    let Some((ask, left)) = asks.split_first() else {
        return Ok(None);
    };
    let question = ns_query(name, class)?;
    if !is_plain_ask(context, &question, *ask) {
        return Ok(None);
    }
    // The search goes on above by calling itself, so the question is freed first.
    drop(question);
    match probe_by(&context.earlier, name, *ask) {
        NsProbe::Found => ask_zone(context, class, name, left),
        NsProbe::Absent => {
            let above = name.base_name()?;
            search_zone(context, class, &above, left)
        }
        NsProbe::Failed => Ok(bogus_if_last(left)),
    }
}

// Bogus, where no ask is left.
fn bogus_if_last(left: &[AskRef]) -> Option<Proof>
    ensures { result ≡ some_if (is_empty left.now) Proof.Bogus }
{
    if left.is_empty() {
        Some(Proof::Bogus)
    } else {
        None
    }
}

// What a zone leaves to what is unsigned in it, by the one ask for its DS set that is left.
fn ask_zone<V: Verifier>(
    context: &StepContext<'_, '_, V>,
    class: DNSClass,
    zone: &Name,
    asks: &[AskRef],
) -> Result<Option<Proof>, NoMemory>
    ensures { IfOk result (λ m. m ≡ option_map zone_proof
        (zone_asked (step_context_by V.answers context.now) class.0 zone.now asks.now)) }
{
    let Some((ask, left)) = asks.split_first() else {
        return Ok(None);
    };
    let question = ds_query(zone.try_clone()?, class);
    if !left.is_empty() || !is_ask(context, &question, *ask) {
        return Ok(None);
    }
    let answer = answer_of(&context.earlier, *ask);
    let mark = zone_mark(context.alloc, context.judge.verifier, class, zone, answer)?;
    Ok(Some(mark))
}

// What a plain ask for the NS records of a name came to.
fn probe_by(earlier: &Earlier<'_>, name: &Name, ask: AskRef) -> NsProbe
    ensures { probe_value result ≡ probe_in earlier.now name.now ask }
{
    match ask {
        AskRef::Step(number) => match earlier.steps.get(number as usize) {
            Some(step) => probe_at(name, step),
            None => NsProbe::Failed,
        },
        AskRef::TooDeep | AskRef::TooMany => NsProbe::Failed,
    }
}

// What a step that was a plain ask for the NS records of a name came to.
fn probe_at(name: &Name, step: &Asked) -> NsProbe
    ensures { probe_value result ≡ probe_of name.now step.now.reply }
{
    match &step.reply {
        Reply::Told(told) => probe_told(name, told),
        Reply::Fault => NsProbe::Failed,
    }
}

// A reply that says that there are no records leads on, whatever records come with it.
fn probe_told(name: &Name, told: &Told) -> NsProbe
    ensures { probe_value result ≡ probe_of name.now (Records told.now.0 told.now.1) }
{
    if !told.empty && has_ns_record(name, &told.answers, &told.authorities, &told.additionals) {
        NsProbe::Found
    } else {
        NsProbe::Absent
    }
}
