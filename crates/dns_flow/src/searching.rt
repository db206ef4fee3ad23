//! The search for the zone of a name: from the name up to the root NS records are asked for, until they are found (RFC 4035,
//! 4.3 and 5.2).

ghost use Rattle.std.specs.Prelude.{◌≡◌, IfOk};
ghost use Rattle.dns_model.specs.SoundAnswers.{told_by};
ghost use Rattle.dns_outcome.specs.Outcome.{outcome_value};
ghost use Rattle.dns_trust.specs.Searching.{probe_value};
ghost use Rattle.dns_flow.specs.Phases.{search_at as search_from, after_probe as after_seen, outcome_by_mark};
ghost use Rattle.dns_flow.specs.Values.{phase_value};

use crate::phases::{Phase, Seeker};
use dns_message::Message;
use dns_model::Proof;
use dns_outcome::{Outcome, outcome_by_zone};
use dns_record::{DNSClass, Name, NoMemory, Query};
use dns_trust::NsProbe;
use std::alloc::Global;

/// The search at a name. At the root no zone was found.
pub(crate) fn search_at(
    alloc: Global,
    query: &Query,
    message: &Message,
    seeker: Seeker,
    class: DNSClass,
    name: Name,
) -> Phase
    ensures { phase_value result ≡ search_from query.now (told_by message.now) seeker class.0 name }
{
    if name.is_root() {
        seeker.found(alloc, query, message, Proof::Bogus)
    } else {
        Phase::AtName(seeker, class, name)
    }
}

/// Where what was seen of a name's NS records leads the search.
pub(crate) fn after_probe(
    alloc: Global,
    query: &Query,
    message: &Message,
    seeker: Seeker,
    class: DNSClass,
    name: Name,
    seen: NsProbe,
) -> Result<Phase, NoMemory>
    ensures { IfOk result (λ p. phase_value p
        ≡ after_seen query.now (told_by message.now) seeker class.0 name (probe_value seen)) }
{
    match seen {
        NsProbe::Found => Ok(Phase::AtZone(seeker, class, name)),
        NsProbe::Absent => {
            let above = name.base_name()?;
            Ok(search_at(alloc, query, message, seeker, class, above))
        }
        NsProbe::Failed => Ok(seeker.found(alloc, query, message, Proof::Bogus)),
    }
}

// The outcome of a step whose query's zone leaves this mark.
pub(crate) fn outcome_of_mark(query: &Query, message: &Message, mark: Proof) -> Outcome
    ensures { outcome_value result ≡ outcome_by_mark query.now (told_by message.now) mark }
{
    outcome_by_zone(query, message, mark)
}
