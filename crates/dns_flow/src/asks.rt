//! What a step asks, and what an ask comes to (RFC 4035, 4.2).

ghost use Rattle.std.specs.Prelude.{◌≡◌};
ghost use Rattle.dns_model.specs.SoundAnswers.{told_by};
ghost use Rattle.dns_model.specs.Trails.{Records};
ghost use Rattle.dns_rules.specs.Derivation.{probe_of as probe_from};
ghost use Rattle.dns_trust.specs.Searching.{probe_value};
ghost use Rattle.dns_trust.specs.Verdicts.{listed};
ghost use Rattle.dns_flow.specs.Phases.{answer_in, probe_in};
ghost use Rattle.dns_flow.specs.Values.{got_value};

use dns_evidence::ChainedSet;
use dns_message::Message;
use dns_record::{Name, Query};
use dns_trust::{NsProbe, has_ns_record};

/// An ask: its question, and whether its reply is judged or only seen.
#[derive(Drop)]
pub struct Ask {
    /// The question.
    pub query: Query,
    /// The reply is to be judged, and its sets are the answer; else it is only seen.
    pub judged: bool,
}

/// What an ask came to.
pub enum Got {
    /// The judged sets of its answer; None where it was refused, met a fault or has no answer.
    Answer(Option<Vec<ChainedSet>>),
    /// What was seen of NS records in the reply to a plain ask.
    Probe(NsProbe),
}

// By hand, so that a function that lets one go calls this.
impl Drop for Got {
    fn drop(self) {
        match self {
            Got::Answer(_) => {}
            Got::Probe(_) => {}
        }
    }
}

/// What a message shows of a name's NS records. A reply that says that there are no records leads on, whatever records come with
/// it (RFC 4035, 4.3).
pub fn probe_of(name: &Name, message: &Message, empty: bool) -> NsProbe
    ensures { probe_value result ≡ probe_from name.now (Records (told_by message.now) empty) }
{
    let found = has_ns_record(
        name,
        &message.answers,
        &message.authorities,
        &message.additionals,
    );
    if !empty && found {
        NsProbe::Found
    } else {
        NsProbe::Absent
    }
}

impl Got {
    /// The answer, where the reply was to be judged.
    pub(crate) fn into_answer(self) -> Option<Vec<ChainedSet>>
        ensures { listed result ≡ answer_in (got_value self) }
    {
        match self {
            Got::Answer(answer) => answer,
            Got::Probe(_) => None,
        }
    }

    /// What was seen, where the reply was only to be seen.
    pub(crate) fn into_seen(self) -> NsProbe
        ensures { probe_value result ≡ probe_in (got_value self) }
    {
        match self {
            Got::Answer(_) => NsProbe::Failed,
            Got::Probe(probe) => probe,
        }
    }
}
