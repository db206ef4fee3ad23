//! The phases of a set and of an ending: what each needs, and where what an ask came to leads it (RFC 4035, 5.2, 5.3 and 5.4).

ghost use Rattle.std.specs.Prelude.{◌≡◌, ◌<◌, IfOk};
ghost use Rattle.dns_model.specs.SoundAnswers.{told_by};
ghost use Rattle.dns_cache.specs.Kinds.{kind_value};
ghost use Rattle.dns_trust.specs.Judge.{judge_of};
ghost use Rattle.dns_flow.specs.Causes.{cause_after as cause_by};
ghost use Rattle.dns_flow.specs.Phases.{turn as turn_of, after as after_got, found as found_by};
ghost use Rattle.dns_flow.specs.Values.{got_value, phase_value, need_value, Keeps};

use crate::asks::{Ask, Got};
use crate::causes::{after_seen, after_try, keys_after, sought_cause};
use crate::searching::{after_probe, outcome_of_mark};
use crate::sets::after_ds;
use crate::signatures::{after_signature, signature_need};
use dns_cache::ProofErrorKind;
use dns_evidence::{ChainedSet, PlacedSet, Verifier};
use dns_message::Message;
use dns_model::Proof;
use dns_outcome::Outcome;
use dns_record::{DNSClass, Name, NoMemory, Query, RecordSet};
use dns_trust::{
    Judge, Verdict, ds_ask_of, ds_query, mark_of_row, ns_query, unsigned_set, zone_mark, zone_row,
};
use std::alloc::Global;

/// For what a zone is searched.
pub enum Seeker {
    /// For an unsigned set.
    Set(PlacedSet),
    /// For the ending of a step.
    Ending,
}

// By hand, so that a function that lets one go calls this.
impl Drop for Seeker {
    fn drop(self) {
        match self {
            Seeker::Set(_) => {}
            Seeker::Ending => {}
        }
    }
}

/// How far a set or the ending of a step has come (RFC 4035, 5.2, 5.3 and 5.4).
pub enum Phase {
    /// The set has its mark.
    Marked(ChainedSet),
    /// A key set needs the DS set of its owner.
    NeedsDs(PlacedSet),
    /// The first signatures of a set have these verdicts, none of which proves it, and the next one asks.
    Trying(PlacedSet, Vec<Verdict>),
    /// The search for a zone, in a class, has come to a name.
    AtName(Seeker, DNSClass, Name),
    /// The search has come to the zone.
    AtZone(Seeker, DNSClass, Name),
    /// The step has its outcome.
    Concluded(Outcome),
}

// By hand, so that a function that lets one go calls this.
impl Drop for Phase {
    fn drop(self) {
        match self {
            Phase::Marked(_) => {}
            Phase::NeedsDs(_) => {}
            Phase::Trying(_, _) => {}
            Phase::AtName(_, _, _) => {}
            Phase::AtZone(_, _, _) => {}
            Phase::Concluded(_) => {}
        }
    }
}

/// What a phase needs.
#[derive(Drop)]
pub enum Need {
    /// Nothing more: the set has its mark and its chain.
    SetEnds(ChainedSet),
    /// Nothing more: the step ends with this outcome, which never is `NeedsZone`.
    StepEnds(Outcome),
    /// An ask. What it comes to leads on from the phase.
    Asks(Ask, Phase),
}

/// A phase that asks, with its ask.
pub(crate) fn asks(query: Query, judged: bool, phase: Phase) -> Need
    ensures { result ≡ Need.Asks (record { query = query; judged = judged }) phase }
{
    Need::Asks(Ask { query, judged }, phase)
}

/// The set itself.
pub(crate) fn set_of(placed: &PlacedSet) -> &RecordSet
    ensures { result.now ≡ placed.now.set }
{
    &placed.set
}

impl Seeker {
    /// What the mark that a zone leaves to what is unsigned in it comes to for whoever searched the zone.
    pub(crate) fn found(self, alloc: Global, query: &Query, message: &Message, mark: Proof) -> Phase
        ensures { phase_value result ≡ found_by query.now (told_by message.now) self mark }
    {
        match self {
            Seeker::Set(placed) => Phase::Marked(unsigned_set(alloc, placed, mark)),
            Seeker::Ending => Phase::Concluded(outcome_of_mark(query, message, mark)),
        }
    }
}

impl Phase {
    /// What a phase needs.
    #[tactic(auto, unfolding(crate::specs::Phases::turn))]
    pub fn turn(self, alloc: Global) -> Result<Need, NoMemory>
        ensures need { IfOk result (λ n. need_value n ≡ turn_of (phase_value self)) }
        ensures keeps { IfOk result (λ n. Keeps self n) }
    {
        match self {
            Phase::Marked(set) => Ok(Need::SetEnds(set)),
            Phase::NeedsDs(placed) => {
                let question = ds_ask_of(set_of(&placed))?;
                Ok(asks(question, true, Phase::NeedsDs(placed)))
            }
            Phase::Trying(placed, verdicts) => signature_need(alloc, placed, verdicts),
            Phase::AtName(seeker, class, name) => {
                let question = ns_query(&name, class)?;
                Ok(asks(question, false, Phase::AtName(seeker, class, name)))
            }
            Phase::AtZone(seeker, class, zone) => {
                let question = ds_query(zone.try_clone()?, class);
                Ok(asks(question, true, Phase::AtZone(seeker, class, zone)))
            }
            Phase::Concluded(outcome) => Ok(Need::StepEnds(outcome)),
        }
    }

    /// The phase to which what an ask came to leads, in the step whose query got this message.
    #[tactic(auto, unfolding(crate::specs::Phases::after))]
    pub fn after<V: Verifier>(
        self,
        alloc: Global,
        judge: &Judge<'_, V>,
        query: &Query,
        message: &Message,
        got: Got,
    ) -> Result<Phase, NoMemory>
        ensures { IfOk result (λ p. phase_value p ≡ after_got (judge_of V.answers judge.now) query.now (told_by message.now)
            (phase_value self) (got_value got)) }
    {
        match self {
            Phase::Marked(set) => Ok(Phase::Marked(set)),
            Phase::NeedsDs(placed) => after_ds(alloc, judge, placed, &got.into_answer()),
            Phase::Trying(placed, verdicts) => {
                after_signature(alloc, judge, query, placed, verdicts, &got.into_answer())
            }
            Phase::AtName(seeker, class, name) => {
                after_probe(alloc, query, message, seeker, class, name, got.into_seen())
            }
            Phase::AtZone(seeker, class, zone) => {
                let mark = zone_mark(alloc, judge.verifier, class, &zone, &got.into_answer())?;
                Ok(seeker.found(alloc, query, message, mark))
            }
            Phase::Concluded(outcome) => Ok(Phase::Concluded(outcome)),
        }
    }

    /// The phase to which what an ask came to leads, as `after` says, and the cause after it. What an answer shows of a zone
    /// tells both, and is found once: that may take hundreds of hashes.
    #[tactic(auto, using(crate::proofs::Founds::sought), unfolding(crate::specs::Causes::cause_after, crate::specs::Phases::after))]
    pub fn after_with_cause<V: Verifier>(
        self,
        alloc: Global,
        judge: &Judge<'_, V>,
        query: &Query,
        message: &Message,
        got: Got,
        cause: ProofErrorKind,
    ) -> Result<(Phase, ProofErrorKind), NoMemory>
        ensures phase { IfOk result (λ p. phase_value p.0 ≡ after_got (judge_of V.answers judge.now) query.now
            (told_by message.now) (phase_value self) (got_value got)) }
        ensures cause { IfOk result (λ p. kind_value p.1 ≡ cause_by (judge_of V.answers judge.now) (phase_value self)
            (got_value got) (kind_value cause)) }
    {
        match self {
            Phase::Marked(set) => Ok((Phase::Marked(set), cause)),
            Phase::NeedsDs(placed) => keys_after(alloc, judge, placed, &got.into_answer()),
            Phase::Trying(placed, verdicts) => {
                let answer = got.into_answer();
                let cause = after_try(alloc, set_of(&placed), verdicts.len(), &answer, cause)?;
                let phase = after_signature(alloc, judge, query, placed, verdicts, &answer)?;
                Ok((phase, cause))
            }
            Phase::AtName(seeker, class, name) => {
                let seen = got.into_seen();
                let cause = after_seen(class, &name, seen, cause)?;
                let phase = after_probe(alloc, query, message, seeker, class, name, seen)?;
                Ok((phase, cause))
            }
            Phase::AtZone(seeker, class, zone) => {
                let row = zone_row(alloc, judge.verifier, class, &zone, &got.into_answer())?;
                let cause = sought_cause(&seeker, class, &zone, row, cause)?;
                let phase = seeker.found(alloc, query, message, mark_of_row(row));
                Ok((phase, cause))
            }
            Phase::Concluded(outcome) => Ok((Phase::Concluded(outcome), cause)),
        }
    }
}
