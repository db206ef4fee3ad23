//! Why a set isn't Secure, as its asks come to something, and what is found of it (RFC 4035, 4.3, 5.2 and 5.3).

ghost use Rattle.std.specs.Prelude.{◌≡◌, List, None, Some, IfOk, slice_get};
ghost use Rattle.std.specs.Option.{option_and_then, option_map};
ghost use Rattle.dns_model.specs.declared.trail.AskRef.{AskRef};
ghost use Rattle.dns_model.specs.SoundAnswers.{PlacedSet, Told};
ghost use Rattle.dns_rules.specs.Asking.{ask_of};
ghost use Rattle.dns_rules.specs.ChainedSets.{bare};
ghost use Rattle.dns_rules.specs.Delegations.{zone_verdict};
ghost use Rattle.dns_rules.specs.Derivation.{StepContext};
ghost use Rattle.dns_rules.specs.MarkedSets.{decider as decider_of};
ghost use Rattle.dns_rules.specs.ProofErrors as cause;
ghost use Rattle.dns_rules.specs.Unsigned.{ns_question};
ghost use Rattle.dns_cache.specs.Kinds.{kind_value};
ghost use Rattle.dns_cache.specs.Proofs.{ttl_by as ttl_under};
ghost use Rattle.dns_trust.specs.Beside.{chained_beside};
ghost use Rattle.dns_trust.specs.Judge.{judge_of};
ghost use Rattle.dns_trust.specs.Searching.{probe_value};
ghost use Rattle.dns_trust.specs.Verdicts.{listed};
ghost use Rattle.dns_flow.specs.Causes.{found_of as found_in, start_cause as cause_begins, is_net as is_failed_ask, after_seen as seen_cause, after_try as cause_by_try, keys_cause as cause_by_ds, is_signed_row, row_cause as cause_of_row, sought_cause as cause_of_sought, unsigned_row_cause as cause_of_unsigned};
ghost use Rattle.dns_flow.specs.CauseRows.{cause_row, caused};
ghost use Rattle.dns_flow.specs.Leads.{bare_phase, led_to};
ghost use Rattle.dns_flow.specs.Phases.{Marked, NeedValue, first_signatures as first_of, start_set as set_begins};
ghost use Rattle.dns_flow.specs.Values.{phase_value};

use crate::phases::{Phase, Seeker, set_of};
use crate::signatures::question_at;
use dns_cache::{ProofError, ProofErrorKind, RrsetProof};
use dns_evidence::{ChainedSet, MarkedSet, PlacedSet, Verifier, decider};
use dns_model::Proof;
use dns_rdata::Rrsig;
use dns_record::{DNSClass, Name, NoMemory, Record, RecordSet};
use dns_trust::{
    Judge, NsProbe, ZoneRow, ds_query, is_key_set, judged_beside, needs_zone, ns_query, set_start,
};
use std::alloc::Global;

/// The cause with which a set begins: of a key set no key was found, of an unsigned one no zone, and of another no
/// signature was asked for. From there exactly the asks that lead a set to its mark lead to the cause that the row of the
/// tables names.
#[tactic(auto, using(crate::proofs::Caused::set_caused), unfolding(crate::specs::Causes::start_cause))]
pub fn start_cause(set: &RecordSet) -> Result<ProofErrorKind, NoMemory>
    ensures begins { IfOk result (λ k. kind_value k ≡ cause_begins set.now) }
    ensures rows { (g : StepContext) (told : Told) (placed : PlacedSet) (asks : List AskRef) (end : NeedValue)
        → led_to g told asks (set_begins g.judge g.query told placed) ≡ Some end
        → cause_row g placed asks ≡ Some (caused g told asks (bare_phase (set_begins g.judge g.query told placed))
        (cause_begins placed.set)) }
{
    if is_key_set(set) {
        let name = set.name.try_clone()?;
        return Ok(ProofErrorKind::DnskeyNotFound { name });
    }
    if needs_zone(set) {
        let name = set_start(set)?;
        return Ok(ProofErrorKind::DsRecordShouldExist { name });
    }
    not_present(set)
}

// The set has no signature that could be asked for.
fn not_present(set: &RecordSet) -> Result<ProofErrorKind, NoMemory>
    ensures { IfOk result (λ k. kind_value k ≡ cause.RrsigsNotPresent set.now.owner set.now.rtype) }
{
    let name = set.name.try_clone()?;
    Ok(ProofErrorKind::RrsigsNotPresent {
        name,
        record_type: set.record_type,
    })
}

// No signature proves the set.
fn unverified(set: &RecordSet) -> Result<ProofErrorKind, NoMemory>
    ensures { IfOk result (λ k. kind_value k ≡ cause.RrsigsUnverified set.now.owner set.now.rtype) }
{
    let name = set.name.try_clone()?;
    Ok(ProofErrorKind::RrsigsUnverified {
        name,
        record_type: set.record_type,
    })
}

/// The phase and the cause to which the answer to the ask for the DS set of its owner leads a key set.
#[tactic(auto, using(crate::proofs::Founds::cause_of_row))]
pub(crate) fn keys_after<V: Verifier>(
    alloc: Global,
    judge: &Judge<'_, V>,
    placed: PlacedSet,
    answer: &Option<Vec<ChainedSet>>,
) -> Result<(Phase, ProofErrorKind), NoMemory>
    ensures phase { IfOk result (λ p. phase_value p.0
        ≡ Marked (chained_beside (judge_of V.answers judge.now) placed (listed answer.now))) }
    ensures cause { IfOk result (λ p. kind_value p.1 ≡ cause_by_ds placed.set (zone_verdict (V.answers judge.now.verifier.now)
        placed.set.class placed.set.owner (option_map bare (listed answer.now)))) }
{
    let (set, row) = judged_beside(alloc, judge, placed, answer)?;
    let cause = keys_cause(&set.judged.set, row)?;
    Ok((Phase::Marked(set), cause))
}

// By the row of the DS verdict of a key set's owner.
fn keys_cause(set: &RecordSet, row: ZoneRow) -> Result<ProofErrorKind, NoMemory>
    ensures { IfOk result (λ k. kind_value k
        ≡ cause_of_row (cause.DsRecordsButNoDnskey set.now.owner) set.now.class set.now.owner row) }
{
    if is_signed(row) {
        no_dnskey(set)
    } else {
        row_cause(set.dns_class, &set.name, row)
    }
}

// There are DS records, and no key proves the set by them.
fn no_dnskey(set: &RecordSet) -> Result<ProofErrorKind, NoMemory>
    ensures { IfOk result (λ k. kind_value k ≡ cause.DsRecordsButNoDnskey set.now.owner) }
{
    let name = set.name.try_clone()?;
    Ok(ProofErrorKind::DsRecordsButNoDnskey { name })
}

/// The cause by the row of the DS verdict of a zone that was searched; an ending has no cause of its own.
pub(crate) fn sought_cause(
    seeker: &Seeker,
    class: DNSClass,
    zone: &Name,
    row: ZoneRow,
    cause: ProofErrorKind,
) -> Result<ProofErrorKind, NoMemory>
    ensures { IfOk result (λ k. kind_value k
        ≡ cause_of_sought seeker.now class.0 zone.now row (kind_value cause)) }
{
    match seeker {
        Seeker::Set(placed) => unsigned_cause(set_of(placed), class, zone, row),
        Seeker::Ending => Ok(cause),
    }
}

// By the row of the DS verdict of an unsigned set's zone.
fn unsigned_cause(
    set: &RecordSet,
    class: DNSClass,
    zone: &Name,
    row: ZoneRow,
) -> Result<ProofErrorKind, NoMemory>
    ensures { IfOk result (λ k. kind_value k
        ≡ cause_of_row (cause.RrsigsNotPresent set.now.owner set.now.rtype) class.0 zone.now row) }
{
    if is_signed(row) {
        not_present(set)
    } else {
        row_cause(class, zone, row)
    }
}

// The row says that the zone is signed.
fn is_signed(row: ZoneRow) -> bool
    ensures { result ≡ is_signed_row row }
{
    matches!(row, ZoneRow::Signed)
}

// The cause that the row of a zone's DS verdict names, where the zone isn't signed.
fn row_cause(class: DNSClass, zone: &Name, row: ZoneRow) -> Result<ProofErrorKind, NoMemory>
    ensures { IfOk result (λ k. kind_value k ≡ cause_of_unsigned class.0 zone.now row) }
{
    match row {
        ZoneRow::Unanswered => {
            let name = zone.try_clone()?;
            let query = ds_query(name, class);
            Ok(ProofErrorKind::Net { query })
        }
        ZoneRow::Unsupported => Ok(ProofErrorKind::UnknownKeyAlgorithm),
        ZoneRow::ShownAbsent => {
            let name = zone.try_clone()?;
            Ok(ProofErrorKind::DsResponseInsecure { name })
        }
        ZoneRow::Signed | ZoneRow::NotShown => should_exist(zone),
    }
}

// Neither a DS set of the zone nor its absence is shown.
fn should_exist(zone: &Name) -> Result<ProofErrorKind, NoMemory>
    ensures { IfOk result (λ k. kind_value k ≡ cause.DsRecordShouldExist zone.now) }
{
    let name = zone.try_clone()?;
    Ok(ProofErrorKind::DsRecordShouldExist { name })
}

/// The cause by the ask of the signature at a place: the first ask that failed stays the cause.
pub(crate) fn after_try(
    alloc: Global,
    set: &RecordSet,
    place: usize,
    answer: &Option<Vec<ChainedSet>>,
    cause: ProofErrorKind,
) -> Result<ProofErrorKind, NoMemory>
    ensures { IfOk result (λ k. kind_value k ≡ cause_by_try (kind_value cause) set.now
        (option_and_then (ask_of set.now) (slice_get (first_of set.now) place)) (listed answer.now)) }
{
    if is_net(&cause) {
        return Ok(cause);
    }
    if answer.is_some() {
        return unverified(set);
    }
    match question_at(alloc, set, place)? {
        Some(query) => Ok(ProofErrorKind::Net { query }),
        None => unverified(set),
    }
}

// An ask failed.
fn is_net(cause: &ProofErrorKind) -> bool
    ensures { result ≡ is_failed_ask (kind_value cause.now) }
{
    matches!(cause, ProofErrorKind::Net { .. })
}

/// The cause by what was seen of a name's NS records.
pub(crate) fn after_seen(
    class: DNSClass,
    name: &Name,
    seen: NsProbe,
    cause: ProofErrorKind,
) -> Result<ProofErrorKind, NoMemory>
    ensures { IfOk result (λ k. kind_value k
        ≡ seen_cause (kind_value cause) (ns_question class.0 name.now) (probe_value seen)) }
{
    match seen {
        NsProbe::Found | NsProbe::Absent => Ok(cause),
        NsProbe::Failed => {
            let query = ns_query(name, class)?;
            Ok(ProofErrorKind::Net { query })
        }
    }
}

/// What is found of a judged set at a moment, in seconds since 1970: Secure, with the ttl that the signature leaves that
/// decided, if one did; Insecure by a signature; or an error, with this cause.
#[tactic(auto, unfolding(crate::specs::Causes::found_of))]
pub fn found_of(
    now: u64,
    judged: &MarkedSet,
    cause: ProofErrorKind,
) -> Result<RrsetProof, ProofError>
    ensures { result ≡ found_in now judged.now (kind_value cause) }
{
    if judged.mark == Proof::Secure {
        return Ok(RrsetProof {
            proof: Proof::Secure,
            adjusted_ttl: ttl_left(now, judged),
            rrsig_index: judged.sig,
        });
    }
    if judged.sig.is_some() {
        return Ok(RrsetProof {
            proof: judged.mark,
            adjusted_ttl: None,
            rrsig_index: judged.sig,
        });
    }
    Err(ProofError::new(judged.mark, cause))
}

// The ttl that the signature leaves that decided.
fn ttl_left(now: u64, judged: &MarkedSet) -> Option<u32>
    ensures { result ≡ option_map (ttl_under now judged.now.set) (decider_of judged.now) }
{
    let sig = decider(judged)?;
    Some(ttl_by(now, &judged.set, sig))
}

// The ttl that a signature leaves to a set.
fn ttl_by(now: u64, set: &RecordSet, sig: &Record) -> u32
    ensures { result ≡ ttl_under now set.now sig.now }
{
    set.first_ttl().min(Rrsig::ttl_left_by(sig, now))
}
