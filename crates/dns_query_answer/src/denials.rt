//! What is denied, in words, and why that isn't shown, where it isn't (RFC 4035, 5.4; RFC 5155, 8; RFC 9276, 3.2).
ghost use Rattle.std.specs.Prelude.{◌≡◌, ◌==◌, ◌++◌, position, OnOk};
ghost use Rattle.std.specs.List.{find, list_any};
ghost use Rattle.std.specs.Option.{option_copied, option_map};
ghost use Rattle.dns_evidence.specs.Trail.{heard_value};
ghost use Rattle.dns_model.specs.declared.section.Section.TheVariants.{Authority};
ghost use Rattle.dns_model.specs.Types.{type_nsec3};
ghost use Rattle.dns_rules.specs.Delegations.{is_insecure as is_insecure_mark};
ghost use Rattle.dns_query_answer.specs.DenialWords.{absent_words, at_name_words, claim_words, code_fault_words, ds_record_words, denial_blames as is_blamed_for, denial_reason, excuse_words, hash_heard_words, hash_told_words, hashed_words, iterations_in as iterations_of, missing_words, name_heard_words, name_told_words, no_denial_words, no_name_words, no_record_words, no_type_words, plain_words, record_words, refused_words, reply_fault_words, unfollowed_words, unsigned_zone_words, unsupported_words, zone_words};
ghost use Rattle.dns_query_answer.specs.PlaceValues.{explained_by, place_of};
ghost use Rattle.dns_query_answer.specs.Places.{causes_of, heard_section, place_by};

use crate::cause_words::push_unsigned;
use crate::following::{blamed_ask, is_denial_type, push_ask_fault};
use crate::nsec_faults::push_nsec_fault;
use crate::nsec3_faults::push_nsec3_fault;
use crate::places::{Context, Place, place_at, section_of};
use crate::reasons::{push_next, push_reason};
use crate::wildcards::has_answer;
use crate::words::{push_code, push_name};
use dns_evidence::{Asked, JudgedSet, Reply, Told};
use dns_model::{AskRef, Proof, Section};
use dns_rdata::Nsec3;
use dns_record::{Name, NoMemory, Query, Record, RecordType, ResponseCode};
use dns_text::{push_decimal, push_text, push_type};

/// Names that are hashed more often prove less (RFC 9276, 3.2).
const SOFT_LIMIT: u16 = 100;

// Appends that there is no such name.
#[tactic(auto, unfolding(crate::specs::DenialWords::no_name_words))]
fn push_no_name(into: &mut Vec<u8>, name: &Name) -> Result<(), NoMemory>
    ensures { OnOk result (into.new.items ≡ into.old.items ++ no_name_words name.now) }
{
    push_text(into, b"there is no name ")?;
    push_name(into, name)
}

// Appends of which type there is nothing.
#[tactic(auto, unfolding(crate::specs::DenialWords::no_type_words))]
fn push_no_type(into: &mut Vec<u8>, record_type: RecordType) -> Result<(), NoMemory>
    ensures { OnOk result (into.new.items ≡ into.old.items ++ no_type_words record_type.0) }
{
    push_text(into, b"there is no ")?;
    push_type(into, record_type)
}

// Appends where there is nothing.
#[tactic(auto, unfolding(crate::specs::DenialWords::at_name_words))]
fn push_at_name(into: &mut Vec<u8>, name: &Name) -> Result<(), NoMemory>
    ensures { OnOk result (into.new.items ≡ into.old.items ++ at_name_words name.now) }
{
    push_text(into, b" record at ")?;
    push_name(into, name)
}

// Appends that there is no record of the type.
#[tactic(auto, unfolding(crate::specs::DenialWords::no_record_words))]
fn push_no_record(into: &mut Vec<u8>, query: &Query) -> Result<(), NoMemory>
    ensures { OnOk result (into.new.items ≡ into.old.items ++ no_record_words query.now) }
{
    push_no_type(into, query.query_type)?;
    push_at_name(into, &query.name)
}

/// Appends that there is no such name, or no record of the type there.
#[tactic(auto, unfolding(crate::specs::DenialWords::absent_words))]
pub(crate) fn push_absent(
    into: &mut Vec<u8>,
    query: &Query,
    code: ResponseCode,
) -> Result<(), NoMemory>
    ensures { OnOk result (into.new.items ≡ into.old.items ++ absent_words query.now code.0) }
{
    if code == ResponseCode::NX_DOMAIN {
        push_no_name(into, &query.name)
    } else {
        push_no_record(into, query)
    }
}

/// Appends that the records answer, or that there are none.
#[tactic(auto, unfolding(crate::specs::DenialWords::claim_words))]
pub(crate) fn push_claim(
    into: &mut Vec<u8>,
    query: &Query,
    code: ResponseCode,
    answers: &[Record],
) -> Result<(), NoMemory>
    ensures { OnOk result (into.new.items ≡ into.old.items ++ claim_words query.now code.0 answers.now) }
{
    if has_answer(query, answers) {
        push_text(into, b"this is the answer")
    } else {
        push_absent(into, query, code)
    }
}

// Whether a set is to blame for a denial of this mark.
fn denial_blames(proof: Proof, set: &JudgedSet) -> bool
    ensures { result ≡ is_blamed_for proof set.now }
{
    set.section == Section::Authority
        && set.mark != Proof::Secure
        && (proof == Proof::Insecure || is_denial_type(set.record_type))
}

// Appends that the server failed or refused to answer, or what the NSEC3 records of its reply leave open.
fn push_told_by_hash(into: &mut Vec<u8>, query: &Query, told: &Told) -> Result<(), NoMemory>
    ensures { OnOk result (into.new.items ≡ into.old.items ++ hash_told_words query.now told.now.0) }
{
    if told.code.can_deny() {
        push_nsec3_fault(into, query, told)
    } else {
        push_refused(into, told.code)
    }
}

// Appends the same of what was heard.
fn push_heard_by_hash(into: &mut Vec<u8>, query: &Query, reply: &Reply) -> Result<(), NoMemory>
    ensures { OnOk result (into.new.items ≡ into.old.items ++ hash_heard_words query.now (heard_value reply.now)) }
{
    match reply {
        Reply::Told(told) => push_told_by_hash(into, query, told),
        Reply::Fault => Ok(()),
    }
}

// Appends what NSEC3 records leave open.
#[tactic(auto, unfolding(crate::specs::DenialWords::hashed_words))]
fn push_hashed(
    into: &mut Vec<u8>,
    proof: Proof,
    iterations: u16,
    top: &Asked,
) -> Result<(), NoMemory>
    ensures { OnOk result (into.new.items ≡ into.old.items ++ hashed_words proof iterations top.now) }
{
    if iterations > SOFT_LIMIT {
        push_text(into, b": names are hashed ")?;
        push_decimal(into, u64::from(iterations))?;
        return push_text(into, b" times more, which is too often");
    }
    if proof == Proof::Insecure {
        return push_text(into, b": an NSEC3 record has the flag Opt-Out");
    }
    push_heard_by_hash(into, &top.query, &top.reply)
}

// Whether a record of this type is among some.
fn has_type(record_type: RecordType, records: &[Record]) -> bool
    ensures { result ≡ list_any (λ r. r.rtype == record_type.0) records.now }
{
    records.iter().any(|one| one.record_type == record_type)
}

// Appends the zone whose DS records aren't supported.
#[tactic(auto, unfolding(crate::specs::DenialWords::ds_record_words))]
fn push_ds_record(into: &mut Vec<u8>, zone: &Name) -> Result<(), NoMemory>
    ensures { OnOk result (into.new.items ≡ into.old.items ++ ds_record_words zone.now) }
{
    push_text(into, b": no DS record of ")?;
    push_name(into, zone)
}

// Appends that no DS record of a zone is supported.
#[tactic(auto, unfolding(crate::specs::DenialWords::unsupported_words))]
fn push_unsupported(into: &mut Vec<u8>, zone: &Name) -> Result<(), NoMemory>
    ensures { OnOk result (into.new.items ≡ into.old.items ++ unsupported_words zone.now) }
{
    push_ds_record(into, zone)?;
    push_text(
        into,
        b" is of an algorithm and a digest type that are supported",
    )
}

// Appends that a zone has no DS record.
#[tactic(auto, unfolding(crate::specs::DenialWords::unsigned_zone_words))]
fn push_unsigned_zone(into: &mut Vec<u8>, zone: &Name) -> Result<(), NoMemory>
    ensures { OnOk result (into.new.items ≡ into.old.items ++ unsigned_zone_words zone.now) }
{
    push_text(into, b": ")?;
    push_unsigned(into, zone)
}

// Appends that no DS record of a zone is supported, or that it has none.
#[tactic(auto, unfolding(crate::specs::DenialWords::unfollowed_words))]
fn push_unfollowed(into: &mut Vec<u8>, step: &Asked) -> Result<(), NoMemory>
    ensures { OnOk result (into.new.items ≡ into.old.items ++ unfollowed_words step.now) }
{
    if has_type(RecordType::DS, section_of(&step.reply, Section::Answer)) {
        push_unsupported(into, &step.query.name)
    } else {
        push_unsigned_zone(into, &step.query.name)
    }
}

// Appends the same of the zone that an ask was for.
fn push_zone(into: &mut Vec<u8>, steps: &[Asked], made: Option<AskRef>) -> Result<(), NoMemory>
    ensures { OnOk result (into.new.items ≡ into.old.items ++ zone_words steps.now made) }
{
    let Some(AskRef::Step(number)) = made else {
        return Ok(());
    };
    match steps.get(number as usize) {
        Some(step) => push_unfollowed(into, step),
        None => Ok(()),
    }
}

// Appends that the server failed or refused to answer.
#[tactic(auto, unfolding(crate::specs::DenialWords::refused_words))]
fn push_refused(into: &mut Vec<u8>, code: ResponseCode) -> Result<(), NoMemory>
    ensures { OnOk result (into.new.items ≡ into.old.items ++ refused_words code.0) }
{
    push_text(into, b": the server answered with ")?;
    push_code(into, code)
}

// Appends that no record of a reply denies anything.
fn push_no_denial(into: &mut Vec<u8>) -> Result<(), NoMemory>
    ensures { OnOk result (into.new.items ≡ into.old.items ++ no_denial_words) }
{
    push_text(into, b": no NSEC or NSEC3 record is in the reply")
}

// Appends one of the two, by the reply's code.
fn push_code_fault(into: &mut Vec<u8>, code: ResponseCode) -> Result<(), NoMemory>
    ensures { OnOk result (into.new.items ≡ into.old.items ++ code_fault_words code.0) }
{
    if code.can_deny() {
        push_no_denial(into)
    } else {
        push_refused(into, code)
    }
}

// Appends why a reply denies nothing.
fn push_reply_fault(into: &mut Vec<u8>, reply: &Reply) -> Result<(), NoMemory>
    ensures { OnOk result (into.new.items ≡ into.old.items ++ reply_fault_words (heard_value reply.now)) }
{
    match reply {
        Reply::Told(told) => push_code_fault(into, told.code),
        Reply::Fault => push_no_denial(into),
    }
}

// Appends that nothing is denied, and that a query failed, if it did.
#[tactic(auto, unfolding(crate::specs::DenialWords::missing_words))]
fn push_missing(
    into: &mut Vec<u8>,
    top: &Asked,
    steps: &[Asked],
    made: Option<AskRef>,
) -> Result<(), NoMemory>
    ensures { OnOk result (into.new.items ≡ into.old.items ++ missing_words top.now steps.now made) }
{
    push_reply_fault(into, &top.reply)?;
    push_ask_fault(into, steps, made)
}

// Appends why a denial isn't shown, where no record should show it.
#[tactic(auto, unfolding(crate::specs::DenialWords::excuse_words))]
fn push_excuse(
    into: &mut Vec<u8>,
    context: &Context<'_>,
    proof: Proof,
    top: &Asked,
) -> Result<(), NoMemory>
    ensures { OnOk result (into.new.items ≡ into.old.items ++ excuse_words (explained_by context.now) proof top.now) }
{
    let made = blamed_ask(context.steps, &top.excuse);
    if proof == Proof::Insecure {
        push_zone(into, context.steps, made)
    } else {
        push_missing(into, top, context.steps, made)
    }
}

// The first record of a type.
fn first_of(record_type: RecordType, records: &[Record]) -> Option<&Record>
    ensures { option_copied result ≡ find (λ r. r.rtype == record_type.0) records.now }
{
    records.iter().find(|one| one.record_type == record_type)
}

// How often names are hashed again, by the first NSEC3 record.
fn iterations_in(records: &[Record]) -> Option<u16>
    ensures { result ≡ iterations_of records.now }
{
    let read = Nsec3::of(first_of(RecordType::NSEC3, records)?)?;
    Some(read.iterations)
}

// Appends that the server failed or refused to answer, or what the NSEC records of its reply leave open.
fn push_told_by_name(into: &mut Vec<u8>, query: &Query, told: &Told) -> Result<(), NoMemory>
    ensures { OnOk result (into.new.items ≡ into.old.items ++ name_told_words query.now told.now.0) }
{
    if told.code.can_deny() {
        push_nsec_fault(into, query, told)
    } else {
        push_refused(into, told.code)
    }
}

// Appends the same of what was heard.
fn push_heard_by_name(into: &mut Vec<u8>, query: &Query, reply: &Reply) -> Result<(), NoMemory>
    ensures { OnOk result (into.new.items ≡ into.old.items ++ name_heard_words query.now (heard_value reply.now)) }
{
    match reply {
        Reply::Told(told) => push_told_by_name(into, query, told),
        Reply::Fault => Ok(()),
    }
}

// Appends why a denial isn't shown, where no NSEC3 record should show it.
#[tactic(auto, unfolding(crate::specs::DenialWords::plain_words))]
fn push_plain(
    into: &mut Vec<u8>,
    context: &Context<'_>,
    proof: Proof,
    top: &Asked,
) -> Result<(), NoMemory>
    ensures { OnOk result (into.new.items ≡ into.old.items ++ plain_words (explained_by context.now) proof top.now) }
{
    if has_type(RecordType::NSEC, section_of(&top.reply, Section::Authority)) {
        push_heard_by_name(into, &top.query, &top.reply)
    } else {
        push_excuse(into, context, proof, top)
    }
}

// Appends why a denial isn't shown, by the records that should show it.
fn push_records(
    into: &mut Vec<u8>,
    context: &Context<'_>,
    proof: Proof,
    top: &Asked,
) -> Result<(), NoMemory>
    ensures { OnOk result (into.new.items ≡ into.old.items
        ++ record_words (explained_by context.now) proof top.now (iterations_of (heard_section top.now.reply Authority))) }
{
    match iterations_in(section_of(&top.reply, Section::Authority)) {
        Some(iterations) => push_hashed(into, proof, iterations, top),
        None => push_plain(into, context, proof, top),
    }
}

/// Appends why the denial isn't shown with which the step of this number ends.
#[tactic(auto, unfolding(crate::specs::DenialWords::denial_reason))]
pub(crate) fn push_denial_reason<'a>(
    into: &mut Vec<u8>,
    context: &Context<'a>,
    proof: Proof,
    number: usize,
    top: &'a Asked,
) -> Result<(), NoMemory>
    ensures { OnOk result (into.new.items ≡ into.old.items
        ++ denial_reason (explained_by context.now) proof number top.now) }
{
    match blamed_set(context, proof, number, top) {
        Some(place) => {
            push_next(into, &place)?;
            push_reason(into, context, context.steps, &place)
        }
        None => push_records(into, context, proof, top),
    }
}

// Where the first set stands that is to blame for a denial.
fn first_denying(proof: Proof, sets: &[JudgedSet]) -> Option<usize>
    ensures { result ≡ position (is_blamed_for proof) sets.now }
{
    sets.iter().position(|set| denial_blames(proof, set))
}

// The first set that is to blame for a denial.
fn blamed_set<'a>(
    context: &Context<'a>,
    proof: Proof,
    number: usize,
    top: &'a Asked,
) -> Option<Place<'a>>
    ensures { option_map place_of result ≡ place_by (is_blamed_for proof) top.now (causes_of (explained_by context.now) number) }
{
    let place = first_denying(proof, &top.sets)?;
    place_at(top, context.causes_of(number), place)
}
