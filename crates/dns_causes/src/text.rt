//! Causes as a text: a line for each set of each step.

ghost use Rattle.std.specs.Prelude.{◌≡◌, ◌++◌, ◌∷◌, IfOk, OnOk};
ghost use Rattle.std.specs.Fmt.{decimal};
ghost use Rattle.std.specs.Option.{option_map};
ghost use Rattle.dns_cache.specs.Kinds.{kind_value};
ghost use Rattle.dns_model.specs.NameText.{printed};
ghost use Rattle.dns_record.specs.Words.{type_word};
ghost use Rattle.dns_report.specs.LineWords.{section_word};
ghost use Rattle.dns_causes.specs.CausesText.{causes_text, cause_word, kind_word, step_lines, why_line};
ghost use Rattle.dns_causes.specs.Values.{kinds_by_step, kinds_of};

use dns_cache::ProofErrorKind;
use dns_evidence::{Asked, JudgedSet, Trail};
use dns_model::Section;
use dns_record::{Name, NoMemory, RecordType};
use dns_report::section_word;
use dns_text::{push_name_word, push_number, push_type_word, push_word};
use std::alloc::Global;

// The word of a cause.
fn kind_word(kind: &ProofErrorKind) -> &'static [u8]
    ensures { result.now ≡ kind_word (kind_value kind.now) }
{
    match kind {
        ProofErrorKind::RrsigsNotPresent { .. } => b"rrsigs-not-present",
        ProofErrorKind::Net { .. } => b"net",
        ProofErrorKind::RrsigsUnverified { .. } => b"rrsigs-unverified",
        ProofErrorKind::DnskeyNotFound { .. } => b"dnskey-not-found",
        ProofErrorKind::DsRecordsButNoDnskey { .. } => b"ds-records-but-no-dnskey",
        ProofErrorKind::DsRecordShouldExist { .. } => b"ds-record-should-exist",
        ProofErrorKind::DsResponseInsecure { .. } => b"ds-response-insecure",
        ProofErrorKind::UnknownKeyAlgorithm => b"unknown-key-algorithm",
        ProofErrorKind::ErrorComputingKeyTag { .. } => b"error-computing-key-tag",
        ProofErrorKind::UnsupportedKeyAlgorithm => b"unsupported-key-algorithm",
        ProofErrorKind::DnsKeyHasNoDs { .. } => b"dns-key-has-no-ds",
        ProofErrorKind::InsecureDnsKey { .. } => b"insecure-dns-key",
        ProofErrorKind::DnsKeyRevoked { .. } => b"dns-key-revoked",
        ProofErrorKind::NotZoneDnsKey { .. } => b"not-zone-dns-key",
        ProofErrorKind::AlgorithmMismatch { .. } => b"algorithm-mismatch",
        ProofErrorKind::Msg(_) => b"msg",
        ProofErrorKind::DnsKeyVerifyRrsig { .. } => b"dns-key-verify-rrsig",
        ProofErrorKind::NoMemory => b"no-memory",
    }
}

// The word of a cause, if there is one.
fn cause_word(cause: &Option<ProofErrorKind>) -> &'static [u8]
    ensures { result.now ≡ cause_word (option_map kind_value cause.now) }
{
    match cause {
        Some(kind) => kind_word(kind),
        None => b"none",
    }
}

// Appends the number of a step and the section of a set.
fn push_place(into: &mut Vec<u8>, step: u64, section: Section) -> Result<(), NoMemory>
    ensures { OnOk result (into.new.items ≡ into.old.items ++ (32 ∷ decimal step) ++ (32 ∷ section_word section)) }
{
    push_number(into, step)?;
    push_word(into, section_word(section))
}

// Appends the owner and the type of a set.
fn push_owner(into: &mut Vec<u8>, owner: &Name, record_type: RecordType) -> Result<(), NoMemory>
    ensures { OnOk result (into.new.items ≡ into.old.items ++ (32 ∷ printed owner.now) ++ (32 ∷ type_word record_type.0)) }
{
    push_name_word(into, owner)?;
    push_type_word(into, record_type)
}

// Appends the line of a set.
fn push_why(
    into: &mut Vec<u8>,
    step: u64,
    set: &JudgedSet,
    cause: &Option<ProofErrorKind>,
) -> Result<(), NoMemory>
    ensures { OnOk result (into.new.items ≡ into.old.items ++ why_line step set.now (option_map kind_value cause.now)) }
{
    into.extend_from_slice(b"why")?;
    push_place(into, step, set.section)?;
    push_owner(into, &set.owner, set.record_type)?;
    push_word(into, cause_word(cause))?;
    into.push(b'\n')?;
    Ok(())
}

// Appends the lines of a step's sets, as long as there are causes.
fn push_step(
    into: &mut Vec<u8>,
    step: u64,
    sets: &[JudgedSet],
    causes: &[Option<ProofErrorKind>],
) -> Result<(), NoMemory>
    ensures { OnOk result (into.new.items
        ≡ into.old.items ++ step_lines step sets.now (kinds_of causes.now)) }
{
    let mut left = sets;
    let mut right = causes;
    'sets: while let Some((set, more)) = left.split_first() {
        let Some((cause, others)) = right.split_first() else {
            return Ok(());
        };
        push_why(into, step, set, cause)?;
        left = more;
        right = others;
    }
    Ok(())
}

// Appends the lines of steps, whose first has this number.
fn push_steps(
    into: &mut Vec<u8>,
    steps: &[Asked],
    causes: &[Vec<Option<ProofErrorKind>>],
) -> Result<(), NoMemory>
    ensures { OnOk result (into.new.items ≡ into.old.items
        ++ causes_text 0 steps.now (kinds_by_step causes.now)) }
{
    let mut left = causes;
    'steps: for (number, step) in steps.iter().enumerate() {
        let Some((found, others)) = left.split_first() else {
            return Ok(());
        };
        push_step(into, number as u64, &step.sets, found)?;
        left = others;
    }
    Ok(())
}

/// The causes of a trail's sets as a text: the line `why STEP SECTION OWNER TYPE CAUSE` for each set of each step, in order. It fails
/// only where memory runs out.
pub fn write_causes(
    alloc: Global,
    trail: &Trail,
    causes: &[Vec<Option<ProofErrorKind>>],
) -> Result<Vec<u8>, NoMemory>
    ensures { IfOk result (λ v. v.items
        ≡ causes_text 0 trail.now (kinds_by_step causes.now)) }
{
    let mut text = Vec::new(alloc);
    push_steps(&mut text, &trail.steps, causes)?;
    Ok(text)
}
