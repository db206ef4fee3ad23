//! The cause of a set as words: why it isn't Secure (RFC 4035, 4.3, 5.2 and 5.3).
ghost use Rattle.std.specs.Prelude.{◌≡◌, ◌++◌, OnOk};
ghost use Rattle.std.specs.Option.{option_map};
ghost use Rattle.dns_cache.specs.Kinds.{kind_value};
ghost use Rattle.dns_query_answer.specs.CauseWords.{cause_words, follows as is_followed, is_unmatched as is_unmatched_by, is_unverified as is_unverified_by, kind_words, neither_words, origin_words, tries as is_tried, unshown_words, unsigned_words};
ghost use Rattle.dns_query_answer.specs.PlaceValues.{place_of};

use crate::places::Place;
use crate::words::push_name;
use dns_cache::ProofErrorKind;
use dns_model::MarkOrigin;
use dns_record::{Name, NoMemory};
use dns_text::push_text;

// Appends that no DS record of a zone is shown.
#[tactic(auto, unfolding(crate::specs::CauseWords::neither_words))]
fn push_neither(into: &mut Vec<u8>, zone: &Name) -> Result<(), NoMemory>
    ensures { OnOk result (into.new.items ≡ into.old.items ++ neither_words zone.now) }
{
    push_text(into, b"neither a DS record of ")?;
    push_name(into, zone)
}

// Appends that neither a DS record of a zone nor its absence is shown.
#[tactic(auto, unfolding(crate::specs::CauseWords::unshown_words))]
fn push_unshown(into: &mut Vec<u8>, zone: &Name) -> Result<(), NoMemory>
    ensures { OnOk result (into.new.items ≡ into.old.items ++ unshown_words zone.now) }
{
    push_neither(into, zone)?;
    push_text(into, b" nor its absence is shown")
}

// Appends that a zone has no DS record.
#[tactic(auto, unfolding(crate::specs::CauseWords::unsigned_words))]
pub(crate) fn push_unsigned(into: &mut Vec<u8>, zone: &Name) -> Result<(), NoMemory>
    ensures { OnOk result (into.new.items ≡ into.old.items ++ unsigned_words zone.now) }
{
    push_name(into, zone)?;
    push_text(into, b" has no DS record, and the zone above says so")
}

// Appends the words of a cause.
fn push_kind(into: &mut Vec<u8>, kind: &ProofErrorKind) -> Result<(), NoMemory>
    ensures { OnOk result (into.new.items ≡ into.old.items ++ kind_words (kind_value kind.now)) }
{
    match kind {
        ProofErrorKind::RrsigsNotPresent { .. } => {
            push_text(into, b"it has no signature that could be tried")
        }
        ProofErrorKind::Net { .. } => push_text(into, b"a query that it needs failed"),
        ProofErrorKind::RrsigsUnverified { .. } => push_text(into, b"no signature proves it"),
        ProofErrorKind::DnskeyNotFound { .. } => {
            push_text(into, b"no key of it is a trust anchor that signs it")
        }
        ProofErrorKind::DsRecordsButNoDnskey { .. } => push_text(
            into,
            b"no key that a DS record of the zone matches signs it",
        ),
        ProofErrorKind::DsRecordShouldExist { name } => push_unshown(into, name),
        ProofErrorKind::DsResponseInsecure { name } => push_unsigned(into, name),
        ProofErrorKind::UnknownKeyAlgorithm => push_text(
            into,
            b"no DS record of its zone is of an algorithm and a digest type that are supported",
        ),
        _ => push_text(into, b"its keys don't prove it"),
    }
}

// The words of a set without a cause.
fn origin_words(origin: MarkOrigin) -> &'static [u8]
    ensures { result.now ≡ origin_words origin }
{
    match origin {
        MarkOrigin::Cache => b"it was kept from an earlier lookup",
        MarkOrigin::Table | MarkOrigin::Repeat(_) => b"the keys of its signer aren't Secure",
    }
}

/// Appends why a set isn't Secure, in words.
pub(crate) fn push_cause(into: &mut Vec<u8>, place: &Place<'_>) -> Result<(), NoMemory>
    ensures { OnOk result (into.new.items ≡ into.old.items ++ cause_words (place_of place.now)) }
{
    let set = place.set;
    match place.cause {
        Some(kind) => push_kind(into, kind),
        None => push_text(into, origin_words(set.origin)),
    }
}

/// Whether signatures of the set were tried.
pub(crate) fn tries(cause: Option<&ProofErrorKind>) -> bool
    ensures { result ≡ is_tried (option_map (λ k. kind_value k.now) cause.entry) }
{
    matches!(
        cause,
        Some(
            ProofErrorKind::RrsigsUnverified { .. }
                | ProofErrorKind::DnskeyNotFound { .. }
                | ProofErrorKind::DsRecordsButNoDnskey { .. }
        )
    )
}

/// Whether signatures of other sets' keys were tried, and none proves the set.
pub(crate) fn is_unverified(cause: Option<&ProofErrorKind>) -> bool
    ensures { result ≡ is_unverified_by (option_map (λ k. kind_value k.now) cause.entry) }
{
    matches!(cause, Some(ProofErrorKind::RrsigsUnverified { .. }))
}

/// Whether keys that DS records match were tried, and none signs the set.
pub(crate) fn is_unmatched(cause: Option<&ProofErrorKind>) -> bool
    ensures { result ≡ is_unmatched_by (option_map (λ k. kind_value k.now) cause.entry) }
{
    matches!(cause, Some(ProofErrorKind::DsRecordsButNoDnskey { .. }))
}

/// Whether what an ask came to is to blame.
pub(crate) fn follows(cause: Option<&ProofErrorKind>) -> bool
    ensures { result ≡ is_followed (option_map (λ k. kind_value k.now) cause.entry) }
{
    match cause {
        None => true,
        Some(kind) => matches!(
            kind,
            ProofErrorKind::Net { .. }
                | ProofErrorKind::RrsigsUnverified { .. }
                | ProofErrorKind::DsRecordShouldExist { .. }
        ),
    }
}
