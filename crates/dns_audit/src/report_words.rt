//! The words of a report, as they are read.
ghost use Rattle.std.specs.Prelude.{◌≡◌, ◌<◌, ◌≤◌, ◌^◌, IfOk, length, codes};
ghost use Rattle.std.specs.Char.{is_ascii_uppercase};
ghost use Rattle.std.specs.List.{list_any};
ghost use Rattle.std.specs.Option.{option_map, option_copied};
ghost use Rattle.dns_text.specs.Codes.{after_prefix};
ghost use Rattle.dns_audit.specs.ReportWords.{u32_in, rdata_in, mark_in, section_in, purpose_in, ask_in, origin_in, place_in};

use dns_model::{AskRef, MarkOrigin, Proof, Section};
use dns_record::{NoMemory, Rdata};
use dns_text::{decimal_in, octets_in};
use std::alloc::Global;

/// A number of 32 bits.
pub(crate) fn u32_in(word: &[u8]) -> Option<u32>
    ensures { result ≡ u32_in word.now }
{
    let number = decimal_in(word, 4_294_967_295)?;
    Some(number as u32)
}

// Whether a letter in upper case stands in a word. No branch looks at a byte, so that many are looked at at once.
fn has_upper(word: &[u8]) -> bool
    ensures { result ≡ list_any is_ascii_uppercase word.now }
{
    let mut found = false;
    for next in word {
        found |= next.is_ascii_uppercase();
    }
    found
}

/// An rdata, whose word is in lower case.
#[tactic(auto, unfolding(crate::specs::ReportWords::rdata_in))]
pub(crate) fn rdata_in(alloc: Global, word: &[u8]) -> Result<Option<Rdata>, NoMemory>
    ensures { IfOk result (λ x. x ≡ rdata_in word.now) }
{
    let Some(bytes) = octets_in(alloc, word)? else {
        return Ok(None);
    };
    if bytes.len() > Rdata::MAX_LEN || has_upper(word) {
        return Ok(None);
    }
    Ok(Some(Rdata::from_octets(bytes)))
}

/// A mark.
#[tactic(auto, unfolding(crate::specs::ReportWords::mark_in))]
pub(crate) fn mark_in(word: &[u8]) -> Option<Proof>
    ensures { result ≡ mark_in word.now }
{
    if word == b"secure".as_slice() {
        Some(Proof::Secure)
    } else if word == b"insecure".as_slice() {
        Some(Proof::Insecure)
    } else if word == b"bogus".as_slice() {
        Some(Proof::Bogus)
    } else if word == b"indeterminate".as_slice() {
        Some(Proof::Indeterminate)
    } else {
        None
    }
}

/// A section.
#[tactic(auto, unfolding(crate::specs::ReportWords::section_in))]
pub(crate) fn section_in(word: &[u8]) -> Option<Section>
    ensures { result ≡ section_in word.now }
{
    if word == b"answer".as_slice() {
        Some(Section::Answer)
    } else if word == b"authority".as_slice() {
        Some(Section::Authority)
    } else if word == b"additional".as_slice() {
        Some(Section::Additional)
    } else {
        None
    }
}

/// Whether a reply was to be judged, or only to be seen.
#[tactic(auto, unfolding(crate::specs::ReportWords::purpose_in))]
pub(crate) fn purpose_in(word: &[u8]) -> Option<bool>
    ensures { result ≡ purpose_in word.now }
{
    if word == b"judged".as_slice() {
        Some(true)
    } else if word == b"ns".as_slice() {
        Some(false)
    } else {
        None
    }
}

/// An ask.
#[tactic(auto, unfolding(crate::specs::ReportWords::ask_in))]
pub(crate) fn ask_in(word: &[u8]) -> Option<AskRef>
    ensures { result ≡ ask_in word.now }
{
    if word == b"deep".as_slice() {
        return Some(AskRef::TooDeep);
    }
    if word == b"many".as_slice() {
        return Some(AskRef::TooMany);
    }
    let number = u32_in(word)?;
    Some(AskRef::Step(number))
}

// What follows `repeat-`.
fn after_repeat(word: &[u8]) -> Option<&[u8]>
    ensures { option_copied result ≡ after_prefix (codes "repeat-") word.now }
{
    word.strip_prefix(b"repeat-".as_slice())
}

/// Where a mark comes from.
#[tactic(auto, unfolding(crate::specs::ReportWords::origin_in))]
pub(crate) fn origin_in(word: &[u8]) -> Option<MarkOrigin>
    ensures { result ≡ origin_in word.now }
{
    if word == b"table".as_slice() {
        return Some(MarkOrigin::Table);
    }
    if word == b"cache".as_slice() {
        return Some(MarkOrigin::Cache);
    }
    let number = u32_in(after_repeat(word)?)?;
    Some(MarkOrigin::Repeat(number))
}

/// The place of the signature that decided, or none.
#[tactic(auto, unfolding(crate::specs::ReportWords::place_in))]
pub(crate) fn place_in(word: &[u8]) -> Option<Option<u32>>
    ensures { result ≡ place_in word.now }
{
    if word == b"-".as_slice() {
        return Some(None);
    }
    let place = u32_in(word)?;
    Some(Some(place))
}
