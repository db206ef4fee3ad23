//! Reading a name from a text: escapes, labels and dots (RFC 1035, 5.1).
ghost use Rattle.std.specs.Prelude.{◌≡◌, ◌≤◌, ◌<◌, ◌++◌, ◌∷◌, [], Option, None, Some, IfOk, IfSome, OnOk, IsTrue, MatchResult, length, option_map};
ghost use Rattle.dns_model.specs.Gives.{Gives};
ghost use Rattle.dns_model.specs.Names.{Labels};
ghost use Rattle.dns_model.specs.NameText.{byte_in, ended, escape_in, label_checked, is_digit, is_printable, number_in, number_of_digits, text_read, within};
ghost use Rattle.dns_model.specs.declared.name_error.NameError.TheVariants.{NoMemory as no_memory};
ghost use Rattle.dns_record.specs.LabelRuns.{read_at, FailsAs, HasRun, IsLabels, IsRun, rest_read};

use crate::{Name, NameRef, Octets};
use dns_model::NameError;
use std::alloc::Global;

// Whether a byte is a decimal digit.
fn is_digit(byte: u8) -> bool
    ensures { result ≡ is_digit byte }
{
    byte >= b'0' && byte <= b'9'
}

// Whether a byte is printable ASCII, and no space.
fn is_printable(byte: u8) -> bool
    ensures { result ≡ is_printable byte }
{
    byte >= 0x21 && byte <= 0x7e
}

// The byte of three digits, of which `first` was read, and the text after them.
#[tactic(auto, unfolding(dns_model::specs::NameText::number_in))]
fn number_at<'a>(first: u8, text: &'a [u8]) -> Option<(u8, &'a [u8])>
    requires { IsTrue (is_digit first) }
    ensures { option_map (λ p. (p.0, p.1.now)) result ≡ number_in first text.now }
{
    let (second, text) = text.split_first()?;
    let (third, text) = text.split_first()?;
    if !is_digit(*second) || !is_digit(*third) {
        return None;
    }
    let number = u16::from(first - b'0') * 100
        + u16::from(*second - b'0') * 10
        + u16::from(*third - b'0');
    if number > 255 {
        return None;
    }
    Some((number as u8, text))
}

// The byte of an escape, after its backslash, and the text after it.
#[tactic(auto, unfolding(dns_model::specs::NameText::escape_in))]
fn escape_at<'a>(text: &'a [u8]) -> Option<(u8, &'a [u8])>
    ensures { option_map (λ p. (p.0, p.1.now)) result ≡ escape_in text.now }
{
    let (byte, rest) = text.split_first()?;
    if is_digit(*byte) {
        number_at(*byte, rest)
    } else if is_printable(*byte) {
        Some((*byte, rest))
    } else {
        None
    }
}

// The byte of a label that a text begins with, by its first byte and the others, and the text after it.
#[tactic(auto, unfolding(dns_model::specs::NameText::byte_in))]
fn byte_at<'a>(byte: u8, rest: &'a [u8]) -> Option<(u8, &'a [u8])>
    ensures { option_map (λ p. (p.0, p.1.now)) result ≡ byte_in byte rest.now }
{
    if byte == b'\\' {
        escape_at(rest)
    } else if is_printable(byte) {
        Some((byte, rest))
    } else {
        None
    }
}

// Reads a label up to an unescaped dot or the end into `label`, and gives the text after the dot.
fn read_label<'a>(label: &mut Vec<u8>, text: &'a [u8]) -> Result<Option<&'a [u8]>, NameError>
    ensures label { MatchResult result
        (λ rest. read_at label.old.items text.now ≡ ended label.new.items (rest_read (option_map (λ r. r.now) rest)))
        (λ fault. FailsAs fault (read_at label.old.items text.now)) }
    ensures size { IfOk result (λ rest. IfSome rest (λ r. length r.now < length text.now)) }
{
    let mut left = text;
    'bytes: while let Some((byte, rest)) = left.split_first() {
        if *byte == b'.' {
            return Ok(Some(rest));
        }
        let Some((value, more)) = byte_at(*byte, rest) else {
            return Err(NameError::BadEscape);
        };
        label.push(value)?;
        left = more;
    }
    Ok(None)
}

// Appends a label in wire form, if it is one.
pub(crate) fn push_label(wire: &mut Vec<u8>, label: &[u8]) -> Result<(), NameError>
    ensures value { Gives (λ _. label.now) no_memory result (label_checked label.now) }
    ensures after { OnOk result (wire.new.items ≡ wire.old.items ++ length label.now ∷ [] ++ label.now) }
{
    if label.len() == 0 {
        return Err(NameError::EmptyLabel);
    }
    if label.len() > Name::MAX_LABEL_LEN {
        return Err(NameError::LongLabel);
    }
    wire.push(label.len() as u8)?;
    wire.extend_from_slice(label)?;
    Ok(())
}

// The labels of a text in wire form, with no closing zero byte, and whether a dot was the last.
fn labels_of_text(alloc: Global, text: &[u8]) -> Result<(Vec<u8>, bool), NameError>
    ensures { MatchResult result (λ r. IsLabels (read_at [] text.now) r.0.items r.1)
        (λ fault. FailsAs fault (read_at [] text.now)) }
{
    // Each label is as long in wire form as with its dot, the last one a byte longer; the closing zero byte comes with the name
    // above.
    let mut wire = Vec::with_capacity(alloc, text.len().min(253) + 2)?;
    let mut left = text;
    'labels: loop {
        let mut label = Vec::new(alloc);
        let rest = read_label(&mut label, left)?;
        push_label(&mut wire, label.as_slice())?;
        let Some(more) = rest else {
            return Ok((wire, false));
        };
        if more.is_empty() {
            return Ok((wire, true));
        }
        left = more;
    }
}

// The same, where a dot alone is the root.
pub(crate) fn read_text(alloc: Global, text: &[u8]) -> Result<(Vec<u8>, bool), NameError>
    ensures { MatchResult result (λ r. IsLabels (text_read text.now) r.0.items r.1)
        (λ fault. FailsAs fault (text_read text.now)) }
{
    if *text == *b".".as_slice() {
        return Ok((Vec::new(alloc), true));
    }
    labels_of_text(alloc, text)
}

// The name of these labels, which are in wire form with no closing zero byte, below another.
pub(crate) fn name_of_run(mut wire: Vec<u8>, above: &NameRef) -> Result<Name, NameError>
    requires { HasRun wire.items }
    ensures { (labels : Labels) → IsRun labels wire.items
        → Gives (λ n. n) no_memory result (within (labels ++ above.now)) }
{
    let above = above.wire();
    if wire.len() + above.len() > Name::MAX_LEN {
        return Err(NameError::LongName);
    }
    wire.extend_from_slice(above)?;
    Ok(Name::from_octets(Octets::from_vec(wire)))
}
