//! Character-strings (RFC 1035, 5.1).
ghost use Rattle.std.specs.Prelude.{◌≡◌, ◌≤◌, IfOk, IfSome, length};
ghost use Rattle.std.specs.Option.{option_map};
ghost use Rattle.dns_model.specs.NameText.{is_digit as is_a_digit, number_in as number_meant};
ghost use Rattle.dns_master_words.specs.Texts.{byte_in, escaped_in, text_in};

use dns_record::NoMemory;
use std::alloc::Global;

// The byte whose number three digits are, of which the first is given, and what is left.
#[tactic(auto, unfolding(dns_model::specs::NameText::number_in))]
fn number_front(first: u8, rest: &[u8]) -> Option<(u8, &[u8])>
    ensures { option_map (λ p. (p.0, p.1.now)) result ≡ number_meant first rest.now }
{
    let [second, third, more @ ..] = rest else {
        return None;
    };
    if !second.is_ascii_digit() || !third.is_ascii_digit() {
        return None;
    }
    let hundreds = u32::from(first.saturating_sub(b'0')) * 100;
    let tens = u32::from(*second - b'0') * 10;
    let number = hundreds + tens + u32::from(*third - b'0');
    if number > 255 {
        return None;
    }
    Some((number as u8, more))
}

// The byte after a backslash, and what is left.
#[tactic(auto, unfolding(crate::specs::Texts::escaped_in))]
fn escaped_front(rest: &[u8]) -> Option<(u8, &[u8])>
    ensures { option_map (λ p. (p.0, p.1.now)) result ≡ escaped_in rest.now }
{
    let (byte, more) = rest.split_first()?;
    if byte.is_ascii_digit() {
        number_front(*byte, more)
    } else {
        Some((*byte, more))
    }
}

// The byte of a text that begins so, and what is left.
#[tactic(auto, unfolding(crate::specs::Texts::byte_in))]
fn byte_front(byte: u8, rest: &[u8]) -> Option<(u8, &[u8])>
    ensures { option_map (λ p. (p.0, p.1.now)) result ≡ byte_in byte rest.now }
{
    if byte == b'\\' {
        escaped_front(rest)
    } else {
        Some((byte, rest))
    }
}

/// The bytes of a text, where `\` and three digits are the byte of that number, and `\` and another byte that byte; None where a
/// backslash has no such meaning (RFC 1035, 5.1).
#[tactic(auto, using(crate::proofs::TextLaws::text_start, crate::proofs::TextLaws::text_more, crate::proofs::TextLaws::text_fail, crate::proofs::TextLaws::text_end, crate::proofs::TextLaws::byte_shorter))]
pub fn text_in(alloc: Global, text: &[u8]) -> Result<Option<Vec<u8>>, NoMemory>
    ensures { IfOk result (λ bytes. option_map (λ v. v.items) bytes ≡ text_in text.now) }
{
    let mut bytes = Vec::new(alloc);
    let mut rest = text;
    'bytes: while let Some((byte, more)) = rest.split_first() {
        let Some((value, after)) = byte_front(*byte, more) else {
            return Ok(None);
        };
        bytes.push(value)?;
        rest = after;
    }
    Ok(Some(bytes))
}
