//! The words at the front of what is left of a line (RFC 1035, 5.1).
ghost use Rattle.std.specs.Prelude.{◌≡◌, ◌≤◌, ◌++◌, false, length, option_map, OnOk};
ghost use Rattle.std.specs.Result.{result_map_both};
ghost use Rattle.dns_model.specs.Gives.{Gives};
ghost use Rattle.dns_text.specs.Words.{decimal_in as decimal_meant};
ghost use Rattle.dns_master_file.specs.Front.{after_blanks as blanks_passed, ends_word as ends_a_word, is_blank as is_a_blank, is_bracket as is_a_bracket, is_over as is_past, joined_in, quoted_in, quoted_size as size_of_quoted, run_size as size_of_run, text_word, unblanked, word_as, word_in};
ghost use Rattle.dns_master_file.specs.Reading.{after_mark as past_mark};
ghost use Rattle.dns_master_file.specs.declared.stop.Refusal.TheVariants.{BadNumber as bad_number};
ghost use Rattle.dns_master_file.specs.declared.stop.Stop.TheVariants.{NoMemory as no_memory};

use crate::stop::{Refusal, Stop};
use dns_record::NoMemory;
use dns_text::decimal_in;
use std::alloc::Global;

/// Whether a byte is a space, a tab or a CR.
pub(crate) fn is_blank(byte: u8) -> bool
    ensures { result ≡ is_a_blank byte }
{
    matches!(byte, b' ' | b'\t' | b'\r')
}

fn is_bracket(byte: u8) -> bool
    ensures { result ≡ is_a_bracket byte }
{
    matches!(byte, b'(' | b')')
}

fn ends_word(byte: u8) -> bool
    ensures { result ≡ ends_a_word byte }
{
    is_blank(byte) || is_bracket(byte) || byte == b'"' || byte == b';'
}

/// What is left after blanks.
#[tactic(auto, unfolding(crate::specs::Front::after_blanks))]
pub(crate) fn after_blanks(bytes: &[u8]) -> &[u8]
    ensures { result.now ≡ blanks_passed bytes.now }
{
    let mut rest = bytes;
    'blanks: while let Some((byte, more)) = rest.split_first() {
        if !is_blank(*byte) {
            return rest;
        }
        rest = more;
    }
    rest
}

/// Whether a line ends here, or has but a comment left.
pub(crate) fn is_over(bytes: &[u8]) -> bool
    ensures { result ≡ is_past bytes.now }
{
    match bytes {
        [] => true,
        [byte, ..] => *byte == b';',
    }
}

// How many bytes the word at the front has; a byte behind a backslash belongs to it, whatever it is.
#[tactic(auto, unfolding(crate::specs::Front::run_size))]
fn run_size(bytes: &[u8]) -> usize
    ensures size { result ≡ size_of_run false bytes.now }
    ensures within { result ≤ length bytes.now }
{
    let mut escaped = false;
    let mut rest = bytes;
    'bytes: while let Some((byte, more)) = rest.split_first() {
        if !escaped && ends_word(*byte) {
            return bytes.len() - rest.len();
        }
        escaped = !escaped && *byte == b'\\';
        rest = more;
    }
    bytes.len()
}

/// The word at the front, which has no quotes, and what is left after it.
#[tactic(auto, unfolding(crate::specs::Front::word_in))]
pub(crate) fn word_front(bytes: &[u8]) -> Result<(&[u8], &[u8]), Stop>
    ensures { result_map_both (λ p. (p.0.now, p.1.now)) (λ stop. stop) result ≡ word_in bytes.now }
{
    let Some((first, _)) = bytes.split_first() else {
        return Err(Stop::At(Refusal::MissingWord, 0));
    };
    if *first == b';' {
        return Err(Stop::At(Refusal::MissingWord, bytes.len()));
    }
    if *first == b'"' {
        return Err(Stop::At(Refusal::QuotedWord, bytes.len()));
    }
    if is_bracket(*first) {
        return Err(Stop::At(Refusal::Bracket, bytes.len()));
    }
    let (word, rest) = bytes.split_at(run_size(bytes));
    Ok((word, after_blanks(rest)))
}

// How many bytes stand before the closing quote, or all of them where there is none.
#[tactic(auto, unfolding(crate::specs::Front::quoted_size))]
fn quoted_size(bytes: &[u8]) -> usize
    ensures size { result ≡ size_of_quoted false bytes.now }
    ensures within { result ≤ length bytes.now }
{
    let mut escaped = false;
    let mut rest = bytes;
    'bytes: while let Some((byte, more)) = rest.split_first() {
        if !escaped && *byte == b'"' {
            return bytes.len() - rest.len();
        }
        escaped = !escaped && *byte == b'\\';
        rest = more;
    }
    bytes.len()
}

// What stands between the quotes at the front, and what is left after them.
#[tactic(auto, unfolding(crate::specs::Front::quoted_in))]
fn quoted_front(bytes: &[u8]) -> Result<(&[u8], &[u8]), Stop>
    ensures { result_map_both (λ p. (p.0.now, p.1.now)) (λ stop. stop) result ≡ quoted_in bytes.now }
{
    let Some((_, rest)) = bytes.split_first() else {
        return Err(Stop::At(Refusal::MissingWord, 0));
    };
    let size = quoted_size(rest);
    if size >= rest.len() {
        return Err(Stop::At(Refusal::OpenQuote, bytes.len()));
    }
    Ok((&rest[..size], after_blanks(&rest[size + 1..])))
}

/// The text at the front as it stands, which is a word or stands between quotes, and what is left after it.
#[tactic(auto, unfolding(crate::specs::Front::text_word))]
pub(crate) fn text_front(bytes: &[u8]) -> Result<(&[u8], &[u8]), Stop>
    ensures { result_map_both (λ p. (p.0.now, p.1.now)) (λ stop. stop) result ≡ text_word bytes.now }
{
    let Some((first, _)) = bytes.split_first() else {
        return Err(Stop::At(Refusal::MissingWord, 0));
    };
    if *first == b'"' {
        quoted_front(bytes)
    } else {
        word_front(bytes)
    }
}

/// What is left after the word `\#`, if it is in front (RFC 3597, 5).
pub(crate) fn after_mark(bytes: &[u8]) -> Option<&[u8]>
    ensures { option_map (λ b. b.now) result ≡ past_mark (word_in bytes.now) }
{
    match word_front(bytes) {
        Ok((word, rest)) => {
            if *word == *b"\\#".as_slice() {
                Some(rest)
            } else {
                None
            }
        }
        Err(_) => None,
    }
}

/// The number at the front, and what is left after it.
pub(crate) fn number_front(bytes: &[u8], limit: u64) -> Result<(u64, &[u8]), Stop>
    ensures { result_map_both (λ p. (p.0, p.1.now)) (λ stop. stop) result ≡ word_as bad_number (decimal_meant limit) bytes.now }
{
    let (word, rest) = word_front(bytes)?;
    match decimal_in(word, limit) {
        Some(number) => Ok((number, rest)),
        None => Err(Stop::At(Refusal::BadNumber, bytes.len())),
    }
}

// Appends a byte that isn't a blank.
fn push_unblanked(into: &mut Vec<u8>, byte: u8) -> Result<(), NoMemory>
    ensures { OnOk result (into.new.items ≡ into.old.items ++ unblanked byte) }
{
    if !is_blank(byte) {
        into.push(byte)?;
    }
    Ok(())
}

/// All words that are left, without the blanks between them.
#[tactic(auto, unfolding(crate::specs::Front::joined_in), using(crate::proofs::FrontLemmas::with_none, crate::proofs::FrontLemmas::with_end, crate::proofs::FrontLemmas::with_more))]
pub(crate) fn joined(alloc: Global, bytes: &[u8]) -> Result<Vec<u8>, Stop>
    ensures { Gives (λ v. v.items) no_memory result (joined_in bytes.now) }
{
    let mut word = Vec::new(alloc);
    let mut rest = bytes;
    'bytes: while let Some((byte, more)) = rest.split_first() {
        if *byte == b';' {
            return Ok(word);
        }
        if *byte == b'"' {
            return Err(Stop::At(Refusal::QuotedWord, rest.len()));
        }
        if is_bracket(*byte) {
            return Err(Stop::At(Refusal::Bracket, rest.len()));
        }
        push_unblanked(&mut word, *byte)?;
        rest = more;
    }
    Ok(word)
}
