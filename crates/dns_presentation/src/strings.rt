//! Character-strings in an rdata (RFC 1035, 3.3).
ghost use Rattle.std.specs.Prelude.{◌≡◌, ◌<◌, IfOk, IfSome, length};
ghost use Rattle.std.specs.Option.{option_map};
ghost use Rattle.dns_model.specs.Shapes.{counted_in};
ghost use Rattle.dns_presentation.specs.Forms.{quoted_words, strings_in};

use crate::names::push_quoted;
use dns_record::NoMemory;
use std::alloc::Global;

/// The bytes that a length byte at the front counts, and the bytes after them.
#[tactic(auto, unfolding(dns_model::specs::Shapes::counted_in))]
pub(crate) fn counted_front(bytes: &[u8]) -> Option<(&[u8], &[u8])>
    ensures value { option_map (λ p. (p.0.now, p.1.now)) result ≡ counted_in bytes.now }
    ensures shorter { IfSome result (λ p. length p.1.now < length bytes.now) }
{
    let (size, rest) = bytes.split_first()?;
    let size = usize::from(*size);
    if size > rest.len() {
        return None;
    }
    Some(rest.split_at(size))
}

/// The character-strings that the bytes are as words, each between quotes, if the bytes are such.
#[tactic(auto, using(crate::proofs::ListLemmas::strings_start, crate::proofs::ListLemmas::strings_more, crate::proofs::ListLemmas::strings_fail, crate::proofs::ListLemmas::strings_end))]
pub(crate) fn quoted_strings(alloc: Global, bytes: &[u8]) -> Result<Option<Vec<u8>>, NoMemory>
    ensures { IfOk result (λ words. option_map (λ v. v.items) words ≡ option_map quoted_words (strings_in bytes.now bytes.now)) }
{
    let mut words = Vec::new(alloc);
    let mut rest = bytes;
    'strings: while !rest.is_empty() {
        let Some((text, after)) = counted_front(rest) else {
            return Ok(None);
        };
        push_quoted(&mut words, text)?;
        rest = after;
    }
    Ok(Some(words))
}
