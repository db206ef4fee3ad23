//! Bytes as words: hexadecimal digits, or `-` for none.
ghost use Rattle.std.specs.Prelude.{◌≡◌, ◌++◌, ◌<◌, ◌≤◌, ◌^◌, IfOk, OnOk, OnErr};
ghost use Rattle.dns_text.specs.Words.{octets_word, octets_in};

use crate::digits::{bytes_of_pairs, push_pairs};
use dns_record::{NoMemory, Octets};
use std::alloc::Global;

/// The bytes that a word is: two hexadecimal digits of either case for each, or `-` for none.
#[tactic(auto, unfolding(crate::specs::Words::octets_in), using(crate::proofs::PairSteps::even_word, crate::proofs::PairSteps::odd_word))]
pub fn octets_in(alloc: Global, word: &[u8]) -> Result<Option<Octets>, NoMemory>
    ensures { IfOk result (λ o. o ≡ octets_in word.now) }
{
    if word == b"-".as_slice() {
        return Ok(Some(Octets::from_vec(Vec::new(alloc))));
    }
    if word.is_empty() || word.len() % 2 != 0 {
        return Ok(None);
    }
    let bytes = bytes_of_pairs(alloc, word)?;
    Ok(bytes.map(Octets::from_vec))
}

/// Puts the word of bytes, in lower case, behind a text; the text stays where memory runs out.
#[tactic(auto, unfolding(crate::specs::Words::octets_word))]
pub fn push_octets(text: &mut Vec<u8>, bytes: &[u8]) -> Result<(), NoMemory>
    ensures ok { OnOk result (text.new.items ≡ text.old.items ++ octets_word bytes.now) }
    ensures err { OnErr result (text.new.items ≡ text.old.items) }
{
    if bytes.is_empty() {
        text.extend_from_slice(b"-")?;
        return Ok(());
    }
    push_pairs(text, bytes)?;
    Ok(())
}
