//! Names as words (RFC 1035, 5.1).
ghost use Rattle.std.specs.Prelude.{◌≡◌, IfOk};
ghost use Rattle.dns_text.specs.Words.{name_word_in};

use dns_model::NameError;
use dns_record::{Name, NoMemory};
use std::alloc::Global;

/// The name that a word is, with or without the last dot (RFC 1035, 5.1).
pub fn name_word_in(alloc: Global, word: &[u8]) -> Result<Option<Name>, NoMemory>
    ensures { IfOk result (λ n. n ≡ name_word_in word.now) }
{
    match Name::from_bytes(alloc, word) {
        Ok(name) => Ok(Some(name)),
        Err(NameError::NoMemory) => Err(NoMemory),
        Err(_) => Ok(None),
    }
}
