//! Words of a line, each with a space before it.
ghost use Rattle.std.specs.Prelude.{◌≡◌, ◌++◌, ◌∷◌, OnOk, map};
ghost use Rattle.std.specs.Fmt.{decimal};
ghost use Rattle.dns_presentation.specs.Forms.{base64_word};
ghost use Rattle.dns_presentation.specs.Presentation.{generic_words};
ghost use Rattle.dns_presentation.specs.Spelling.{space, spaced};

use base64::engine::general_purpose::STANDARD;
use dns_record::NoMemory;
use dns_text::{push_number, push_octets_word, push_word};

/// Appends numbers.
pub(crate) fn push_numbers(into: &mut Vec<u8>, numbers: &[u64]) -> Result<(), NoMemory>
    ensures { OnOk result (into.new.items ≡ into.old.items ++ spaced (map decimal numbers.now)) }
{
    let mut rest = numbers;
    'numbers: while let Some((number, more)) = rest.split_first() {
        push_number(into, *number)?;
        rest = more;
    }
    Ok(())
}

/// Appends bytes in base64.
pub(crate) fn push_base64(into: &mut Vec<u8>, bytes: &[u8]) -> Result<(), NoMemory>
    ensures { OnOk result (into.new.items ≡ into.old.items ++ (space ∷ base64_word bytes.now)) }
{
    let text = STANDARD.encode(*into.allocator(), bytes)?;
    push_word(into, text.as_bytes())
}

/// Appends the form that any rdata has (RFC 3597, 5).
#[tactic(auto, unfolding(crate::specs::Presentation::generic_words))]
pub(crate) fn push_generic(into: &mut Vec<u8>, rdata: &[u8]) -> Result<(), NoMemory>
    ensures { OnOk result (into.new.items ≡ into.old.items ++ spaced (generic_words rdata.now)) }
{
    push_word(into, b"\\#")?;
    push_number(into, rdata.len() as u64)?;
    if rdata.is_empty() {
        return Ok(());
    }
    push_octets_word(into, rdata)
}
