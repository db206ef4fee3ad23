//! Names and character-strings (RFC 1035, 5.1).
ghost use Rattle.std.specs.Prelude.{◌≡◌, ◌++◌, ◌∷◌, OnOk};
ghost use Rattle.dns_presentation.specs.Spelling.{is_marked as is_marked_byte, marked_byte, name_text, quoted, quoted_byte, space};

use dns_record::{NameRef, NoMemory};

// Whether a byte beside dot and backslash means something else than itself.
fn is_marked(byte: u8) -> bool
    ensures { result ≡ is_marked_byte byte }
{
    matches!(byte, b'"' | b'$' | b'(' | b')' | b';' | b'@')
}

// Appends a byte of a printed name.
#[tactic(auto, unfolding(crate::specs::Spelling::marked_byte))]
fn push_marked(into: &mut Vec<u8>, byte: u8) -> Result<(), NoMemory>
    ensures { OnOk result (into.new.items ≡ into.old.items ++ marked_byte byte) }
{
    if is_marked(byte) {
        into.push(b'\\')?;
    }
    into.push(byte)?;
    Ok(())
}

/// Appends a name, without a space before it.
#[tactic(auto, unfolding(crate::specs::Spelling::name_text))]
pub(crate) fn push_name(into: &mut Vec<u8>, name: &NameRef<'_>) -> Result<(), NoMemory>
    ensures { OnOk result (into.new.items ≡ into.old.items ++ name_text name.now) }
{
    let text = name.to_ascii(*into.allocator())?;
    let mut rest = text.as_bytes();
    'bytes: while let Some((byte, more)) = rest.split_first() {
        push_marked(into, *byte)?;
        rest = more;
    }
    Ok(())
}

/// Appends a name as a word.
pub(crate) fn push_name_word(into: &mut Vec<u8>, name: &NameRef<'_>) -> Result<(), NoMemory>
    ensures { OnOk result (into.new.items ≡ into.old.items ++ (space ∷ name_text name.now)) }
{
    into.push(b' ')?;
    push_name(into, name)
}

// Appends a byte of a character-string.
#[tactic(auto, unfolding(crate::specs::Spelling::quoted_byte))]
fn push_quoted_byte(into: &mut Vec<u8>, byte: u8) -> Result<(), NoMemory>
    ensures { OnOk result (into.new.items ≡ into.old.items ++ quoted_byte byte) }
{
    match byte {
        b'"' | b'\\' => into.extend_from_slice(&[b'\\', byte])?,
        b' '..=b'~' => into.push(byte)?,
        _ => {
            let digits = [byte / 100, byte / 10 % 10, byte % 10];
            into.extend_from_slice(&[b'\\', b'0' + digits[0], b'0' + digits[1], b'0' + digits[2]])?;
        }
    }
    Ok(())
}

/// Appends a character-string as a word, between quotes.
#[tactic(auto, unfolding(crate::specs::Spelling::quoted))]
pub(crate) fn push_quoted(into: &mut Vec<u8>, text: &[u8]) -> Result<(), NoMemory>
    ensures { OnOk result (into.new.items ≡ into.old.items ++ (space ∷ quoted text.now)) }
{
    into.extend_from_slice(b" \"")?;
    let mut rest = text;
    'bytes: while let Some((byte, more)) = rest.split_first() {
        push_quoted_byte(into, *byte)?;
        rest = more;
    }
    into.push(b'"')?;
    Ok(())
}
