//! Pieces of a line: a text as it is, words with a space before each, and the line's end.
ghost use Rattle.std.specs.Prelude.{◌≡◌, ◌++◌, ◌∷◌, ◌&&◌, ◌^◌, [], length, nat_lt, take, OnErr, OnOk, IsTrue};
ghost use Rattle.std.specs.Fmt.{decimal};
ghost use Rattle.std.specs.List.{list_all};
ghost use Rattle.dns_model.specs.Bytes.{is_bytes};
ghost use Rattle.dns_model.specs.Names.{is_name};
ghost use Rattle.dns_model.specs.NameText.{printed};
ghost use Rattle.dns_record.specs.Words.{class_word, type_word};
ghost use Rattle.dns_text.specs.Words.{octets_word};

use crate::{push_class, push_decimal, push_octets, push_type};
use dns_record::{DNSClass, Name, NameRef, NoMemory, RecordType};

/// Puts bytes behind a text as they are.
pub fn push_text(into: &mut Vec<u8>, text: &[u8]) -> Result<(), NoMemory>
    ensures ok { OnOk result (into.new.items ≡ into.old.items ++ text.now) }
    ensures err { OnErr result (into.new.items ≡ into.old.items) }
{
    into.extend_from_slice(text)?;
    Ok(())
}

/// Ends a line.
pub fn end_line(into: &mut Vec<u8>) -> Result<(), NoMemory>
    ensures ok { OnOk result (into.new.items ≡ into.old.items ++ (10 ∷ [])) }
    ensures err { OnErr result (into.new.items ≡ into.old.items) }
{
    into.push(b'\n')?;
    Ok(())
}

/// Puts a space and a word behind a text.
pub fn push_word(into: &mut Vec<u8>, word: &[u8]) -> Result<(), NoMemory>
    ensures ok { OnOk result (into.new.items ≡ into.old.items ++ (32 ∷ word.now)) }
    ensures err { OnErr result (take (length into.old.items) into.new.items ≡ into.old.items) }
{
    into.push(b' ')?;
    into.extend_from_slice(word)?;
    Ok(())
}

/// Puts a space and a number, in decimal digits, behind a text.
pub fn push_number(into: &mut Vec<u8>, number: u64) -> Result<(), NoMemory>
    ensures ok { OnOk result (into.new.items ≡ into.old.items ++ (32 ∷ decimal number)) }
    ensures err { OnErr result (take (length into.old.items) into.new.items ≡ into.old.items) }
{
    into.push(b' ')?;
    push_decimal(into, number)
}

/// Puts a space and the word of a class behind a text (RFC 3597, 5).
pub fn push_class_word(into: &mut Vec<u8>, class: DNSClass) -> Result<(), NoMemory>
    ensures ok { OnOk result (into.new.items ≡ into.old.items ++ (32 ∷ class_word class.0)) }
    ensures err { OnErr result (take (length into.old.items) into.new.items ≡ into.old.items) }
{
    into.push(b' ')?;
    push_class(into, class)
}

/// Puts a space and the word of a type behind a text (RFC 3597, 5).
pub fn push_type_word(into: &mut Vec<u8>, record_type: RecordType) -> Result<(), NoMemory>
    ensures ok { OnOk result (into.new.items ≡ into.old.items ++ (32 ∷ type_word record_type.0)) }
    ensures err { OnErr result (take (length into.old.items) into.new.items ≡ into.old.items) }
    ensures fits { IsTrue (nat_lt record_type.0 (2 ^ 16)) }
{
    into.push(b' ')?;
    push_type(into, record_type)
}

/// Puts a space and bytes, as hexadecimal digits or `-` for none, behind a text.
pub fn push_octets_word(into: &mut Vec<u8>, bytes: &[u8]) -> Result<(), NoMemory>
    ensures ok { OnOk result (into.new.items ≡ into.old.items ++ (32 ∷ octets_word bytes.now)) }
    ensures err { OnErr result (take (length into.old.items) into.new.items ≡ into.old.items) }
    ensures fits { IsTrue (is_bytes bytes.now) }
{
    into.push(b' ')?;
    push_octets(into, bytes)
}

// The name, of which it is known that it is one.
fn known_name<'a>(name: &'a Name) -> NameRef<'a>
    ensures same { result ≡ name.now }
    ensures fits { IsTrue (is_name name.now && list_all is_bytes name.now) }
{
    name.borrowed().copy()
}

/// Puts a space and a name, in the case in which it stands, behind a text (RFC 1035, 5.1).
pub fn push_name_word(into: &mut Vec<u8>, name: &Name) -> Result<(), NoMemory>
    ensures ok { OnOk result (into.new.items ≡ into.old.items ++ (32 ∷ printed name.now)) }
    ensures err { OnErr result (take (length into.old.items) into.new.items ≡ into.old.items) }
    ensures fits { IsTrue (is_name name.now && list_all is_bytes name.now) }
{
    let text = known_name(name).to_ascii(*into.allocator())?;
    push_word(into, text.as_bytes())
}
