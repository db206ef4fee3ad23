//! Strings, numbers and fields of JSON texts (RFC 8259, 4, 6 and 7).
ghost use Rattle.std.specs.Prelude.{◌≡◌, ◌++◌, ◌∷◌, [], OnOk};
ghost use Rattle.std.specs.Fmt.{decimal};
ghost use Rattle.std.specs.List.{flat_map};
ghost use Rattle.hex.specs.Hex.{encode_lower};
ghost use Rattle.dns_model.specs.NameText.{printed};
ghost use Rattle.dns_query_json.specs.AnswerJson.{question_fields, type_field};
ghost use Rattle.dns_query_json.specs.Json.{is_escaped, is_plain, named, number_field, number_or_null, quoted, string_byte, string_field};

use crate::lists::JsonValue;
use dns_record::{Name, NoMemory, RecordType};
use dns_text::{push_decimal, push_octets, push_text, push_type};

/// Appends one byte.
pub(crate) fn push_sign(into: &mut Vec<u8>, sign: u8) -> Result<(), NoMemory>
    ensures { OnOk result (into.new.items ≡ into.old.items ++ (sign ∷ [])) }
{
    into.push(sign)?;
    Ok(())
}

/// A number.
impl JsonValue for u32 {
    ghost use Rattle.std.specs.Fmt.{decimal};

    ghost text = { decimal };

    fn push_value(&self, into: &mut Vec<u8>) -> Result<(), NoMemory> {
        push_decimal(into, u64::from(*self))
    }
}

/// Appends a number, or `null`.
#[tactic(auto, unfolding(crate::specs::Json::number_or_null))]
pub(crate) fn push_number_or_null(into: &mut Vec<u8>, number: Option<u16>) -> Result<(), NoMemory>
    ensures { OnOk result (into.new.items ≡ into.old.items ++ number_or_null number) }
{
    match number {
        Some(number) => push_decimal(into, u64::from(number)),
        None => push_text(into, b"null"),
    }
}

// Appends the two digits of a byte.
#[tactic(auto, unfolding(dns_text::specs::Words::octets_word))]
fn push_digits(into: &mut Vec<u8>, byte: u8) -> Result<(), NoMemory>
    ensures { OnOk result (into.new.items ≡ into.old.items ++ encode_lower (byte ∷ [])) }
{
    push_octets(into, &[byte])
}

// Whether a byte stands behind a backslash.
fn is_escaped(byte: u8) -> bool
    ensures { result ≡ is_escaped byte }
{
    byte == b'"' || byte == b'\\'
}

// Whether a byte stands for itself, but for those.
fn is_plain(byte: u8) -> bool
    ensures { result ≡ is_plain byte }
{
    32 <= byte && byte <= 126
}

// Appends a byte of a string.
#[tactic(auto, unfolding(crate::specs::Json::string_byte))]
fn push_byte(into: &mut Vec<u8>, byte: u8) -> Result<(), NoMemory>
    ensures { OnOk result (into.new.items ≡ into.old.items ++ string_byte byte) }
{
    if is_escaped(byte) {
        return push_text(into, &[b'\\', byte]);
    }
    if is_plain(byte) {
        return push_sign(into, byte);
    }
    push_text(into, b"\\u00")?;
    push_digits(into, byte)
}

// Appends the bytes of a string.
fn push_bytes(into: &mut Vec<u8>, text: &[u8]) -> Result<(), NoMemory>
    ensures { OnOk result (into.new.items ≡ into.old.items ++ flat_map string_byte text.now) }
{
    for byte in text {
        push_byte(into, *byte)?;
    }
    Ok(())
}

// Appends a string.
#[tactic(auto, unfolding(crate::specs::Json::quoted))]
fn push_string(into: &mut Vec<u8>, text: &[u8]) -> Result<(), NoMemory>
    ensures { OnOk result (into.new.items ≡ into.old.items ++ quoted text.now) }
{
    push_sign(into, b'"')?;
    push_bytes(into, text)?;
    push_sign(into, b'"')
}

/// Appends the name of a field, and the colon behind it.
#[tactic(auto, unfolding(crate::specs::Json::named))]
pub(crate) fn push_named(into: &mut Vec<u8>, name: &[u8]) -> Result<(), NoMemory>
    ensures { OnOk result (into.new.items ≡ into.old.items ++ named name.now) }
{
    push_sign(into, b'"')?;
    push_text(into, name)?;
    push_text(into, b"\":")
}

/// Appends a field whose value is a number.
#[tactic(auto, unfolding(crate::specs::Json::number_field))]
pub(crate) fn push_number_field(
    into: &mut Vec<u8>,
    name: &[u8],
    number: u64,
) -> Result<(), NoMemory>
    ensures { OnOk result (into.new.items ≡ into.old.items ++ number_field name.now number) }
{
    push_named(into, name)?;
    push_decimal(into, number)
}

/// Appends a field whose value is a string.
#[tactic(auto, unfolding(crate::specs::Json::string_field))]
pub(crate) fn push_string_field(
    into: &mut Vec<u8>,
    name: &[u8],
    text: &[u8],
) -> Result<(), NoMemory>
    ensures { OnOk result (into.new.items ≡ into.old.items ++ string_field name.now text.now) }
{
    push_named(into, name)?;
    push_string(into, text)
}

/// Appends a field whose value is a name.
pub(crate) fn push_name_field(into: &mut Vec<u8>, field: &[u8], name: &Name) -> Result<(), NoMemory>
    ensures { OnOk result (into.new.items ≡ into.old.items ++ string_field field.now (printed name.now)) }
{
    let text = name.to_ascii()?;
    push_string_field(into, field, text.as_bytes())
}

/// Appends the field of a type.
#[tactic(auto, unfolding(crate::specs::AnswerJson::type_field))]
pub(crate) fn push_type_field(into: &mut Vec<u8>, record_type: RecordType) -> Result<(), NoMemory>
    ensures { OnOk result (into.new.items ≡ into.old.items ++ type_field record_type.0) }
{
    let mut word = Vec::new(*into.allocator());
    push_type(&mut word, record_type)?;
    push_string_field(into, b"type", &word)
}

/// Appends the fields of a name and a type.
#[tactic(auto, unfolding(crate::specs::AnswerJson::question_fields))]
pub(crate) fn push_question(
    into: &mut Vec<u8>,
    name: &Name,
    record_type: RecordType,
) -> Result<(), NoMemory>
    ensures { OnOk result (into.new.items ≡ into.old.items ++ question_fields name.now record_type.0) }
{
    push_name_field(into, b"name", name)?;
    push_sign(into, b',')?;
    push_type_field(into, record_type)
}
