//! Types and classes as words. Which have a word of their own stands in the tables of `dns_record`.
ghost use Rattle.std.specs.Prelude.{◌≡◌, ◌++◌, codes, OnOk, OnErr};
ghost use Rattle.std.specs.Fmt.{decimal};
ghost use Rattle.std.specs.Option.{option_map, option_copied};
ghost use Rattle.dns_record.specs.Words.{class_rows, class_word, type_rows, type_word};
ghost use Rattle.dns_text.specs.Codes.{after_prefix, class_word_in, prefixed_in, type_word_in};

use crate::{push_decimal, u16_in};
use dns_record::{DNSClass, NoMemory, RecordType};

// What follows a prefix.
fn after_prefix<'a>(word: &'a [u8], prefix: &[u8]) -> Option<&'a [u8]>
    ensures { option_copied result ≡ after_prefix prefix.now word.now }
{
    word.strip_prefix(prefix)
}

// The number that `TYPE` and digits stand for, where the type has no word of its own.
fn prefixed_type(word: &[u8]) -> Option<u16>
    ensures { result ≡ prefixed_in type_rows (codes "TYPE") word.now }
{
    let digits = after_prefix(word, b"TYPE")?;
    let number = u16_in(digits)?;
    match RecordType(number).own_word() {
        Some(_) => None,
        None => Some(number),
    }
}

// The number that `CLASS` and digits stand for, where the class has no word of its own.
fn prefixed_class(word: &[u8]) -> Option<u16>
    ensures { result ≡ prefixed_in class_rows (codes "CLASS") word.now }
{
    let digits = after_prefix(word, b"CLASS")?;
    let number = u16_in(digits)?;
    match DNSClass(number).own_word() {
        Some(_) => None,
        None => Some(number),
    }
}

/// The type that a word is: a type's own word, or `TYPE` and the number of a type without one. Case counts (RFC 3597, 5).
#[tactic(auto, unfolding(crate::specs::Codes::type_word_in))]
pub fn type_word_in(word: &[u8]) -> Option<RecordType>
    ensures { option_map (λ t. t.0) result ≡ type_word_in word.now }
{
    if let Some(record_type) = RecordType::of_own_word(word) {
        return Some(record_type);
    }
    let number = prefixed_type(word)?;
    Some(RecordType(number))
}

/// The class that a word is: a class's own word, or `CLASS` and the number of a class without one. Case counts.
#[tactic(auto, unfolding(crate::specs::Codes::class_word_in))]
pub fn class_word_in(word: &[u8]) -> Option<DNSClass>
    ensures { option_map (λ c. c.0) result ≡ class_word_in word.now }
{
    if let Some(class) = DNSClass::of_own_word(word) {
        return Some(class);
    }
    let number = prefixed_class(word)?;
    Some(DNSClass(number))
}

// Puts a prefix and a number behind a text; the text stays where memory runs out.
fn push_prefixed(text: &mut Vec<u8>, prefix: &[u8], number: u16) -> Result<(), NoMemory>
    ensures ok { OnOk result (text.new.items ≡ text.old.items ++ (prefix.now ++ decimal number)) }
    ensures err { OnErr result (text.new.items ≡ text.old.items) }
{
    let mut word = Vec::from_slice(*text.allocator(), prefix)?;
    push_decimal(&mut word, u64::from(number))?;
    text.extend_from_slice(&word)?;
    Ok(())
}

/// Puts the word of a type behind a text; the text stays where memory runs out.
#[tactic(auto, unfolding(dns_record::specs::Words::type_word))]
pub fn push_type(text: &mut Vec<u8>, record_type: RecordType) -> Result<(), NoMemory>
    ensures ok { OnOk result (text.new.items ≡ text.old.items ++ type_word record_type.0) }
    ensures err { OnErr result (text.new.items ≡ text.old.items) }
{
    match record_type.own_word() {
        Some(word) => {
            text.extend_from_slice(word.as_bytes())?;
            Ok(())
        }
        None => push_prefixed(text, b"TYPE", record_type.0),
    }
}

/// Puts the word of a class behind a text; the text stays where memory runs out.
#[tactic(auto, unfolding(dns_record::specs::Words::class_word))]
pub fn push_class(text: &mut Vec<u8>, class: DNSClass) -> Result<(), NoMemory>
    ensures ok { OnOk result (text.new.items ≡ text.old.items ++ class_word class.0) }
    ensures err { OnErr result (text.new.items ≡ text.old.items) }
{
    match class.own_word() {
        Some(word) => {
            text.extend_from_slice(word.as_bytes())?;
            Ok(())
        }
        None => push_prefixed(text, b"CLASS", class.0),
    }
}
