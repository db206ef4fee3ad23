//! Words of types and classes as they are read (RFC 3597, 5). Case counts.
ghost use Rattle.std.specs.Prelude.{◌≡◌, codes, map};
ghost use Rattle.std.specs.Option.{option_map, option_copied};
ghost use Rattle.dns_record.specs.Words.{own_number};
ghost use Rattle.dns_text.specs.Codes.{after_prefix as behind_prefix};
ghost use Rattle.dns_master_file.specs.Codes.{class_in, numbered_in as number_behind, type_in};
ghost use Rattle.dns_presentation.specs.TypeTexts.{further_rows};

use dns_record::{DNSClass, RecordType};
use dns_text::u16_in;

// What follows a prefix.
fn after_prefix<'a>(word: &'a [u8], prefix: &[u8]) -> Option<&'a [u8]>
    ensures { option_copied result ≡ behind_prefix prefix.now word.now }
{
    word.strip_prefix(prefix)
}

// The number of 16 bits behind a prefix, whether it has a word of its own or not.
fn numbered_in(word: &[u8], prefix: &[u8]) -> Option<u16>
    ensures { result ≡ number_behind prefix.now word.now }
{
    let digits = after_prefix(word, prefix)?;
    u16_in(digits)
}

/// The types that sessions and reports know by their numbers alone (the IANA registry of DNS parameters).
const FURTHER: [(u16, &str); 15] = [
    (13, "HINFO"),
    (29, "LOC"),
    (44, "SSHFP"),
    (52, "TLSA"),
    (53, "SMIMEA"),
    (59, "CDS"),
    (60, "CDNSKEY"),
    (61, "OPENPGPKEY"),
    (62, "CSYNC"),
    (63, "ZONEMD"),
    (64, "SVCB"),
    (65, "HTTPS"),
    (99, "SPF"),
    (256, "URI"),
    (257, "CAA"),
];

// The number that stands beside a word.
fn number_of(rows: &[(u16, &'static str)], word: &[u8]) -> Option<u16>
    ensures { result ≡ own_number (map (λ row. (row.0, row.1.now)) rows.now) word.now }
{
    for row in rows {
        if *row.1.as_bytes() == *word {
            return Some(row.0);
        }
    }
    None
}

// The type that has this word, of those that sessions and reports know by their numbers alone.
fn further_type(word: &[u8]) -> Option<u16>
    ensures { result ≡ own_number further_rows word.now }
{
    number_of(&FURTHER, word)
}

/// The type that a word is: a type's own word, or `TYPE` and any type's number (RFC 3597, 5).
#[tactic(auto, unfolding(crate::specs::Codes::type_in))]
pub fn type_of_word(word: &[u8]) -> Option<RecordType>
    ensures { option_map (λ t. t.0) result ≡ type_in word.now }
{
    if let Some(number) = further_type(word) {
        return Some(RecordType(number));
    }
    if let Some(record_type) = RecordType::of_own_word(word) {
        return Some(record_type);
    }
    let number = numbered_in(word, b"TYPE")?;
    Some(RecordType(number))
}

/// The class that a word is: a class's own word, or `CLASS` and any class's number (RFC 3597, 5).
#[tactic(auto, unfolding(crate::specs::Codes::class_in))]
pub(crate) fn class_of_word(word: &[u8]) -> Option<DNSClass>
    ensures { option_map (λ c. c.0) result ≡ class_in word.now }
{
    if let Some(class) = DNSClass::of_own_word(word) {
        return Some(class);
    }
    let number = numbered_in(word, b"CLASS")?;
    Some(DNSClass(number))
}
