//! Words of types.
ghost use Rattle.std.specs.Prelude.{◌≡◌, ◌++◌, ◌∷◌, OnOk, map};
ghost use Rattle.std.specs.Option.{option_map};
ghost use Rattle.dns_record.specs.Words.{own_word};
ghost use Rattle.dns_presentation.specs.Spelling.{space, spaced};
ghost use Rattle.dns_presentation.specs.TypeTexts.{further_rows, type_text};

use dns_record::{NoMemory, RecordType};
use dns_text::{push_type, push_word};

/// A fingerprint of a host's key (RFC 4255).
pub const SSHFP: RecordType = RecordType(44);

/// A certificate or key of a service (RFC 6698).
pub const TLSA: RecordType = RecordType(52);

/// A certificate or key of a mailbox (RFC 8162).
pub const SMIMEA: RecordType = RecordType(53);

/// A DS record that a zone asks its parent for (RFC 7344).
pub const CDS: RecordType = RecordType(59);

/// A key that a zone asks its parent for (RFC 7344).
pub const CDNSKEY: RecordType = RecordType(60);

/// Who may issue certificates (RFC 8659).
pub const CAA: RecordType = RecordType(257);

// The word of a type that sessions and reports know by its number alone.
#[tactic(auto, unfolding(dns_record::specs::Words::own_word))]
fn further_word(record_type: RecordType) -> Option<&'static str>
    ensures { option_map (λ w. w.now) result ≡ own_word further_rows record_type.0 }
{
    match record_type.0 {
        13 => Some("HINFO"),
        29 => Some("LOC"),
        44 => Some("SSHFP"),
        52 => Some("TLSA"),
        53 => Some("SMIMEA"),
        59 => Some("CDS"),
        60 => Some("CDNSKEY"),
        61 => Some("OPENPGPKEY"),
        62 => Some("CSYNC"),
        63 => Some("ZONEMD"),
        64 => Some("SVCB"),
        65 => Some("HTTPS"),
        99 => Some("SPF"),
        256 => Some("URI"),
        257 => Some("CAA"),
        _ => None,
    }
}

/// Appends the word of a type.
#[tactic(auto, unfolding(crate::specs::TypeTexts::type_text))]
pub(crate) fn push_type_word(into: &mut Vec<u8>, record_type: RecordType) -> Result<(), NoMemory>
    ensures { OnOk result (into.new.items ≡ into.old.items ++ (space ∷ type_text record_type.0)) }
{
    match further_word(record_type) {
        Some(word) => push_word(into, word.as_bytes()),
        None => {
            into.push(b' ')?;
            push_type(into, record_type)
        }
    }
}

/// Appends the words of types, given by their numbers.
pub(crate) fn push_types(into: &mut Vec<u8>, types: &[u16]) -> Result<(), NoMemory>
    ensures { OnOk result (into.new.items ≡ into.old.items ++ spaced (map type_text types.now)) }
{
    let mut rest = types;
    'types: while let Some((number, more)) = rest.split_first() {
        push_type_word(into, RecordType(*number))?;
        rest = more;
    }
    Ok(())
}
