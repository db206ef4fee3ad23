//! Words of sentences.
ghost use Rattle.std.specs.Prelude.{◌≡◌, ◌++◌, ◌∷◌, OnOk};
ghost use Rattle.std.specs.Fmt.{decimal};
ghost use Rattle.dns_model.specs.NameText.{printed};
ghost use Rattle.dns_record.specs.Words.{type_word};
ghost use Rattle.dns_query_answer.specs.SentenceWords.{code_words, counted, set_words, span_words, title as title_of};

use dns_model::Proof;
use dns_record::{Name, NameRef, NoMemory, RecordType, ResponseCode};
use dns_text::{push_decimal, push_text, push_type};

const HOUR: u32 = 3_600;

const DAY: u32 = 86_400;

/// A mark as a sentence begins with it.
pub(crate) fn title(mark: Proof) -> &'static [u8]
    ensures { result.now ≡ title_of mark }
{
    match mark {
        Proof::Secure => b"Secure",
        Proof::Insecure => b"Insecure",
        Proof::Bogus => b"Bogus",
        Proof::Indeterminate => b"Indeterminate",
    }
}

/// Appends a name.
pub(crate) fn push_name(into: &mut Vec<u8>, name: &Name) -> Result<(), NoMemory>
    ensures { OnOk result (into.new.items ≡ into.old.items ++ printed name.now) }
{
    let text = name.to_ascii()?;
    push_text(into, text.as_bytes())
}

/// Appends a name that stands in other bytes.
pub(crate) fn push_name_ref(into: &mut Vec<u8>, name: &NameRef<'_>) -> Result<(), NoMemory>
    ensures { OnOk result (into.new.items ≡ into.old.items ++ printed name.now) }
{
    let text = name.to_ascii(*into.allocator())?;
    push_text(into, text.as_bytes())
}

/// Appends the owner and the type of a set.
pub(crate) fn push_set(
    into: &mut Vec<u8>,
    owner: &Name,
    record_type: RecordType,
) -> Result<(), NoMemory>
    ensures { OnOk result (into.new.items ≡ into.old.items ++ set_words owner.now record_type.0) }
{
    push_name(into, owner)?;
    into.push(b' ')?;
    push_type(into, record_type)
}

/// Appends a text and the name behind it.
pub(crate) fn push_named(
    into: &mut Vec<u8>,
    text: &[u8],
    name: &NameRef<'_>,
) -> Result<(), NoMemory>
    ensures { OnOk result (into.new.items ≡ into.old.items ++ (text.now ++ printed name.now)) }
{
    push_text(into, text)?;
    push_name_ref(into, name)
}

/// Appends a text and the number behind it.
pub(crate) fn push_numbered(into: &mut Vec<u8>, text: &[u8], number: u16) -> Result<(), NoMemory>
    ensures { OnOk result (into.new.items ≡ into.old.items ++ (text.now ++ decimal number)) }
{
    push_text(into, text)?;
    push_decimal(into, u64::from(number))
}

// Appends a number of units.
fn push_counted(into: &mut Vec<u8>, number: u32, unit: &[u8]) -> Result<(), NoMemory>
    ensures { OnOk result (into.new.items ≡ into.old.items ++ counted number unit.now) }
{
    push_decimal(into, u64::from(number))?;
    into.push(b' ')?;
    push_text(into, unit)?;
    if number == 1 {
        return Ok(());
    }
    push_text(into, b"s")
}

/// Appends how long so many seconds are, in seconds, whole hours or whole days.
#[tactic(auto, unfolding(crate::specs::SentenceWords::span_words))]
pub(crate) fn push_span(into: &mut Vec<u8>, seconds: u32) -> Result<(), NoMemory>
    ensures { OnOk result (into.new.items ≡ into.old.items ++ span_words seconds) }
{
    if seconds < HOUR {
        return push_counted(into, seconds, b"second");
    }
    if seconds < DAY {
        return push_counted(into, seconds / HOUR, b"hour");
    }
    push_counted(into, seconds / DAY, b"day")
}

/// Appends a response code that stands for a failure, by its name where it is one of RFC 1035, 4.1.1.
#[tactic(auto, unfolding(crate::specs::SentenceWords::code_words))]
pub(crate) fn push_code(into: &mut Vec<u8>, code: ResponseCode) -> Result<(), NoMemory>
    ensures { OnOk result (into.new.items ≡ into.old.items ++ code_words code.0) }
{
    match code.0 {
        1 => push_text(into, b"FORMERR"),
        2 => push_text(into, b"SERVFAIL"),
        4 => push_text(into, b"NOTIMP"),
        5 => push_text(into, b"REFUSED"),
        number => {
            push_text(into, b"code ")?;
            push_decimal(into, u64::from(number))
        }
    }
}
