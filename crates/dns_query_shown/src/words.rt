//! Pieces of lines.
ghost use Rattle.std.specs.Prelude.{◌≡◌, ◌++◌, codes, OnOk};
ghost use Rattle.dns_model.specs.NameText.{printed};
ghost use Rattle.dns_record.specs.Words.{type_word};
ghost use Rattle.dns_query_shown.specs.ChainTrees.{key_words, set_words};

use dns_rdata::key_tag;
use dns_record::{Name, NoMemory, RecordType};
use dns_text::{push_decimal, push_text, push_type};

/// Appends a name.
pub(crate) fn push_name(into: &mut Vec<u8>, name: &Name) -> Result<(), NoMemory>
    ensures { OnOk result (into.new.items ≡ into.old.items ++ printed name.now) }
{
    let text = name.to_ascii()?;
    push_text(into, text.as_bytes())
}

/// Appends a name and a type.
#[tactic(auto, unfolding(crate::specs::ChainTrees::set_words))]
pub(crate) fn push_set(
    into: &mut Vec<u8>,
    owner: &Name,
    record_type: RecordType,
) -> Result<(), NoMemory>
    ensures { OnOk result (into.new.items ≡ into.old.items ++ set_words owner.now record_type.0) }
{
    push_name(into, owner)?;
    into.push(b' ')?;
    push_type(into, record_type)
}

/// Appends the words for a key.
#[tactic(auto, unfolding(crate::specs::ChainTrees::key_words))]
pub(crate) fn push_key(into: &mut Vec<u8>, key: &[u8]) -> Result<(), NoMemory>
    ensures { OnOk result (into.new.items ≡ into.old.items ++ key_words key.now) }
{
    match key_tag(key) {
        Some(tag) => {
            push_text(into, b"key ")?;
            push_decimal(into, u64::from(tag))
        }
        None => push_text(into, b"key"),
    }
}
