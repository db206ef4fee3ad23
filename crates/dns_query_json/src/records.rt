//! Records with their marks (RFC 1035, 5.1; RFC 4035, 4.3).
ghost use Rattle.std.specs.Prelude.{◌≡◌, ◌++◌, OnOk};
ghost use Rattle.dns_query_json.specs.AnswerJson.{mark_field, records_field, sections_fields};
ghost use Rattle.dns_report.specs.LineWords.{mark_word as word_of_mark};

use crate::lists::{JsonValue, push_list};
use crate::strings::{push_named, push_sign, push_string_field};
use dns_message::Message;
use dns_model::Proof;
use dns_presentation::presentation;
use dns_record::{NoMemory, Record};

// The word of a mark.
fn mark_word(mark: Proof) -> &'static [u8]
    ensures { result.now ≡ word_of_mark mark }
{
    match mark {
        Proof::Secure => b"secure",
        Proof::Insecure => b"insecure",
        Proof::Bogus => b"bogus",
        Proof::Indeterminate => b"indeterminate",
    }
}

/// Appends the field of a mark.
#[tactic(auto, unfolding(crate::specs::AnswerJson::mark_field))]
pub(crate) fn push_mark(into: &mut Vec<u8>, mark: Proof) -> Result<(), NoMemory>
    ensures { OnOk result (into.new.items ≡ into.old.items ++ mark_field mark) }
{
    push_string_field(into, b"mark", mark_word(mark))
}

impl JsonValue for Record {
    ghost use Rattle.dns_query_json.specs.AnswerJson.{record_value};

    ghost text = { record_value };

    #[tactic(auto, unfolding(crate::specs::AnswerJson::record_value))]
    fn push_value(&self, into: &mut Vec<u8>) -> Result<(), NoMemory> {
        let line = presentation(*into.allocator(), self)?;
        push_sign(into, b'{')?;
        push_mark(into, self.proof)?;
        push_sign(into, b',')?;
        push_string_field(into, b"record", &line)?;
        push_sign(into, b'}')
    }
}

// Appends the field of a section's records.
#[tactic(auto, unfolding(crate::specs::AnswerJson::records_field))]
fn push_records(into: &mut Vec<u8>, name: &[u8], records: &[Record]) -> Result<(), NoMemory>
    ensures { OnOk result (into.new.items ≡ into.old.items ++ records_field name.now records.now) }
{
    push_named(into, name)?;
    push_list(into, records)
}

/// Appends the fields of a message's sections.
#[tactic(auto, unfolding(crate::specs::AnswerJson::sections_fields))]
pub(crate) fn push_sections(into: &mut Vec<u8>, message: &Message) -> Result<(), NoMemory>
    ensures { OnOk result (into.new.items ≡ into.old.items ++ sections_fields message.now) }
{
    push_records(into, b"answers", &message.answers)?;
    push_sign(into, b',')?;
    push_records(into, b"authorities", &message.authorities)?;
    push_sign(into, b',')?;
    push_records(into, b"additionals", &message.additionals)
}
