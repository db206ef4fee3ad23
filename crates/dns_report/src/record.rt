//! The lines of records.
ghost use Rattle.std.specs.Prelude.{◌≡◌, ◌++◌, ◌∷◌, [], OnOk, IsTrue};
ghost use Rattle.std.specs.Fmt.{decimal};
ghost use Rattle.std.specs.List.{list_all};
ghost use Rattle.dns_model.specs.Bytes.{is_bytes};
ghost use Rattle.dns_record.specs.Words.{type_word};
ghost use Rattle.dns_text.specs.Words.{octets_word};
ghost use Rattle.dns_text.specs.Lines.{line_rest};
ghost use Rattle.dns_report.specs.LineWords.{mark_word};
ghost use Rattle.dns_report.specs.Fields.{is_u16, is_u32};
ghost use Rattle.dns_report.specs.View.{fitting_record};
ghost use Rattle.dns_report.specs.Report.{record_line, section_text};

use crate::marks::section_word;
use crate::words::{push_front, push_mark};
use dns_model::Section;
use dns_record::{NoMemory, Record};
use dns_text::{end_line, push_number, push_octets_word, push_type_word};

// Appends the last words of a record's line.
fn push_rest(into: &mut Vec<u8>, one: &Record) -> Result<(), NoMemory>
    ensures ok { OnOk result (into.new.items ≡ into.old.items ++ line_rest
        (type_word one.now.rtype ∷ decimal one.now.ttl ∷ mark_word one.now.proof ∷ octets_word one.now.rdata ∷ [])) }
    ensures rtype { OnOk result (IsTrue (is_u16 one.now.rtype)) }
    ensures ttl { OnOk result (IsTrue (is_u32 one.now.ttl)) }
    ensures rdata { OnOk result (IsTrue (is_bytes one.now.rdata)) }
{
    push_type_word(into, one.record_type)?;
    push_number(into, u64::from(one.ttl))?;
    push_mark(into, one.proof)?;
    push_octets_word(into, one.rdata.as_slice())?;
    end_line(into)
}

// Appends the line of a record of a section.
fn push_record(into: &mut Vec<u8>, section: Section, one: &Record) -> Result<(), NoMemory>
    ensures ok { OnOk result (into.new.items ≡ into.old.items ++ record_line section one.now) }
    ensures fits { OnOk result (IsTrue (fitting_record one.now)) }
{
    push_front(into, section_word(section), &one.name, one.dns_class)?;
    push_rest(into, one)
}

/// Appends the lines of a section's records, in order.
pub(crate) fn push_section(
    into: &mut Vec<u8>,
    section: Section,
    records: &[Record],
) -> Result<(), NoMemory>
    ensures ok { OnOk result (into.new.items ≡ into.old.items ++ section_text section records.now) }
    ensures fits { OnOk result (IsTrue (list_all fitting_record records.now)) }
{
    for next in records {
        push_record(into, section, next)?;
    }
    Ok(())
}
