//! The lines of a trail.
ghost use Rattle.std.specs.Prelude.{◌≡◌, ◌++◌, ◌∷◌, ◌^◌, [], Some, map, codes, length, nat_lt, OnOk, IsTrue};
ghost use Rattle.std.specs.List.{flat_map, list_all};
ghost use Rattle.std.specs.Fmt.{decimal};
ghost use Rattle.dns_model.specs.Trails.{Records as heard_records};
ghost use Rattle.dns_evidence.specs.Trail.{heard_value};
ghost use Rattle.dns_model.specs.Bytes.{is_bytes};
ghost use Rattle.dns_record.specs.Words.{type_word};
ghost use Rattle.dns_text.specs.Words.{octets_word};
ghost use Rattle.dns_text.specs.Lines.{line, line_rest};
ghost use Rattle.dns_report.specs.Fields.{fitting_name, is_u16, is_u32};
ghost use Rattle.dns_report.specs.TrailView.{unmarked, heard_view, step_view, fitting_told, fitting_heard, fitting_step, fitting_trail};
ghost use Rattle.dns_report.specs.TrailLines.{purpose_word, empty_words, told_line, told_text, step_text, trail_text};
ghost use Rattle.dns_report.specs.WrittenLines.{count_line, step_line, got_line};

use crate::judged::{push_ending, push_sets};
use crate::marks::section_word;
use crate::words::push_front;
use dns_evidence::{Asked, Reply, Told, Trail};
use dns_model::Section;
use dns_record::{NoMemory, Record, ResponseCode};
use dns_text::{
    end_line, push_name_word, push_number, push_octets_word, push_text, push_type_word, push_word,
};

// The word of what a reply is asked for.
fn purpose_word(judged: bool) -> &'static [u8]
    ensures { result.now ≡ purpose_word judged }
{
    if judged { b"judged" } else { b"ns" }
}

// Appends the line that begins a step.
fn push_step_line(into: &mut Vec<u8>, step: &Asked) -> Result<(), NoMemory>
    ensures ok { OnOk result (into.new.items ≡ into.old.items ++ step_line (step_view step.now)) }
    ensures depth { OnOk result (IsTrue (is_u16 step.now.depth)) }
    ensures owner { OnOk result (IsTrue (fitting_name step.now.query.owner)) }
    ensures rtype { OnOk result (IsTrue (is_u16 step.now.query.rtype)) }
{
    push_text(into, b"step")?;
    push_number(into, u64::from(step.depth))?;
    push_word(into, purpose_word(step.judged))?;
    push_name_word(into, &step.query.name)?;
    push_type_word(into, step.query.query_type)?;
    end_line(into)
}

// Appends the line of a reply that tells records.
fn push_got(into: &mut Vec<u8>, code: ResponseCode, empty: bool) -> Result<(), NoMemory>
    ensures ok { OnOk result (into.new.items ≡ into.old.items
        ++ line (codes "got") (decimal code.0 ∷ empty_words empty)) }
    ensures fits { OnOk result (IsTrue (is_u16 code.0)) }
{
    push_text(into, b"got")?;
    push_number(into, u64::from(code.0))?;
    if empty {
        push_word(into, b"empty")?;
    }
    end_line(into)
}

// Appends the last words of a told record's line.
fn push_told_rest(into: &mut Vec<u8>, one: &Record) -> Result<(), NoMemory>
    ensures ok { OnOk result (into.new.items ≡ into.old.items
        ++ line_rest (type_word one.now.rtype ∷ decimal one.now.ttl ∷ octets_word one.now.rdata ∷ [])) }
    ensures rtype { OnOk result (IsTrue (is_u16 one.now.rtype)) }
    ensures ttl { OnOk result (IsTrue (is_u32 one.now.ttl)) }
    ensures rdata { OnOk result (IsTrue (is_bytes one.now.rdata)) }
{
    push_type_word(into, one.record_type)?;
    push_number(into, u64::from(one.ttl))?;
    push_octets_word(into, one.rdata.as_slice())?;
    end_line(into)
}

// Appends the line of a record that was told.
fn push_told_record(into: &mut Vec<u8>, section: Section, one: &Record) -> Result<(), NoMemory>
    ensures ok { OnOk result (into.new.items ≡ into.old.items ++ told_line section (unmarked one.now)) }
    ensures fits { OnOk result (IsTrue (fitting_told (unmarked one.now))) }
{
    push_text(into, b"told ")?;
    push_front(into, section_word(section), &one.name, one.dns_class)?;
    push_told_rest(into, one)
}

// Appends the lines of the records that were told in a section, in order.
fn push_told_section(
    into: &mut Vec<u8>,
    section: Section,
    records: &[Record],
) -> Result<(), NoMemory>
    ensures ok { OnOk result (into.new.items ≡ into.old.items
        ++ flat_map (told_line section) (map unmarked records.now)) }
    ensures fits { OnOk result (IsTrue (list_all fitting_told (map unmarked records.now))) }
{
    for next in records {
        push_told_record(into, section, next)?;
    }
    Ok(())
}

// Appends the lines of a reply that tells records.
#[tactic(auto, unfolding(crate::specs::TrailLines::told_text))]
fn push_told(into: &mut Vec<u8>, told: &Told) -> Result<(), NoMemory>
    ensures ok { OnOk result (into.new.items ≡ into.old.items
        ++ got_line (heard_view (heard_records told.now.0 told.now.1))
        ++ told_text (heard_view (heard_records told.now.0 told.now.1))) }
    ensures fits { OnOk result (IsTrue (fitting_heard (heard_view (heard_records told.now.0 told.now.1)))) }
{
    push_got(into, told.code, told.empty)?;
    push_told_section(into, Section::Answer, &told.answers)?;
    push_told_section(into, Section::Authority, &told.authorities)?;
    push_told_section(into, Section::Additional, &told.additionals)
}

// Appends the lines of what was heard of a reply.
#[tactic(auto, unfolding(crate::specs::TrailLines::told_text))]
fn push_reply(into: &mut Vec<u8>, reply: &Reply) -> Result<(), NoMemory>
    ensures ok { OnOk result (into.new.items ≡ into.old.items
        ++ got_line (heard_view (heard_value reply.now)) ++ told_text (heard_view (heard_value reply.now))) }
    ensures fits { OnOk result (IsTrue (fitting_heard (heard_view (heard_value reply.now)))) }
{
    match reply {
        Reply::Told(told) => push_told(into, told),
        Reply::Fault => push_text(into, b"got fault\n"),
    }
}

// Appends the lines of a step.
#[tactic(auto, unfolding(crate::specs::TrailLines::step_text))]
fn push_step(into: &mut Vec<u8>, step: &Asked) -> Result<(), NoMemory>
    ensures ok { OnOk result (into.new.items ≡ into.old.items ++ step_text (step_view step.now)) }
    ensures fits { OnOk result (IsTrue (fitting_step (step_view step.now))) }
{
    push_step_line(into, step)?;
    push_reply(into, &step.reply)?;
    push_sets(into, &step.sets)?;
    push_ending(into, &step.ending, &step.excuse)
}

// Appends the line that begins a trail.
fn push_count(into: &mut Vec<u8>, steps: &[Asked]) -> Result<(), NoMemory>
    ensures ok { OnOk result (into.new.items ≡ into.old.items ++ count_line (map step_view steps.now)) }
    ensures count { OnOk result (IsTrue (nat_lt (length (map step_view steps.now)) (2 ^ 64))) }
{
    push_text(into, b"trail")?;
    push_number(into, steps.len() as u64)?;
    end_line(into)
}

// Appends the lines of steps, in order.
fn push_steps(into: &mut Vec<u8>, steps: &[Asked]) -> Result<(), NoMemory>
    ensures ok { OnOk result (into.new.items ≡ into.old.items ++ flat_map step_text (map step_view steps.now)) }
    ensures fits { OnOk result (IsTrue (list_all fitting_step (map step_view steps.now))) }
{
    for step in steps {
        push_step(into, step)?;
    }
    Ok(())
}

/// Appends the lines of a trail.
pub(crate) fn push_trail(into: &mut Vec<u8>, trail: &Trail) -> Result<(), NoMemory>
    ensures ok { OnOk result (into.new.items ≡ into.old.items ++ trail_text (Some (map step_view trail.now))) }
    ensures fits { OnOk result (IsTrue (fitting_trail (Some (map step_view trail.now)))) }
{
    push_count(into, &trail.steps)?;
    push_steps(into, &trail.steps)
}
