//! The lines of records: those of an answer with their marks, and those that a step was told without.
ghost use Rattle.std.specs.Prelude.{◌≡◌, List, ℕ, Option, IfOk};
ghost use Rattle.std.specs.Option.{option_map, option_copied};
ghost use Rattle.dns_model.specs.Records.{Rr};
ghost use Rattle.dns_model.specs.declared.section.Section.{Section};
ghost use Rattle.dns_report.specs.LineWords.{section_word};
ghost use Rattle.dns_session.specs.LinePlaces.{many};
ghost use Rattle.dns_session.specs.Lines.{words_left};
ghost use Rattle.dns_audit.specs.ReportLines.{record_in, record_line, unmarked_in, told_line, after_told};
ghost use Rattle.dns_audit.specs.RecordForms.{line_of, sections_at};

use crate::report_words::{mark_in, rdata_in, u32_in};
use crate::word_cuts::{quintuple, sextuple};
use dns_model::{Proof, Section};
use dns_record::{NoMemory, Record};
use dns_session::{Lines, after};
use dns_text::{class_word_in, name_word_in, type_word_in};
use std::alloc::Global;

/// Which lines of records are read.
#[derive(Clone, Copy)]
pub(crate) enum RecordKind {
    /// Those of an answer.
    Marked,
    /// Those that a step was told.
    Told,
}

/// The records of three sections.
#[derive(Drop)]
pub(crate) struct Sections {
    pub answers: Vec<Record>,
    pub authorities: Vec<Record>,
    pub additionals: Vec<Record>,
}

// The word of a section.
fn section_word(section: Section) -> &'static [u8]
    ensures { result.now ≡ section_word section }
{
    match section {
        Section::Answer => b"answer",
        Section::Authority => b"authority",
        Section::Additional => b"additional",
    }
}

// A record without a mark, by its words.
fn unmarked_in(
    alloc: Global,
    name: &[u8],
    class: &[u8],
    record_type: &[u8],
    ttl: &[u8],
    rdata: &[u8],
) -> Result<Option<Record>, NoMemory>
    ensures { IfOk result (λ r. r ≡ unmarked_in name.now class.now record_type.now ttl.now rdata.now) }
{
    let Some(dns_class) = class_word_in(class) else {
        return Ok(None);
    };
    let Some(record_type) = type_word_in(record_type) else {
        return Ok(None);
    };
    let Some(ttl) = u32_in(ttl) else {
        return Ok(None);
    };
    let Some(name) = name_word_in(alloc, name)? else {
        return Ok(None);
    };
    let Some(rdata) = rdata_in(alloc, rdata)? else {
        return Ok(None);
    };
    Ok(Some(Record {
        name,
        record_type,
        dns_class,
        ttl,
        rdata,
        proof: Proof::Indeterminate,
    }))
}

// A record with its mark, by its words.
fn record_in(
    alloc: Global,
    name: &[u8],
    class: &[u8],
    record_type: &[u8],
    ttl: &[u8],
    mark: &[u8],
    rdata: &[u8],
) -> Result<Option<Record>, NoMemory>
    ensures { IfOk result (λ r. r ≡ record_in name.now class.now record_type.now ttl.now mark.now rdata.now) }
{
    let Some(proof) = mark_in(mark) else {
        return Ok(None);
    };
    let Some(mut record) = unmarked_in(alloc, name, class, record_type, ttl, rdata)? else {
        return Ok(None);
    };
    record.proof = proof;
    Ok(Some(record))
}

// A record of an answer's section, by its line.
fn marked_of(alloc: Global, section: Section, line: &[u8]) -> Result<Option<Record>, NoMemory>
    ensures { IfOk result (λ r. r ≡ record_line section line.now) }
{
    let Some(rest) = after(line, section_word(section)) else {
        return Ok(None);
    };
    let Some((name, class, record_type, ttl, mark, rdata)) = sextuple(rest) else {
        return Ok(None);
    };
    record_in(alloc, name, class, record_type, ttl, mark, rdata)
}

// What follows `told` and a section's word.
fn after_told<'a>(section: Section, line: &'a [u8]) -> Option<Option<&'a [u8]>>
    ensures { option_map (λ rest. words_left (option_copied rest)) result ≡ after_told section line.now }
{
    let more = after(line, b"told")??;
    after(more, section_word(section))
}

// A record that a step was told in a section, by its line.
fn told_of(alloc: Global, section: Section, line: &[u8]) -> Result<Option<Record>, NoMemory>
    ensures { IfOk result (λ r. r ≡ told_line section line.now) }
{
    let Some(rest) = after_told(section, line) else {
        return Ok(None);
    };
    let Some((name, class, record_type, ttl, rdata)) = quintuple(rest) else {
        return Ok(None);
    };
    unmarked_in(alloc, name, class, record_type, ttl, rdata)
}

// A record, by its line.
fn record_of(
    alloc: Global,
    kind: RecordKind,
    section: Section,
    line: &[u8],
) -> Result<Option<Record>, NoMemory>
    ensures { IfOk result (λ r. r ≡ line_of kind section line.now) }
{
    match kind {
        RecordKind::Marked => marked_of(alloc, section, line),
        RecordKind::Told => told_of(alloc, section, line),
    }
}

/// As many records of a section as there are, and the lines after them.
pub(crate) fn records_of<'a>(
    alloc: Global,
    kind: RecordKind,
    section: Section,
    lines: Lines<'a>,
) -> Result<(Vec<Record>, Lines<'a>), NoMemory>
    ensures { IfOk result (λ x. (x.0.items, x.1) ≡ many (line_of kind section) lines.entry) }
{
    let mut all = Vec::new(alloc);
    let mut here = lines;
    while let Some((line, after)) = here.next() {
        match record_of(alloc, kind, section, line)? {
            Some(record) => all.push(record)?,
            None => return Ok((all, here)),
        }
        here = after;
    }
    Ok((all, here))
}

/// The records of an answer's three sections, or those that a step was told in them, and the lines after them.
pub(crate) fn read_sections<'a>(
    alloc: Global,
    kind: RecordKind,
    lines: Lines<'a>,
) -> Result<(Sections, Lines<'a>), NoMemory>
    ensures { IfOk result (λ x. (x.0.answers.items, x.0.authorities.items, x.0.additionals.items, x.1)
        ≡ sections_at (line_of kind) lines.entry) }
{
    let (answers, lines) = records_of(alloc, kind, Section::Answer, lines)?;
    let (authorities, lines) = records_of(alloc, kind, Section::Authority, lines)?;
    let (additionals, lines) = records_of(alloc, kind, Section::Additional, lines)?;
    let sections = Sections {
        answers,
        authorities,
        additionals,
    };
    Ok((sections, lines))
}
