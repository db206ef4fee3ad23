//! The lines of a step's sets.
ghost use Rattle.std.specs.Prelude.{◌≡◌, IfOk};
ghost use Rattle.std.specs.Option.{option_copied};
ghost use Rattle.dns_session.specs.LinePlaces.{many};
ghost use Rattle.dns_session.specs.Lines.{words_left};
ghost use Rattle.dns_audit.specs.ReportLines.{set_in, set_line};

use crate::each::asks_of;
use crate::report_words::{mark_in, origin_in, place_in, section_in};
use crate::word_cuts::six_of;
use dns_evidence::JudgedSet;
use dns_record::NoMemory;
use dns_session::{Lines, after};
use dns_text::{name_word_in, type_word_in};
use std::alloc::Global;

// A set with its mark, by what is left of its line.
fn set_in(alloc: Global, rest: Option<&[u8]>) -> Result<Option<JudgedSet>, NoMemory>
    ensures { IfOk result (λ s. s ≡ set_in (words_left (option_copied rest.entry))) }
{
    let Some((section, owner, record_type, mark, origin, sig, asks)) = six_of(rest) else {
        return Ok(None);
    };
    let Some(section) = section_in(section) else {
        return Ok(None);
    };
    let Some(record_type) = type_word_in(record_type) else {
        return Ok(None);
    };
    let Some(mark) = mark_in(mark) else {
        return Ok(None);
    };
    let Some(origin) = origin_in(origin) else {
        return Ok(None);
    };
    let Some(sig) = place_in(sig) else {
        return Ok(None);
    };
    let Some(owner) = name_word_in(alloc, owner)? else {
        return Ok(None);
    };
    let Some(asked) = asks_of(alloc, asks)? else {
        return Ok(None);
    };
    Ok(Some(JudgedSet {
        section,
        owner,
        record_type,
        mark,
        origin,
        sig,
        asked,
    }))
}

// A set with its mark, by its line.
fn set_of(alloc: Global, line: &[u8]) -> Result<Option<JudgedSet>, NoMemory>
    ensures { IfOk result (λ s. s ≡ set_line line.now) }
{
    let Some(rest) = after(line, b"set") else {
        return Ok(None);
    };
    set_in(alloc, rest)
}

/// As many sets as there are, and the lines after them.
pub(crate) fn sets_of<'a>(
    alloc: Global,
    lines: Lines<'a>,
) -> Result<(Vec<JudgedSet>, Lines<'a>), NoMemory>
    ensures { IfOk result (λ x. (x.0.items, x.1) ≡ many set_line lines.entry) }
{
    let mut all = Vec::new(alloc);
    let mut here = lines;
    while let Some((line, after)) = here.next() {
        match set_of(alloc, line)? {
            Some(set) => all.push(set)?,
            None => return Ok((all, here)),
        }
        here = after;
    }
    Ok((all, here))
}
