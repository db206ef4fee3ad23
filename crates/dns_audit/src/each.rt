//! Words of one kind, as many as are left of a line.
ghost use Rattle.std.specs.Prelude.{◌≡◌, List, ℕ, Option, IfOk};
ghost use Rattle.std.specs.Option.{option_map, option_copied};
ghost use Rattle.dns_session.specs.Lines.{words_left};
ghost use Rattle.dns_audit.specs.LineParts.{each_in};
ghost use Rattle.dns_audit.specs.ReportWords.{ask_in, rdata_in};

use crate::report_words::{ask_in, rdata_in};
use dns_model::AskRef;
use dns_record::{NoMemory, Rdata};
use dns_session::next_word;
use std::alloc::Global;

/// The asks that are left.
pub(crate) fn asks_of(alloc: Global, rest: Option<&[u8]>) -> Result<Option<Vec<AskRef>>, NoMemory>
    ensures { IfOk result (λ all. option_map (λ v. v.items) all
        ≡ each_in ask_in (words_left (option_copied rest.entry))) }
{
    let mut all = Vec::new(alloc);
    let mut left = rest;
    while let Some(text) = left {
        let (word, more) = next_word(text);
        match ask_in(word) {
            Some(ask) => all.push(ask)?,
            None => return Ok(None),
        }
        left = more;
    }
    Ok(Some(all))
}

/// The rdatas that are left.
pub(crate) fn rdatas_of(alloc: Global, rest: Option<&[u8]>) -> Result<Option<Vec<Rdata>>, NoMemory>
    ensures { IfOk result (λ all. option_map (λ v. v.items) all
        ≡ each_in rdata_in (words_left (option_copied rest.entry))) }
{
    let mut all = Vec::new(alloc);
    let mut left = rest;
    while let Some(text) = left {
        let (word, more) = next_word(text);
        match rdata_in(alloc, word)? {
            Some(rdata) => all.push(rdata)?,
            None => return Ok(None),
        }
        left = more;
    }
    Ok(Some(all))
}
