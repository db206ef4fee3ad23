//! The program over any sink.
ghost use Rattle.std.specs.Prelude.{◌≡◌, ◌<◌, ◌⊎◌};
ghost use Rattle.std.specs.Io.KnownBytes.{Appends};
ghost use Rattle.dns_io.specs.Runs.{KeepsSink};
ghost use Rattle.dns_io.specs.Writing.{bad_words_text};

use crate::form::{Form, Work, form_of};
use crate::kept_load::kept_load;
use crate::random_calls::{Outcome, played};
use dns_io::Sink;
use dns_io::status::{self, refuse_words, write_text};
use dns_record::NoMemory;
use dns_text::push_decimal;
use std::alloc::Global;

// Puts a line with a word and a number behind a text.
fn push_line(text: &mut Vec<u8>, name: &[u8], number: u64) -> Result<(), NoMemory> {
    text.extend_from_slice(name)?;
    push_decimal(text, number)?;
    text.push(b'\n')?;
    Ok(())
}

// Puts the lines of random calls behind a text.
fn push_played(alloc: Global, text: &mut Vec<u8>, form: Form) -> Result<(), NoMemory> {
    match played(alloc, u64::from(form.first), form.second, form.third)? {
        Outcome::Alike { denied } => {
            push_line(text, b"alike ", u64::from(form.second))?;
            push_line(text, b"denied ", u64::from(denied))
        }
        Outcome::Different { number } => push_line(text, b"different ", u64::from(number)),
    }
}

// Puts the lines of what is asked for behind a text.
fn push_lines(alloc: Global, text: &mut Vec<u8>, form: Form) -> Result<(), NoMemory> {
    if let Work::Random = form.work {
        return push_played(alloc, text, form);
    }
    let count = kept_load(alloc, form)?;
    push_line(text, b"done ", count)
}

// Does what is asked for, and writes its lines.
fn answer<W: Sink>(alloc: Global, form: Form, output: &mut W) -> u8
    ensures ends { result < 4 → result ≡ 0 }
    ensures keeps { KeepsSink W.faults result output.old output.new }
{
    let mut text = Vec::new(alloc);
    match push_lines(alloc, &mut text, form) {
        Ok(()) => write_text(status::DONE, &text, output),
        Err(NoMemory) => status::NO_MEMORY,
    }
}

/// Runs the program with its words, those after its name, and answers its status.
///
/// `random SEED CALLS LIMIT` plays so many random calls on a store that keeps so many records and on a plain list. It writes `alike CALLS`, and `denied` with how
/// many queries were denied; or `different` with the number of the first call that the two answer otherwise, counted from 0.
///
/// `hits RECORDS QUESTIONS SHAPE` fills a store with so many records of one zone, and asks it so many questions that it denies; `misses` asks such that it
/// doesn't. `learn RECORDS RESPONSES SHAPE` has a full store learn so many responses of three of its records each, and `made` makes these responses alone. The shape is a
/// sum: 1 for NSEC3 records without iterations in place of NSEC, and 2 where every other record is dead. Each writes `done` and how often it went well, or how
/// many records were learned or made.
///
/// 0: the lines are written. 2: the words are no form. 5: a write failed after a prefix of the text. 6: memory ran out.
pub(crate) fn run<W: Sink>(alloc: Global, words: &[Vec<u8>], output: &mut W) -> u8
    ensures ends { result < 4 → (result ≡ 0) ⊎ (result ≡ 2) }
    ensures refused { result ≡ 2 → Appends (W.taken output.old) (W.taken output.new) bad_words_text }
    ensures keeps { KeepsSink W.faults result output.old output.new }
{
    match form_of(words) {
        Some(form) => answer(alloc, form, output),
        None => refuse_words(output),
    }
}
