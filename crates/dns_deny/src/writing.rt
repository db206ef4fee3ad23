//! The lines that say which questions are denied.
ghost use Rattle.std.specs.Prelude.{◌≡◌, ◌++◌, ◌∷◌, [], OnOk, IfOk};
ghost use Rattle.std.specs.List.{flat_map};
ghost use Rattle.dns_record.specs.Words.{type_word};
ghost use Rattle.dns_model.specs.NameText.{printed};
ghost use Rattle.dns_aggressive.specs.Denials.{made};
ghost use Rattle.dns_deny.specs.DenialLines.{denial_line, denials_text, store_of, verdict_words};

use crate::deny_text::ThenLine;
use dns_aggressive::{NegativeStore, Synthesized};
use dns_handle::DnsResponse;
use dns_record::{NoMemory, Query};
use dns_text::{push_decimal, push_type};
use std::alloc::Global;

/// How many records are kept.
const LIMIT: u32 = 65_536;

// Appends what is said of a question.
fn push_verdict(into: &mut Vec<u8>, denial: &Option<Synthesized>) -> Result<(), NoMemory>
    ensures { OnOk result (into.new.items ≡ into.old.items ++ verdict_words denial.now) }
{
    match denial {
        None => {
            into.extend_from_slice(b" unknown")?;
            Ok(())
        }
        Some(denial) => {
            into.extend_from_slice(b" denied ")?;
            push_decimal(into, u64::from(denial.code.0))?;
            into.push(b' ')?;
            push_decimal(into, u64::from(denial.ttl))
        }
    }
}

// Appends the name and the type of a question.
fn push_question(into: &mut Vec<u8>, question: &Query) -> Result<(), NoMemory>
    ensures { OnOk result (into.new.items ≡ into.old.items ++ (printed question.now.owner ++ (32 ∷ type_word question.now.rtype))) }
{
    let name = question.name.to_ascii()?;
    into.extend_from_slice(name.as_bytes())?;
    into.push(b' ')?;
    push_type(into, question.query_type)
}

// Appends the line of a question.
fn push_line(
    into: &mut Vec<u8>,
    store: &NegativeStore,
    question: &Query,
    moment: u64,
) -> Result<(), NoMemory>
    ensures { OnOk result (into.new.items ≡ into.old.items ++ denial_line store.now moment question.now) }
{
    let denial = store.synthesize(question, moment)?;
    push_question(into, question)?;
    push_verdict(into, &denial)?;
    into.push(b'\n')?;
    Ok(())
}

// Appends a line for each question.
fn push_lines(
    into: &mut Vec<u8>,
    store: &NegativeStore,
    lines: &[ThenLine],
    moment: u64,
) -> Result<(), NoMemory>
    ensures { OnOk result (into.new.items ≡ into.old.items ++ flat_map (denial_line store.now moment) lines.now) }
{
    for line in lines {
        push_line(into, store, &line.question, moment)?;
    }
    Ok(())
}

/// A line for each question, in order, that says whether the records of an answer deny it at a moment. It fails only where memory runs
/// out.
pub fn write_denials(
    alloc: Global,
    answer: &DnsResponse,
    lines: &[ThenLine],
    moment: u64,
) -> Result<Vec<u8>, NoMemory>
    ensures { IfOk result (λ v. v.items ≡ denials_text answer.now moment lines.now) }
{
    let mut store = NegativeStore::new(alloc, LIMIT);
    store.learn(answer, moment)?;
    let mut text = Vec::new(alloc);
    push_lines(&mut text, &store, lines, moment)?;
    Ok(text)
}
