//! The lines of a step's sets, and of its ending.
ghost use Rattle.std.specs.Prelude.{◌≡◌, ◌++◌, ◌∷◌, true, map, OnOk, IsTrue};
ghost use Rattle.std.specs.List.{flat_map, list_all};
ghost use Rattle.dns_model.specs.Trails.{Foreign};
ghost use Rattle.dns_evidence.specs.Trail.{ending_value};
ghost use Rattle.std.specs.Option.{option_map_or};
ghost use Rattle.dns_report.specs.Fields.{is_u32};
ghost use Rattle.dns_text.specs.Lines.{line_rest, spaced};
ghost use Rattle.dns_report.specs.LineWords.{mark_word};
ghost use Rattle.dns_report.specs.TrailView.{fitting_ask, fitting_origin, fitting_set, fitting_ending};
ghost use Rattle.dns_report.specs.TrailLines.{ask_word, origin_word, place_word, set_line, ending_words};
ghost use Rattle.dns_report.specs.WrittenLines.{ending_line};

use crate::marks::section_word;
use crate::words::{push_denial_words, push_front, push_mark};
use dns_evidence::{Ending, JudgedSet};
use dns_model::{AskRef, MarkOrigin};
use dns_record::{DNSClass, Name, NoMemory, RecordType};
use dns_text::{
    end_line, push_decimal, push_name_word, push_number, push_text, push_type_word, push_word,
};

// Appends the word of an ask.
fn push_ask(into: &mut Vec<u8>, ask: AskRef) -> Result<(), NoMemory>
    ensures ok { OnOk result (into.new.items ≡ into.old.items ++ (32 ∷ ask_word ask)) }
    ensures fits { OnOk result (IsTrue (fitting_ask ask)) }
{
    match ask {
        AskRef::Step(number) => push_number(into, u64::from(number)),
        AskRef::TooDeep => push_word(into, b"deep"),
        AskRef::TooMany => push_word(into, b"many"),
    }
}

// Appends the words of asks, in order, and ends the line.
fn push_asks(into: &mut Vec<u8>, asks: &[AskRef]) -> Result<(), NoMemory>
    ensures ok { OnOk result (into.new.items ≡ into.old.items ++ line_rest (map ask_word asks.now)) }
    ensures fits { OnOk result (IsTrue (list_all fitting_ask asks.now)) }
{
    let mut left = asks;
    'asks: while let Some((ask, more)) = left.split_first() {
        push_ask(into, *ask)?;
        left = more;
    }
    end_line(into)
}

// Appends the word of where a mark comes from.
fn push_origin(into: &mut Vec<u8>, origin: MarkOrigin) -> Result<(), NoMemory>
    ensures ok { OnOk result (into.new.items ≡ into.old.items ++ (32 ∷ origin_word origin)) }
    ensures fits { OnOk result (IsTrue (fitting_origin origin)) }
{
    match origin {
        MarkOrigin::Table => push_word(into, b"table"),
        MarkOrigin::Repeat(step) => {
            push_word(into, b"repeat-")?;
            push_decimal(into, u64::from(step))
        }
        MarkOrigin::Cache => push_word(into, b"cache"),
    }
}

// Appends the word of the place of the signature that decided.
fn push_place(into: &mut Vec<u8>, sig: Option<u32>) -> Result<(), NoMemory>
    ensures ok { OnOk result (into.new.items ≡ into.old.items ++ (32 ∷ place_word sig)) }
    ensures fits { OnOk result (IsTrue (option_map_or is_u32 sig true)) }
{
    match sig {
        Some(place) => push_number(into, u64::from(place)),
        None => push_word(into, b"-"),
    }
}

// Appends the last words of a set's line: its mark, and on what that stands.
fn push_found(into: &mut Vec<u8>, set: &JudgedSet) -> Result<(), NoMemory>
    ensures ok { OnOk result (into.new.items ≡ into.old.items ++ line_rest
        (mark_word set.now.mark ∷ origin_word set.now.origin ∷ place_word set.now.sig ∷ map ask_word set.now.asked)) }
    ensures origin { OnOk result (IsTrue (fitting_origin set.now.origin)) }
    ensures place { OnOk result (IsTrue (option_map_or is_u32 set.now.sig true)) }
    ensures asked { OnOk result (IsTrue (list_all fitting_ask set.now.asked)) }
{
    push_mark(into, set.mark)?;
    push_origin(into, set.origin)?;
    push_place(into, set.sig)?;
    push_asks(into, &set.asked)
}

// Appends the line of a set and its mark.
fn push_set(into: &mut Vec<u8>, set: &JudgedSet) -> Result<(), NoMemory>
    ensures ok { OnOk result (into.new.items ≡ into.old.items ++ set_line set.now) }
    ensures fits { OnOk result (IsTrue (fitting_set set.now)) }
{
    push_text(into, b"set")?;
    push_word(into, section_word(set.section))?;
    push_name_word(into, &set.owner)?;
    push_type_word(into, set.record_type)?;
    push_found(into, set)
}

/// Appends the lines of sets, in order.
pub(crate) fn push_sets(into: &mut Vec<u8>, sets: &[JudgedSet]) -> Result<(), NoMemory>
    ensures ok { OnOk result (into.new.items ≡ into.old.items ++ flat_map set_line sets.now) }
    ensures fits { OnOk result (IsTrue (list_all fitting_set sets.now)) }
{
    for set in sets {
        push_set(into, set)?;
    }
    Ok(())
}

// Appends the words of an ending at a record of another class.
fn push_foreign(
    into: &mut Vec<u8>,
    owner: &Name,
    class: DNSClass,
    record_type: RecordType,
) -> Result<(), NoMemory>
    ensures ok { OnOk result (into.new.items ≡ into.old.items
        ++ spaced (ending_words (Foreign owner.now class.0 record_type.0))) }
    ensures fits { OnOk result (IsTrue (fitting_ending (Foreign owner.now class.0 record_type.0))) }
{
    push_front(into, b" foreign", owner, class)?;
    push_type_word(into, record_type)
}

// Appends the words of an ending.
fn push_ending_words(into: &mut Vec<u8>, ending: &Ending) -> Result<(), NoMemory>
    ensures ok { OnOk result (into.new.items ≡ into.old.items ++ spaced (ending_words (ending_value ending.now))) }
    ensures fits { OnOk result (IsTrue (fitting_ending (ending_value ending.now))) }
{
    match ending {
        Ending::Answered(denial) => push_denial_words(into, *denial),
        Ending::Denied(mark) => {
            push_word(into, b"denied")?;
            push_mark(into, *mark)
        }
        Ending::Foreign {
            owner,
            class,
            record_type,
        } => push_foreign(into, owner, *class, *record_type),
        Ending::Failed => push_word(into, b"failed"),
        Ending::Seen => push_word(into, b"seen"),
    }
}

/// Appends the line that ends a step.
#[tactic(auto, using(crate::proofs::SpacedWords::rest_spaced))]
pub(crate) fn push_ending(
    into: &mut Vec<u8>,
    ending: &Ending,
    excuse: &[AskRef],
) -> Result<(), NoMemory>
    ensures ok { OnOk result (into.new.items ≡ into.old.items ++ ending_line (ending_value ending.now) excuse.now) }
    ensures ending { OnOk result (IsTrue (fitting_ending (ending_value ending.now))) }
    ensures excuse { OnOk result (IsTrue (list_all fitting_ask excuse.now)) }
{
    push_text(into, b"ending")?;
    push_ending_words(into, ending)?;
    push_asks(into, excuse)
}
