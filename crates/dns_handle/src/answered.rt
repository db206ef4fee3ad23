//! Whether a message answers its questions (RFC 1034, 4.3.2; RFC 2308, 2).
ghost use Rattle.std.specs.Prelude.{◌≡◌, IfOk, OnOk};
ghost use Rattle.std.specs.List.{list_any};
ghost use Rattle.dns_handle.specs.AnswerIndex.{AllNoted, Indexes, Noted, RecordNoted, answered_by, asks_for_any, has_at, takes_answers, zone_at};
ghost use Rattle.dns_handle.specs.Responses.{contains_answer, takes_any_answer};

use crate::query_key::QueryKey;
use dns_message::Message;
use dns_record::{Name, NameRef, NoMemory, Query, Record, RecordType};
use std::alloc::Global;
use std::collections::BTreeSet;

/// The owners and types of records, each owner with type ANY too: many questions are answered without a walk over the records
/// for each.
type AnswerIndex = BTreeSet<QueryKey>;

// Notes an owner and a type.
fn note(
    alloc: Global,
    index: &mut AnswerIndex,
    owner: &Name,
    record_type: RecordType,
) -> Result<(), NoMemory>
    ensures { OnOk result (Noted index.old index.new owner.now record_type.0) }
{
    let key = QueryKey::at(alloc, &owner.borrowed(), record_type)?;
    index.insert(key)?;
    Ok(())
}

// Notes a record.
fn note_record(alloc: Global, index: &mut AnswerIndex, next: &Record) -> Result<(), NoMemory>
    ensures { OnOk result (RecordNoted index.old index.new next.now) }
{
    note(alloc, index, &next.name, next.record_type)?;
    note(alloc, index, &next.name, RecordType::ANY)?;
    Ok(())
}

// Notes the records of a section.
fn note_section(alloc: Global, index: &mut AnswerIndex, section: &[Record]) -> Result<(), NoMemory>
    ensures { OnOk result (AllNoted index.old index.new section.now) }
{
    for next in section {
        note_record(alloc, index, next)?;
    }
    Ok(())
}

// The records of a message.
fn index_of(alloc: Global, message: &Message) -> Result<AnswerIndex, NoMemory>
    ensures { IfOk result (λ i. Indexes i message.now) }
{
    let mut index = BTreeSet::new(alloc);
    note_section(alloc, &mut index, &message.answers)?;
    note_section(alloc, &mut index, &message.authorities)?;
    note_section(alloc, &mut index, &message.additionals)?;
    Ok(index)
}

// Whether an owner and a type are noted.
fn has(
    alloc: Global,
    index: &AnswerIndex,
    owner: &NameRef,
    record_type: RecordType,
) -> Result<bool, NoMemory>
    ensures { IfOk result (λ b. b ≡ has_at index.now owner.now record_type.0) }
{
    let key = QueryKey::at(alloc, owner, record_type)?;
    Ok(index.contains(&key))
}

// Whether the name or one above it has an SOA.
fn has_zone(alloc: Global, index: &AnswerIndex, name: &NameRef) -> Result<bool, NoMemory>
    ensures { IfOk result (λ b. b ≡ zone_at (has_at index.now) name.now) }
{
    if has(alloc, index, name, RecordType::SOA)? {
        return Ok(true);
    }
    match name.split_first() {
        None => Ok(false),
        Some((_, above)) => has_zone(alloc, index, &above),
    }
}

// Whether what is noted answers a question.
fn is_answered(alloc: Global, index: &AnswerIndex, query: &Query) -> Result<bool, NoMemory>
    ensures { IfOk result (λ b. b ≡ answered_by (has_at index.now) query.now) }
{
    let name = query.name.borrowed();
    if query.query_type == RecordType::SOA {
        has_zone(alloc, index, &name)
    } else {
        has(alloc, index, &name, query.query_type)
    }
}

// Whether what is noted answers one of the questions.
fn answers_some(alloc: Global, index: &AnswerIndex, queries: &[Query]) -> Result<bool, NoMemory>
    ensures { IfOk result (λ b. b ≡ list_any (answered_by (has_at index.now)) queries.now) }
{
    for query in queries {
        if is_answered(alloc, index, query)? {
            return Ok(true);
        }
    }
    Ok(false)
}

// Whether any record of the answer section answers a question of the type, as an alias does.
fn takes_any_answer(record_type: RecordType) -> bool
    ensures { result ≡ takes_any_answer record_type.0 }
{
    record_type != RecordType::ANY && record_type != RecordType::SOA
}

// Whether some question is of such a type.
fn asks_for_any(queries: &[Query]) -> bool
    ensures { result ≡ asks_for_any queries.now }
{
    queries.iter().any(|q| takes_any_answer(q.query_type))
}

// Whether there is a record in the answer section, and some question takes it.
fn takes_answers(message: &Message) -> bool
    ensures { result ≡ takes_answers message.now }
{
    asks_for_any(&message.queries) && !message.answers.is_empty()
}

/// Whether the message has an answer to one of its questions.
pub(crate) fn contains_answer(alloc: Global, message: &Message) -> Result<bool, NoMemory>
    ensures { IfOk result (λ b. b ≡ contains_answer message.now) }
{
    if takes_answers(message) {
        return Ok(true);
    }
    let index = index_of(alloc, message)?;
    answers_some(alloc, &index, &message.queries)
}
