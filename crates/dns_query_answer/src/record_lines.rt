//! The records of an answer as lines of a master file, each behind its mark (RFC 1035, 5.1; RFC 4035, 4.3).
ghost use Rattle.std.specs.Prelude.{◌≡◌, ◌++◌, OnOk};
ghost use Rattle.dns_query_answer.specs.AnswerText.{mark_column as column_of, record_line, record_lines};

use dns_model::Proof;
use dns_presentation::presentation;
use dns_record::{NoMemory, Record};
use dns_text::push_text;

// A mark, and spaces up to the column where the record begins.
fn mark_column(mark: Proof) -> &'static [u8]
    ensures { result.now ≡ column_of mark }
{
    match mark {
        Proof::Secure => b"secure         ",
        Proof::Insecure => b"insecure       ",
        Proof::Bogus => b"bogus          ",
        Proof::Indeterminate => b"indeterminate  ",
    }
}

// Appends the line of a record.
fn push_record(into: &mut Vec<u8>, one: &Record) -> Result<(), NoMemory>
    ensures { OnOk result (into.new.items ≡ into.old.items ++ record_line one.now) }
{
    push_text(into, mark_column(one.proof))?;
    let line = presentation(*into.allocator(), one)?;
    push_text(into, &line)?;
    into.push(b'\n')?;
    Ok(())
}

/// Appends a line for each record, in order.
pub(crate) fn push_records(into: &mut Vec<u8>, records: &[Record]) -> Result<(), NoMemory>
    ensures { OnOk result (into.new.items ≡ into.old.items ++ record_lines records.now) }
{
    for one in records {
        push_record(into, one)?;
    }
    Ok(())
}
