//! The texts that the program writes.

use crate::counts::Counts;
use crate::denials::Denials;
use crate::lookups::Lookups;
use dns_record::NoMemory;
use dns_text::push_decimal;

/// Puts a line with a word and a number behind a text.
pub(crate) fn push_line(text: &mut Vec<u8>, name: &[u8], number: u64) -> Result<(), NoMemory> {
    text.extend_from_slice(name)?;
    push_decimal(text, number)?;
    text.push(b'\n')?;
    Ok(())
}

/// The same of what decoding counted, a line each.
pub(crate) fn push_counts(text: &mut Vec<u8>, counts: Counts) -> Result<(), NoMemory> {
    push_line(text, b"messages ", counts.messages)?;
    push_line(text, b"refused ", counts.refused)?;
    push_line(text, b"records ", counts.records)
}

/// The same of what lookups counted, a line each.
pub(crate) fn push_lookups(text: &mut Vec<u8>, counts: Lookups) -> Result<(), NoMemory> {
    push_line(text, b"answers ", counts.answers)?;
    push_line(text, b"faults ", counts.faults)
}

/// The same of what was asked of records, a line each.
pub(crate) fn push_denials(text: &mut Vec<u8>, counts: Denials) -> Result<(), NoMemory> {
    push_line(text, b"asked ", counts.asked)?;
    push_line(text, b"found ", counts.found)
}
