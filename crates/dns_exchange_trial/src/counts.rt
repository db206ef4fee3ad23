//! Counts, and the lines that tell them.

use dns_record::NoMemory;
use dns_text::push_decimal;

/// The sum of counts.
pub(crate) fn sum(counts: &[u64]) -> u64 {
    let mut all: u64 = 0;
    for count in counts {
        all = all.saturating_add(*count);
    }
    all
}

/// Puts a line with a word and a number behind a text.
pub(crate) fn push_line(text: &mut Vec<u8>, name: &[u8], number: u64) -> Result<(), NoMemory> {
    text.extend_from_slice(name)?;
    push_decimal(text, number)?;
    text.push(b'\n')?;
    Ok(())
}
