//! The texts that the program writes.

use dns_record::NoMemory;
use dns_text::push_decimal;

/// Puts a line with a word and a number behind a text.
pub(crate) fn push_line(text: &mut Vec<u8>, name: &[u8], number: u64) -> Result<(), NoMemory> {
    text.extend_from_slice(name)?;
    push_decimal(text, number)?;
    text.push(b'\n')?;
    Ok(())
}
