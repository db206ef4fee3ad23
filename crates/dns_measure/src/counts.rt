//! What decoding counts.
ghost use Rattle.std.specs.Prelude.{◌<◌, ◌^◌, length};

use crate::frames::front;
use dns_message::{DecodeError, DecodeKind, Message};
use dns_record::NoMemory;
use std::alloc::Global;

/// How many messages were decoded, how many were refused, and how many records the decoded ones had. A count stops at the
/// greatest `u64`.
#[derive(Clone, Copy)]
pub struct Counts {
    /// The messages that were decoded.
    pub messages: u64,
    /// The messages that were refused.
    pub refused: u64,
    /// The records of the decoded messages.
    pub records: u64,
}

// Decodes bytes, and counts what came of it.
fn counted(alloc: Global, counts: Counts, bytes: &[u8]) -> Result<Counts, NoMemory>
    requires { length bytes.now < 2 ^ 32 }
{
    with_message(counts, &Message::from_vec(alloc, bytes))
}

// The counts, with what came of a message.
fn with_message(
    counts: Counts,
    message: &Result<Message, DecodeError>,
) -> Result<Counts, NoMemory> {
    match message {
        Ok(message) => {
            let records = message.answers.len() as u64;
            let records = records.saturating_add(message.authorities.len() as u64);
            let records = records.saturating_add(message.additionals.len() as u64);
            Ok(Counts {
                messages: counts.messages.saturating_add(1),
                refused: counts.refused,
                records: counts.records.saturating_add(records),
            })
        }
        Err(error) => {
            match error.kind {
                DecodeKind::NoMemory => Err(NoMemory),
                _ => Ok(Counts {
                    messages: counts.messages,
                    refused: counts.refused.saturating_add(1),
                    records: counts.records,
                }),
            }
        }
    }
}

// Decodes each message of the frames once, up to one that is cut off.
fn pass(alloc: Global, before: Counts, bytes: &[u8]) -> Result<Counts, NoMemory>
    requires { length bytes.now < 2 ^ 32 }
{
    let mut counts = before;
    let mut rest = bytes;
    'frames: while !rest.is_empty() {
        match front(rest) {
            Some((message, after)) => {
                counts = counted(alloc, counts, message)?;
                rest = after;
            }
            None => break,
        }
    }
    Ok(counts)
}

/// Decodes all messages of the frames so many times.
pub(crate) fn count_passes(alloc: Global, passes: u32, bytes: &[u8]) -> Result<Counts, NoMemory>
    requires { length bytes.now < 2 ^ 32 }
{
    let mut counts = Counts {
        messages: 0,
        refused: 0,
        records: 0,
    };
    for _ in 0..passes {
        counts = pass(alloc, counts, bytes)?;
    }
    Ok(counts)
}
