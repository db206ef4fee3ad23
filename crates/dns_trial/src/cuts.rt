//! The frame of one message, cut in each way.
ghost use Rattle.std.specs.Prelude.{◌≢◌, [], All, IfOk};

use dns_handle::NetError;
use dns_record::{NoMemory, Octets};
use dns_tcp::unframe;
use std::alloc::Global;

// A message of so many bytes, at most 65,535, behind its length (RFC 1035, 4.2.2).
fn framed(alloc: Global, len: u32) -> Result<Vec<u8>, NoMemory> {
    let len = u16::try_from(len).unwrap_or(u16::MAX);
    let [high, low] = len.to_be_bytes();
    let mut bytes = Vec::from_slice(alloc, &[high, low])?;
    for i in 0..len {
        let [_, byte] = i.to_be_bytes();
        bytes.push(byte)?;
    }
    Ok(bytes)
}

// Puts bytes behind other pieces as one of their own, if there are any.
fn push_piece(alloc: Global, pieces: &mut Vec<Octets>, bytes: &[u8]) -> Result<(), NoMemory>
    requires { All (λ piece. piece ≢ []) pieces.old.items }
    ensures { All (λ piece. piece ≢ []) pieces.new.items }
{
    let piece = Octets::from_slice(alloc, bytes)?;
    if !piece.is_empty() {
        pieces.push(piece)?;
    }
    Ok(())
}

/// Bytes that are cut at a place.
pub(crate) fn cut_at(alloc: Global, bytes: &[u8], at: usize) -> Result<Vec<Octets>, NoMemory>
    ensures { IfOk result (λ pieces. All (λ piece. piece ≢ []) pieces.items) }
{
    let (front, back) = bytes.split_at(at.min(bytes.len()));
    let mut pieces = Vec::new(alloc);
    push_piece(alloc, &mut pieces, front)?;
    push_piece(alloc, &mut pieces, back)?;
    Ok(pieces)
}

// Bytes as pieces of one byte each.
fn single_bytes(alloc: Global, bytes: &[u8]) -> Result<Vec<Octets>, NoMemory>
    ensures { IfOk result (λ pieces. All (λ piece. piece ≢ []) pieces.items) }
{
    let mut pieces = Vec::new(alloc);
    for byte in bytes {
        push_piece(alloc, &mut pieces, &[*byte])?;
    }
    Ok(pieces)
}

// Whether what was read is the message of a frame alone.
fn is_message(read: &Result<Vec<Octets>, NetError>, frame: &[u8]) -> Result<bool, NoMemory> {
    match read {
        Ok(messages) => match (messages.as_slice(), frame) {
            ([message], [_, _, bytes @ ..]) => Ok(*message.as_slice() == *bytes),
            _ => Ok(false),
        },
        Err(NetError::NoMemory) => Err(NoMemory),
        Err(_) => Ok(false),
    }
}

// How often pieces give the message of a frame, and no more: once or never.
fn times_read(alloc: Global, pieces: Vec<Octets>, frame: &[u8]) -> Result<u64, NoMemory>
    requires { All (λ piece. piece ≢ []) pieces.items }
{
    let held = is_message(&unframe(alloc, pieces), frame)?;
    Ok(u64::from(held))
}

// How often a frame gives its message, cut before each of its bytes in turn.
fn times_cut(alloc: Global, frame: &[u8]) -> Result<u64, NoMemory> {
    let mut read: u64 = 0;
    for at in 0..frame.len() {
        let pieces = cut_at(alloc, frame, at)?;
        read = read.saturating_add(times_read(alloc, pieces, frame)?);
    }
    Ok(read)
}

/// How often the frame of a message of so many bytes gives it: cut before each of its bytes in turn, and then into single bytes.
pub(crate) fn cut(alloc: Global, len: u32) -> Result<u64, NoMemory> {
    let frame = framed(alloc, len)?;
    let pieces = single_bytes(alloc, &frame)?;
    let read = times_read(alloc, pieces, &frame)?;
    Ok(read.saturating_add(times_cut(alloc, &frame)?))
}
