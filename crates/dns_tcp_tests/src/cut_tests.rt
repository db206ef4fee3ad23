ghost use Rattle.std.specs.Prelude.{◌≢◌, [], All};

use crate::heard::{Heard, heard_error};
use crate::parts::check;
use crate::stream_heard::read_next;
use crate::stream_parts::{behind, pieces_of, single_bytes, stream_over};
use dns_handle::{IoKind, NetError};
use dns_link::PairLink;
use dns_record::Octets;
use dns_tcp::unframe;
use std::alloc::Global;
use std::process::Abort;

/// A message of so many bytes, at most 65,535, and its frame.
fn framed(rt: &impl Abort, alloc: Global, len: u16) -> Vec<u8> {
    let mut bytes = Vec::from_slice(alloc, &len.to_be_bytes()).expect(rt, "memory");
    for i in 0..len {
        let [_, byte] = i.to_be_bytes();
        bytes.push(byte).expect(rt, "memory");
    }
    bytes
}

/// Whether pieces give the message of a frame, and then no more.
fn is_read(rt: &impl Abort, alloc: Global, pieces: Vec<Octets>, frame: &[u8]) -> bool
    requires { All (λ piece. piece ≢ []) pieces.items }
{
    let link = PairLink::new(alloc, pieces, 0, Vec::new(alloc)).expect(rt, "memory");
    let mut stream = stream_over(alloc, link);
    let mut read = Vec::new(alloc);
    let first = read_next(rt, &mut stream, &mut read);
    let is_whole = *read.as_slice() == *behind(frame);
    let second = read_next(rt, &mut stream, &mut read);
    first == Heard::Message && is_whole && second == Heard::Closed
}

/// Whether a frame gives its message, at whichever of so many places it is cut, each so far behind the last.
fn is_read_at_each(
    rt: &impl Abort,
    alloc: Global,
    frame: &[u8],
    places: u32,
    apart: usize,
) -> bool {
    let mut at: usize = 0;
    for _ in 0..places {
        let (front, back) = frame.split_at(at.min(frame.len()));
        if !is_read(rt, alloc, pieces_of(rt, alloc, &[front, back]), frame) {
            return false;
        }
        at = at.saturating_add(apart);
    }
    true
}

/// A message of so many bytes, and at how many places in turn its frame is cut, each so many bytes behind the last.
const CUTS: &[(u16, u32, usize)] = &[(1, 4, 1), (300, 303, 1), (65_535, 8, 9_362)];

/// Whether a message of so many bytes is read at each cut, and byte by byte.
fn is_carried(rt: &impl Abort, alloc: Global, row: &(u16, u32, usize)) -> bool {
    let frame = framed(rt, alloc, row.0);
    let pieces = single_bytes(rt, alloc, &frame);
    is_read(rt, alloc, pieces, &frame) && is_read_at_each(rt, alloc, &frame, row.1, row.2)
}

#[test]
fn frames_are_read_however_they_are_cut(rt: HostRuntime) {
    for row in CUTS {
        check(
            &rt,
            "a frame is read however it is cut",
            is_carried(&rt, rt.alloc(), row),
        );
    }
}

/// So many frames of one byte.
fn frames(rt: &impl Abort, alloc: Global, count: u32) -> Vec<u8> {
    let mut bytes = Vec::new(alloc);
    for _ in 0..count {
        bytes.extend_from_slice(&[0u8, 1, 7]).expect(rt, "memory");
    }
    bytes
}

fn count_of(messages: &Result<Vec<Octets>, NetError>) -> Result<usize, Heard> {
    match messages {
        Ok(messages) => Ok(messages.len()),
        Err(error) => Err(heard_error(error)),
    }
}

/// How many messages bytes give that are cut into single bytes, or the fault.
fn unframed(rt: &impl Abort, alloc: Global, bytes: &[u8]) -> Result<usize, Heard> {
    let messages = unframe(alloc, single_bytes(rt, alloc, bytes));
    count_of(&messages)
}

#[test]
fn ten_thousand_frames_are_unframed(rt: HostRuntime) {
    let bytes = frames(&rt, rt.alloc(), 10_000);
    let count = unframed(&rt, rt.alloc(), &bytes);
    check(&rt, "each frame is one message", count == Ok(10_000));
}

#[test]
fn a_length_of_0_is_no_frame(rt: HostRuntime) {
    let fault = unframed(&rt, rt.alloc(), &[0, 1, 7, 0, 0]);
    check(
        &rt,
        "a length of 0 is no frame",
        fault == Err(Heard::Fault(IoKind::BrokenPipe)),
    );
}
