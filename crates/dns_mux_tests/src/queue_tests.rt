ghost use Rattle.std.specs.Prelude.{◌≡◌, ◌∷◌, []};

use crate::heard::{Heard, heard_made};
use crate::parts::{check, server};
use dns_mux::{BufDnsStreamHandle, DnsStreamHandle, SerialMessage, StreamReceiver};
use dns_record::Octets;
use std::alloc::Global;
use std::process::Abort;

/// A message of one byte.
fn message(rt: &impl Abort, alloc: Global, byte: u8) -> SerialMessage
    ensures { result.bytes ≡ byte ∷ [] }
{
    SerialMessage {
        bytes: Octets::from_slice(alloc, &[byte]).expect(rt, "memory"),
        addr: server(),
    }
}

/// What the sending of a message of one byte is answered.
fn sent(
    rt: &impl Abort,
    alloc: Global,
    handle: &mut BufDnsStreamHandle,
    queue: &mut StreamReceiver,
    byte: u8,
) -> Heard {
    let sent = handle.send(queue, message(rt, alloc, byte));
    heard_made(&sent)
}

fn byte_of(message: Option<&SerialMessage>) -> Option<u8> {
    match message?.bytes.as_slice() {
        [byte, ..] => Some(*byte),
        [] => None,
    }
}

/// Whether a message of this byte is the first that waits, which is taken out.
fn is_first(queue: &mut StreamReceiver, byte: u8) -> bool {
    let seen = byte_of(queue.peek());
    let first = queue.pop();
    seen == Some(byte) && byte_of(first.as_ref()) == Some(byte)
}

/// Whether a queue takes the first messages of some, and refuses the others since it is full.
fn is_filled(
    rt: &impl Abort,
    alloc: Global,
    handle: &mut BufDnsStreamHandle,
    queue: &mut StreamReceiver,
    row: &(usize, u8, u8),
) -> bool {
    for byte in 0..row.1 {
        let expected = if byte < row.2 {
            Heard::Made
        } else {
            Heard::QueueFull
        };
        if sent(rt, alloc, handle, queue, byte) != expected {
            return false;
        }
    }
    true
}

/// Whether just so many messages wait, in order.
fn is_in_order(queue: &mut StreamReceiver, count: u8) -> bool {
    for byte in 0..count {
        if !is_first(queue, byte) {
            return false;
        }
    }
    queue.len() == 0
}

fn holds(rt: &impl Abort, alloc: Global, row: &(usize, u8, u8)) -> bool {
    let (mut handle, mut queue) = BufDnsStreamHandle::with_buffer_size(alloc, server(), row.0);
    let filled = is_filled(rt, alloc, &mut handle, &mut queue, row);
    filled && is_in_order(&mut queue, row.2)
}

/// The size, how many are put in, how many are taken.
const SIZES: &[(usize, u8, u8)] = &[(0, 1, 1), (0, 2, 1), (32, 32, 32), (32, 40, 33), (3, 4, 4)];

#[test]
fn a_queue_takes_one_more_than_its_size(rt: HostRuntime) {
    for row in SIZES {
        check(&rt, "a queue", holds(&rt, rt.alloc(), row));
    }
}
