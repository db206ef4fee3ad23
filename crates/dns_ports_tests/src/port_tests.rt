//! What a port in memory gives, takes and tells.
ghost use Rattle.std.specs.Prelude.{◌≡◌, true};

use dns_handle::IoKind;
use dns_ports::{ListPort, Port, PortFault};
use dns_record::Octets;
use std::alloc::Global;
use std::process::Abort;

/// What a port is called for, and what comes of it.
#[derive(Clone, Copy)]
enum Call {
    /// The request of this byte comes.
    Gives(u8),
    /// No more requests come.
    Ends,
    /// A reply of this byte is taken.
    Takes(u8),
    /// The port fails as it is to give a request.
    FailsToGive,
    /// It fails as it is to take a reply.
    FailsToTake,
}

/// What is shown, how many requests come, which calls fail, the calls, and the replies that are told afterwards, of a byte each.
struct Row(
    &'static str,
    u8,
    &'static [u64],
    &'static [Call],
    &'static [u8],
);

#[rattlefmt::skip]
const ROWS: &[Row] = &[
    Row("requests come in order, and then none", 2, &[], &[Call::Gives(0), Call::Gives(1), Call::Ends, Call::Ends], b""),
    Row("replies are told in order", 2, &[], &[Call::Gives(0), Call::Takes(7), Call::Gives(1), Call::Takes(8)], b"\x07\x08"),
    Row("no request at all", 0, &[], &[Call::Ends, Call::Takes(7)], b"\x07"),
    Row("the first call fails, and takes no request away", 1, &[0], &[Call::FailsToGive, Call::Gives(0), Call::Ends], b""),
    Row("a reply that fails isn't told", 1, &[1], &[Call::Gives(0), Call::FailsToTake, Call::Takes(7)], b"\x07"),
    Row("calls of both kinds count", 2, &[2, 4], &[Call::Gives(0), Call::Takes(7), Call::FailsToGive, Call::Gives(1), Call::FailsToTake], b"\x07"),
];

fn rows() -> &'static [Row] {
    ROWS
}

// A row held; the message names it.
fn check_held(rt: &impl Abort, row: &str, held: bool)
    ensures { held ≡ true }
{
    assert!(rt; held, "{row}");
}

// A port to which so many requests come, each of one byte, its number.
fn port_of(rt: &impl Abort, alloc: Global, count: u8, fails: &[u64]) -> ListPort {
    let mut requests = Vec::new(alloc);
    for number in 0..count {
        let request = Octets::from_slice(alloc, &[number]).expect(rt, "memory");
        requests.push(request).expect(rt, "memory");
    }
    let fails = Vec::from_slice(alloc, fails).expect(rt, "memory");
    ListPort::new(requests, fails)
}

// Whether a request of one byte comes.
fn is_given(port: &mut ListPort, byte: u8) -> bool {
    let given = port.receive();
    matches!(given, Ok(Some(request)) if request.as_slice() == [byte].as_slice())
}

// Whether what comes of a call is so.
fn is_so(port: &mut ListPort, call: Call) -> bool {
    match call {
        Call::Gives(number) => is_given(port, number),
        Call::Ends => matches!(port.receive(), Ok(None)),
        Call::Takes(byte) => port.reply(&[byte]) == Ok(()),
        Call::FailsToGive => matches!(port.receive(), Err(PortFault::Io(IoKind::Other))),
        Call::FailsToTake => port.reply(b"\x07") == Err(IoKind::Other),
    }
}

// Whether the replies that a port tells are of these bytes.
fn tells(port: &ListPort, bytes: &[u8]) -> bool {
    let Some(replies) = port.replies() else {
        return false;
    };
    let mut all = replies.len() == bytes.len();
    for (reply, byte) in replies.iter().zip(bytes.iter()) {
        all = reply.as_slice() == [*byte].as_slice() && all;
    }
    all
}

fn holds(rt: &impl Abort, alloc: Global, row: &Row) -> bool {
    let mut port = port_of(rt, alloc, row.1, row.2);
    let mut all = true;
    for call in row.3 {
        all = is_so(&mut port, *call) && all;
    }
    all && tells(&port, row.4)
}

#[test]
fn a_port_in_memory_gives_takes_and_tells(rt: HostRuntime) {
    for row in rows() {
        check_held(&rt, row.0, holds(&rt, rt.alloc(), row));
    }
}
