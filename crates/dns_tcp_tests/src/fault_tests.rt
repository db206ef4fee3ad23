use crate::heard::{Heard, heard_made};
use crate::parts::{check, draws_of, server};
use crate::slow_link::SlowLink;
use crate::stream_heard::{drain, read_next, write_all};
use crate::stream_parts::{put, single_bytes, stream_over};
use dns_handle::IoKind;
use dns_link::{ListDialer, PairLink};
use dns_tcp::{TcpClientStream, TcpExchange, TcpStream};
use std::alloc::Global;
use std::process::Abort;

/// All kinds of faults.
const KINDS: &[IoKind] = &[
    IoKind::PermissionDenied,
    IoKind::ConnectionRefused,
    IoKind::ConnectionReset,
    IoKind::ConnectionAborted,
    IoKind::NotConnected,
    IoKind::AddrInUse,
    IoKind::AddrNotAvailable,
    IoKind::BrokenPipe,
    IoKind::InvalidData,
    IoKind::TimedOut,
    IoKind::UnexpectedEof,
    IoKind::RequestTooLong,
    IoKind::Other,
];

fn kinds() -> &'static [IoKind] {
    KINDS
}

/// How a fault of a kind is heard; what timed out is `Timeout`.
fn heard_as(kind: IoKind) -> Heard {
    if kind == IoKind::TimedOut {
        Heard::Timeout
    } else {
        Heard::Fault(kind)
    }
}

/// A link that gives two messages byte by byte, and of whose calls one fails.
fn failing(rt: &impl Abort, alloc: Global, at: u64, kind: IoKind) -> SlowLink {
    let pieces = single_bytes(rt, alloc, &[0, 2, 1, 2, 0, 1, 3]);
    let link = PairLink::new(alloc, pieces, 100, Vec::new(alloc)).expect(rt, "memory");
    SlowLink::new(link, at, kind)
}

/// Writes a message of twelve bytes, by fourteen calls, and reads two, by seven: the first fault that is heard.
fn exchange(rt: &impl Abort, stream: &mut TcpStream<SlowLink>, read: &mut Vec<u8>) -> Heard {
    let mut heard = write_all(stream);
    if heard == Heard::Written {
        heard = read_next(rt, stream, read);
    }
    if heard == Heard::Message {
        heard = read_next(rt, stream, read);
    }
    heard
}

/// A message of twelve bytes.
const TWELVE: &[u8] = &[1, 2, 3, 4, 5, 6, 7, 8, 9, 10, 11, 12];

/// Whether a fault of a kind at the call with this number is answered, once, and then that there is no connection.
fn is_told(rt: &impl Abort, alloc: Global, at: u64, kind: IoKind) -> bool {
    let mut stream = stream_over(alloc, failing(rt, alloc, at, kind));
    put(rt, alloc, &mut stream, server(), TWELVE);
    let mut read = Vec::new(alloc);
    let told = exchange(rt, &mut stream, &mut read);
    let after = drain(&mut stream);
    let failures = stream.failures();
    told == heard_as(kind) && after == Heard::Fault(IoKind::NotConnected) && failures == 2
}

/// Whether faults of a kind are told, whichever of the first twenty calls has it.
fn are_told(rt: &impl Abort, alloc: Global, kind: IoKind) -> bool {
    for at in 0..20u64 {
        if !is_told(rt, alloc, at, kind) {
            return false;
        }
    }
    true
}

#[test]
fn a_fault_of_each_kind_is_told_at_each_call(rt: HostRuntime) {
    for kind in kinds() {
        check(
            &rt,
            "a fault is told at each call",
            are_told(&rt, rt.alloc(), *kind),
        );
    }
}

/// A dialer of one link, which is refused.
fn refusing(rt: &impl Abort, alloc: Global) -> ListDialer {
    let mut links = Vec::new(alloc);
    links
        .push(Err(IoKind::ConnectionRefused))
        .expect(rt, "memory");
    ListDialer::new(links, Vec::new(alloc))
}

/// What a stream is answered.
fn stream_told(alloc: Global, dial: &mut ListDialer) -> Heard {
    let made = TcpStream::with_future(alloc, dial, server(), 5000);
    heard_made(&made)
}

/// What a client's stream is answered.
fn client_told(alloc: Global, dial: &mut ListDialer) -> Heard {
    let made = TcpClientStream::new(alloc, dial, server(), None, 5000);
    heard_made(&made)
}

/// What an exchange is answered.
fn exchange_told(rt: &impl Abort, alloc: Global, dial: &mut ListDialer) -> Heard {
    let draws = draws_of(rt, alloc, &[]);
    let made = TcpExchange::connect(alloc, dial, server(), None, 5000, None, draws);
    heard_made(&made)
}

/// Dialing answers first a link's refusal and then that there is none.
#[test]
fn a_refusal_of_the_dialer_is_passed_on(rt: HostRuntime) {
    let alloc = rt.alloc();
    let mut dial = refusing(&rt, alloc);
    check(
        &rt,
        "the link is refused",
        stream_told(alloc, &mut dial) == Heard::Fault(IoKind::ConnectionRefused),
    );
    check(
        &rt,
        "there is no link for a client",
        client_told(alloc, &mut dial) == Heard::Fault(IoKind::AddrNotAvailable),
    );
    check(
        &rt,
        "there is no link for an exchange",
        exchange_told(&rt, alloc, &mut dial) == Heard::Fault(IoKind::AddrNotAvailable),
    );
}
