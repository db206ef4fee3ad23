use crate::heard::Heard;
use crate::parts::{check, server};
use crate::slow_link::SlowLink;
use crate::stream_heard::{drain, feed, write_all};
use crate::stream_parts::{link_of, put, put_by, stream_over};
use dns_handle::IoKind;
use dns_link::PairLink;
use dns_multiplexer::BufDnsStreamHandle;
use dns_tcp::TcpStream;
use std::alloc::Global;
use std::net::{IpAddr, Ipv4Addr, SocketAddr};
use std::process::Abort;

/// An address, by its last byte; the server's is 1.
fn address(last: u8) -> SocketAddr {
    SocketAddr::new(IpAddr::V4(Ipv4Addr::new(127, 0, 0, last)), 53)
}

/// A message of so many bytes to an address that can't be written, and the fault. The address is looked at first.
const REFUSALS: &[(usize, u8, IoKind)] = &[
    (65_536, 1, IoKind::RequestTooLong),
    (1, 2, IoKind::InvalidData),
    (65_536, 2, IoKind::InvalidData),
];

/// Whether writing a message is answered by a fault, and then there is no connection.
fn ends(rt: &impl Abort, alloc: Global, row: &(usize, u8, IoKind)) -> bool {
    let mut bytes = Vec::new(alloc);
    bytes.resize(row.0.min(70_000), 7u8).expect(rt, "memory");
    let mut stream = stream_over(alloc, link_of(rt, alloc, &[]));
    put(rt, alloc, &mut stream, address(row.1), &bytes);
    bytes.clear();
    let first = drain(&mut stream);
    let second = feed(rt, &mut stream, &mut bytes);
    first == Heard::Fault(row.2) && second == Heard::Fault(IoKind::NotConnected)
}

#[test]
fn messages_that_cannot_be_written_end_the_stream(rt: HostRuntime) {
    for row in REFUSALS {
        check(
            &rt,
            "a message can't be written",
            ends(&rt, rt.alloc(), row),
        );
    }
}

/// The frames of three messages.
const FRAMES: &[u8] = &[0, 1, 7, 0, 2, 8, 9, 0, 3, 1, 2, 3];

/// Three messages, two of them together.
#[test]
fn frames_are_written_to_a_link_that_takes_a_byte_at_a_time(rt: HostRuntime) {
    let alloc = rt.alloc();
    let slow = SlowLink::new(link_of(&rt, alloc, &[]), u64::MAX, IoKind::Other);
    let mut stream = stream_over(alloc, slow);
    put(&rt, alloc, &mut stream, server(), &[7]);
    put(&rt, alloc, &mut stream, server(), &[8, 9]);
    check(
        &rt,
        "two messages are written",
        write_all(&mut stream) == Heard::Written,
    );
    put(&rt, alloc, &mut stream, server(), &[1, 2, 3]);
    check(
        &rt,
        "the third message is written",
        write_all(&mut stream) == Heard::Written,
    );
    let link = stream.into_link();
    check(
        &rt,
        "what was written are three frames",
        *link.taken() == *FRAMES,
    );
}

/// As many bytes as fill a link with their frame.
const FILLING: &[u8] = &[7; 98];

/// Writing more than a link takes is a fault, and the next call finds no connection.
#[test]
fn a_link_that_takes_nothing_is_a_fault(rt: HostRuntime) {
    let alloc = rt.alloc();
    let mut stream = stream_over(alloc, link_of(&rt, alloc, &[]));
    put(&rt, alloc, &mut stream, server(), FILLING);
    put(&rt, alloc, &mut stream, server(), &[8]);
    check(
        &rt,
        "the link is filled",
        drain(&mut stream) == Heard::Waiting,
    );
    check(
        &rt,
        "a full link is a fault",
        drain(&mut stream) == Heard::Fault(IoKind::Other),
    );
    check(
        &rt,
        "then there is no connection",
        drain(&mut stream) == Heard::Fault(IoKind::NotConnected),
    );
    check(&rt, "both faults are counted", stream.failures() == 2);
}

/// How many messages of one byte a queue takes of fifty by a handle, as it tells before each.
fn taken(
    rt: &impl Abort,
    alloc: Global,
    stream: &mut TcpStream<PairLink>,
    handle: &mut BufDnsStreamHandle,
) -> u32 {
    let mut count: u32 = 0;
    for _ in 0..50u32 {
        let has_room = stream.has_room(handle);
        check(
            rt,
            "a queue takes a message where it has room",
            put_by(rt, alloc, stream, handle, &[7]) == has_room,
        );
        if has_room {
            count = count.saturating_add(1);
        }
    }
    count
}

/// The handle of a stream, of size 3.
#[test]
fn a_stream_takes_one_more_than_its_size(rt: HostRuntime) {
    let alloc = rt.alloc();
    let link = link_of(&rt, alloc, &[]);
    let made = TcpStream::from_stream_with_buffer_size(alloc, link, address(1), 3);
    let (mut stream, mut handle) = made;
    check(
        &rt,
        "a queue of size 3 takes four",
        taken(&rt, alloc, &mut stream, &mut handle) == 4,
    );
}
