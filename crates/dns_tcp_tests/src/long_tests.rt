ghost use Rattle.std.specs.Prelude.{Ok, All};
ghost use Rattle.dns_link.specs.Listed.{IsNewLink};

use crate::heard::{Heard, heard_made};
use crate::parts::{check, server};
use crate::stream_heard::{heard_drain, heard_feed, read_next, write_all};
use crate::stream_parts::{behind, message_of, pieces_of, put};
use dns_handle::IoKind;
use dns_link::{ListDialer, PairLink};
use dns_multiplexer::BufDnsStreamHandle;
use dns_tcp::{TcpClientStream, TcpStream};
use std::alloc::Global;
use std::process::Abort;

/// The frame of the longest message.
fn longest_frame(rt: &impl Abort, alloc: Global) -> Vec<u8> {
    let mut bytes = Vec::from_slice(alloc, &[255u8, 255]).expect(rt, "memory");
    bytes.resize(65_537, 7).expect(rt, "memory");
    bytes
}

/// A link as the only one of a list.
fn only(rt: &impl Abort, alloc: Global, link: PairLink) -> Vec<Result<PairLink, IoKind>>
    requires { IsNewLink (Ok link) }
    ensures { All IsNewLink result.items }
{
    let mut links = Vec::new(alloc);
    links.push(Ok(link)).expect(rt, "memory");
    links
}

/// A dialer of one link, which gives a frame and takes as much.
fn dialer(rt: &impl Abort, alloc: Global, frame: &[u8]) -> ListDialer {
    let pieces = pieces_of(rt, alloc, &[frame]);
    let link = PairLink::new(alloc, pieces, 70_000, Vec::new(alloc)).expect(rt, "memory");
    ListDialer::new(only(rt, alloc, link), Vec::new(alloc))
}

/// A stream over the dialer's link.
fn stream_by(rt: &impl Abort, alloc: Global, dial: &mut ListDialer) -> TcpStream<PairLink> {
    let made = TcpStream::with_future(alloc, dial, server(), 5000);
    let (stream, _) = made.ok().expect(rt, "a stream");
    stream
}

/// Whether a stream writes the message of a frame, and reads it.
fn carries(rt: &impl Abort, stream: &mut TcpStream<PairLink>, read: &mut Vec<u8>) -> bool {
    write_all(stream) == Heard::Written && read_next(rt, stream, read) == Heard::Message
}

/// The longest message is written and read by a stream, and the link took its frame.
#[test]
fn the_longest_message_is_carried(rt: HostRuntime) {
    let alloc = rt.alloc();
    let frame = longest_frame(&rt, alloc);
    let mut dial = dialer(&rt, alloc, &frame);
    let mut stream = stream_by(&rt, alloc, &mut dial);
    let mut read = Vec::new(alloc);
    put(&rt, alloc, &mut stream, server(), behind(&frame));
    check(
        &rt,
        "the message is written and read",
        carries(&rt, &mut stream, &mut read),
    );
    check(
        &rt,
        "what was read is the message",
        *read.as_slice() == *behind(&frame),
    );
    let link = stream.into_link();
    check(
        &rt,
        "what was written is the frame",
        *link.taken() == *frame.as_slice(),
    );
}

/// A stream over the dialer's link for a client, and the handle of its queue.
fn client_by(
    rt: &impl Abort,
    alloc: Global,
    dial: &mut ListDialer,
) -> (TcpClientStream<PairLink>, BufDnsStreamHandle) {
    let made = TcpClientStream::new(alloc, dial, server(), None, 5000);
    made.ok().expect(rt, "a stream")
}

/// Reads until something else than a part of a message comes for a client.
fn next_for_client(
    rt: &impl Abort,
    stream: &mut TcpClientStream<PairLink>,
    read: &mut Vec<u8>,
) -> Heard {
    for _ in 0..200_000u32 {
        let reply = stream.feed();
        let heard = heard_feed(rt, &reply, read);
        if heard != Heard::More {
            return heard;
        }
    }
    Heard::More
}

/// Whether a client's stream takes the message of a frame, writes it, and reads one.
fn carries_for_client(
    rt: &impl Abort,
    alloc: Global,
    stream: &mut TcpClientStream<PairLink>,
    handle: &mut BufDnsStreamHandle,
    frame: &[u8],
    read: &mut Vec<u8>,
) -> bool {
    check(rt, "a queue with room", stream.has_room(handle));
    let put = stream.enqueue(handle, message_of(rt, alloc, behind(frame)));
    let is_taken = heard_made(&put) == Heard::Made;
    let drained = stream.drain();
    let is_written = heard_drain(&drained) == Heard::Written;
    is_taken && is_written && next_for_client(rt, stream, read) == Heard::Message
}

/// The longest message is written and read by a client's stream.
#[test]
fn the_longest_message_is_carried_for_a_client(rt: HostRuntime) {
    let alloc = rt.alloc();
    let frame = longest_frame(&rt, alloc);
    let mut dial = dialer(&rt, alloc, &frame);
    let (mut stream, mut handle) = client_by(&rt, alloc, &mut dial);
    let mut read = Vec::new(alloc);
    let carried = carries_for_client(&rt, alloc, &mut stream, &mut handle, &frame, &mut read);
    check(&rt, "the message is written and read", carried);
    check(
        &rt,
        "what was read is it",
        *read.as_slice() == *behind(&frame),
    );
}
