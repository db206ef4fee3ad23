use crate::echo::Echo;
use crate::heard::{Heard, heard_error, heard_made};
use crate::parts::{check, server};
use dns_handle::NetError;
use dns_link::{Datagrams, ListDatagrams};
use dns_multiplexer::{BufDnsStreamHandle, SerialMessage};
use dns_record::Octets;
use dns_udp::UdpStream;
use std::alloc::Global;
use std::process::Abort;

/// Puts a message of two bytes, the first of them 0, into a stream's queue, and tells whether it took it.
fn is_put<G: Datagrams + Drop>(
    rt: &impl Abort,
    alloc: Global,
    stream: &mut UdpStream<G>,
    handle: &mut BufDnsStreamHandle,
    last: u8,
) -> bool {
    let message = SerialMessage {
        bytes: Octets::from_slice(alloc, &[0, last]).expect(rt, "memory"),
        addr: server(),
    };
    let put = stream.enqueue(handle, message);
    heard_made(&put) == Heard::Made
}

/// The length of what came, and its last byte; 0 where nothing did.
type Came = Result<(usize, u8), Heard>;

fn came(reply: &Result<Option<SerialMessage>, NetError>) -> Came {
    match reply {
        Ok(Some(message)) => match message.bytes.as_slice() {
            [.., last] => Ok((message.bytes.len(), *last)),
            [] => Err(Heard::Other),
        },
        Ok(None) => Err(Heard::Waiting),
        Err(error) => Err(heard_error(error)),
    }
}

/// What comes next.
fn received<G: Datagrams + Drop>(alloc: Global, stream: &mut UdpStream<G>) -> Came {
    let reply = stream.receive(alloc);
    came(&reply)
}

/// How many of 40 messages are taken to be sent.
fn taken<G: Datagrams + Drop>(
    rt: &impl Abort,
    alloc: Global,
    stream: &mut UdpStream<G>,
    handle: &mut BufDnsStreamHandle,
) -> u32 {
    let mut taken: u32 = 0;
    for _ in 0..40u32 {
        if is_put(rt, alloc, stream, handle, 1) {
            taken = taken.saturating_add(1);
        }
    }
    taken
}

/// A socket to which one datagram of 5,000 bytes comes.
fn long_socket(rt: &impl Abort, alloc: Global) -> ListDatagrams {
    let mut bytes = Vec::new(alloc);
    bytes.resize(5000, 7u8).expect(rt, "memory");
    let mut incoming = Vec::new(alloc);
    incoming
        .push((Octets::from_vec(bytes), server()))
        .expect(rt, "memory");
    ListDatagrams::new(incoming, Vec::new(alloc))
}

#[test]
fn a_stream_takes_33_messages_and_receives(rt: HostRuntime) {
    let alloc = rt.alloc();
    let (mut stream, mut handle) = UdpStream::with_bound(alloc, long_socket(&rt, alloc), server());
    check(
        &rt,
        "33 messages are taken",
        taken(&rt, alloc, &mut stream, &mut handle) == 33,
    );
    check(
        &rt,
        "4,096 bytes come",
        received(alloc, &mut stream) == Ok((4096, 7)),
    );
    check(
        &rt,
        "nothing comes then",
        received(alloc, &mut stream) == Err(Heard::Waiting),
    );
}

#[test]
fn what_waits_is_sent_once_and_in_order(rt: HostRuntime) {
    let alloc = rt.alloc();
    let (mut stream, mut handle) = UdpStream::with_bound(alloc, Echo::new(alloc), server());
    check(
        &rt,
        "the first message is taken",
        is_put(&rt, alloc, &mut stream, &mut handle, 1),
    );
    check(
        &rt,
        "the second message is taken",
        is_put(&rt, alloc, &mut stream, &mut handle, 2),
    );
    check(
        &rt,
        "the first message comes back",
        received(alloc, &mut stream) == Ok((2, 1)),
    );
    check(
        &rt,
        "the second message comes back",
        received(alloc, &mut stream) == Ok((2, 2)),
    );
    check(
        &rt,
        "nothing comes back then",
        received(alloc, &mut stream) == Err(Heard::Waiting),
    );
}
