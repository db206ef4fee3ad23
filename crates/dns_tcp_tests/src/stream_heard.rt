//! Calls of a stream, whose replies are let go at one place.
use crate::heard::{Heard, heard_error};
use dns_handle::NetError;
use dns_link::Link;
use dns_tcp::{Feed, TcpStream};
use std::process::Abort;

/// What a reply of `feed` is heard as. The bytes of its message are put behind others.
pub(crate) fn heard_feed(
    rt: &impl Abort,
    reply: &Result<Feed, NetError>,
    read: &mut Vec<u8>,
) -> Heard {
    match reply {
        Ok(Feed::More) => Heard::More,
        Ok(Feed::Closed) => Heard::Closed,
        Ok(Feed::Message(message)) => {
            let put = read.extend_from_slice(message.bytes.as_slice());
            put.expect(rt, "memory");
            Heard::Message
        }
        Err(error) => heard_error(error),
    }
}

/// What a reply of `drain` is heard as.
pub(crate) fn heard_drain(reply: &Result<bool, NetError>) -> Heard {
    match reply {
        Ok(true) => Heard::Written,
        Ok(false) => Heard::Waiting,
        Err(error) => heard_error(error),
    }
}

/// Reads once.
pub(crate) fn feed<L: Link + Drop>(
    rt: &impl Abort,
    stream: &mut TcpStream<L>,
    read: &mut Vec<u8>,
) -> Heard {
    let reply = stream.feed();
    heard_feed(rt, &reply, read)
}

/// Writes once.
pub(crate) fn drain<L: Link + Drop>(stream: &mut TcpStream<L>) -> Heard {
    let reply = stream.drain();
    heard_drain(&reply)
}

/// Reads until something else than a part of a message comes.
pub(crate) fn read_next<L: Link + Drop>(
    rt: &impl Abort,
    stream: &mut TcpStream<L>,
    read: &mut Vec<u8>,
) -> Heard {
    for _ in 0..200_000u32 {
        let heard = feed(rt, stream, read);
        if heard != Heard::More {
            return heard;
        }
    }
    Heard::More
}

/// Writes until nothing is left, or something else is answered.
pub(crate) fn write_all<L: Link + Drop>(stream: &mut TcpStream<L>) -> Heard {
    for _ in 0..200_000u32 {
        let heard = drain(stream);
        if heard != Heard::Waiting {
            return heard;
        }
    }
    Heard::Waiting
}
