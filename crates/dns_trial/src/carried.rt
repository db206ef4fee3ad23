//! A hundred messages of 510 bytes over a link in memory, so often.

use crate::cuts::cut_at;
use crate::form::Work;
use dns_handle::NetError;
use dns_link::{Link, PairLink};
use dns_multiplexer::{BufDnsStreamHandle, SerialMessage};
use dns_record::{NoMemory, Octets};
use dns_tcp::{Feed, TcpStream};
use std::alloc::Global;
use std::net::{IpAddr, Ipv4Addr, SocketAddr};

/// The bytes of a message. As an array of a function they would be dear to prove.
const MESSAGE: &[u8; 510] = &[7; 510];

/// The bytes of a frame.
const FRAME: usize = 512;

/// So many messages go over a link.
const MESSAGES: u32 = 100;

// The peer of all links.
fn server() -> SocketAddr {
    SocketAddr::new(IpAddr::V4(Ipv4Addr::new(192, 0, 2, 1)), 53)
}

// The frames of a hundred messages, one behind the other: each message behind its length (RFC 1035, 4.2.2).
fn frames(alloc: Global) -> Result<Vec<u8>, NoMemory> {
    let mut bytes = Vec::new(alloc);
    for _ in 0..MESSAGES {
        bytes.extend_from_slice(b"\x01\xfe")?;
        bytes.extend_from_slice(MESSAGE)?;
    }
    Ok(bytes)
}

// A link with room for these frames where messages are to be written, and else one that gives them.
fn link_for(alloc: Global, work: Work, frames: &[u8]) -> Result<PairLink, NoMemory> {
    match work {
        Work::Written => PairLink::new(alloc, Vec::new(alloc), frames.len(), Vec::new(alloc)),
        _ => PairLink::new(alloc, cut_at(alloc, frames, 0)?, 0, Vec::new(alloc)),
    }
}

// How many messages a stream gives until it ends.
fn read_all(stream: &mut TcpStream<PairLink>) -> u64 {
    let mut read: u64 = 0;
    for _ in 0..u64::MAX {
        match stream.feed() {
            Ok(Feed::More) => {}
            Ok(Feed::Message(_)) => read = read.saturating_add(1),
            _ => break,
        }
    }
    read
}

// A copy of bytes. It is a call of its own, so that no compiler leaves out a copy that nobody looks at.
#[inline(never)]
fn copy_of(alloc: Global, bytes: &[u8]) -> Result<Vec<u8>, NoMemory> {
    Ok(Vec::from_slice(alloc, bytes)?)
}

// How many frames are read plainly off a link, each copied into a vector of its own.
fn copy_all(alloc: Global, link: &mut PairLink) -> Result<u64, NoMemory> {
    let mut buf = Vec::new(alloc);
    buf.resize(FRAME, 0)?;
    let mut copied: u64 = 0;
    for _ in 0..MESSAGES {
        if matches!(link.read(&mut buf), Ok(FRAME)) {
            copied = copied.saturating_add(u64::from(copy_of(alloc, &buf).is_ok()));
        }
    }
    Ok(copied)
}

// Whether a message is put into a stream's queue and written, so that nothing waits.
fn is_written(
    alloc: Global,
    stream: &mut TcpStream<PairLink>,
    handle: &mut BufDnsStreamHandle,
) -> Result<bool, NoMemory> {
    let bytes = Octets::from_slice(alloc, MESSAGE)?;
    if bytes.is_empty() {
        return Ok(false);
    }
    let addr = server();
    if stream
        .enqueue(handle, SerialMessage { bytes, addr })
        .is_err()
    {
        return Ok(false);
    }
    Ok(matches!(stream.drain(), Ok(true)))
}

// How many of a hundred messages are written.
fn write_all(
    alloc: Global,
    stream: &mut TcpStream<PairLink>,
    handle: &mut BufDnsStreamHandle,
) -> Result<u64, NoMemory> {
    let mut written: u64 = 0;
    for _ in 0..MESSAGES {
        written = written.saturating_add(u64::from(is_written(alloc, stream, handle)?));
    }
    Ok(written)
}

// How many messages are read off a link, or written to one.
fn streamed(alloc: Global, work: Work, link: PairLink) -> Result<u64, NoMemory> {
    let (mut stream, mut handle) = TcpStream::from_stream(alloc, link, server());
    match work {
        Work::Read => Ok(read_all(&mut stream)),
        _ => write_all(alloc, &mut stream, &mut handle),
    }
}

// How often it went well over one link.
fn carried_once(alloc: Global, work: Work, frames: &[u8]) -> Result<u64, NoMemory> {
    let mut link = link_for(alloc, work, frames)?;
    match work {
        Work::Read | Work::Written => streamed(alloc, work, link),
        Work::Copied => copy_all(alloc, &mut link),
        _ => Ok(u64::from(MESSAGES)),
    }
}

/// How often it went well over so many links.
pub(crate) fn carried(alloc: Global, work: Work, count: u32) -> Result<u64, NoMemory> {
    let frames = frames(alloc)?;
    let mut carried: u64 = 0;
    for _ in 0..count {
        carried = carried.saturating_add(carried_once(alloc, work, &frames)?);
    }
    Ok(carried)
}
