//! A server of the root in memory, which many may ask over one connection.
ghost use Rattle.std.specs.Prelude.{◌≡◌, ◌≤◌, None, IfSome, length};
ghost use Rattle.std.specs.Io.{ReadsAtMost, WritesAtMost};

use dns_handle::IoKind;
use dns_link::{Counts, Datagrams, Dialer, Link};
use dns_record::NoMemory;
use std::alloc::Global;
use std::net::SocketAddr;

/// The root's name servers with their signature, behind the id.
const SERVERS: &[u8] = b"\x84\0\0\x01\0\x02\0\0\0\0\0\0\x02\0\x01\
    \0\0\x02\0\x01\0\0\x0e\x10\0\x03\x01a\0\
    \0\0\x2e\0\x01\0\0\x0e\x10\0\x15\0\x02\x0d\0\0\0\x0e\x10\0\0\x07\xd0\0\0\x03\x84\xae\xc9\0\xc0\xde";

/// The root's key, behind the id.
const KEY: &[u8] = b"\x84\0\0\x01\0\x01\0\0\0\0\0\0\x30\0\x01\
    \0\0\x30\0\x01\0\0\x0e\x10\0\x06\x01\x01\x03\x0d\xaa\xbb";

// The reply to a request, behind the id.
fn reply_to(request: &[u8]) -> &'static [u8] {
    if request.get(14) == Some(&48) {
        KEY
    } else {
        SERVERS
    }
}

// Puts the reply to a request behind other bytes.
fn put_reply(replies: &mut Vec<u8>, request: &[u8]) -> Result<(), NoMemory> {
    replies.extend_from_slice(request.get(..2).unwrap_or_default())?;
    replies.extend_from_slice(reply_to(request))?;
    Ok(())
}

// The same of a request behind its length, with a length before the reply (RFC 1035, 4.2.2). Each reply is short.
fn put_frame(replies: &mut Vec<u8>, frame: &[u8]) -> Result<(), NoMemory> {
    let request = frame.get(2..).unwrap_or_default();
    let length = u16::try_from(reply_to(request).len().saturating_add(2)).unwrap_or(0);
    replies.extend_from_slice(&length.to_be_bytes())?;
    put_reply(replies, request)
}

/// A link that takes each frame whole, and gives the replies in order.
#[derive(Drop)]
pub(crate) struct ReplyLink {
    replies: Vec<u8>,
    /// So many bytes of the replies were read.
    read: usize,
    counts: Counts,
}

impl ReplyLink {
    // Reads what is there of the replies.
    fn try_read(&mut self, buf: &mut [u8]) -> Result<usize, IoKind>
        ensures bound { ReadsAtMost result buf.new }
        ensures counts { self.new.counts ≡ self.old.counts }
    {
        let left = self.replies.get(self.read..).unwrap_or_default();
        let count = left.len().min(buf.len());
        buf[..count].copy_from_slice(&left[..count]);
        self.read = self.read.saturating_add(count);
        Ok(count)
    }
}

impl Link for ReplyLink {
    ghost counts = { λ l. l.counts };

    ghost given = { λ _. None };

    ghost left = { λ _. None };

    ghost taken = { λ _. None };

    fn read(&mut self, buf: &mut [u8]) -> Result<usize, IoKind> {
        let result = self.try_read(buf);
        self.counts.count_read(buf.len(), &result);
        result
    }

    fn write(&mut self, bytes: &[u8]) -> Result<usize, IoKind> {
        let result = match put_frame(&mut self.replies, bytes) {
            Ok(()) => Ok(bytes.len()),
            Err(NoMemory) => Err(IoKind::Other),
        };
        self.counts.count_write(bytes.len(), &result);
        result
    }
}

/// A socket that gives the reply to the last request, once.
#[derive(Drop)]
pub(crate) struct ReplySocket {
    reply: Vec<u8>,
    server: Option<SocketAddr>,
    counts: Counts,
}

// Puts the reply that waits, if one does, into a buffer: its length, and who sent it.
fn take_reply(
    reply: &mut Vec<u8>,
    server: Option<SocketAddr>,
    buf: &mut [u8],
) -> Option<(usize, SocketAddr)>
    ensures { IfSome result (λ d. d.0 ≤ length buf.new) }
{
    let server = server?;
    if reply.is_empty() {
        return None;
    }
    let count = reply.len().min(buf.len());
    buf[..count].copy_from_slice(&reply[..count]);
    reply.clear();
    Some((count, server))
}

impl Datagrams for ReplySocket {
    ghost counts = { λ s. s.counts };

    ghost given = { λ _. None };

    fn send_to(&mut self, bytes: &[u8], to: SocketAddr) -> Result<usize, IoKind> {
        self.reply.clear();
        self.server = Some(to);
        let result = match put_reply(&mut self.reply, bytes) {
            Ok(()) => Ok(bytes.len()),
            Err(NoMemory) => Err(IoKind::Other),
        };
        self.counts.count_send(bytes.len(), &result);
        result
    }

    fn recv_from(&mut self, buf: &mut [u8]) -> Result<Option<(usize, SocketAddr)>, IoKind> {
        let result = Ok(take_reply(&mut self.reply, self.server, buf));
        self.counts.count_receive(&result);
        result
    }
}

/// A dialer that makes links and sockets to the root's server, or refuses to connect.
#[derive(Drop)]
pub(crate) struct Replying {
    alloc: Global,
    refuses: bool,
    /// How often it was asked to connect.
    connects: u32,
    counts: Counts,
}

impl Replying {
    pub(crate) fn new(alloc: Global, refuses: bool) -> Replying {
        Replying {
            alloc,
            refuses,
            connects: 0,
            counts: Counts::new(),
        }
    }

    pub(crate) fn connects(&self) -> u32 {
        self.connects
    }
}

impl Dialer for Replying {
    type Link = ReplyLink;

    type Datagrams = ReplySocket;

    ghost counts = { λ d. d.counts };

    ghost given_bytes = { λ _. None };

    ghost given_datagrams = { λ _. None };

    fn connect(
        &mut self,
        _peer: SocketAddr,
        _bind: Option<SocketAddr>,
        _timeout_ms: u64,
    ) -> Result<ReplyLink, IoKind> {
        self.connects = self.connects.saturating_add(1);
        let result = if self.refuses {
            Err(IoKind::ConnectionRefused)
        } else {
            Ok(ReplyLink {
                replies: Vec::new(self.alloc),
                read: 0,
                counts: Counts::new(),
            })
        };
        self.counts.count_dial(&result);
        result
    }

    fn bind(&mut self, _local: SocketAddr) -> Result<ReplySocket, IoKind> {
        Ok(ReplySocket {
            reply: Vec::new(self.alloc),
            server: None,
            counts: Counts::new(),
        })
    }

    fn retire(&mut self, link: ReplyLink) {
        self.counts.add(&link.counts);
    }

    fn retire_datagrams(&mut self, socket: ReplySocket) {
        self.counts.add(&socket.counts);
    }
}
