//! A server of the root in memory: each request over its link gets the reply to it, up to a call that fails.
ghost use Rattle.std.specs.Prelude.{◌≡◌, None};
ghost use Rattle.std.specs.Io.{ReadsAtMost, WritesAtMost};

use crate::root::put_reply;
use dns_handle::IoKind;
use dns_link::{Counts, Datagrams, Dialer, Link};
use std::alloc::Global;
use std::net::SocketAddr;

/// A link that takes all that is written, and gives all that a read asks for of the reply.
#[derive(Drop)]
pub(crate) struct ReplyLink {
    reply: Vec<u8>,
    /// So many bytes of the reply were read.
    read: usize,
    calls: u64,
    /// The number, from 1, of the call that fails.
    fails: u64,
    counts: Counts,
}

impl ReplyLink {
    /// Whether the next call fails, which is now made.
    fn is_reset(&mut self) -> bool
        ensures { self.new.counts ≡ self.old.counts }
    {
        self.calls = self.calls.saturating_add(1);
        self.calls == self.fails
    }

    /// Reads, unless the call is the one that fails.
    fn try_read(&mut self, buf: &mut [u8]) -> Result<usize, IoKind>
        ensures bound { ReadsAtMost result buf.new }
        ensures counts { self.new.counts ≡ self.old.counts }
    {
        if self.is_reset() {
            return Err(IoKind::ConnectionReset);
        }
        let left = self.reply.get(self.read..).unwrap_or_default();
        let count = left.len().min(buf.len());
        buf[..count].copy_from_slice(&left[..count]);
        self.read = self.read.saturating_add(count);
        Ok(count)
    }

    /// Writes, unless the call is the one that fails.
    fn try_write(&mut self, bytes: &[u8]) -> Result<usize, IoKind>
        ensures bound { WritesAtMost result bytes.now }
        ensures counts { self.new.counts ≡ self.old.counts }
    {
        if self.is_reset() {
            return Err(IoKind::ConnectionReset);
        }
        let _ = put_reply(&mut self.reply, bytes.get(2..).unwrap_or_default());
        self.read = 0;
        Ok(bytes.len())
    }
}

impl Link for ReplyLink {
    ghost counts = { λ l. l.counts };

    ghost given = { λ _. None };

    ghost left = { λ _. None };

    ghost taken = { λ _. None };

    fn read(&mut self, buf: &mut [u8]) -> Result<usize, IoKind> {
        let result = self.try_read(buf);
        self.counts.count_read(buf.len(), &result);
        result
    }

    fn write(&mut self, bytes: &[u8]) -> Result<usize, IoKind> {
        let result = self.try_write(bytes);
        self.counts.count_write(bytes.len(), &result);
        result
    }
}

/// A socket that takes datagrams and never gives one.
#[derive(Drop)]
pub(crate) struct Quiet {
    counts: Counts,
}

impl Datagrams for Quiet {
    ghost counts = { λ s. s.counts };

    ghost given = { λ _. None };

    fn send_to(&mut self, bytes: &[u8], _to: SocketAddr) -> Result<usize, IoKind> {
        let result = Ok(bytes.len());
        self.counts.count_send(bytes.len(), &result);
        result
    }

    fn recv_from(&mut self, _buf: &mut [u8]) -> Result<Option<(usize, SocketAddr)>, IoKind> {
        let result = Ok(None);
        self.counts.count_receive(&result);
        result
    }
}

/// A dialer whose links fail at the call with a number, from 1, or are refused at 0; its sockets are quiet.
#[derive(Drop)]
pub(crate) struct Replying {
    alloc: Global,
    fails: u64,
    counts: Counts,
}

impl Replying {
    pub(crate) fn new(alloc: Global, fails: u64) -> Replying {
        Replying {
            alloc,
            fails,
            counts: Counts::new(),
        }
    }
}

impl Dialer for Replying {
    type Link = ReplyLink;

    type Datagrams = Quiet;

    ghost counts = { λ d. d.counts };

    ghost given_bytes = { λ _. None };

    ghost given_datagrams = { λ _. None };

    fn connect(
        &mut self,
        _peer: SocketAddr,
        _bind: Option<SocketAddr>,
        _timeout_ms: u64,
    ) -> Result<ReplyLink, IoKind> {
        let result = match self.fails {
            0 => Err(IoKind::ConnectionRefused),
            fails => Ok(ReplyLink {
                reply: Vec::new(self.alloc),
                read: 0,
                calls: 0,
                fails,
                counts: Counts::new(),
            }),
        };
        self.counts.count_dial(&result);
        result
    }

    fn bind(&mut self, _local: SocketAddr) -> Result<Quiet, IoKind> {
        Ok(Quiet {
            counts: Counts::new(),
        })
    }

    fn retire(&mut self, link: ReplyLink) {
        self.counts.add(&link.counts);
    }

    fn retire_datagrams(&mut self, socket: Quiet) {
        self.counts.add(&socket.counts);
    }
}
