//! A server in memory: what is written comes back, marked as responses.
ghost use Rattle.std.specs.Prelude.{◌≡◌, None, true};
ghost use Rattle.std.specs.Io.{ReadsAtMost, WritesAtMost};

use dns_transport::{Counts, IoKind, Link};
use std::alloc::Global;
use std::net::{IpAddr, Ipv4Addr, SocketAddr};
use std::process::Abort;

/// The bit of a header that marks a response (RFC 1035, 4.1.1), in its octet.
const RESPONSE: u8 = 0x80;

/// What was tried held; the message names it.
pub(crate) fn check(rt: &impl Abort, what: &str, held: bool)
    ensures { held ≡ true }
{
    assert!(rt; held, "{what}");
}

pub(crate) fn echo_server() -> SocketAddr {
    SocketAddr::new(IpAddr::V4(Ipv4Addr::new(127, 0, 0, 1)), 53)
}

/// A link that gives each frame back as a response. A write is a whole frame, and a read gives at most half of one.
#[derive(Drop)]
pub(crate) struct Echo {
    waiting: Vec<u8>,
    /// So many bytes of them were read.
    read: usize,
    counts: Counts,
}

impl Echo {
    pub(crate) fn new(alloc: Global) -> Echo {
        Echo {
            waiting: Vec::new(alloc),
            read: 0,
            counts: Counts::new(),
        }
    }

    fn give(&mut self, buf: &mut [u8]) -> Result<usize, IoKind>
        ensures bound { ReadsAtMost result buf.new }
        ensures counts { self.new.counts ≡ self.old.counts }
    {
        let left = self.waiting.get(self.read..).unwrap_or_default();
        let count = left.len().min(buf.len()).min(7);
        buf[..count].copy_from_slice(&left[..count]);
        self.read = self.read.saturating_add(count);
        Ok(count)
    }

    fn keep(&mut self, bytes: &[u8]) -> Result<usize, IoKind>
        ensures bound { WritesAtMost result bytes.now }
        ensures counts { self.new.counts ≡ self.old.counts }
    {
        let start = self.waiting.len();
        if self.waiting.extend_from_slice(bytes).is_err() {
            return Err(IoKind::Other);
        }
        if let Some(octet) = self.waiting.get_mut(start.saturating_add(4)) {
            *octet |= RESPONSE;
        }
        Ok(bytes.len())
    }
}

impl Link for Echo {
    ghost counts = { λ l. l.counts };

    ghost given = { λ _. None };

    ghost left = { λ _. None };

    ghost taken = { λ _. None };

    fn read(&mut self, buf: &mut [u8]) -> Result<usize, IoKind> {
        let result = self.give(buf);
        self.counts.count_read(buf.len(), &result);
        result
    }

    fn write(&mut self, bytes: &[u8]) -> Result<usize, IoKind> {
        let result = self.keep(bytes);
        self.counts.count_write(bytes.len(), &result);
        result
    }
}
