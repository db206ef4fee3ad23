ghost use Rattle.std.specs.Prelude.{◌≡◌, ◌≤◌, None, IfSome, length};

use crate::parts::server;
use dns_handle::IoKind;
use dns_link::{Counts, Datagrams};
use std::alloc::Global;
use std::net::SocketAddr;

/// A socket in memory to which comes what was sent on it, in order, two bytes at a time.
#[derive(Drop)]
pub(crate) struct Echo {
    sent: Vec<u8>,
    /// So many bytes came.
    came: usize,
    counts: Counts,
}

impl Echo {
    /// A socket on which nothing was sent.
    pub(crate) fn new(alloc: Global) -> Echo {
        Echo {
            sent: Vec::new(alloc),
            came: 0,
            counts: Counts::new(),
        }
    }

    /// The next two bytes, in the front of `buf`.
    fn give(&mut self, buf: &mut [u8]) -> Option<(usize, SocketAddr)>
        ensures bound { IfSome result (λ d. d.0 ≤ length buf.new) }
        ensures counts { self.new.counts ≡ self.old.counts }
    {
        let first = *self.sent.get(self.came)?;
        let second = *self.sent.get(self.came.saturating_add(1))?;
        if buf.len() < 2 {
            return None;
        }
        buf[0] = first;
        buf[1] = second;
        self.came = self.came.saturating_add(2);
        Some((2, server()))
    }
}

impl Datagrams for Echo {
    ghost counts = { λ s. s.counts };

    ghost given = { λ _. None };

    fn send_to(&mut self, bytes: &[u8], _to: SocketAddr) -> Result<usize, IoKind> {
        let result = match self.sent.extend_from_slice(bytes) {
            Ok(()) => Ok(bytes.len()),
            Err(_) => Err(IoKind::Other),
        };
        self.counts.count_send(bytes.len(), &result);
        result
    }

    fn recv_from(&mut self, buf: &mut [u8]) -> Result<Option<(usize, SocketAddr)>, IoKind> {
        let result = Ok(self.give(buf));
        self.counts.count_receive(&result);
        result
    }
}
