//! A dialer in memory that keeps where sockets were bound and what was sent on each, for tests to look at.
ghost use Rattle.std.specs.Prelude.{◌≡◌, ◌≤◌, None, IfOk, IfSome, length};
ghost use Rattle.dns_link.specs.Moved.{DatagramValue, IsNew};

use crate::parts::server;
use dns_handle::IoKind;
use dns_link::{Counts, Datagrams, Dialer, Link};
use std::net::SocketAddr;

/// A link that always fails; none is made.
#[derive(Drop)]
pub(crate) struct NoLink {
    pub(crate) counts: Counts,
}

impl Link for NoLink {
    ghost counts = { λ l. l.counts };

    ghost given = { λ _. None };

    ghost left = { λ _. None };

    ghost taken = { λ _. None };

    fn read(&mut self, buf: &mut [u8]) -> Result<usize, IoKind> {
        let result = Err(IoKind::Other);
        self.counts.count_read(buf.len(), &result);
        result
    }

    fn write(&mut self, bytes: &[u8]) -> Result<usize, IoKind> {
        let result = Err(IoKind::Other);
        self.counts.count_write(bytes.len(), &result);
        result
    }
}

/// Datagrams of the server that come to one socket: the bytes of each, how long it is, and how often it comes. Behind its bytes
/// it has the zeros of a fresh buffer.
#[derive(Clone, Copy)]
pub(crate) struct Coming(pub(crate) &'static [u8], pub(crate) usize, pub(crate) u32);

/// A socket in memory that compares what is sent with what is to be sent.
#[derive(Drop)]
pub(crate) struct Watched {
    asked: &'static [u8],
    coming: Coming,
    /// In so many waits nothing comes first.
    quiet: u32,
    /// A send takes a byte less.
    is_short: bool,
    /// Just what is to be sent was sent so often, and something else so often.
    alike: u32,
    others: u32,
    counts: Counts,
}

impl Watched {
    /// Puts the next datagram into the front of `buf`, as far as it fits.
    fn give(&mut self, buf: &mut [u8]) -> Option<(usize, SocketAddr)>
        ensures bound { IfSome result (λ d. d.0 ≤ length buf.new) }
        ensures counts { self.new.counts ≡ self.old.counts }
    {
        if self.quiet > 0 {
            self.quiet -= 1;
            return None;
        }
        if self.coming.2 == 0 {
            return None;
        }
        self.coming.2 -= 1;
        let front = self.coming.0.len().min(buf.len());
        buf[..front].copy_from_slice(&self.coming.0[..front]);
        Some((self.coming.1.min(buf.len()), server()))
    }
}

impl Datagrams for Watched {
    ghost counts = { λ s. s.counts };

    ghost given = { λ _. None };

    fn send_to(&mut self, bytes: &[u8], _to: SocketAddr) -> Result<usize, IoKind> {
        if bytes == self.asked {
            self.alike = self.alike.saturating_add(1);
        } else {
            self.others = self.others.saturating_add(1);
        }
        let mut taken = bytes.len();
        if self.is_short {
            taken = taken.saturating_sub(1);
        }
        let result = Ok(taken);
        self.counts.count_send(bytes.len(), &result);
        result
    }

    fn recv_from(&mut self, buf: &mut [u8]) -> Result<Option<(usize, SocketAddr)>, IoKind> {
        let result = Ok(self.give(buf));
        self.counts.count_receive(&result);
        result
    }
}

/// A dialer in memory that keeps where sockets were bound and on how many just what is to be sent was sent.
#[derive(Drop)]
pub(crate) struct Watching {
    /// What is to be sent on each socket, once.
    asked: &'static [u8],
    /// What comes to the sockets, one after another; nothing to any more.
    coming: &'static [Coming],
    /// In so many waits on each of them nothing comes first.
    quiet: u32,
    /// Sends take a byte less.
    is_short: bool,
    /// So many binds are refused first.
    refusals: u32,
    /// How many binds there were, and where the last one was.
    pub(crate) binds: u32,
    pub(crate) last: Option<SocketAddr>,
    /// On so many sockets just that was sent, and on so many something else.
    pub(crate) alike: u32,
    pub(crate) others: u32,
    counts: Counts,
}

impl Watching {
    /// A dialer to whose sockets these datagrams come.
    pub(crate) fn new(
        asked: &'static [u8],
        coming: &'static [Coming],
        is_short: bool,
        refusals: u32,
    ) -> Watching {
        Watching {
            asked,
            coming,
            quiet: 0,
            is_short,
            refusals,
            binds: 0,
            last: None,
            alike: 0,
            others: 0,
            counts: Counts::new(),
        }
    }

    /// The same dialer, where nothing comes in so many first waits on each socket.
    pub(crate) fn after(mut self, quiet: u32) -> Watching {
        self.quiet = quiet;
        self
    }

    /// What comes to the next socket.
    fn next(&mut self) -> Coming
        ensures { self.new.counts ≡ self.old.counts }
    {
        match self.coming {
            [first, rest @ ..] => {
                self.coming = rest;
                *first
            }
            [] => Coming(&[], 0, 0),
        }
    }

    /// The next socket, or a refusal.
    fn socket(&mut self) -> Result<Watched, IoKind>
        ensures made { IfOk result (λ socket. IsNew {X = DatagramValue} socket.counts None) }
        ensures counts { self.new.counts ≡ self.old.counts }
    {
        if self.refusals > 0 {
            self.refusals -= 1;
            return Err(IoKind::AddrInUse);
        }
        let coming = self.next();
        Ok(Watched {
            asked: self.asked,
            coming,
            quiet: self.quiet,
            is_short: self.is_short,
            alike: 0,
            others: 0,
            counts: Counts::new(),
        })
    }
}

impl Dialer for Watching {
    type Link = NoLink;

    type Datagrams = Watched;

    ghost counts = { λ d. d.counts };

    ghost given_bytes = { λ _. None };

    ghost given_datagrams = { λ _. None };

    fn connect(
        &mut self,
        _peer: SocketAddr,
        _bind: Option<SocketAddr>,
        _timeout_ms: u64,
    ) -> Result<NoLink, IoKind> {
        let result = Err(IoKind::AddrNotAvailable);
        self.counts.count_dial(&result);
        result
    }

    fn bind(&mut self, local: SocketAddr) -> Result<Watched, IoKind> {
        self.binds = self.binds.saturating_add(1);
        self.last = Some(local);
        let result = self.socket();
        self.counts.count_dial(&result);
        result
    }

    fn retire(&mut self, link: NoLink) {
        self.counts.add(&link.counts);
    }

    fn retire_datagrams(&mut self, socket: Watched) {
        self.counts.add(&socket.counts);
        if socket.alike == 1 && socket.others == 0 {
            self.alike = self.alike.saturating_add(1);
        } else {
            self.others = self.others.saturating_add(1);
        }
    }
}
