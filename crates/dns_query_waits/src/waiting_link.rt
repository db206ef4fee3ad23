//! A link that says whom it waits for.
ghost use Rattle.std.specs.Prelude.{◌≡◌};
ghost use Rattle.std.specs.Io.{ReadsAtMost};
ghost use Rattle.dns_link.specs.Counts.{no_counts};

use crate::end::End;
use crate::notice::{Notice, Voice};
use dns_handle::IoKind;
use dns_link::{Counts, Link};
use std::io::Print;
use std::net::SocketAddr;
use std::time;

/// Behind so many bytes a message of a stream begins (RFC 1035, 4.2.2).
const LENGTH_BYTES: usize = 2;

/// How often a read is tried, at least once, and for how many milliseconds each time.
#[derive(Clone, Copy)]
pub(crate) struct Turns {
    pub(crate) count: u64,
    pub(crate) each_ms: u64,
}

/// A link over another that carries one request. It reads in so many turns at most, of which each may time out but the last, and begins none
/// that might end later than the time. It tells nothing of the bytes.
#[derive(Drop)]
pub struct WaitingLink<L: Drop, C: Drop, P: Drop> {
    link: L,
    peer: SocketAddr,
    turns: Turns,
    notice: Notice<C, P>,
    end: End<C>,
    counts: Counts,
}

impl<L: Link + Drop, C: time::Clock + Copy + Drop, P: Print + Copy + Drop> WaitingLink<L, C, P> {
    ghost use Rattle.dns_query_waits.specs.WaitCounts.{link_counts};

    /// A link over one that is connected to a peer, for so many milliseconds.
    pub(crate) fn new(
        link: L,
        peer: SocketAddr,
        turns: Turns,
        voice: Voice<C, P>,
        left_ms: u64,
    ) -> WaitingLink<L, C, P>
        ensures { link_counts result ≡ no_counts }
    {
        WaitingLink {
            link,
            peer,
            turns,
            notice: Notice::new(voice),
            end: End::after(voice.clock, left_ms),
            counts: Counts::new(),
        }
    }

    /// What it met.
    pub(crate) fn counts(&self) -> &Counts
        ensures { result.now ≡ link_counts self.now }
    {
        &self.counts
    }

    /// The link below.
    pub(crate) fn into_link(self) -> L {
        self.link
    }
}

// Reads once, unless that might end later than the time.
fn read_in_time<L: Link, C: time::Clock + Drop>(
    link: &mut L,
    end: &mut End<C>,
    turn_ms: u64,
    buf: &mut [u8],
) -> Result<usize, IoKind>
    ensures { ReadsAtMost result buf.new }
{
    if end.left_ms() < turn_ms {
        return Err(IoKind::TimedOut);
    }
    link.read(buf)
}

// Reads once in so many turns, and says between them whom it waits for.
fn read_in_turns<L: Link, C: time::Clock + Copy + Drop, P: Print + Copy + Drop>(
    link: &mut L,
    notice: &mut Notice<C, P>,
    end: &mut End<C>,
    turns: Turns,
    buf: &mut [u8],
) -> Result<usize, IoKind>
    ensures { ReadsAtMost result buf.new }
{
    for _ in 1..turns.count {
        match read_in_time(link, end, turns.each_ms, buf) {
            Ok(count) => return Ok(count),
            Err(IoKind::TimedOut) => notice.look(LENGTH_BYTES),
            Err(kind) => return Err(kind),
        }
    }
    read_in_time(link, end, turns.each_ms, buf)
}

impl<L: Link + Drop, C: time::Clock + Copy + Drop, P: Print + Copy + Drop> Link
    for WaitingLink<L, C, P> {
    ghost use Rattle.std.specs.Prelude.{None};
    ghost use Rattle.dns_query_waits.specs.WaitCounts.{link_counts};

    ghost counts = { link_counts };

    ghost given = { λ _. None };

    ghost left = { λ _. None };

    ghost taken = { λ _. None };

    fn read(&mut self, buf: &mut [u8]) -> Result<usize, IoKind> {
        let result = read_in_turns(
            &mut self.link,
            &mut self.notice,
            &mut self.end,
            self.turns,
            buf,
        );
        self.counts.count_read(buf.len(), &result);
        result
    }

    fn write(&mut self, bytes: &[u8]) -> Result<usize, IoKind> {
        let result = self.link.write(bytes);
        if let Ok(count) = result {
            self.notice
                .send(self.peer, bytes.get(..count).unwrap_or(bytes));
        }
        self.counts.count_write(bytes.len(), &result);
        result
    }
}
