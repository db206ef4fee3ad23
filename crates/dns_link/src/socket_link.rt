//! A link over a stream of std: the edge to the system.
ghost use Rattle.std.specs.Prelude.{◌≡◌, None, Err};
ghost use Rattle.std.specs.Io.{ReadsAtMost, WritesAtMost};
ghost use Rattle.dns_link.specs.Counts.{no_counts, with_fault};

use crate::counts::Counts;
use crate::deadline::Deadline;
use crate::io_kinds::kind_of;
use crate::link::Link;
use dns_handle::IoKind;
use std::io::{ErrorKind, Read, Write};
use std::time::Clock;

/// A link over a stream of std, as `TcpStream`. It tells nothing of the bytes.
#[derive(Drop)]
pub struct SocketLink<S: Drop> {
    stream: S,
    counts: Counts,
}

impl<S: Read + Write + Drop> SocketLink<S> {
    ghost use Rattle.dns_link.specs.SocketCounts.{link_counts};

    /// A link over a stream that is connected.
    pub fn new(stream: S) -> SocketLink<S>
        ensures { link_counts result ≡ no_counts }
    {
        SocketLink {
            stream,
            counts: Counts::new(),
        }
    }

    /// What it met.
    pub(crate) fn counts(&self) -> &Counts
        ensures { result.now ≡ link_counts self.now }
    {
        &self.counts
    }

    /// A read that comes too late.
    fn refuse_read(&mut self) -> Result<usize, IoKind>
        ensures refused { result ≡ Err IoKind.TimedOut }
        ensures counts { link_counts self.new ≡ with_fault (link_counts self.old) }
    {
        self.counts.count_fault();
        Err(IoKind::TimedOut)
    }
}

/// Reads once; a read that a signal interrupted is tried again.
fn read_from<S: Read>(stream: &mut S, buf: &mut [u8]) -> Result<usize, IoKind>
    ensures { ReadsAtMost result buf.new }
{
    for _ in 0..u64::MAX {
        match stream.read(buf) {
            Ok(count) => return Ok(count),
            Err(error) if error.kind() == ErrorKind::Interrupted => (),
            Err(error) => return Err(kind_of(&error)),
        }
    }
    Err(IoKind::Other)
}

/// Writes once; a write that a signal interrupted is tried again.
fn write_to<S: Write>(stream: &mut S, bytes: &[u8]) -> Result<usize, IoKind>
    ensures { WritesAtMost result bytes.now }
{
    for _ in 0..u64::MAX {
        match stream.write(bytes) {
            Ok(count) => return Ok(count),
            Err(error) if error.kind() == ErrorKind::Interrupted => (),
            Err(error) => return Err(kind_of(&error)),
        }
    }
    Err(IoKind::Other)
}

impl<S: Read + Write + Drop> Link for SocketLink<S> {
    ghost use Rattle.dns_link.specs.SocketCounts.{link_counts};

    ghost counts = { link_counts };

    ghost given = { λ _. None };

    ghost left = { λ _. None };

    ghost taken = { λ _. None };

    fn read(&mut self, buf: &mut [u8]) -> Result<usize, IoKind> {
        let result = read_from(&mut self.stream, buf);
        self.counts.count_read(buf.len(), &result);
        result
    }

    fn write(&mut self, bytes: &[u8]) -> Result<usize, IoKind> {
        let result = write_to(&mut self.stream, bytes);
        self.counts.count_write(bytes.len(), &result);
        result
    }
}

/// A link that a dialer over std makes: over a stream, with a deadline if the dialer has one. It tells nothing of the bytes.
#[derive(Drop)]
pub struct TimedLink<S: Drop, C: Drop> {
    link: SocketLink<S>,
    deadline: Option<Deadline<C>>,
}

impl<S: Read + Write + Drop, C: Clock + Drop> TimedLink<S, C> {
    ghost use Rattle.dns_link.specs.SocketCounts.{timed_counts};

    /// A link over a stream that is connected, whose reads fail once the deadline is over.
    pub(crate) fn new(stream: S, deadline: Option<Deadline<C>>) -> TimedLink<S, C>
        ensures { timed_counts result ≡ no_counts }
    {
        TimedLink {
            link: SocketLink::new(stream),
            deadline,
        }
    }

    /// What it met.
    pub(crate) fn counts(&self) -> &Counts
        ensures { result.now ≡ timed_counts self.now }
    {
        self.link.counts()
    }

    /// Whether nothing may be read any more until something is written.
    fn is_late(&self) -> bool {
        match &self.deadline {
            Some(deadline) => deadline.is_over(),
            None => false,
        }
    }
}

impl<S: Read + Write + Drop, C: Clock + Drop> Link for TimedLink<S, C> {
    ghost use Rattle.dns_link.specs.SocketCounts.{timed_counts};

    ghost counts = { timed_counts };

    ghost given = { λ _. None };

    ghost left = { λ _. None };

    ghost taken = { λ _. None };

    fn read(&mut self, buf: &mut [u8]) -> Result<usize, IoKind> {
        if self.is_late() {
            return self.link.refuse_read();
        }
        self.link.read(buf)
    }

    fn write(&mut self, bytes: &[u8]) -> Result<usize, IoKind> {
        let result = self.link.write(bytes);
        if let Some(deadline) = &mut self.deadline {
            deadline.restart();
        }
        result
    }
}
