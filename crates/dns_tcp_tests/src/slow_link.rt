ghost use Rattle.std.specs.Prelude.{◌≡◌, None};
ghost use Rattle.std.specs.Io.{ReadsAtMost, WritesAtMost};

use dns_handle::IoKind;
use dns_link::{Counts, Link, PairLink};

/// A link that takes one byte at a time, and of whose calls one fails with a kind.
#[derive(Drop)]
pub(crate) struct SlowLink {
    link: PairLink,
    made: u64,
    fails_at: u64,
    kind: IoKind,
    counts: Counts,
}

impl SlowLink {
    /// A link over one in memory; the call with this number, from 0, fails.
    pub(crate) fn new(link: PairLink, fails_at: u64, kind: IoKind) -> SlowLink {
        SlowLink {
            link,
            made: 0,
            fails_at,
            kind,
            counts: Counts::new(),
        }
    }

    /// The bytes that it took.
    pub(crate) fn taken(&self) -> &[u8] {
        self.link.taken()
    }

    /// Whether the next call fails, which is now made.
    fn fails(&mut self) -> bool
        ensures { self.new.counts ≡ self.old.counts }
    {
        let fails = self.made == self.fails_at;
        self.made = self.made.saturating_add(1);
        fails
    }

    fn try_read(&mut self, buf: &mut [u8]) -> Result<usize, IoKind>
        ensures bound { ReadsAtMost result buf.new }
        ensures counts { self.new.counts ≡ self.old.counts }
    {
        if self.fails() {
            return Err(self.kind);
        }
        self.link.read(buf)
    }

    fn try_write(&mut self, bytes: &[u8]) -> Result<usize, IoKind>
        ensures bound { WritesAtMost result bytes.now }
        ensures counts { self.new.counts ≡ self.old.counts }
    {
        if self.fails() {
            return Err(self.kind);
        }
        let front = bytes.len().min(1);
        self.link.write(&bytes[..front])
    }
}

impl Link for SlowLink {
    ghost counts = { λ l. l.counts };

    ghost given = { λ _. None };

    ghost left = { λ _. None };

    ghost taken = { λ _. None };

    fn read(&mut self, buf: &mut [u8]) -> Result<usize, IoKind> {
        let outcome = self.try_read(buf);
        self.counts.count_read(buf.len(), &outcome);
        outcome
    }

    fn write(&mut self, bytes: &[u8]) -> Result<usize, IoKind> {
        let outcome = self.try_write(bytes);
        self.counts.count_write(bytes.len(), &outcome);
        outcome
    }
}
