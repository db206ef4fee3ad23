//! A link with a hook before each call.
ghost use Rattle.std.specs.Prelude.{◌≡◌, None};
ghost use Rattle.std.specs.Io.{ReadsAtMost, WritesAtMost};

use dns_handle::IoKind;
use dns_link::{Counts, Link, PairLink};

/// What is done before each call of a link, which fails where the hook does.
pub(crate) trait Hook {
    fn before_read(&mut self) -> Result<(), IoKind>;

    fn before_write(&mut self) -> Result<(), IoKind>;
}

/// A link in memory with a hook.
#[derive(Drop)]
pub(crate) struct HookedLink<H: Hook + Drop> {
    link: PairLink,
    hook: H,
    counts: Counts,
}

impl<H: Hook + Drop> HookedLink<H> {
    pub(crate) fn new(link: PairLink, hook: H) -> HookedLink<H> {
        HookedLink {
            link,
            hook,
            counts: Counts::new(),
        }
    }

    fn try_read(&mut self, buf: &mut [u8]) -> Result<usize, IoKind>
        ensures bound { ReadsAtMost result buf.new }
        ensures counts { self.new.counts ≡ self.old.counts }
    {
        self.hook.before_read()?;
        self.link.read(buf)
    }

    fn try_write(&mut self, bytes: &[u8]) -> Result<usize, IoKind>
        ensures bound { WritesAtMost result bytes.now }
        ensures counts { self.new.counts ≡ self.old.counts }
    {
        self.hook.before_write()?;
        self.link.write(bytes)
    }
}

impl<H: Hook + Drop> Link for HookedLink<H> {
    ghost counts = { λ l. l.counts };

    ghost given = { λ _. None };

    ghost left = { λ _. None };

    ghost taken = { λ _. None };

    fn read(&mut self, buf: &mut [u8]) -> Result<usize, IoKind> {
        let outcome = self.try_read(buf);
        self.counts.count_read(buf.len(), &outcome);
        outcome
    }

    fn write(&mut self, bytes: &[u8]) -> Result<usize, IoKind> {
        let outcome = self.try_write(bytes);
        self.counts.count_write(bytes.len(), &outcome);
        outcome
    }
}
