//! A connection, as a layer above sees it.
ghost use Rattle.std.specs.Prelude.{◌≡◌, ℕ, List, Option, None, length};
ghost use Rattle.std.specs.Io.{ReadsAtMost, WritesAtMost};
ghost use Rattle.std.specs.Io.KnownBytes.{prepend_known};
ghost use Rattle.dns_link.specs.Calls.{IsToldWith, NetCalls, only_fault};
ghost use Rattle.dns_link.specs.Counts.{CountsValue, after_read, after_write};
ghost use Rattle.dns_link.specs.Moved.{EndsAt, and_then, moved_by};

use dns_handle::IoKind;

/// A connection that carries a stream of bytes each way (RFC 1035, 4.2.2). Each read and each write waits for as long as the
/// link lets it.
pub trait Link {
    /// What the link met.
    ghost counts: { Self → CountsValue };

    /// The bytes that reads gave, where the link tells them.
    ghost given: { Self → Option (List ℕ) };

    /// The bytes that reads are still to give, where the link tells them.
    ghost left: { Self → Option (List ℕ) };

    /// The bytes that writes took, where the link tells them.
    ghost taken: { Self → Option (List ℕ) };

    /// The kind of the last fault, where the link tells it.
    ghost calls: { Self → Option NetCalls } = { λ _. None };

    /// Reads the next bytes into the front of `buf`, and answers how many. None for a buffer that isn't empty is the end.
    fn read(&mut self, buf: &mut [u8]) -> Result<usize, IoKind>
        ensures bound { ReadsAtMost result buf.new }
        ensures counts { counts self.new ≡ after_read (length buf.new) result (counts self.old) }
        ensures given { given self.new ≡ and_then (given self.old) (moved_by result buf.new) }
        ensures left { left self.old ≡ prepend_known (moved_by result buf.new) (left self.new) }
        ensures end { EndsAt result buf.new (left self.new) }
        ensures taken { taken self.new ≡ taken self.old }
        ensures calls { IsToldWith (calls self.old) (only_fault result) (calls self.new) };

    /// Takes bytes from the front of `bytes`, and answers how many.
    fn write(&mut self, bytes: &[u8]) -> Result<usize, IoKind>
        ensures bound { WritesAtMost result bytes.now }
        ensures counts { counts self.new ≡ after_write (length bytes.now) result (counts self.old) }
        ensures taken { taken self.new ≡ and_then (taken self.old) (moved_by result bytes.now) }
        ensures given { given self.new ≡ given self.old }
        ensures left { left self.new ≡ left self.old }
        ensures calls { IsToldWith (calls self.old) (only_fault result) (calls self.new) };
}
