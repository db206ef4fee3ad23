//! A datagram socket, as a layer above sees it.
ghost use Rattle.std.specs.Prelude.{◌≡◌, ◌≤◌, List, Option, None, length, IfOk, IfSome};
ghost use Rattle.std.specs.Io.{WritesAtMost};
ghost use Rattle.dns_link.specs.Calls.{IsToldWith, NetCalls, answered, only_fault};
ghost use Rattle.dns_link.specs.Counts.{CountsValue, after_receive, after_send};
ghost use Rattle.dns_link.specs.Moved.{DatagramValue, and_then, received_by};

use crate::net_call::NetCall;
use dns_handle::IoKind;
use std::net::SocketAddr;

/// A socket that carries datagrams (RFC 1035, 4.2.1).
pub trait Datagrams {
    /// What the socket met.
    ghost counts: { Self → CountsValue };

    /// The datagrams that came, each as far as it fitted the buffer, where the socket tells them.
    ghost given: { Self → Option (List DatagramValue) };

    /// What was sent where, in order, and the kind of the last fault, where the socket tells them.
    ghost calls: { Self → Option NetCalls } = { λ _. None };

    /// Sends the bytes as one datagram, and answers how many of them were taken.
    fn send_to(&mut self, bytes: &[u8], to: SocketAddr) -> Result<usize, IoKind>
        ensures bound { WritesAtMost result bytes.now }
        ensures counts { counts self.new ≡ after_send (length bytes.now) result (counts self.old) }
        ensures given { given self.new ≡ given self.old }
        ensures calls { IsToldWith (calls self.old) (answered (NetCall.Send bytes.now to) result) (calls self.new) };

    /// Waits for a datagram, puts it into the front of `buf`, and answers its length and where it came from. What doesn't fit is
    /// lost. None where none came in time.
    fn recv_from(&mut self, buf: &mut [u8]) -> Result<Option<(usize, SocketAddr)>, IoKind>
        ensures bound { IfOk result (λ came. IfSome came (λ d. d.0 ≤ length buf.new)) }
        ensures counts { counts self.new ≡ after_receive result (counts self.old) }
        ensures given { given self.new ≡ and_then (given self.old) (received_by result buf.new) }
        ensures calls { IsToldWith (calls self.old) (only_fault result) (calls self.new) };
}
