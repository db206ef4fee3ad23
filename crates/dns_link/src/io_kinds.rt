//! Kinds of std's errors.
ghost use Rattle.std.specs.Prelude.{◌≡◌};
ghost use Rattle.std.specs.IoError.{error_kind};
ghost use Rattle.dns_link.specs.Sockets.{io_kind_of};

use dns_handle::IoKind;
use std::io;
use std::io::ErrorKind;

/// The kind of an error of std. What would have had to be waited for longer timed out, as a timeout of a socket is told.
pub fn kind_of(error: &io::Error) -> IoKind
    ensures { result ≡ io_kind_of (error_kind error.now) }
{
    match error.kind() {
        ErrorKind::PermissionDenied => IoKind::PermissionDenied,
        ErrorKind::ConnectionRefused => IoKind::ConnectionRefused,
        ErrorKind::ConnectionReset => IoKind::ConnectionReset,
        ErrorKind::ConnectionAborted => IoKind::ConnectionAborted,
        ErrorKind::NotConnected => IoKind::NotConnected,
        ErrorKind::AddrInUse => IoKind::AddrInUse,
        ErrorKind::AddrNotAvailable => IoKind::AddrNotAvailable,
        ErrorKind::BrokenPipe => IoKind::BrokenPipe,
        ErrorKind::InvalidData => IoKind::InvalidData,
        ErrorKind::WouldBlock | ErrorKind::TimedOut => IoKind::TimedOut,
        ErrorKind::UnexpectedEof => IoKind::UnexpectedEof,
        _ => IoKind::Other,
    }
}
