//! A datagram socket over std's: the edge to the system.
ghost use Rattle.std.specs.Prelude.{◌≡◌, ◌≤◌, None, IfOk, IfSome, length};
ghost use Rattle.std.specs.Io.{WritesAtMost};
ghost use Rattle.dns_link.specs.Counts.{no_counts};

use crate::counts::Counts;
use crate::datagrams::Datagrams;
use crate::io_kinds::kind_of;
use dns_handle::IoKind;
use std::io::{self, ErrorKind};
use std::net::{SocketAddr, UdpSocket};
use std::time::{Clock, Duration, Instant};

/// For so long a socket waits for a datagram, in milliseconds.
const WAIT_MS: u64 = 100;

/// A socket over std's `UdpSocket`. It tells nothing of the datagrams.
#[derive(Drop)]
pub struct SocketDatagrams<C: Drop> {
    socket: UdpSocket,
    clock: C,
    counts: Counts,
}

impl<C: Clock + Drop> SocketDatagrams<C> {
    ghost use Rattle.dns_link.specs.SocketCounts.{datagrams_counts};

    /// A socket over one that is bound. It waits for a datagram a tenth of a second at a time, by a clock.
    pub fn new(socket: UdpSocket, clock: C) -> SocketDatagrams<C>
        ensures { datagrams_counts result ≡ no_counts }
    {
        SocketDatagrams {
            socket,
            clock,
            counts: Counts::new(),
        }
    }

    /// What it met.
    pub(crate) fn counts(&self) -> &Counts
        ensures { result.now ≡ datagrams_counts self.now }
    {
        &self.counts
    }
}

/// Sends once; a call that a signal interrupted is tried again.
fn send_by(socket: &UdpSocket, bytes: &[u8], to: SocketAddr) -> Result<usize, IoKind>
    ensures { WritesAtMost result bytes.now }
{
    for _ in 0..u64::MAX {
        match socket.send_to(bytes, to) {
            Ok(count) => return Ok(count),
            Err(error) if error.kind() == ErrorKind::Interrupted => (),
            Err(error) => return Err(kind_of(&error)),
        }
    }
    Err(IoKind::Other)
}

/// What is left of a wait; None where it is over.
fn time_left<C: Clock>(began: Instant, clock: &C) -> io::Result<Option<Duration>> {
    let elapsed = began.elapsed(clock)?;
    let left = Duration::from_millis(WAIT_MS).saturating_sub(elapsed);
    Ok(if left.is_zero() { None } else { Some(left) })
}

/// Waits once, for at most a tenth of a second in all: a call that a signal interrupted is tried again for what is left of that.
fn receive_by<C: Clock>(
    socket: &UdpSocket,
    clock: &C,
    buf: &mut [u8],
) -> io::Result<Option<(usize, SocketAddr)>>
    ensures { IfOk result (λ came. IfSome came (λ d. d.0 ≤ length buf.new)) }
{
    let began = Instant::now(clock)?;
    for _ in 0..u64::MAX {
        let Some(left) = time_left(began, clock)? else {
            return Ok(None);
        };
        socket.set_read_timeout(Some(left))?;
        match socket.recv_from(buf) {
            Ok(came) => return Ok(Some(came)),
            Err(error) => match error.kind() {
                ErrorKind::Interrupted => (),
                ErrorKind::WouldBlock | ErrorKind::TimedOut => return Ok(None),
                _ => return Err(error),
            },
        }
    }
    Ok(None)
}

/// The same, with the kind of a fault.
fn receive<C: Clock>(
    socket: &UdpSocket,
    clock: &C,
    buf: &mut [u8],
) -> Result<Option<(usize, SocketAddr)>, IoKind>
    ensures { IfOk result (λ came. IfSome came (λ d. d.0 ≤ length buf.new)) }
{
    match receive_by(socket, clock, buf) {
        Ok(came) => Ok(came),
        Err(error) => Err(kind_of(&error)),
    }
}

impl<C: Clock + Drop> Datagrams for SocketDatagrams<C> {
    ghost use Rattle.dns_link.specs.SocketCounts.{datagrams_counts};

    ghost counts = { datagrams_counts };

    ghost given = { λ _. None };

    fn send_to(&mut self, bytes: &[u8], to: SocketAddr) -> Result<usize, IoKind> {
        let result = send_by(&self.socket, bytes, to);
        self.counts.count_send(bytes.len(), &result);
        result
    }

    fn recv_from(&mut self, buf: &mut [u8]) -> Result<Option<(usize, SocketAddr)>, IoKind> {
        let result = receive(&self.socket, &self.clock, buf);
        self.counts.count_receive(&result);
        result
    }
}
