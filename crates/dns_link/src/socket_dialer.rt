//! A dialer over std's sockets: the edge to the system.
ghost use Rattle.std.specs.Prelude.{◌≡◌, None, IfOk};
ghost use Rattle.dns_link.specs.Counts.{no_counts};
ghost use Rattle.dns_link.specs.SocketCounts.{datagrams_counts, timed_counts};

use crate::counts::Counts;
use crate::deadline::Deadline;
use crate::dialer::Dialer;
use crate::io_kinds::kind_of;
use crate::socket_datagrams::SocketDatagrams;
use crate::socket_link::TimedLink;
use dns_handle::IoKind;
use std::io;
use std::net::{Net, OpenStream, SocketAddr, TcpStream, UdpSocket};
use std::time::{Clock, Duration};

///! A dialer over std's sockets.
///
/// std can't give a stream a local address before it connects: with one, `connect` answers `Other`.
#[derive(Drop)]
pub struct SocketDialer<R: Drop> {
    net: R,
    /// Milliseconds.
    deadline: Option<u64>,
    counts: Counts,
}

impl<R: Net + Drop> SocketDialer<R> {
    ghost use Rattle.dns_link.specs.SocketCounts.{dialer_counts};

    /// A dialer over the network of a runtime.
    ///
    /// Whether anybody listens at an address is told within two seconds:
    ///
    /// ```
    /// fn is_listening<R: Net + Clock + Copy + Drop>(net: R, server: SocketAddr) -> bool {
    ///     let mut dial = SocketDialer::new(net);
    ///     dial.connect(server, None, 2000).is_ok()
    /// }
    /// ```
    pub fn new(net: R) -> SocketDialer<R>
        ensures { dialer_counts result ≡ no_counts }
    {
        SocketDialer {
            net,
            deadline: None,
            counts: Counts::new(),
        }
    }

    /// The same dialer, for links that are to answer soon: a read that begins later than so many milliseconds after the last write, or
    /// after connecting where nothing was written yet, fails with `TimedOut`. Without it a server that sends a byte before each read's
    /// timeout is over can hold its caller for as long as it likes. Leave it out where much is read after one write, as in a transfer
    /// (RFC 5936), and where nobody writes for long, as on a connection that others share.
    pub fn with_deadline(mut self, deadline_ms: u64) -> SocketDialer<R>
        ensures { dialer_counts result ≡ dialer_counts self }
    {
        self.deadline = Some(deadline_ms);
        self
    }
}

/// A stream to a peer. Connecting, reads and writes wait for so many milliseconds at most; 0 counts as 1. What is written is sent at once
/// (TCP_NODELAY): requests are small, and one must not wait until an earlier one is acknowledged.
fn open_stream<R: Net>(net: &R, peer: &SocketAddr, timeout_ms: u64) -> io::Result<R::Stream> {
    let timeout = Duration::from_millis(timeout_ms.max(1));
    let stream = TcpStream::connect_timeout(net, peer, timeout)?;
    stream.set_nodelay(true)?;
    stream.set_read_timeout(Some(timeout))?;
    stream.set_write_timeout(Some(timeout))?;
    Ok(stream)
}

/// A link to a peer, with a deadline if there is one.
fn open_link<R: Net + Clock + Copy + Drop>(
    net: R,
    deadline: Option<u64>,
    peer: &SocketAddr,
    bind: Option<SocketAddr>,
    timeout_ms: u64,
) -> Result<TimedLink<R::Stream, R>, IoKind>
    ensures { IfOk result (λ link. timed_counts link ≡ no_counts) }
{
    if bind.is_some() {
        return Err(IoKind::Other);
    }
    match open_stream(&net, peer, timeout_ms) {
        Ok(stream) => {
            let deadline = deadline.map(|limit_ms| Deadline::new(net, limit_ms));
            Ok(TimedLink::new(stream, deadline))
        }
        Err(error) => Err(kind_of(&error)),
    }
}

/// A socket at a local address.
fn open_datagrams<R: Net + Clock + Drop>(
    net: R,
    local: SocketAddr,
) -> Result<SocketDatagrams<R>, IoKind>
    ensures { IfOk result (λ socket. datagrams_counts socket ≡ no_counts) }
{
    match UdpSocket::bind(&net, local) {
        Ok(socket) => Ok(SocketDatagrams::new(socket, net)),
        Err(error) => Err(kind_of(&error)),
    }
}

impl<R: Net + Clock + Copy + Drop> Dialer for SocketDialer<R> {
    ghost use Rattle.dns_link.specs.SocketCounts.{dialer_counts};

    type Link = TimedLink<R::Stream, R>;

    type Datagrams = SocketDatagrams<R>;

    ghost counts = { dialer_counts };

    ghost given_bytes = { λ _. None };

    ghost given_datagrams = { λ _. None };

    fn connect(
        &mut self,
        peer: SocketAddr,
        bind: Option<SocketAddr>,
        timeout_ms: u64,
    ) -> Result<TimedLink<R::Stream, R>, IoKind> {
        let result = open_link(self.net, self.deadline, &peer, bind, timeout_ms);
        self.counts.count_dial(&result);
        result
    }

    fn bind(&mut self, local: SocketAddr) -> Result<SocketDatagrams<R>, IoKind> {
        let result = open_datagrams(self.net, local);
        self.counts.count_dial(&result);
        result
    }

    fn retire(&mut self, link: TimedLink<R::Stream, R>) {
        self.counts.add(link.counts());
    }

    fn retire_datagrams(&mut self, socket: SocketDatagrams<R>) {
        self.counts.add(socket.counts());
    }
}
