//! A socket that says whom it waits for.
ghost use Rattle.std.specs.Prelude.{◌≡◌};
ghost use Rattle.dns_link.specs.Counts.{no_counts};

use crate::end::End;
use crate::notice::{Notice, Voice};
use dns_handle::IoKind;
use dns_link::{Counts, Datagrams};
use std::io::Print;
use std::net::SocketAddr;
use std::time;

/// A socket over another, which waits for a part of a second at a time. Once the time is over no datagram comes. It tells nothing of the datagrams.
#[derive(Drop)]
pub struct WaitingDatagrams<G: Drop, C: Drop, P: Drop> {
    socket: G,
    notice: Notice<C, P>,
    end: End<C>,
    counts: Counts,
}

impl<G: Datagrams + Drop, C: time::Clock + Copy + Drop, P: Print + Copy + Drop> WaitingDatagrams<
    G,
    C,
    P,
> {
    ghost use Rattle.dns_query_waits.specs.WaitCounts.{datagrams_counts};

    /// A socket over one that is bound, for so many milliseconds.
    pub(crate) fn new(socket: G, voice: Voice<C, P>, left_ms: u64) -> WaitingDatagrams<G, C, P>
        ensures { datagrams_counts result ≡ no_counts }
    {
        WaitingDatagrams {
            socket,
            notice: Notice::new(voice),
            end: End::after(voice.clock, left_ms),
            counts: Counts::new(),
        }
    }

    /// What it met.
    pub(crate) fn counts(&self) -> &Counts
        ensures { result.now ≡ datagrams_counts self.now }
    {
        &self.counts
    }

    /// The socket below.
    pub(crate) fn into_socket(self) -> G {
        self.socket
    }
}

impl<G: Datagrams + Drop, C: time::Clock + Copy + Drop, P: Print + Copy + Drop> Datagrams
    for WaitingDatagrams<G, C, P> {
    ghost use Rattle.std.specs.Prelude.{None};
    ghost use Rattle.dns_query_waits.specs.WaitCounts.{datagrams_counts};

    ghost counts = { datagrams_counts };

    ghost given = { λ _. None };

    fn send_to(&mut self, bytes: &[u8], to: SocketAddr) -> Result<usize, IoKind> {
        let result = self.socket.send_to(bytes, to);
        self.notice.clear();
        self.notice.send(to, bytes);
        self.counts.count_send(bytes.len(), &result);
        result
    }

    fn recv_from(&mut self, buf: &mut [u8]) -> Result<Option<(usize, SocketAddr)>, IoKind> {
        let result = if self.end.left_ms() > 0 {
            self.socket.recv_from(buf)
        } else {
            Ok(None)
        };
        if matches!(result, Ok(None)) {
            self.notice.look(0);
        }
        self.counts.count_receive(&result);
        result
    }
}
