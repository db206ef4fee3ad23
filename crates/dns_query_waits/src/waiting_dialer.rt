//! A dialer whose links and sockets say whom they wait for.
ghost use Rattle.std.specs.Prelude.{◌≡◌, IfOk};
ghost use Rattle.dns_link.specs.Counts.{no_counts};
ghost use Rattle.dns_query_waits.specs.WaitCounts.{datagrams_counts, link_counts};

use crate::end::End;
use crate::notice::{SPOKEN_OF_MS, Voice};
use crate::waiting_datagrams::WaitingDatagrams;
use crate::waiting_link::{Turns, WaitingLink};
use dns_handle::IoKind;
use dns_link::{Counts, Dialer};
use std::alloc::Global;
use std::io::Print;
use std::net::SocketAddr;
use std::time;

/// A dialer over another. Connecting is tried for a second, and then for what is left of its time; each read of a link waits for a second at a
/// time. Where the dialer speaks it is said after the first second who is awaited. Once its own time is over no link is made, and nothing is
/// awaited any more.
#[derive(Drop)]
pub struct WaitingDialer<D: Drop, C: Drop, P: Drop> {
    dial: D,
    voice: Voice<C, P>,
    end: End<C>,
    counts: Counts,
}

impl<D: Dialer + Drop, C: time::Clock + Copy + Drop, P: Print + Copy + Drop> WaitingDialer<
    D,
    C,
    P,
> {
    ghost use Rattle.dns_query_waits.specs.WaitCounts.{dialer_counts};

    /// A dialer over another, which speaks to a printer or is silent. Time is told by a clock, and is over after so many milliseconds.
    pub fn new(
        alloc: Global,
        dial: D,
        limit_ms: u64,
        speaks: bool,
        clock: C,
        printer: P,
    ) -> WaitingDialer<D, C, P>
        ensures { dialer_counts result ≡ no_counts }
    {
        WaitingDialer {
            dial,
            voice: Voice {
                speaks,
                alloc,
                clock,
                printer,
            },
            end: End::after(clock, limit_ms),
            counts: Counts::new(),
        }
    }
}

// Says who doesn't take a connection, where it speaks.
fn say_unconnected<C, P: Print>(voice: &Voice<C, P>, peer: SocketAddr) {
    if voice.speaks {
        let _ = voice.printer.println(format_args!(
            "dns_query: waiting for a connection to {peer}"
        ));
    }
}

// Connects for a second, and then for the rest of so many milliseconds. It answers how long each read of the link waits.
fn connect_in_turns<D: Dialer, C, P: Print>(
    dial: &mut D,
    voice: &Voice<C, P>,
    peer: SocketAddr,
    bind: Option<SocketAddr>,
    wait_ms: u64,
) -> Result<(D::Link, u64), IoKind> {
    let first_ms = wait_ms.min(SPOKEN_OF_MS);
    match dial.connect(peer, bind, first_ms) {
        Ok(link) => Ok((link, first_ms)),
        Err(IoKind::TimedOut) if first_ms < wait_ms => {
            say_unconnected(voice, peer);
            let rest_ms = wait_ms - first_ms;
            let link = dial.connect(peer, bind, rest_ms)?;
            Ok((link, rest_ms))
        }
        Err(kind) => Err(kind),
    }
}

// Makes a link, while there is time left.
fn open_link<D: Dialer + Drop, C: time::Clock + Copy + Drop, P: Print + Copy + Drop>(
    dial: &mut D,
    voice: Voice<C, P>,
    end: &mut End<C>,
    peer: SocketAddr,
    bind: Option<SocketAddr>,
    timeout_ms: u64,
) -> Result<WaitingLink<D::Link, C, P>, IoKind>
    ensures { IfOk result (λ link. link_counts link ≡ no_counts) }
{
    let wait_ms = timeout_ms.min(end.left_ms());
    if wait_ms == 0 {
        return Err(IoKind::TimedOut);
    }
    let (link, each_ms) = connect_in_turns(dial, &voice, peer, bind, wait_ms)?;
    let count = (timeout_ms / each_ms.max(1)).max(1);
    let turns = Turns { count, each_ms };
    Ok(WaitingLink::new(link, peer, turns, voice, end.left_ms()))
}

// Makes a socket.
fn open_datagrams<D: Dialer + Drop, C: time::Clock + Copy + Drop, P: Print + Copy + Drop>(
    dial: &mut D,
    voice: Voice<C, P>,
    end: &mut End<C>,
    local: SocketAddr,
) -> Result<WaitingDatagrams<D::Datagrams, C, P>, IoKind>
    ensures { IfOk result (λ socket. datagrams_counts socket ≡ no_counts) }
{
    let socket = dial.bind(local)?;
    Ok(WaitingDatagrams::new(socket, voice, end.left_ms()))
}

impl<D: Dialer + Drop, C: time::Clock + Copy + Drop, P: Print + Copy + Drop> Dialer
    for WaitingDialer<D, C, P> {
    ghost use Rattle.std.specs.Prelude.{None};
    ghost use Rattle.dns_query_waits.specs.WaitCounts.{dialer_counts};

    type Link = WaitingLink<D::Link, C, P>;

    type Datagrams = WaitingDatagrams<D::Datagrams, C, P>;

    ghost counts = { dialer_counts };

    ghost given_bytes = { λ _. None };

    ghost given_datagrams = { λ _. None };

    fn connect(
        &mut self,
        peer: SocketAddr,
        bind: Option<SocketAddr>,
        timeout_ms: u64,
    ) -> Result<WaitingLink<D::Link, C, P>, IoKind> {
        let result = open_link(
            &mut self.dial,
            self.voice,
            &mut self.end,
            peer,
            bind,
            timeout_ms,
        );
        self.counts.count_dial(&result);
        result
    }

    fn bind(&mut self, local: SocketAddr) -> Result<WaitingDatagrams<D::Datagrams, C, P>, IoKind> {
        let result = open_datagrams(&mut self.dial, self.voice, &mut self.end, local);
        self.counts.count_dial(&result);
        result
    }

    fn retire(&mut self, link: WaitingLink<D::Link, C, P>) {
        self.counts.add(link.counts());
        self.dial.retire(link.into_link());
    }

    fn retire_datagrams(&mut self, socket: WaitingDatagrams<D::Datagrams, C, P>) {
        self.counts.add(socket.counts());
        self.dial.retire_datagrams(socket.into_socket());
    }
}
