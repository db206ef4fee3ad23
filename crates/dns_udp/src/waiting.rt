//! Waiting for the answer of a request, on sockets that are opened one after another.
ghost use Rattle.std.specs.Prelude.{◌≡◌, ◌<◌, ◌≤◌, ◌+◌, ◌-◌, ◌^◌, [], Some, IfOk, IfSome, IfNone, OnOk, length};
ghost use Rattle.dns_handle.specs.Replies.{reply_of};
ghost use Rattle.dns_udp.specs.Asks.{AsksMore, AsksOn, answer, ask_state, failure};
ghost use Rattle.dns_udp.specs.Bindings.{DrawsPorts};
ghost use Rattle.dns_udp.specs.Met.{dialer_view};
ghost use Rattle.dns_udp.specs.Requests.{buffer_size};
ghost use Rattle.dns_udp.specs.Sendings.{asked_by, plan_of};
ghost use Rattle.dns_udp.specs.Waiting.{IsStopped, OpensMore, TakesTurn, goes_on};

use crate::open_sockets::{open_socket, receive_in_turn};
use crate::receiving::judge_front;
use crate::{Binding, Retries};
use dns_handle::{DnsRequest, DnsResponse, NetError};
use dns_link::Dialer;
use dns_multiplexer::Draws;
use std::alloc::Global;
use std::net::SocketAddr;

/// A wait in which no datagram comes counts as so many milliseconds.
const TICK_MS: u64 = 100;

/// So many datagrams that are no answer end a call.
const MOST_IGNORED: u32 = 65536;

/// A request on its way, by what doesn't change while an answer is awaited.
#[derive(Drop)]
pub(crate) struct Sending<'a> {
    pub(crate) request: &'a DnsRequest,
    pub(crate) bytes: &'a [u8],
    pub(crate) server: SocketAddr,
    pub(crate) binding: &'a Binding,
    pub(crate) retries: Retries,
    /// Milliseconds.
    pub(crate) timeout: u64,
}

/// How far a call has come.
#[derive(Clone, Copy)]
pub(crate) struct Progress {
    /// Milliseconds, by the waits in which no datagram came.
    pub(crate) elapsed: u64,
    /// So many datagrams were no answer.
    pub(crate) ignored: u32,
    /// The number of the socket whose turn it is.
    pub(crate) turn: usize,
}

/// Whether an answer is still waited for: there is time left, and not too many datagrams were no answer.
fn goes_on(sending: &Sending, progress: &Progress) -> bool
    ensures going { result ≡ goes_on sending.now.timeout progress.now.elapsed progress.now.ignored }
    ensures range { sending.now.timeout < 2 ^ 64 }
{
    progress.elapsed < sending.timeout && progress.ignored < MOST_IGNORED
}

/// Opens sockets until so many are open as the request is to be sent.
fn open_more<D: Dialer, R: Draws>(
    sending: &Sending,
    dial: &mut D,
    draws: &mut R,
    elapsed: u64,
    sockets: &mut Vec<D::Datagrams>,
) -> Result<(), NetError>
    ensures opens { OpensMore D.Datagrams.counts D.Datagrams.given (dialer_view D.counts D.given_datagrams dial.old)
        (dialer_view D.counts D.given_datagrams dial.new) sockets.old.items sockets.new.items result }
    ensures asked { AsksMore (plan_of D.Datagrams.calls R.draws_port sending.now)
        (ask_state D.calls dial.old draws.old sockets.old.items) (ask_state D.calls dial.new draws.new sockets.new.items)
        (failure result) }
    ensures more { OnOk result (length sockets.old.items ≤ length sockets.new.items) }
    ensures some { OnOk result (0 < length sockets.new.items) }
    ensures ports { DrawsPorts R.draws_port draws.old draws.new }
{
    let tries = sending.retries.tries(elapsed);
    while (sockets.len() as u64) < tries {
        open_socket(
            sending.binding,
            dial,
            draws,
            sending.server,
            sending.bytes,
            sockets,
        )?;
    }
    Ok(())
}

/// Waits once, and judges what comes: the reply where the call is over by it.
fn take_turn<D: Dialer, R: Draws>(
    alloc: Global,
    sending: &Sending,
    dial: &mut D,
    draws: &mut R,
    buf: &mut [u8],
    sockets: &mut Vec<D::Datagrams>,
    progress: &mut Progress,
) -> Option<Result<DnsResponse, NetError>>
    requires time { progress.old.elapsed < sending.now.timeout }
    requires few { progress.old.ignored < 65536 }
    requires turn { progress.old.turn < length sockets.old.items }
    requires room { length buf.old ≤ buffer_size sending.now.request.now }
    requires range { sending.now.timeout < 2 ^ 64 }
    ensures ends { TakesTurn D.Datagrams.counts D.Datagrams.given R.draws_port (asked_by sending.now)
        (dialer_view D.counts D.given_datagrams dial.old) (dialer_view D.counts D.given_datagrams dial.new) draws.old draws.new
        sockets.old.items sockets.new.items progress.old progress.new result }
    ensures asked { AsksMore (plan_of D.Datagrams.calls R.draws_port sending.now)
        (ask_state D.calls dial.old draws.old sockets.old.items) (ask_state D.calls dial.new draws.new sockets.new.items)
        (answer result) }
    ensures turn { IfNone result (progress.new.turn < length sockets.new.items) }
    ensures less { IfNone result ((sending.now.timeout - progress.new.elapsed) + (65536 - progress.new.ignored)
        < (sending.now.timeout - progress.old.elapsed) + (65536 - progress.old.ignored)) }
    ensures most { IfNone result (progress.new.ignored ≤ 65536) }
{
    match open_more(sending, dial, draws, progress.elapsed, sockets) {
        Ok(()) => (),
        Err(error) => return Some(Err(error)),
    }
    match receive_in_turn(sockets, &mut progress.turn, buf) {
        Err(kind) => Some(Err(NetError::from(kind))),
        Ok(None) => {
            progress.elapsed = progress.elapsed.saturating_add(TICK_MS);
            None
        }
        Ok(Some(came)) => {
            progress.ignored += 1;
            judge_front(alloc, sending.request, sending.server, came, buf)
        }
    }
}

/// Waits for the answer until the time is over, on sockets that are open when it returns.
pub(crate) fn wait<D: Dialer, R: Draws>(
    alloc: Global,
    sending: &Sending,
    dial: &mut D,
    draws: &mut R,
    buf: &mut [u8],
    sockets: &mut Vec<D::Datagrams>,
) -> Result<DnsResponse, NetError>
    requires none { sockets.old.items ≡ [] }
    requires room { length buf.old ≤ buffer_size sending.now.request.now }
    ensures stopped { IsStopped D.Datagrams.counts D.Datagrams.given R.draws_port (asked_by sending.now)
        (dialer_view D.counts D.given_datagrams dial.old) (dialer_view D.counts D.given_datagrams dial.new) draws.old draws.new
        sockets.new.items (reply_of result) }
    ensures asked { AsksOn (plan_of D.Datagrams.calls R.draws_port sending.now) (D.calls dial.old) draws.old
        (ask_state D.calls dial.new draws.new sockets.new.items) (Some (reply_of result)) }
{
    open_more(sending, dial, draws, 0, sockets)?;
    let mut progress = Progress {
        elapsed: 0,
        ignored: 0,
        turn: 0,
    };
    'turns: while goes_on(sending, &progress) {
        match take_turn(alloc, sending, dial, draws, buf, sockets, &mut progress) {
            None => (),
            Some(reply) => return reply,
        }
    }
    Err(NetError::Timeout)
}
