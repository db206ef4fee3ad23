//! Faults of a connection: each kind at each call ends all requests.
ghost use Rattle.std.specs.Prelude.{◌≡◌, ◌<◌};

use crate::beside::Beside;
use crate::heard::{Heard, heard_as};
use crate::holders::{asked, exchange_of, holder_over};
use crate::hooked_link::HookedLink;
use crate::hooks::FailsAt;
use crate::parts::{check, draws_of, link_of};
use dns_handle::IoKind;
use std::alloc::Global;
use std::marker::Brand;
use std::process::Abort;
use std::sync::Wait;
use std::sync::ledger::{Blank, Ledger};

/// All kinds of faults.
const KINDS: &[IoKind] = &[
    IoKind::PermissionDenied,
    IoKind::ConnectionRefused,
    IoKind::ConnectionReset,
    IoKind::ConnectionAborted,
    IoKind::NotConnected,
    IoKind::AddrInUse,
    IoKind::AddrNotAvailable,
    IoKind::BrokenPipe,
    IoKind::InvalidData,
    IoKind::TimedOut,
    IoKind::UnexpectedEof,
    IoKind::RequestTooLong,
    IoKind::Other,
];

fn kinds() -> &'static [IoKind] {
    KINDS
}

// Whether a fault of a kind at a call is the answer of who meets it and of who waits beside, and then there are no connections. The
// requests have the ids 6 and 7; two strangers come before the answer, so there are two writes and six reads.
fn ends_all<W: Abort + Wait + Copy, G: Ledger>(
    rt: W,
    alloc: Global,
    at: u64,
    kind: IoKind,
    blank: Blank,
) -> bool
    requires name { blank.name ≡ G.name }
    requires parts { blank.parts ≡ G.parts }
    requires some { 0 < G.parts }
{
    let (exchange, token) = exchange_of(&rt, alloc, draws_of(&rt, alloc, &[6, 7]));
    let (token, mut beside) = Beside::new(rt, alloc, &exchange, token);
    let link = link_of(&rt, alloc, &[(1, 2), (7, 1)]);
    let link = HookedLink::new(link, FailsAt::new(at, kind));
    let sent = beside.send();
    let mut holder = holder_over::<W, G, _, _>(rt, alloc, exchange, token, link, blank);
    let first = asked(alloc, &mut holder);
    let second = asked(alloc, &mut holder);
    let waited = beside.take(0);
    sent == Some(0)
        && first == heard_as(kind)
        && second == Heard::NoConnections
        && waited == Some(heard_as(kind))
}

fn ends_all_at<W: Abort + Wait + Copy>(rt: W, alloc: Global, at: u64, kind: IoKind) -> bool {
    ends_all::<W, Brand>(rt, alloc, at, kind, Blank::new(1))
}

// Whether that is so at each of the eight calls.
fn ends_at_each<W: Abort + Wait + Copy>(rt: W, alloc: Global, kind: IoKind) -> bool {
    for at in 0..8u64 {
        if !ends_all_at(rt, alloc, at, kind) {
            return false;
        }
    }
    true
}

#[test]
fn a_fault_of_each_kind_at_each_call_ends_all_requests(rt: HostRuntime) {
    for kind in kinds() {
        check(
            &rt,
            "a fault ends all requests",
            ends_at_each(rt, rt.alloc(), *kind),
        );
    }
}
