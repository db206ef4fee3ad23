//! What callers beside a holder do and get.
ghost use Rattle.std.specs.Prelude.{◌≡◌, ◌<◌};

use crate::beside::Beside;
use crate::heard::Heard;
use crate::holders::{asked, exchange_of, holder_over};
use crate::hooked_link::HookedLink;
use crate::hooks::Cancels;
use crate::parts::{check, draws_of, link_of};
use dns_handle::IoKind;
use std::alloc::Global;
use std::marker::Brand;
use std::process::Abort;
use std::sync::Wait;
use std::sync::ledger::{Blank, Ledger};

// Whether a request that another caller ends times out.
fn times_out<W: Abort + Wait + Copy, G: Ledger>(rt: W, alloc: Global, blank: Blank) -> bool
    requires name { blank.name ≡ G.name }
    requires parts { blank.parts ≡ G.parts }
    requires some { 0 < G.parts }
{
    let (exchange, token) = exchange_of(&rt, alloc, draws_of(&rt, alloc, &[7]));
    let (token, beside) = Beside::new(rt, alloc, &exchange, token);
    let link = HookedLink::new(link_of(&rt, alloc, &[(7, 1)]), Cancels::new(beside, 0));
    let mut holder = holder_over::<W, G, _, _>(rt, alloc, exchange, token, link, blank);
    asked(alloc, &mut holder) == Heard::Timeout
}

fn cancel_times_out<W: Abort + Wait + Copy>(rt: W, alloc: Global) -> bool {
    times_out::<W, Brand>(rt, alloc, Blank::new(1))
}

#[test]
fn a_request_that_another_caller_ends_times_out(rt: HostRuntime) {
    check(&rt, "it times out", cancel_times_out(rt, rt.alloc()));
}

// What comes, what a holder is answered whose request has the id 7, and what then waits for the one beside with the id 6.
struct Case {
    message: &'static str,
    come: &'static [(u16, u32)],
    first: Heard,
    beside: Option<Heard>,
}

const END: Heard = Heard::Fault(IoKind::UnexpectedEof);

const CASES: &[Case] = &[
    Case {
        message: "who reads hands on what is another's",
        come: &[(6, 1), (7, 1)],
        first: Heard::Id(7),
        beside: Some(Heard::Id(6)),
    },
    Case {
        message: "what comes behind one's own is not read yet",
        come: &[(7, 1), (6, 1)],
        first: Heard::Id(7),
        beside: None,
    },
    Case {
        message: "an end is told to all",
        come: &[],
        first: END,
        beside: Some(END),
    },
    Case {
        message: "an end does not take what waits",
        come: &[(6, 1)],
        first: END,
        beside: Some(Heard::Id(6)),
    },
];

fn cases() -> &'static [Case] {
    CASES
}

fn is_handed_on<W: Abort + Wait + Copy, G: Ledger>(
    rt: W,
    alloc: Global,
    case: &Case,
    blank: Blank,
) -> bool
    requires name { blank.name ≡ G.name }
    requires parts { blank.parts ≡ G.parts }
    requires some { 0 < G.parts }
{
    let (exchange, token) = exchange_of(&rt, alloc, draws_of(&rt, alloc, &[6, 7]));
    let (token, mut beside) = Beside::new(rt, alloc, &exchange, token);
    let link = link_of(&rt, alloc, case.come);
    let sent = beside.send();
    let mut holder = holder_over::<W, G, _, _>(rt, alloc, exchange, token, link, blank);
    let first = asked(alloc, &mut holder);
    sent == Some(0) && first == case.first && beside.take(0) == case.beside
}

fn holds<W: Abort + Wait + Copy>(rt: W, alloc: Global, case: &Case) -> bool {
    is_handed_on::<W, Brand>(rt, alloc, case, Blank::new(1))
}

#[test]
fn what_comes_is_handed_on(rt: HostRuntime) {
    for case in cases() {
        check(&rt, case.message, holds(rt, rt.alloc(), case));
    }
}
