//! What one holder is answered, by what comes.
ghost use Rattle.std.specs.Prelude.{◌≡◌, ◌<◌};

use crate::heard::Heard;
use crate::holders::{asked, exchange_of, holder_over};
use crate::parts::{check, draws_of, link_of};
use dns_handle::IoKind;
use std::alloc::Global;
use std::marker::Brand;
use std::process::Abort;
use std::sync::Wait;
use std::sync::ledger::{Blank, Ledger};

/// Which responses come, each id so often, and what two sends of requests with the ids 7 and 8 are answered.
struct Case {
    message: &'static str,
    come: &'static [(u16, u32)],
    first: Heard,
    second: Heard,
}

const END: Heard = Heard::Fault(IoKind::UnexpectedEof);

const CASES: &[Case] = &[
    Case {
        message: "an answer behind three strangers is found",
        come: &[(1, 1), (2, 1), (3, 1), (7, 1), (4, 1), (8, 1)],
        first: Heard::Id(7),
        second: Heard::Id(8),
    },
    Case {
        message: "the last message that is waited for may answer",
        come: &[(1, 1023), (7, 1)],
        first: Heard::Id(7),
        second: END,
    },
    Case {
        message: "after 1,024 strangers a send times out, and the next one reads on",
        come: &[(1, 1024), (7, 1), (8, 1)],
        first: Heard::Timeout,
        second: Heard::Id(8),
    },
    Case {
        message: "after 1,023 strangers the end of the link is met",
        come: &[(1, 1023)],
        first: END,
        second: Heard::NoConnections,
    },
    Case {
        message: "after an end there are no connections",
        come: &[],
        first: END,
        second: Heard::NoConnections,
    },
];

fn cases() -> &'static [Case] {
    CASES
}

fn is_answered<W: Abort + Wait + Copy, G: Ledger>(
    rt: W,
    alloc: Global,
    case: &Case,
    blank: Blank,
) -> bool
    requires name { blank.name ≡ G.name }
    requires parts { blank.parts ≡ G.parts }
    requires some { 0 < G.parts }
{
    let (exchange, token) = exchange_of(&rt, alloc, draws_of(&rt, alloc, &[7, 8]));
    let link = link_of(&rt, alloc, case.come);
    let mut holder = holder_over::<W, G, _, _>(rt, alloc, exchange, token, link, blank);
    let first = asked(alloc, &mut holder);
    let second = asked(alloc, &mut holder);
    first == case.first && second == case.second
}

fn holds<W: Abort + Wait + Copy>(rt: W, alloc: Global, case: &Case) -> bool {
    is_answered::<W, Brand>(rt, alloc, case, Blank::new(1))
}

#[test]
fn sends_are_answered_as_the_cases_say(rt: HostRuntime) {
    for case in cases() {
        check(&rt, case.message, holds(rt, rt.alloc(), case));
    }
}
