use crate::exchange_parts::{asked, push_responses};
use crate::heard::Heard;
use crate::parts::{check, draws_of};
use crate::stream_parts::{pieces_of, stream_over};
use dns_handle::IoKind;
use dns_link::PairLink;
use dns_multiplexer::ListDraws;
use dns_tcp::TcpExchange;
use std::alloc::Global;
use std::process::Abort;

/// Which responses come, each id so often, which calls of the link fail, how many requests may be live, and what two sends of
/// requests with the id 7 are answered.
struct Case {
    message: &'static str,
    come: &'static [(u16, u32)],
    fails: &'static [u64],
    max: Option<usize>,
    first: Heard,
    second: Heard,
}

const CASES: &[Case] = &[
    Case {
        message: "an answer behind three strangers is found, and what comes behind it is passed over by the next send",
        come: &[(1, 1), (2, 1), (3, 1), (7, 1), (4, 1), (7, 1)],
        fails: &[],
        max: None,
        first: Heard::Id(7),
        second: Heard::Id(7),
    },
    Case {
        message: "an answer that comes again answers no later request",
        come: &[(7, 1)],
        fails: &[],
        max: None,
        first: Heard::Id(7),
        second: Heard::Fault(IoKind::UnexpectedEof),
    },
    Case {
        message: "the last message that is waited for may answer",
        come: &[(1, 1023), (7, 1)],
        fails: &[],
        max: None,
        first: Heard::Id(7),
        second: Heard::Fault(IoKind::UnexpectedEof),
    },
    Case {
        message: "after 1,024 strangers a send times out, and the next one reads on",
        come: &[(1, 1024), (7, 1)],
        fails: &[],
        max: None,
        first: Heard::Timeout,
        second: Heard::Id(7),
    },
    Case {
        message: "after 1,023 strangers the end of the link is met",
        come: &[(1, 1023)],
        fails: &[],
        max: None,
        first: Heard::Fault(IoKind::UnexpectedEof),
        second: Heard::NoConnections,
    },
    Case {
        message: "after an end there are no connections",
        come: &[],
        fails: &[],
        max: None,
        first: Heard::Fault(IoKind::UnexpectedEof),
        second: Heard::NoConnections,
    },
    Case {
        message: "after a fault of a write there is no connection",
        come: &[(7, 1)],
        fails: &[0],
        max: None,
        first: Heard::Fault(IoKind::Other),
        second: Heard::Fault(IoKind::NotConnected),
    },
    Case {
        message: "after a fault of a read there is no connection",
        come: &[(7, 1)],
        fails: &[2],
        max: None,
        first: Heard::Fault(IoKind::Other),
        second: Heard::Fault(IoKind::NotConnected),
    },
    Case {
        message: "a request is refused where none may be live",
        come: &[(7, 1)],
        fails: &[],
        max: Some(0),
        first: Heard::Busy,
        second: Heard::Busy,
    },
];

fn cases() -> &'static [Case] {
    CASES
}

/// A link that gives the frames of the responses that come, takes a hundred bytes, and of whose calls some fail.
fn link_for(rt: &impl Abort, alloc: Global, come: &[(u16, u32)], fails: &[u64]) -> PairLink {
    let mut bytes = Vec::new(alloc);
    for some in come {
        push_responses(rt, &mut bytes, some.0, some.1);
    }
    let pieces = pieces_of(rt, alloc, &[&bytes]);
    let fails = Vec::from_slice(alloc, fails).expect(rt, "memory");
    PairLink::new(alloc, pieces, 100, fails).expect(rt, "memory")
}

/// An exchange over a link, whose first two requests have the id 7, with so many live requests at most.
fn exchange_over(
    rt: &impl Abort,
    alloc: Global,
    link: PairLink,
    max: Option<usize>,
) -> TcpExchange<PairLink, ListDraws> {
    let draws = draws_of(rt, alloc, &[7, 7]);
    let made = TcpExchange::over(alloc, stream_over(alloc, link), draws, 5000, max);
    made.ok().expect(rt, "memory")
}

/// Whether the sends of a case are answered as it says.
fn holds(rt: &impl Abort, alloc: Global, case: &Case) -> bool {
    let link = link_for(rt, alloc, case.come, case.fails);
    let mut exchange = exchange_over(rt, alloc, link, case.max);
    let first = asked(alloc, &mut exchange);
    let second = asked(alloc, &mut exchange);
    first == case.first && second == case.second
}

#[test]
fn sends_are_answered_as_the_cases_say(rt: HostRuntime) {
    for case in cases() {
        check(&rt, case.message, holds(&rt, rt.alloc(), case));
    }
}

/// The frames of two requests without a question with the id 7.
const FRAMES: &[u8] = &[
    0, 12, 0, 7, 0, 0, 0, 0, 0, 0, 0, 0, 0, 0, 0, 12, 0, 7, 0, 0, 0, 0, 0, 0, 0, 0, 0, 0,
];

#[test]
fn requests_go_out_as_frames(rt: HostRuntime) {
    let alloc = rt.alloc();
    let link = link_for(&rt, alloc, &[(7, 2)], &[]);
    let mut exchange = exchange_over(&rt, alloc, link, None);
    check(
        &rt,
        "the first request is answered",
        asked(alloc, &mut exchange) == Heard::Id(7),
    );
    check(
        &rt,
        "the second request is answered",
        asked(alloc, &mut exchange) == Heard::Id(7),
    );
    let link = exchange.into_link();
    check(&rt, "two frames were written", *link.taken() == *FRAMES);
}
