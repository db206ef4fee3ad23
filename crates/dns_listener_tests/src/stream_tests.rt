//! What a port over a connection gives, by the bytes that come.
use crate::parts::{Given, check, client, link_of, next};
use dns_handle::IoKind;
use dns_listener::StreamPort;
use dns_ports::Port;
use std::alloc::Global;
use std::process::Abort;

/// Which bytes come, which calls of the link fail, and what the port gives, one after another.
struct Case {
    message: &'static str,
    come: &'static [u8],
    fails: &'static [u64],
    given: [Given; 3],
}

const BROKEN: Given = Given::Fault(IoKind::BrokenPipe);

const GONE: Given = Given::Fault(IoKind::NotConnected);

const CASES: &[Case] = &[
    Case {
        message: "two requests and the end",
        come: &[0, 2, 7, 7, 0, 1, 8],
        fails: &[],
        given: [Given::Request(2, 7), Given::Request(1, 8), Given::Nothing],
    },
    Case {
        message: "an end at once",
        come: &[],
        fails: &[],
        given: [Given::Nothing, Given::Nothing, Given::Nothing],
    },
    Case {
        message: "an end inside a length",
        come: &[0],
        fails: &[],
        given: [BROKEN, GONE, GONE],
    },
    Case {
        message: "an end inside a message",
        come: &[0, 1, 9, 0, 2, 7],
        fails: &[],
        given: [Given::Request(1, 9), BROKEN, GONE],
    },
    Case {
        message: "a length of 0",
        come: &[0, 0, 0, 1, 7],
        fails: &[],
        given: [BROKEN, GONE, GONE],
    },
    Case {
        message: "a read that fails",
        come: &[0, 1, 7],
        fails: &[0],
        given: [Given::Fault(IoKind::Other), GONE, GONE],
    },
];

fn cases() -> &'static [Case] {
    CASES
}

// Whether a port gives what a case says, its bytes cut at a place.
fn gives(rt: &impl Abort, alloc: Global, case: &Case, cut: usize) -> bool {
    let (first, rest) = case.come.split_at(cut.min(case.come.len()));
    let link = link_of(rt, alloc, first, rest, case.fails);
    let mut port = StreamPort::new(alloc, link, client(53));
    let one = next(&mut port);
    let two = next(&mut port);
    let three = next(&mut port);
    [one, two, three] == case.given
}

// Whether it does so wherever they are cut.
fn gives_cut(rt: &impl Abort, alloc: Global, case: &Case) -> bool {
    for cut in 0..8usize {
        if !gives(rt, alloc, case, cut) {
            return false;
        }
    }
    true
}

#[test]
fn a_stream_gives_its_frames_wherever_they_are_cut(rt: HostRuntime) {
    for case in cases() {
        check(&rt, case.message, gives_cut(&rt, rt.alloc(), case));
    }
}

// What a reply over a link is answered, whose first call fails or doesn't.
fn replied(rt: &impl Abort, alloc: Global, fails: &[u64], reply: &[u8]) -> Result<(), IoKind> {
    let link = link_of(rt, alloc, &[], &[], fails);
    let mut port = StreamPort::new(alloc, link, client(53));
    port.reply(reply)
}

#[test]
fn a_reply_is_written_or_fails(rt: HostRuntime) {
    let alloc = rt.alloc();
    check(
        &rt,
        "a reply is written",
        replied(&rt, alloc, &[], &[1, 2, 3]) == Ok(()),
    );
    check(
        &rt,
        "one that can't be written fails",
        replied(&rt, alloc, &[0], &[1, 2, 3]) == Err(IoKind::Other),
    );
    check(
        &rt,
        "one for which there is no room fails",
        replied(&rt, alloc, &[], &[7; 200]) == Err(IoKind::Other),
    );
}
