//! Runs that ask a server over a dialer in memory. `tools/run_asks` has the program ask servers of a machine.
use crate::replying::Replying;
use crate::root::{BOGUS, REPORT, SESSION};
use crate::rows::check_row;
use crate::runs::{bytes_of, sure_ends, words_of};
use std::alloc::Global;
use std::process::Abort;

/// What is shown, the protocol, the session, the numbers of the calls of a link, the first and the last, of which one fails, and how the
/// run then ends. Where the number is 0, there is no link.
struct FailRow {
    name: &'static str,
    protocol: &'static str,
    session: &'static [u8],
    first: u64,
    last: u64,
    status: u8,
    text: &'static [u8],
}

const FAILS: &[FailRow] = &[
    FailRow {
        name: "a connection that is refused",
        protocol: "tcp",
        session: SESSION,
        first: 0,
        last: 0,
        status: 1,
        text: b"fault io ConnectionRefused\n",
    },
    FailRow {
        name: "the first request, or its reply",
        protocol: "tcp",
        session: SESSION,
        first: 1,
        last: 3,
        status: 1,
        text: b"fault io ConnectionReset\n",
    },
    FailRow {
        name: "the request for the root's keys, or its reply",
        protocol: "tcp",
        session: SESSION,
        first: 4,
        last: 6,
        status: 0,
        text: BOGUS,
    },
    FailRow {
        name: "no call that is made",
        protocol: "tcp",
        session: SESSION,
        first: 7,
        last: 20,
        status: 0,
        text: REPORT,
    },
    FailRow {
        name: "an input that is no session is not asked for",
        protocol: "tcp",
        session: b"no session\n",
        first: 1,
        last: 1,
        status: 3,
        text: b"bad line 1\n",
    },
    // a socket has no link
    FailRow {
        name: "datagrams that never come are late",
        protocol: "udp",
        session: SESSION,
        first: 1,
        last: 1,
        status: 1,
        text: b"fault timeout\n",
    },
];

fn fails() -> &'static [FailRow] {
    FAILS
}

/// Over links whose call with any of these numbers fails the program ends as the row says.
fn fails_so(rt: &impl Abort, alloc: Global, row: &FailRow) -> bool {
    let words = words_of(rt, alloc, &["ask", row.protocol, "127.0.0.1:53"]);
    let mut held = true;
    for call in row.first..=row.last {
        let session = bytes_of(rt, alloc, row.session);
        let dial = Replying::new(alloc, call);
        held = sure_ends(alloc, &words, session, dial, row.status, row.text) && held;
    }
    held
}

#[test]
fn a_link_that_fails_is_a_fault_or_leaves_the_answer_bogus(rt: HostRuntime) {
    for row in fails() {
        check_row(&rt, row.name, fails_so(&rt, rt.alloc(), row));
    }
}
