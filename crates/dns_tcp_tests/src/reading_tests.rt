use crate::heard::Heard;
use crate::parts::check;
use crate::stream_heard::feed;
use crate::stream_parts::{link_of, stream_over};
use dns_handle::IoKind;
use dns_link::PairLink;
use dns_tcp::TcpStream;
use std::alloc::Global;
use std::process::Abort;

/// Pieces that a link gives, what each call of `feed` is to answer, and the bytes of the messages that are given, in turn.
struct Case {
    message: &'static str,
    pieces: &'static [&'static [u8]],
    answers: &'static [Heard],
    given: &'static [u8],
}

const CASES: &[Case] = &[
    Case {
        message: "a length of 0 is no message",
        pieces: &[&[0, 0]],
        answers: &[
            Heard::Fault(IoKind::BrokenPipe),
            Heard::Fault(IoKind::NotConnected),
        ],
        given: &[],
    },
    Case {
        message: "what follows a length of 0 is not read",
        pieces: &[&[0, 0, 0, 1, 7]],
        answers: &[
            Heard::Fault(IoKind::BrokenPipe),
            Heard::Fault(IoKind::NotConnected),
        ],
        given: &[],
    },
    Case {
        message: "an end after one byte of a length is a fault",
        pieces: &[&[0]],
        answers: &[
            Heard::More,
            Heard::Fault(IoKind::BrokenPipe),
            Heard::Fault(IoKind::NotConnected),
        ],
        given: &[],
    },
    Case {
        message: "an end before the last byte of a message is a fault",
        pieces: &[&[0, 2, 7]],
        answers: &[
            Heard::More,
            Heard::More,
            Heard::Fault(IoKind::BrokenPipe),
            Heard::Fault(IoKind::NotConnected),
        ],
        given: &[],
    },
    Case {
        message: "an end between two messages is told as often as it is met",
        pieces: &[&[0, 1, 7]],
        answers: &[Heard::More, Heard::Message, Heard::Closed, Heard::Closed],
        given: &[7],
    },
    Case {
        message: "the high byte of a length comes first, and bytes behind a message are the next one's",
        pieces: &[&[0, 1, 7, 0, 2, 8, 9], &[0], &[3, 1], &[2, 3]],
        answers: &[
            Heard::More,
            Heard::Message,
            Heard::More,
            Heard::Message,
            Heard::More,
            Heard::More,
            Heard::More,
            Heard::Message,
            Heard::Closed,
        ],
        given: &[7, 8, 9, 1, 2, 3],
    },
];

fn cases() -> &'static [Case] {
    CASES
}

/// Whether the calls of a stream answer what is expected, up to the first that doesn't.
fn is_heard(
    rt: &impl Abort,
    stream: &mut TcpStream<PairLink>,
    answers: &[Heard],
    read: &mut Vec<u8>,
) -> bool {
    for expected in answers {
        if feed(rt, stream, read) != *expected {
            return false;
        }
    }
    true
}

/// Whether a case is as it says.
fn holds(rt: &impl Abort, alloc: Global, case: &Case) -> bool {
    let mut stream = stream_over(alloc, link_of(rt, alloc, case.pieces));
    let mut read = Vec::new(alloc);
    let heard = is_heard(rt, &mut stream, case.answers, &mut read);
    heard && *read.as_slice() == *case.given
}

#[test]
fn feed_answers_as_the_cases_say(rt: HostRuntime) {
    for case in cases() {
        check(&rt, case.message, holds(&rt, rt.alloc(), case));
    }
}
