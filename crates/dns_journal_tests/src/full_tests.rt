//! When a history is full: 2^20 entries with the places that are kept, or 67,108,864 bytes of messages.
use crate::script::{Answer, Script, Step, check_script};
use dns_handle::IoKind;

const EOF: IoKind = IoKind::UnexpectedEof;

const SCRIPTS: &[Script] = &[
    Script {
        name: "the last place but the close's is a tick's",
        maximum: 32,
        steps: &[
            Step::Ticks(1_048_575),
            Step::Tick(Answer::Full),
            Step::Close(EOF, Answer::Done),
            Step::Close(EOF, Answer::Full),
            Step::Tick(Answer::Full),
        ],
    },
    Script {
        name: "a send asks for two places",
        maximum: 32,
        steps: &[
            Step::Ticks(1_048_574),
            Step::Send(12, Answer::Full),
            Step::Tick(Answer::Done),
            Step::Tick(Answer::Full),
        ],
    },
    Script {
        name: "after a close a send asks for one",
        maximum: 32,
        steps: &[
            Step::Ticks(1_048_574),
            Step::Close(EOF, Answer::Done),
            Step::Send(12, Answer::NoConnections),
            Step::Send(12, Answer::Full),
        ],
    },
    Script {
        name: "the place of a pop and that of the close are kept",
        maximum: 32,
        steps: &[
            Step::Ticks(1_048_573),
            Step::Send(12, Answer::Sent(0)),
            Step::Tick(Answer::Full),
            Step::Send(12, Answer::Full),
            Step::Pop(Some(7)),
            Step::Pop(None),
            Step::Tick(Answer::Full),
            Step::Close(EOF, Answer::Done),
            Step::Tick(Answer::Full),
        ],
    },
    Script {
        name: "a close before the pop",
        maximum: 32,
        steps: &[
            Step::Ticks(1_048_573),
            Step::Send(12, Answer::Sent(0)),
            Step::Close(EOF, Answer::Done),
            Step::Tick(Answer::Full),
            Step::Pop(Some(7)),
            Step::Pop(None),
            Step::Close(EOF, Answer::Full),
        ],
    },
    Script {
        name: "a refused send keeps no place",
        maximum: 0,
        steps: &[
            Step::Ticks(1_048_573),
            Step::Send(12, Answer::Busy),
            Step::Tick(Answer::Done),
            Step::Tick(Answer::Full),
            Step::Take(0, Answer::Full),
            Step::Cancel(0, Answer::Full),
            Step::Arrive(1, Answer::Full),
        ],
    },
    Script {
        name: "bytes of arrivals",
        maximum: 32,
        steps: &[
            Step::Arrivals(1_024, 65_535),
            Step::Arrive(1_025, Answer::Full),
            Step::Arrive(1_024, Answer::Done),
            Step::Arrive(1, Answer::Full),
            Step::Arrive(0, Answer::Done),
            Step::Tick(Answer::Done),
        ],
    },
    Script {
        name: "bytes of requests, refused ones too; a full history draws no id",
        maximum: 1,
        steps: &[
            Step::Arrivals(1_024, 65_535),
            Step::Send(1_025, Answer::Full),
            Step::Send(1_000, Answer::Sent(0)),
            Step::Send(20, Answer::Busy),
            Step::Send(5, Answer::Full),
            Step::SendTooLong(Answer::Busy),
            Step::Send(4, Answer::Busy),
            Step::Pop(Some(7)),
            Step::Arrive(1, Answer::Full),
        ],
    },
    Script {
        name: "one request, from its send to its response",
        maximum: 32,
        steps: &[
            Step::Send(12, Answer::Sent(0)),
            Step::Pop(Some(7)),
            Step::Pop(None),
            Step::Take(0, Answer::Pending),
            Step::Respond(7, Answer::Sent(0)),
            Step::Take(0, Answer::Response(7)),
            Step::Take(0, Answer::Pending),
        ],
    },
    Script {
        name: "a close ends what is live",
        maximum: 32,
        steps: &[
            Step::Send(12, Answer::Sent(0)),
            Step::Send(12, Answer::Sent(1)),
            Step::SendTooLong(Answer::TooLong),
            Step::Respond(8, Answer::Sent(1)),
            Step::Cancel(1, Answer::Done),
            Step::Close(EOF, Answer::Done),
            Step::Take(0, Answer::Fault(EOF)),
            Step::Take(0, Answer::Ended),
            Step::Take(1, Answer::Ended),
            Step::Send(12, Answer::NoConnections),
            Step::SendTooLong(Answer::NoConnections),
            Step::Pop(Some(7)),
            Step::Pop(Some(8)),
            Step::Pop(None),
            Step::Close(EOF, Answer::Done),
        ],
    },
];

#[test]
fn a_history_is_full_exactly_where_it_has_no_room(rt: HostRuntime) {
    for script in SCRIPTS {
        check_script(&rt, rt.alloc(), script);
    }
}
