//! What calls through a token are answered: as the multiplexer answers, and after a close.
use crate::heard::Heard;
use crate::script::{Script, Step, check_script};
use dns_handle::IoKind;

const EOF: IoKind = IoKind::UnexpectedEof;

const SCRIPTS: &[Script] = &[
    Script {
        name: "one request, from its send to its response",
        maximum: 32,
        size: 32,
        ids: &[7],
        steps: &[
            Step::Send(12, 0, Heard::Of(0)),
            Step::Pop(Some(7)),
            Step::Pop(None),
            Step::Take(0, Heard::Pending),
            Step::Respond(7, Heard::Of(0)),
            Step::Take(0, Heard::Response(7)),
            Step::Take(0, Heard::Pending),
        ],
    },
    Script {
        name: "with one live request the second send is busy, until the first ends",
        maximum: 1,
        size: 32,
        ids: &[7, 8],
        steps: &[
            Step::Send(12, 0, Heard::Of(0)),
            Step::Send(12, 0, Heard::Busy),
            Step::Cancel(0, Heard::Done),
            Step::Send(12, 0, Heard::Of(1)),
        ],
    },
    Script {
        name: "with a maximum of 0 each send is busy",
        maximum: 0,
        size: 32,
        ids: &[7],
        steps: &[Step::Send(12, 0, Heard::Busy), Step::Pop(None)],
    },
    Script {
        name: "a hundred ids of a live request exhaust the ids",
        maximum: 32,
        size: 32,
        ids: &[7; 101],
        steps: &[
            Step::Send(12, 0, Heard::Of(0)),
            Step::Send(12, 0, Heard::Exhausted),
        ],
    },
    Script {
        name: "ninety-nine and another one don't",
        maximum: 32,
        size: 32,
        ids: NINETY_NINE,
        steps: &[
            Step::Send(12, 0, Heard::Of(0)),
            Step::Send(12, 0, Heard::Of(1)),
            Step::Pop(Some(7)),
            Step::Pop(Some(8)),
            Step::Pop(None),
        ],
    },
    Script {
        name: "in a queue of size 0 one message waits; what it refused drew an id",
        maximum: 32,
        size: 0,
        ids: &[7, 8, 9],
        steps: &[
            Step::Send(12, 0, Heard::Of(0)),
            Step::Send(12, 0, Heard::QueueFull),
            Step::Pop(Some(7)),
            Step::Send(12, 0, Heard::Of(1)),
            Step::Pop(Some(9)),
            Step::Respond(8, Heard::Stranger),
        ],
    },
    Script {
        name: "65,535 bytes are sent, and 65,536 are too long; as many bytes are an arrival",
        maximum: 32,
        size: 32,
        ids: &[7, 8],
        steps: &[
            Step::Send(65_536, 0, Heard::TooLong),
            Step::Send(65_535, 0, Heard::Of(0)),
            Step::Echo(Heard::Of(0)),
            Step::Take(0, Heard::Response(8)),
        ],
    },
    Script {
        name: "a request of 0 lives at 4,999 and has ended at 5,000; what waits stays",
        maximum: 32,
        size: 32,
        ids: &[7],
        steps: &[
            Step::Send(12, 0, Heard::Of(0)),
            Step::Tick(4999, Heard::Done),
            Step::Respond(7, Heard::Of(0)),
            Step::Tick(5000, Heard::Done),
            Step::Respond(7, Heard::Stranger),
            Step::Take(0, Heard::Response(7)),
            Step::Take(0, Heard::Ended),
        ],
    },
    Script {
        name: "nine responses wait, and not a tenth; after a cancel the id is a stranger's until it is drawn again",
        maximum: 32,
        size: 32,
        ids: &[7, 7],
        steps: &[
            Step::Send(12, 0, Heard::Of(0)),
            Step::Respond(7, Heard::Of(0)),
            Step::Respond(7, Heard::Of(0)),
            Step::Respond(7, Heard::Of(0)),
            Step::Respond(7, Heard::Of(0)),
            Step::Respond(7, Heard::Of(0)),
            Step::Respond(7, Heard::Of(0)),
            Step::Respond(7, Heard::Of(0)),
            Step::Respond(7, Heard::Of(0)),
            Step::Respond(7, Heard::Of(0)),
            Step::Respond(7, Heard::Waiting),
            Step::Take(0, Heard::Response(7)),
            Step::Respond(7, Heard::Of(0)),
            Step::Cancel(0, Heard::Done),
            Step::Respond(7, Heard::Stranger),
            Step::Take(0, Heard::Ended),
            Step::Send(12, 1, Heard::Of(1)),
            Step::Respond(7, Heard::Of(1)),
            Step::Take(0, Heard::Ended),
            Step::Take(1, Heard::Response(7)),
            Step::Take(1, Heard::Pending),
        ],
    },
    Script {
        name: "a close is the last item of each live request, and a send after it has no connections",
        maximum: 32,
        size: 32,
        ids: &[7, 8],
        steps: &[
            Step::Send(12, 0, Heard::Of(0)),
            Step::Send(12, 0, Heard::Of(1)),
            Step::Respond(8, Heard::Of(1)),
            Step::Close(EOF, Heard::Done),
            Step::Take(0, Heard::Fault(EOF)),
            Step::Take(0, Heard::Ended),
            Step::Take(1, Heard::Response(8)),
            Step::Take(1, Heard::Fault(EOF)),
            Step::Take(1, Heard::Ended),
            Step::Take(2, Heard::Ended),
            Step::Send(12, 0, Heard::NoConnections),
            Step::Send(65_536, 0, Heard::NoConnections),
            Step::Pop(Some(7)),
            Step::Pop(Some(8)),
            Step::Pop(None),
            Step::Close(EOF, Heard::Done),
        ],
    },
];

/// 7, then 7 ninety-nine times, then 8.
const NINETY_NINE: &[u16] = &[
    7, 7, 7, 7, 7, 7, 7, 7, 7, 7, 7, 7, 7, 7, 7, 7, 7, 7, 7, 7, 7, 7, 7, 7, 7, 7, 7, 7, 7, 7, 7, 7,
    7, 7, 7, 7, 7, 7, 7, 7, 7, 7, 7, 7, 7, 7, 7, 7, 7, 7, 7, 7, 7, 7, 7, 7, 7, 7, 7, 7, 7, 7, 7, 7,
    7, 7, 7, 7, 7, 7, 7, 7, 7, 7, 7, 7, 7, 7, 7, 7, 7, 7, 7, 7, 7, 7, 7, 7, 7, 7, 7, 7, 7, 7, 7, 7,
    7, 7, 7, 7, 8,
];

#[test]
fn calls_through_a_token_are_answered_as_the_multiplexer_answers(rt: HostRuntime) {
    for script in SCRIPTS {
        check_script(&rt, rt.alloc(), script);
    }
}
