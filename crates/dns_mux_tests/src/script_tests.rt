use crate::heard::Heard;
use crate::parts::check;
use crate::script::{Script, Step, steps_played};
use dns_handle::IoKind;
use dns_mux::{Arrival, RequestId};

const SCRIPTS: &[Script] = &[
    Script {
        message: "with one live request the second send is busy, until the first ends",
        maximum: 1,
        size: 32,
        ids: &[7, 8],
        steps: &[
            Step::Sends(0, Ok(0)),
            Step::Sends(0, Err(Heard::Busy)),
            Step::Cancels(0),
            Step::Sends(0, Ok(1)),
        ],
    },
    Script {
        message: "with a maximum of 0 each send is busy",
        maximum: 0,
        size: 32,
        ids: &[7],
        steps: &[Step::Sends(0, Err(Heard::Busy)), Step::Pops(None)],
    },
    Script {
        message: "a hundred ids of a live request exhaust the ids",
        maximum: 32,
        size: 32,
        ids: &[7; 101],
        steps: &[Step::Sends(0, Ok(0)), Step::Sends(0, Err(Heard::Exhausted))],
    },
    Script {
        message: "ninety-nine and another one don't",
        maximum: 32,
        size: 32,
        ids: NINETY_NINE,
        steps: &[
            Step::Sends(0, Ok(0)),
            Step::Sends(0, Ok(1)),
            Step::Pops(Some(7)),
            Step::Pops(Some(8)),
            Step::Pops(None),
        ],
    },
    Script {
        message: "in a queue of size 0 one message waits; what it refused drew an id",
        maximum: 32,
        size: 0,
        ids: &[7, 8, 9],
        steps: &[
            Step::Sends(0, Ok(0)),
            Step::Sends(0, Err(Heard::QueueFull)),
            Step::Pops(Some(7)),
            Step::Sends(0, Ok(1)),
            Step::Pops(Some(9)),
            Step::Arrives(8, Arrival::Stranger),
        ],
    },
    Script {
        message: "65,535 bytes are sent, and 65,536 are too long; as many bytes are an arrival",
        maximum: 32,
        size: 32,
        ids: &[7, 8],
        steps: &[
            Step::Long(65513, Err(Heard::TooLong)),
            Step::Long(65512, Ok(0)),
            Step::Echoes(0),
            Step::Takes(0, Heard::Id(8)),
        ],
    },
    Script {
        message: "a request of 0 lives at 4,999 and has ended at 5,000; what waits stays",
        maximum: 32,
        size: 32,
        ids: &[7],
        steps: &[
            Step::Sends(0, Ok(0)),
            Step::Ticks(4999),
            Step::Arrives(7, Arrival::Queued(RequestId(0))),
            Step::Ticks(5000),
            Step::Arrives(7, Arrival::Stranger),
            Step::Takes(0, Heard::Id(7)),
            Step::Takes(0, Heard::Ended),
        ],
    },
    Script {
        message: "nine responses wait, and not a tenth; after a cancel the id is a stranger's until it is drawn again",
        maximum: 32,
        size: 32,
        ids: &[7, 7],
        steps: &[
            Step::Sends(0, Ok(0)),
            Step::Arrives(7, Arrival::Queued(RequestId(0))),
            Step::Arrives(7, Arrival::Queued(RequestId(0))),
            Step::Arrives(7, Arrival::Queued(RequestId(0))),
            Step::Arrives(7, Arrival::Queued(RequestId(0))),
            Step::Arrives(7, Arrival::Queued(RequestId(0))),
            Step::Arrives(7, Arrival::Queued(RequestId(0))),
            Step::Arrives(7, Arrival::Queued(RequestId(0))),
            Step::Arrives(7, Arrival::Queued(RequestId(0))),
            Step::Arrives(7, Arrival::Queued(RequestId(0))),
            Step::Arrives(7, Arrival::Full),
            Step::Takes(0, Heard::Id(7)),
            Step::Arrives(7, Arrival::Queued(RequestId(0))),
            Step::Cancels(0),
            Step::Arrives(7, Arrival::Stranger),
            Step::Takes(0, Heard::Ended),
            Step::Sends(1, Ok(1)),
            Step::Arrives(7, Arrival::Queued(RequestId(1))),
            Step::Takes(0, Heard::Ended),
            Step::Takes(1, Heard::Id(7)),
            Step::Takes(1, Heard::Pending),
        ],
    },
    Script {
        message: "a close is the last item of each live request",
        maximum: 32,
        size: 32,
        ids: &[7, 8],
        steps: &[
            Step::Sends(0, Ok(0)),
            Step::Sends(0, Ok(1)),
            Step::Arrives(8, Arrival::Queued(RequestId(1))),
            Step::Closes(IoKind::UnexpectedEof),
            Step::Takes(0, Heard::Fault(IoKind::UnexpectedEof)),
            Step::Takes(0, Heard::Ended),
            Step::Takes(1, Heard::Id(8)),
            Step::Takes(1, Heard::Fault(IoKind::UnexpectedEof)),
            Step::Takes(1, Heard::Ended),
            Step::Takes(2, Heard::Ended),
        ],
    },
];

/// 7, then 7 ninety-nine times, then 8.
const NINETY_NINE: &[u16] = &[
    7, 7, 7, 7, 7, 7, 7, 7, 7, 7, 7, 7, 7, 7, 7, 7, 7, 7, 7, 7, 7, 7, 7, 7, 7, 7, 7, 7, 7, 7, 7, 7,
    7, 7, 7, 7, 7, 7, 7, 7, 7, 7, 7, 7, 7, 7, 7, 7, 7, 7, 7, 7, 7, 7, 7, 7, 7, 7, 7, 7, 7, 7, 7, 7,
    7, 7, 7, 7, 7, 7, 7, 7, 7, 7, 7, 7, 7, 7, 7, 7, 7, 7, 7, 7, 7, 7, 7, 7, 7, 7, 7, 7, 7, 7, 7, 7,
    7, 7, 7, 7, 8,
];

fn scripts() -> &'static [Script] {
    SCRIPTS
}

#[test]
fn calls_are_answered_as_the_scripts_say(rt: HostRuntime) {
    let alloc = rt.alloc();
    for script in scripts() {
        let played = steps_played(&rt, alloc, script);
        check(&rt, script.message, played == script.steps.len());
    }
}
