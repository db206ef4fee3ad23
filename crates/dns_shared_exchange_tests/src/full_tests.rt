//! When a history is full: 2^20 entries with the places that are kept, or 67,108,864 bytes of messages.
use crate::heard::Heard;
use crate::script::{Script, Step, check_script};
use dns_handle::IoKind;
use std::alloc::Global;
use std::process::Abort;
use std::sync::Wait;

const EOF: IoKind = IoKind::UnexpectedEof;

const TICKS: &[Script] = &[
    Script {
        name: "the last place but the close's is a tick's",
        maximum: 32,
        size: 32,
        ids: &[7],
        steps: &[
            Step::Ticks(1_048_575),
            Step::Tick(0, Heard::Full),
            Step::Close(EOF, Heard::Done),
            Step::Close(EOF, Heard::Full),
            Step::Tick(0, Heard::Full),
        ],
    },
    Script {
        name: "a send asks for two places",
        maximum: 32,
        size: 32,
        ids: &[7],
        steps: &[
            Step::Ticks(1_048_574),
            Step::Send(12, 0, Heard::Full),
            Step::Tick(0, Heard::Done),
            Step::Tick(0, Heard::Full),
        ],
    },
    Script {
        name: "after a close a send asks for one",
        maximum: 32,
        size: 32,
        ids: &[7],
        steps: &[
            Step::Ticks(1_048_574),
            Step::Close(EOF, Heard::Done),
            Step::Send(12, 0, Heard::NoConnections),
            Step::Send(12, 0, Heard::Full),
        ],
    },
];

const PLACES: &[Script] = &[
    Script {
        name: "the place of a pop and that of the close are kept",
        maximum: 32,
        size: 32,
        ids: &[7],
        steps: &[
            Step::Ticks(1_048_573),
            Step::Send(12, 0, Heard::Of(0)),
            Step::Tick(0, Heard::Full),
            Step::Send(12, 0, Heard::Full),
            Step::Pop(Some(7)),
            Step::Pop(None),
            Step::Tick(0, Heard::Full),
            Step::Close(EOF, Heard::Done),
            Step::Tick(0, Heard::Full),
        ],
    },
    Script {
        name: "a close before the pop",
        maximum: 32,
        size: 32,
        ids: &[7],
        steps: &[
            Step::Ticks(1_048_573),
            Step::Send(12, 0, Heard::Of(0)),
            Step::Close(EOF, Heard::Done),
            Step::Tick(0, Heard::Full),
            Step::Pop(Some(7)),
            Step::Pop(None),
            Step::Close(EOF, Heard::Full),
        ],
    },
    Script {
        name: "a refused send keeps no place",
        maximum: 0,
        size: 32,
        ids: &[7],
        steps: &[
            Step::Ticks(1_048_573),
            Step::Send(12, 0, Heard::Busy),
            Step::Tick(0, Heard::Done),
            Step::Tick(0, Heard::Full),
            Step::Take(0, Heard::Full),
            Step::Cancel(0, Heard::Full),
            Step::Arrive(1, Heard::Full),
        ],
    },
];

const BYTES: &[Script] = &[
    Script {
        name: "bytes of arrivals",
        maximum: 32,
        size: 32,
        ids: &[7],
        steps: &[
            Step::Arrivals(1_024, 65_535),
            Step::Arrive(1_025, Heard::Full),
            Step::Arrive(1_024, Heard::Done),
            Step::Arrive(1, Heard::Full),
            Step::Arrive(0, Heard::Done),
            Step::Tick(0, Heard::Done),
        ],
    },
    Script {
        name: "bytes of requests, refused ones too; a full history draws no id",
        maximum: 1,
        size: 32,
        ids: &[7],
        steps: &[
            Step::Arrivals(1_024, 65_535),
            Step::Send(1_025, 0, Heard::Full),
            Step::Send(1_000, 0, Heard::Of(0)),
            Step::Send(23, 0, Heard::Busy),
            Step::Send(12, 0, Heard::Full),
            Step::Send(65_536, 0, Heard::Busy),
            Step::Pop(Some(7)),
            Step::Arrive(2, Heard::Full),
            Step::Arrive(1, Heard::Done),
            Step::Arrive(1, Heard::Full),
        ],
    },
];

fn check_scripts<W: Abort + Wait>(rt: &W, alloc: Global, scripts: &[Script]) {
    for script in scripts {
        check_script(rt, alloc, script);
    }
}

#[test]
fn a_history_is_full_exactly_where_it_has_no_room(rt: HostRuntime) {
    check_scripts(&rt, rt.alloc(), TICKS);
}

#[test]
fn places_are_kept_for_pops_and_for_the_first_close(rt: HostRuntime) {
    check_scripts(&rt, rt.alloc(), PLACES);
}

#[test]
fn a_history_is_full_of_bytes(rt: HostRuntime) {
    check_scripts(&rt, rt.alloc(), BYTES);
}
