//! How seats end, and what is written of them.
use crate::rows::check_row;
use crate::runs::{Coming, Given, SESSION, Seen, run_over};
use crate::watched::Uses;

/// What is shown, the words, the ports of clients, the writes that fail, the status, the text, how often the server is connected, and how
/// many ports are accepted.
struct Row {
    name: &'static str,
    words: &'static str,
    ports: &'static [Coming],
    failed_writes: &'static [u64],
    status: u8,
    text: &'static [u8],
    connects: u32,
    accepted: u32,
}

/// Three requests that are no message.
const THREE: Coming = Coming {
    unread: 3,
    queries: 0,
    fails: &[],
};

const TWO_SEATS: &str = "tcp 127.0.0.1:40053 127.0.0.1:53 2 3";

const ROWS: &[Row] = &[
    Row {
        name: "no request is waited for, but the server and the clients are connected",
        words: "tcp 127.0.0.1:40053 127.0.0.1:53 2 0",
        ports: &[THREE, THREE],
        failed_writes: &[],
        status: 0,
        text: b"seat 0 requests 0 count\nseat 1 requests 0 count\n",
        connects: 1,
        accepted: 2,
    },
    Row {
        name: "each has its requests, or hears that no more come",
        words: "tcp 127.0.0.1:40053 127.0.0.1:53 3 3",
        ports: &[
            THREE,
            Coming {
                unread: 2,
                queries: 0,
                fails: &[],
            },
            Coming {
                unread: 0,
                queries: 0,
                fails: &[],
            },
        ],
        failed_writes: &[],
        status: 0,
        text: b"seat 0 requests 3 count\nseat 1 requests 2 closed\nseat 2 requests 0 closed\n",
        connects: 1,
        accepted: 3,
    },
    Row {
        name: "two clients ask, and one answers for both",
        words: "tcp 127.0.0.1:40053 127.0.0.1:53 2 20",
        ports: &[
            Coming {
                unread: 1,
                queries: 30,
                fails: &[],
            },
            Coming {
                unread: 0,
                queries: 7,
                fails: &[],
            },
        ],
        failed_writes: &[],
        status: 0,
        text: b"seat 0 requests 20 count\nseat 1 requests 7 closed\n",
        connects: 1,
        accepted: 2,
    },
    Row {
        name: "a port fails as it is to give its first request",
        words: TWO_SEATS,
        ports: &[
            Coming {
                unread: 3,
                queries: 0,
                fails: &[0],
            },
            THREE,
        ],
        failed_writes: &[],
        status: 1,
        text: b"seat 0 requests 0 port\nseat 1 requests 3 count\n",
        connects: 1,
        accepted: 2,
    },
    Row {
        name: "a port fails as it is to take the second reply",
        words: TWO_SEATS,
        ports: &[
            THREE,
            Coming {
                unread: 3,
                queries: 0,
                fails: &[3],
            },
        ],
        failed_writes: &[],
        status: 1,
        text: b"seat 0 requests 3 count\nseat 1 requests 2 port\n",
        connects: 1,
        accepted: 2,
    },
    Row {
        name: "nothing can be written of a port that failed",
        words: TWO_SEATS,
        ports: &[
            Coming {
                unread: 3,
                queries: 0,
                fails: &[1],
            },
            THREE,
        ],
        failed_writes: &[0],
        status: 5,
        text: b"",
        connects: 1,
        accepted: 2,
    },
];

fn rows() -> &'static [Row] {
    ROWS
}

#[test]
fn seats_over_connections_have_a_line_each(rt: HostRuntime) {
    for row in rows() {
        let given = Given {
            words: row.words,
            session: SESSION,
            failed_reads: &[],
            failed_writes: row.failed_writes,
            refuses: false,
            ports: row.ports,
        };
        let uses = Uses {
            opened: 0,
            accepted: row.accepted,
            retired: row.accepted,
        };
        let expected = Seen {
            status: row.status,
            is_text: true,
            connects: row.connects,
            uses,
        };
        let ended = run_over(rt, rt.alloc(), &given, row.text);
        check_row(&rt, row.name, ended == expected);
    }
}

/// What is shown, the words, what comes, the status, and the text.
struct OneRow {
    name: &'static str,
    words: &'static str,
    ports: &'static [Coming],
    status: u8,
    text: &'static [u8],
}

const ONES: &[OneRow] = &[
    OneRow {
        name: "no request is waited for",
        words: "udp 127.0.0.1:40053 127.0.0.1:53 0",
        ports: &[THREE],
        status: 0,
        text: b"seat 0 requests 0 count\n",
    },
    OneRow {
        name: "as many as are waited for",
        words: "udp 127.0.0.1:40053 127.0.0.1:53 9",
        ports: &[Coming {
            unread: 1,
            queries: 20,
            fails: &[],
        }],
        status: 0,
        text: b"seat 0 requests 9 count\n",
    },
    OneRow {
        name: "fewer come",
        words: "udp 127.0.0.1:40053 127.0.0.1:53 1000",
        ports: &[Coming {
            unread: 1,
            queries: 1,
            fails: &[],
        }],
        status: 0,
        text: b"seat 0 requests 2 closed\n",
    },
    OneRow {
        name: "the port fails",
        words: "udp 127.0.0.1:40053 127.0.0.1:53 3",
        ports: &[Coming {
            unread: 3,
            queries: 0,
            fails: &[2],
        }],
        status: 1,
        text: b"seat 0 requests 1 port\n",
    },
];

fn ones() -> &'static [OneRow] {
    ONES
}

#[test]
fn a_seat_over_datagrams_has_a_line(rt: HostRuntime) {
    for row in ones() {
        let given = Given {
            words: row.words,
            session: SESSION,
            failed_reads: &[],
            failed_writes: &[],
            refuses: false,
            ports: row.ports,
        };
        let uses = Uses {
            opened: 1,
            accepted: 0,
            retired: 1,
        };
        let expected = Seen {
            status: row.status,
            is_text: true,
            connects: 0,
            uses,
        };
        let ended = run_over(rt, rt.alloc(), &given, row.text);
        check_row(&rt, row.name, ended == expected);
    }
}
