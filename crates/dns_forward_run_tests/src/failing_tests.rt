//! An outside that fails before a seat is served.
use crate::rows::check_row;
use crate::runs::{Coming, Given, SESSION, Seen, run_over};
use crate::watched::Uses;

/// What is shown, what is given, the status, the text, how often the server was to be connected, and how the listener was used: how many
/// ports were asked for by datagrams and by connections, and how many are back.
struct Row {
    name: &'static str,
    given: Given,
    status: u8,
    text: &'static [u8],
    connects: u32,
    uses: (u32, u32, u32),
}

const THREE: Coming = Coming {
    unread: 3,
    queries: 0,
    fails: &[],
};

const UDP: &str = "udp 127.0.0.1:40053 127.0.0.1:53 3";

const TCP: &str = "tcp 127.0.0.1:40053 127.0.0.1:53 2 3";

const ROWS: &[Row] = &[
    Row {
        name: "no port for datagrams",
        given: Given {
            words: UDP,
            session: SESSION,
            failed_reads: &[],
            failed_writes: &[],
            refuses: false,
            ports: &[],
        },
        status: 4,
        text: b"",
        connects: 0,
        uses: (1, 0, 0),
    },
    Row {
        name: "the first client is refused",
        given: Given {
            words: TCP,
            session: SESSION,
            failed_reads: &[],
            failed_writes: &[],
            refuses: false,
            ports: &[],
        },
        status: 4,
        text: b"",
        connects: 1,
        uses: (0, 1, 0),
    },
    Row {
        name: "the second client is refused, and the port of the first one is back",
        given: Given {
            words: TCP,
            session: SESSION,
            failed_reads: &[],
            failed_writes: &[],
            refuses: false,
            ports: &[THREE],
        },
        status: 4,
        text: b"",
        connects: 1,
        uses: (0, 2, 1),
    },
    Row {
        name: "the server refuses to be connected, and no client is waited for",
        given: Given {
            words: TCP,
            session: SESSION,
            failed_reads: &[],
            failed_writes: &[],
            refuses: true,
            ports: &[THREE, THREE],
        },
        status: 4,
        text: b"",
        connects: 1,
        uses: (0, 0, 0),
    },
    Row {
        name: "a read fails",
        given: Given {
            words: UDP,
            session: SESSION,
            failed_reads: &[0],
            failed_writes: &[],
            refuses: false,
            ports: &[THREE],
        },
        status: 4,
        text: b"",
        connects: 0,
        uses: (0, 0, 0),
    },
    Row {
        name: "a read fails before the server is connected",
        given: Given {
            words: TCP,
            session: SESSION,
            failed_reads: &[1],
            failed_writes: &[],
            refuses: false,
            ports: &[THREE, THREE],
        },
        status: 4,
        text: b"",
        connects: 0,
        uses: (0, 0, 0),
    },
    Row {
        name: "an input that is no session",
        given: Given {
            words: UDP,
            session: b"no session\n",
            failed_reads: &[],
            failed_writes: &[],
            refuses: false,
            ports: &[THREE],
        },
        status: 3,
        text: b"bad line 1\n",
        connects: 0,
        uses: (0, 0, 0),
    },
    Row {
        name: "and over connections",
        given: Given {
            words: TCP,
            session: b"dns-session 1\nend\n",
            failed_reads: &[],
            failed_writes: &[],
            refuses: false,
            ports: &[THREE, THREE],
        },
        status: 3,
        text: b"bad line 2\n",
        connects: 0,
        uses: (0, 0, 0),
    },
    Row {
        name: "the line of a seat can't be written",
        given: Given {
            words: UDP,
            session: SESSION,
            failed_reads: &[],
            failed_writes: &[0],
            refuses: false,
            ports: &[THREE],
        },
        status: 5,
        text: b"",
        connects: 0,
        uses: (1, 0, 1),
    },
    Row {
        name: "a bad line can't be told",
        given: Given {
            words: TCP,
            session: b"no session\n",
            failed_reads: &[],
            failed_writes: &[0],
            refuses: false,
            ports: &[],
        },
        status: 5,
        text: b"",
        connects: 0,
        uses: (0, 0, 0),
    },
];

fn rows() -> &'static [Row] {
    ROWS
}

#[test]
fn a_fault_of_the_outside_has_its_status(rt: HostRuntime) {
    for row in rows() {
        let (opened, accepted, retired) = row.uses;
        let expected = Seen {
            status: row.status,
            is_text: true,
            connects: row.connects,
            uses: Uses {
                opened,
                accepted,
                retired,
            },
        };
        let ended = run_over(rt, rt.alloc(), &row.given, row.text);
        check_row(&rt, row.name, ended == expected);
    }
}
