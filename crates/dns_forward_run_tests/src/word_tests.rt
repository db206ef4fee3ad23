//! Words, and what is written of those that ask for a text or for nothing.
use crate::rows::check_row;
use crate::runs::{Coming, Given, SESSION, Seen, run_over};
use crate::watched::Uses;

/// Words that aren't a form.
const NO_FORMS: &[&str] = &[
    "",
    "udp",
    "udp 127.0.0.1:40053 127.0.0.1:53",
    "udp 127.0.0.1:40053 127.0.0.1:53 1001",
    "udp 127.0.0.1:40053 127.0.0.1:53 +1",
    "udp 127.0.0.1:40053 127.0.0.1:53 01",
    "udp 127.0.0.1:40053 127.0.0.1:53 -1",
    "udp 127.0.0.1:0 127.0.0.1:53 1",
    "udp 127.0.0.1:40053 127.0.0.1:0 1",
    "udp 127.0.0.1 127.0.0.1:53 1",
    "udp localhost:53 127.0.0.1:53 1",
    "udp 127.0.0.1:40053 127.0.0.1:53 1 1",
    "tcp 127.0.0.1:40053 127.0.0.1:53 1",
    "tcp 127.0.0.1:40053 127.0.0.1:53 0 1",
    "tcp 127.0.0.1:40053 127.0.0.1:53 33 1",
    "tcp 127.0.0.1:40053 127.0.0.1:53 01 1",
    "tcp 127.0.0.1:40053 127.0.0.1:53 +1 1",
    "tcp 127.0.0.1:40053 127.0.0.1:53 1 1001",
    "tcp 127.0.0.1:40053 127.0.0.1:53 1 +1",
    "tcp 127.0.0.1:40053 127.0.0.1:53 1 01",
    "tcp 127.0.0.1:0 127.0.0.1:53 1 1",
    "tcp 127.0.0.1:40053 127.0.0.1:0 1 1",
    "tcp 127.0.0.1:40053 127.0.0.1:53 1 1 1",
    "TCP 127.0.0.1:40053 127.0.0.1:53 1 1",
    "--help --version",
    "help",
];

fn no_forms() -> &'static [&'static str] {
    NO_FORMS
}

/// Nothing was asked of the outside but to read the session and to write.
const UNUSED: Uses = Uses {
    opened: 0,
    accepted: 0,
    retired: 0,
};

// Words with a listener that has a port.
fn over(words: &'static str) -> Given {
    Given {
        words,
        session: SESSION,
        failed_reads: &[],
        failed_writes: &[],
        refuses: false,
        ports: &[Coming {
            unread: 1,
            queries: 0,
            fails: &[],
        }],
    }
}

#[test]
fn other_words_are_refused(rt: HostRuntime) {
    let expected = Seen {
        status: 2,
        is_text: true,
        connects: 0,
        uses: UNUSED,
    };
    for words in no_forms() {
        let ended = run_over(rt, rt.alloc(), &over(words), b"bad words\n");
        check_row(&rt, words, ended == expected);
    }
}

/// The program's forms.
const HELP: &[u8] =
    b"dns_forward udp LISTEN UPSTREAM COUNT              reads a session and answers COUNT requests that come to LISTEN by datagrams, over the server UPSTREAM\ndns_forward tcp LISTEN UPSTREAM CONNECTIONS COUNT  the same over CONNECTIONS connections, COUNT requests each, and one connection to UPSTREAM\ndns_forward --help                                 writes these lines\ndns_forward --version                              writes the name and the version\n";

#[test]
fn forms_and_the_version_are_told(rt: HostRuntime) {
    let expected = Seen {
        status: 0,
        is_text: true,
        connects: 0,
        uses: UNUSED,
    };
    let help = run_over(rt, rt.alloc(), &over("--help"), HELP);
    check_row(&rt, "--help", help == expected);
    let version = run_over(rt, rt.alloc(), &over("--version"), b"dns_forward 0.1.0\n");
    check_row(&rt, "--version", version == expected);
}
