//! Some rows of `rows/`, as `tools/rows_as_tests` makes them: change those, and not this file.

/// Words, a session, and how `run` ends over them.
pub(crate) struct Row {
    pub(crate) name: &'static str,
    pub(crate) words: &'static [&'static str],
    pub(crate) session: &'static [u8],
    pub(crate) status: u8,
    pub(crate) text: &'static [u8],
}

const ROWS: &[Row] = &[
    Row {
        name: "busy-in-place-of-the-first-reply",
        words: &["validate"],
        session: b"dns-session 1\nmoment 1000\nalgorithms 13\nanchor . 13 aabb\naccept 13 aabb 00020d0000000e10000007d000000384aec900000002000100000e100003016100 c0de\nquery . NS\nfault . NS busy\nreply . DNSKEY 0000840000010001000000000000300001000030000100000e1000060101030daabb\nend\n",
        status: 1,
        text: b"fault busy\n",
    },
    Row {
        name: "help",
        words: &["--help"],
        session: b"",
        status: 0,
        text: b"dns_check validate        reads a session and writes the report of its lookup\ndns_check validate trail  the same, and how the lookup came about, step by step\ndns_check verify          as validate, with signatures computed in place of the session's list\ndns_check verify trail    as validate trail, likewise\ndns_check explain         reads a session and writes the report and the trail of its lookup, and why each set isn't secure\ndns_check explain verify  the same, with signatures computed\ndns_check audit           reads a session and a report behind it, and writes which of its parts hold\ndns_check questions       reads a session and writes which signatures a verifier must be asked for\ndns_check roll            reads sightings of a zone's keys and writes which of them are trusted\ndns_check deny            reads a session and questions behind it, and writes which of them the records of its answer deny\ndns_check bench N         looks a host up below N nested zones, 1 to 100, and writes what that took\ndns_check ask udp ADDRESS reads a session and writes the report of its lookup over a server, as 192.0.2.1:53\ndns_check ask tcp ADDRESS the same over a connection\ndns_check ask verify udp ADDRESS, ask verify tcp ADDRESS  the same, with signatures computed\ndns_check ask explain ..  as ask, and as explain: ask explain udp ADDRESS, ask explain verify tcp ADDRESS\ndns_check --help          writes these lines\ndns_check --version       writes the name and the version\n",
    },
    Row {
        name: "no-bytes",
        words: &["validate"],
        session: b"",
        status: 3,
        text: b"bad line 1\n",
    },
    Row {
        name: "no-last-line",
        words: &["validate"],
        session: b"dns-session 1\nmoment 1000\nalgorithms 13\nanchor . 13 aabb\naccept 13 aabb 00020d0000000e10000007d000000384aec900000002000100000e100003016100 c0de\nquery . NS\nreply . NS 0000840000010002000000000000020001000002000100000e10000301610000002e000100000e10001500020d0000000e10000007d000000384aec900c0de\nreply . DNSKEY 0000840000010001000000000000300001000030000100000e1000060101030daabb\n",
        status: 3,
        text: b"bad line 9\n",
    },
    Row {
        name: "no-words",
        words: &[],
        session: b"dns-session 1\nmoment 1000\nalgorithms 13\nanchor . 13 aabb\naccept 13 aabb 00020d0000000e10000007d000000384aec900000002000100000e100003016100 c0de\nquery . NS\nreply . NS 0000840000010002000000000000020001000002000100000e10000301610000002e000100000e10001500020d0000000e10000007d000000384aec900c0de\nreply . DNSKEY 0000840000010001000000000000300001000030000100000e1000060101030daabb\nend\n",
        status: 2,
        text: b"bad words\n",
    },
    Row {
        name: "roll-after-the-hold-down",
        words: &["roll"],
        session: b"dns-roll 1\nzone .\nalgorithms 13\nkey 0101030daabb\naccept 13 aabb 00300d0000000e107fffffff00000000aec900000030000100000e1000060101030daabb000030000100000e1000060101030dccdd c0de\nsight 0 000084000000000300000000000030000100000e1000060101030daabb000030000100000e1000060101030dccdd00002e000100000e10001500300d0000000e107fffffff00000000aec900c0de\nsight 2591999 000084000000000300000000000030000100000e1000060101030daabb000030000100000e1000060101030dccdd00002e000100000e10001500300d0000000e107fffffff00000000aec900c0de\nsight 2592000 000084000000000300000000000030000100000e1000060101030daabb000030000100000e1000060101030dccdd00002e000100000e10001500300d0000000e107fffffff00000000aec900c0de\nend\n",
        status: 0,
        text: b"trusted 0101030daabb\ntrusted 0101030dccdd\n",
    },
    Row {
        name: "stored-session",
        words: &["validate"],
        session: b"dns-session 1\nmoment 1000\nalgorithms 13\nanchor . 13 aabb\naccept 13 aabb 00020d0000000e10000007d000000384aec900000002000100000e100003016100 c0de\nquery . NS\nreply . NS 0000840000010002000000000000020001000002000100000e10000301610000002e000100000e10001500020d0000000e10000007d000000384aec900c0de\nreply . DNSKEY 0000840000010001000000000000300001000030000100000e1000060101030daabb\nend\n",
        status: 0,
        text: b"dns-report 1\ncode 0\ndenial none\nanswer . IN NS 1000 secure 016100\nanswer . IN RRSIG 1000 secure 00020d0000000e10000007d000000384aec900c0de\nchain answer 3\nanchored . IN 0101030daabb\nkeyset . IN 0 0101030daabb\nsigned . IN NS 1 0101030daabb 00020d0000000e10000007d000000384aec900c0de 016100\nend\n",
    },
    Row {
        name: "two-words",
        words: &["validate", "x"],
        session: b"dns-session 1\nmoment 1000\nalgorithms 13\nanchor . 13 aabb\naccept 13 aabb 00020d0000000e10000007d000000384aec900000002000100000e100003016100 c0de\nquery . NS\nreply . NS 0000840000010002000000000000020001000002000100000e10000301610000002e000100000e10001500020d0000000e10000007d000000384aec900c0de\nreply . DNSKEY 0000840000010001000000000000300001000030000100000e1000060101030daabb\nend\n",
        status: 2,
        text: b"bad words\n",
    },
    Row {
        name: "version",
        words: &["--version"],
        session: b"",
        status: 0,
        text: b"dns_check 0.1.0\n",
    },
];

/// The rows.
pub(crate) fn rows() -> &'static [Row] {
    ROWS
}
