//! Texts of `resolv.conf`, and the server that they name first (resolv.conf(5)).
use dns_query_files::first_server;
use std::net::SocketAddr;

/// Texts, and the address that is named first, as std writes it.
const NAMED: &[(&str, &str)] = &[
    ("nameserver 192.0.2.1", "192.0.2.1:53"),
    (
        "nameserver 192.0.2.1\nnameserver 192.0.2.2\n",
        "192.0.2.1:53",
    ),
    (
        "# by hand\nsearch example.com\n\nnameserver\t 2001:db8::1 \noptions edns0\n",
        "[2001:db8::1]:53",
    ),
    (
        "nameserver fe80::1%eth0\nnameserver 127.0.0.53 # local\n",
        "127.0.0.53:53",
    ),
    (
        "nameserver\nnameserver \n nameserver 192.0.2.1\nnameserver 192.0.2.3",
        "192.0.2.3:53",
    ),
    (
        ";nameserver 192.0.2.1\nnameservers 192.0.2.2\nnameserver192.0.2.3\nnameserver 192.0.2.4\n",
        "192.0.2.4:53",
    ),
];

/// Texts that name none.
const NONE: &[&str] = &[
    "",
    "\n\n",
    "nameserver",
    "nameserver 192.0.2.1:53\n",
    "nameserver ns.example.\n",
    "NAMESERVER 192.0.2.1\n",
    "nameserver 192.0.2.1\r\n",
    "search example.com\noptions rotate\n",
];

// Whether this is the address that a text of std's is.
fn is_address(found: Option<SocketAddr>, text: &str) -> bool {
    let Ok(expected) = SocketAddr::parse_ascii(text.as_bytes()) else {
        return false;
    };
    found == Some(expected)
}

#[test]
fn the_first_line_that_names_a_server_counts(rt: HostRuntime) {
    for row in NAMED {
        assert!(rt;
            is_address(first_server(row.0.as_bytes()), row.1),
            "{}",
            row.1
        );
    }
}

#[test]
fn other_texts_name_none(rt: HostRuntime) {
    for text in NONE {
        assert!(rt; first_server(text.as_bytes()).is_none(), "{text}");
    }
}
