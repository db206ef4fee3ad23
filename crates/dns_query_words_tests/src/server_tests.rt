//! Texts that name a server, and texts that don't (RFC 4291, 2.2; RFC 5952, 6).
use dns_query_words::{alone_in, server_in};
use std::net::SocketAddr;

/// Texts and the address, as std writes it, that they name.
const SERVERS: &[(&str, &str)] = &[
    ("192.0.2.1", "192.0.2.1:53"),
    ("192.0.2.1:5353", "192.0.2.1:5353"),
    ("255.255.255.255:65535", "255.255.255.255:65535"),
    ("2001:db8::1", "[2001:db8::1]:53"),
    ("::", "[::]:53"),
    ("::1:53", "[::1:53]:53"),
    ("2001:DB8:0:0:0:0:0:1", "[2001:db8::1]:53"),
    ("::ffff:192.0.2.1", "[::ffff:192.0.2.1]:53"),
    ("[2001:db8::1]:5353", "[2001:db8::1]:5353"),
    ("[::1]:1", "[::1]:1"),
];

/// Texts that name none.
const NONE: &[&str] = &[
    "",
    "example.",
    "192.0.2",
    "192.0.2.256",
    "192.0.2.01",
    "192.0.2.1:",
    "192.0.2.1:0",
    "192.0.2.1:65536",
    "192.0.2.1 ",
    "[192.0.2.1]:53",
    "[2001:db8::1]",
    "[2001:db8::1]:0",
    "2001:db8",
    "2001:db8::1::",
    "1:2:3:4:5:6:7:8:9",
    "12345::",
];

// Whether this is the address that a text of std's is.
fn is_address(found: Option<SocketAddr>, text: &str) -> bool {
    let Ok(expected) = SocketAddr::parse_ascii(text.as_bytes()) else {
        return false;
    };
    found == Some(expected)
}

#[test]
fn addresses_stand_alone_or_with_a_port(rt: HostRuntime) {
    for row in SERVERS {
        assert!(rt; is_address(server_in(row.0.as_bytes()), row.1), "{}", row.0);
    }
}

#[test]
fn other_texts_name_no_server(rt: HostRuntime) {
    for text in NONE {
        assert!(rt; server_in(text.as_bytes()).is_none(), "{text}");
    }
}

#[test]
fn an_address_alone_has_no_port(rt: HostRuntime) {
    assert!(rt;
        is_address(alone_in(b"192.0.2.1"), "192.0.2.1:53") && alone_in(b"192.0.2.1:53").is_none(),
        "alone"
    );
}
