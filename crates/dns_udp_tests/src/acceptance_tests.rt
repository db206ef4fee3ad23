use crate::parts::{ANSWER, ASKED, check};
use dns_message::{DecodeError, DecodeKind, Message};
use dns_record::NoMemory;
use dns_udp::{Accepted, accept_datagram};
use std::alloc::Global;
use std::net::{IpAddr, Ipv4Addr, Ipv6Addr, SocketAddr};
use std::process::Abort;

/// What a datagram comes to.
#[derive(Clone, Copy, PartialEq)]
enum Kind {
    Ignored,
    Undecodable(DecodeKind, u32),
    CaseMismatch,
    Answer,
}

/// Where a datagram comes from.
#[derive(Clone, Copy)]
enum Origin {
    Server,
    Mapped,
    OtherPort,
    OtherAddress,
    Version6,
}

/// The address that is meant.
fn address(from: Origin) -> SocketAddr {
    match from {
        Origin::Server => SocketAddr::new(IpAddr::V4(Ipv4Addr::new(127, 0, 0, 1)), 53),
        Origin::Mapped => SocketAddr::new(
            IpAddr::V6(Ipv6Addr::new(0, 0, 0, 0, 0, 0xffff, 0x7f00, 1)),
            53,
        ),
        Origin::OtherPort => SocketAddr::new(IpAddr::V4(Ipv4Addr::new(127, 0, 0, 1)), 54),
        Origin::OtherAddress => SocketAddr::new(
            IpAddr::V6(Ipv6Addr::new(0, 0, 0, 0, 0, 0xffff, 0x7f01, 1)),
            53,
        ),
        Origin::Version6 => SocketAddr::new(IpAddr::V6(Ipv6Addr::LOCALHOST), 53),
    }
}

/// The kind of what became of a datagram.
fn kind_of(accepted: &Accepted) -> Kind {
    match accepted {
        Accepted::Ignored => Kind::Ignored,
        Accepted::Undecodable(DecodeError { kind, offset }) => Kind::Undecodable(*kind, *offset),
        Accepted::CaseMismatch => Kind::CaseMismatch,
        Accepted::Answer(_) => Kind::Answer,
    }
}

/// What a datagram of 65,535 bytes at most comes to while the request waits.
fn judged(rt: &impl Abort, alloc: Global, case: bool, from: Origin, bytes: &[u8]) -> Kind {
    check(rt, "a datagram that isn't too long", bytes.len() <= 65_535);
    let request = Message::from_vec(alloc, ASKED).expect(rt, "a message");
    let server = address(Origin::Server);
    let accepted = accept_datagram(alloc, &request, server, case, address(from), bytes);
    let accepted = accepted.expect(rt, "memory");
    kind_of(&accepted)
}

/// Whether letters count, where a datagram comes from, its bytes, and what it comes to.
type Row = (bool, Origin, &'static [u8], Kind);

/// Responses with the name in the other case, of another name, without a question, and of another type.
const UPPER: &[u8] = b"\x00\x01\x81\x80\x00\x01\x00\x00\x00\x00\x00\x00\x01A\x00\x00\x01\x00\x01";

const OTHER: &[u8] = b"\x00\x01\x81\x80\x00\x01\x00\x00\x00\x00\x00\x00\x01b\x00\x00\x01\x00\x01";

const EMPTY: &[u8] = b"\x00\x01\x81\x80\x00\x00\x00\x00\x00\x00\x00\x00";

const TYPED: &[u8] = b"\x00\x01\x81\x80\x00\x01\x00\x00\x00\x00\x00\x00\x01a\x00\x00\x1c\x00\x01";

const ROWS: &[Row] = &[
    (true, Origin::Server, ASKED, Kind::Answer),
    (true, Origin::Mapped, ASKED, Kind::Answer),
    (true, Origin::OtherPort, ASKED, Kind::Ignored),
    (true, Origin::OtherAddress, ASKED, Kind::Ignored),
    (true, Origin::Version6, ASKED, Kind::Ignored),
    (true, Origin::Server, b"\x00", Kind::Ignored),
    (true, Origin::Server, b"\x00\x02", Kind::Ignored),
    (
        true,
        Origin::Server,
        b"\x00\x01",
        Kind::Undecodable(DecodeKind::Short, 2),
    ),
    (true, Origin::Server, OTHER, Kind::Ignored),
    (true, Origin::Server, UPPER, Kind::CaseMismatch),
    (false, Origin::Server, UPPER, Kind::Answer),
    (true, Origin::Server, EMPTY, Kind::Ignored),
    (false, Origin::Server, TYPED, Kind::Ignored),
];

fn rows() -> &'static [Row] {
    ROWS
}

#[test]
fn datagrams_are_judged_in_order(rt: HostRuntime) {
    for row in rows() {
        check(
            &rt,
            "a datagram is judged",
            judged(&rt, rt.alloc(), row.0, row.1, row.2) == row.3,
        );
    }
}

/// A datagram of 65,535 bytes with the request's question, and nothing behind it, is no message at the first byte too
/// many.
#[test]
fn a_long_datagram_is_read(rt: HostRuntime) {
    let mut bytes = Vec::from_slice(rt.alloc(), ASKED).expect(&rt, "memory");
    bytes.resize(65_535, 0u8).expect(&rt, "memory");
    let kind = judged(&rt, rt.alloc(), false, Origin::Server, &bytes);
    check(
        &rt,
        "the first byte too many is told",
        kind == Kind::Undecodable(DecodeKind::Trailing, 19),
    );
}

// The example of `accept_datagram`, word for word.
fn answer_in(
    alloc: Global,
    request: &Message,
    server: SocketAddr,
    from: SocketAddr,
    bytes: &[u8],
) -> Result<Option<Message>, NoMemory> {
    if bytes.len() > 65_535 {
        return Ok(None);
    }
    match accept_datagram(alloc, request, server, true, from, bytes)? {
        Accepted::Answer(answer) => Ok(Some(answer)),
        _ => Ok(None),
    }
}

/// Whether a datagram from an address holds an answer.
fn has_answer(rt: &impl Abort, alloc: Global, from: Origin, bytes: &[u8]) -> bool {
    let request = Message::from_vec(alloc, ASKED).expect(rt, "a message");
    let server = address(Origin::Server);
    let answer = answer_in(alloc, &request, server, address(from), bytes);
    let answer = answer.expect(rt, "memory");
    answer.is_some()
}

#[test]
fn the_example_of_a_datagram_gives_its_answer(rt: HostRuntime) {
    let alloc = rt.alloc();
    let answered = has_answer(&rt, alloc, Origin::Server, ANSWER);
    check(&rt, "the server's answer", answered);
    let from_another = has_answer(&rt, alloc, Origin::OtherPort, ANSWER);
    check(&rt, "another port's", !from_another);
    let in_other_case = has_answer(&rt, alloc, Origin::Server, UPPER);
    check(&rt, "letters in the other case", !in_other_case);
}
