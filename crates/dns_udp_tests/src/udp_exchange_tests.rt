//! Requests by datagrams, by a handle that draws their ids.
use crate::heard::{Heard, heard_reply};
use crate::parts::{ANSWER, ASKED, check, draws_of, request_of, server};
use crate::watching::{Coming, Watching};
use dns_handle::{DnsHandle, DnsRequest};
use dns_multiplexer::ListDraws;
use dns_udp::UdpClientStream;
use std::alloc::Global;
use std::process::Abort;

/// The request under the id 2.
const ASKED_UNDER_2: &[u8] =
    b"\x00\x02\x01\x00\x00\x01\x00\x00\x00\x00\x00\x00\x01a\x00\x00\x01\x00\x01";

/// The id that is drawn, the request under it, and what a handle hears where an answer of id 1 comes; on how many sockets the
/// request is sent, once each.
struct Row(&'static str, u16, &'static [u8], Heard, u32);

const ROWS: &[Row] = &[
    Row(
        "an answer under the drawn id is heard",
        1,
        ASKED,
        Heard::Id(1),
        1,
    ),
    Row(
        "an answer under another id is not",
        2,
        ASKED_UNDER_2,
        Heard::Timeout,
        3,
    ),
];

/// What a handle over a dialer hears, and the dialer.
fn told(alloc: Global, dial: Watching, draws: ListDraws, request: DnsRequest) -> (Heard, Watching) {
    let mut exchange = UdpClientStream::builder(alloc, server()).exchange(dial, draws);
    let reply = exchange.send(alloc, request, 0);
    let heard = heard_reply(&reply);
    (heard, exchange.into_dialer())
}

/// Whether a request that comes to the handle with the id 7 is sent and answered as the row says.
fn holds(rt: &impl Abort, alloc: Global, row: &Row) -> bool {
    let mut request = request_of(rt, alloc, ASKED, None);
    request.message.id = 7;
    let dial = Watching::new(row.2, &[Coming(ANSWER, 19, 1)], false, 0);
    let draws = draws_of(rt, alloc, &[row.1]);
    let (heard, dial) = told(alloc, dial, draws, request);
    heard == row.3 && dial.alike == row.4 && dial.others == 0
}

#[test]
fn a_request_is_sent_under_a_drawn_id(rt: HostRuntime) {
    for row in ROWS {
        check(&rt, row.0, holds(&rt, rt.alloc(), row));
    }
}

#[test]
fn a_client_is_named_by_its_server(rt: HostRuntime) {
    let stream = UdpClientStream::builder(rt.alloc(), server()).build();
    let text = format!(in rt.alloc(); "{stream}").expect(&rt, "memory");
    check(
        &rt,
        "a client has its server's address",
        text.as_str() == "UDP(127.0.0.1:53)",
    );
}
