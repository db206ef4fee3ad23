use crate::heard::{Heard, heard_reply};
use crate::parts::{query, response_bytes};
use dns_handle::DnsHandle;
use dns_link::Link;
use dns_multiplexer::Draws;
use dns_tcp::TcpExchange;
use std::alloc::Global;
use std::process::Abort;

/// What an exchange answers a query.
pub(crate) fn asked<L: Link + Drop, R: Draws + Drop>(
    alloc: Global,
    exchange: &mut TcpExchange<L, R>,
) -> Heard {
    let reply = exchange.send(alloc, query(alloc), 1000);
    heard_reply(&reply)
}

/// Puts the frame of a response without a question behind others, so often (RFC 1035, 4.2.2).
pub(crate) fn push_responses(rt: &impl Abort, bytes: &mut Vec<u8>, id: u16, times: u32) {
    for _ in 0..times {
        bytes.extend_from_slice(&[0, 12]).expect(rt, "memory");
        bytes
            .extend_from_slice(&response_bytes(id))
            .expect(rt, "memory");
    }
}
