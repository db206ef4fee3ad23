//! The words of protocols.
use crate::parts::shows;
use crate::rows::{Row, check_numbered};
use dns_handle::Protocol;
use std::alloc::Global;
use std::process::Abort;

/// A protocol, its name, and whether it carries datagrams.
struct Kind(Protocol, &'static str, bool);

const KINDS: &[Kind] = &[
    Kind(Protocol::Udp, "udp", true),
    Kind(Protocol::Tcp, "tcp", false),
];

impl Row for Kind {
    fn holds(&self, rt: &impl Abort, alloc: Global) -> bool {
        shows(rt, alloc, &self.0, self.1)
            && self.0.as_str() == self.1
            && self.0.is_datagram() == self.2
            && self.0.is_stream() != self.2
            && !self.0.is_encrypted()
    }
}

#[test]
fn protocols_have_a_name_and_a_kind(rt: HostRuntime) {
    check_numbered(&rt, rt.alloc(), "kinds", KINDS);
}
