//! What a port over datagrams gives and sends.
use crate::parts::{Given, check, client, next};
use dns_handle::IoKind;
use dns_link::ListDatagrams;
use dns_listener::DatagramPort;
use dns_ports::Port;
use dns_record::Octets;
use std::alloc::Global;
use std::net::SocketAddr;
use std::process::Abort;

// A port to which two datagrams come, from two clients, and of whose calls some fail.
fn port_of(rt: &impl Abort, alloc: Global, fails: &[u64]) -> DatagramPort<ListDatagrams> {
    let mut incoming = Vec::new(alloc);
    let first = Octets::from_slice(alloc, &[7, 7]).expect(rt, "memory");
    incoming.push((first, client(1))).expect(rt, "memory");
    let second = Octets::from_slice(alloc, &[8]).expect(rt, "memory");
    incoming.push((second, client(2))).expect(rt, "memory");
    let fails = Vec::from_slice(alloc, fails).expect(rt, "memory");
    let socket = ListDatagrams::new(incoming, fails);
    DatagramPort::new(alloc, socket).expect(rt, "memory")
}

// Whether a port gives both requests and then none.
fn gives_both(rt: &impl Abort, alloc: Global) -> bool {
    let mut port = port_of(rt, alloc, &[]);
    next(&mut port) == Given::Request(2, 7)
        && port.reply(&[1]) == Ok(())
        && next(&mut port) == Given::Request(1, 8)
        && next(&mut port) == Given::Nothing
}

// Whether a reply that can't be sent is passed over, and a wait that fails isn't.
fn passes_over(rt: &impl Abort, alloc: Global) -> bool {
    let mut port = port_of(rt, alloc, &[1, 2]);
    next(&mut port) == Given::Request(2, 7)
        && port.reply(&[1]) == Ok(())
        && next(&mut port) == Given::Fault(IoKind::Other)
        && next(&mut port) == Given::Request(1, 8)
}

#[test]
fn a_socket_gives_its_datagrams_and_then_none(rt: HostRuntime) {
    check(&rt, "two and none", gives_both(&rt, rt.alloc()));
}

#[test]
fn a_reply_that_cannot_be_sent_is_passed_over(rt: HostRuntime) {
    check(&rt, "it is passed over", passes_over(&rt, rt.alloc()));
}

// Before a request came there is nobody to answer.
fn reply_before(rt: &impl Abort, alloc: Global) -> bool {
    let mut port = port_of(rt, alloc, &[0]);
    port.reply(&[1]) == Ok(()) && next(&mut port) == Given::Fault(IoKind::Other)
}

#[test]
fn a_reply_before_each_request_goes_nowhere(rt: HostRuntime) {
    check(&rt, "it goes nowhere", reply_before(&rt, rt.alloc()));
}

// The longest datagram, of one byte again and again.
fn longest(rt: &impl Abort, alloc: Global) -> Vec<(Octets, SocketAddr)> {
    let mut bytes = Vec::new(alloc);
    for _ in 0..65_535u32 {
        bytes.push(7).expect(rt, "memory");
    }
    let mut incoming = Vec::new(alloc);
    let datagram = Octets::from_vec(bytes);
    incoming.push((datagram, client(1))).expect(rt, "memory");
    incoming
}

// Whether it is given whole.
fn gives_longest(rt: &impl Abort, alloc: Global) -> bool {
    let incoming = longest(rt, alloc);
    let socket = ListDatagrams::new(incoming, Vec::new(alloc));
    let mut port = DatagramPort::new(alloc, socket).expect(rt, "memory");
    next(&mut port) == Given::Request(65_535, 7)
}

#[test]
fn the_longest_datagram_is_given_whole(rt: HostRuntime) {
    check(&rt, "it is whole", gives_longest(&rt, rt.alloc()));
}
