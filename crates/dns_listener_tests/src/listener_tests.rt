//! What a listener in memory gives.
use crate::parts::{Given, check, client, next};
use dns_handle::IoKind;
use dns_listener::{ListListener, Listener};
use dns_ports::ListPort;
use dns_record::Octets;
use std::alloc::Global;
use std::process::Abort;

// A port in memory with one request.
fn port_of(rt: &impl Abort, alloc: Global, byte: u8) -> ListPort {
    let mut requests = Vec::new(alloc);
    let request = Octets::from_slice(alloc, &[byte]).expect(rt, "memory");
    requests.push(request).expect(rt, "memory");
    ListPort::new(requests, Vec::new(alloc))
}

// A listener with a port, a refusal and a port.
fn listener_of(rt: &impl Abort, alloc: Global) -> ListListener<ListPort> {
    let mut ports = Vec::new(alloc);
    ports.push(Ok(port_of(rt, alloc, 7))).expect(rt, "memory");
    ports.push(Err(IoKind::AddrInUse)).expect(rt, "memory");
    ports.push(Ok(port_of(rt, alloc, 8))).expect(rt, "memory");
    ListListener::new(ports)
}

// What the next port gives first, or why there is none.
fn first_of<L: Listener>(listener: &mut L) -> Given {
    match listener.accept(client(53)) {
        Ok(mut port) => {
            let given = next(&mut port);
            listener.retire(port);
            given
        }
        Err(kind) => Given::Fault(kind),
    }
}

fn gives_in_order(rt: &impl Abort, alloc: Global) -> bool {
    let mut listener = listener_of(rt, alloc);
    let by_udp = listener.udp(client(53)).is_ok();
    by_udp
        && first_of(&mut listener) == Given::Fault(IoKind::AddrInUse)
        && first_of(&mut listener) == Given::Request(1, 8)
        && first_of(&mut listener) == Given::Fault(IoKind::AddrNotAvailable)
}

#[test]
fn a_listener_in_memory_gives_its_ports_in_order(rt: HostRuntime) {
    check(&rt, "in order", gives_in_order(&rt, rt.alloc()));
}
