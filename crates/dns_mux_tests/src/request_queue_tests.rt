use crate::parts::{check, query};
use dns_handle::NetError;
use dns_mux::{BufDnsRequestStreamHandle, DnsResponseReceiver};
use std::alloc::Global;

/// What a queue tells whoever sends a request.
#[derive(Clone, Copy, PartialEq)]
enum Told {
    Slot(u64),
    Busy,
    Other,
}

/// What the queue tells of one request more.
fn send(alloc: Global, queue: &mut BufDnsRequestStreamHandle) -> Told {
    let sent = queue.send(query(alloc));
    match &sent {
        Ok(DnsResponseReceiver::Receiver(slot)) => Told::Slot(*slot),
        Err(NetError::Busy) => Told::Busy,
        _ => Told::Other,
    }
}

/// The slot of the request that waited longest, which leaves the queue.
fn first_slot(queue: &mut BufDnsRequestStreamHandle) -> Option<u64> {
    let waiting = queue.pop();
    match &waiting {
        Some(first) => Some(first.slot),
        None => None,
    }
}

/// Whether so many requests get the first slots.
fn fills(alloc: Global, queue: &mut BufDnsRequestStreamHandle, requests: u64) -> bool {
    for slot in 0..requests {
        if send(alloc, queue) != Told::Slot(slot) {
            return false;
        }
    }
    true
}

/// Whether a queue that is full is busy, until the first request has left it.
fn is_full(alloc: Global, queue: &mut BufDnsRequestStreamHandle, next: u64) -> bool {
    send(alloc, queue) == Told::Busy
        && first_slot(queue) == Some(0)
        && send(alloc, queue) == Told::Slot(next)
}

#[test]
fn a_queue_takes_33_requests(rt: HostRuntime) {
    let alloc = rt.alloc();
    let mut queue = BufDnsRequestStreamHandle::new(alloc);
    let held = fills(alloc, &mut queue, 33) && is_full(alloc, &mut queue, 33);
    check(&rt, "33 requests", held);
}
