//! The forwarder of docs/LIBRARY.md in memory, and over sockets of this machine.
use super::{serve_clients, serve_rounds};
use crate::given::{ListSeat, cache, port, seat_at};
use crate::requests::case_of;
use crate::rows::check_held;
use dns_wire::Octets;
use std::alloc::Global;
use std::net::{Net, SocketAddr, UdpSocket};
use std::process::Abort;
use std::sync::Wait;
use std::sync::atomic::{AtomicU64, Ordering};
use std::thread;
use std::time::Duration;

/// Two seats with eight requests each; the port of the second one fails as it is to take its second reply.
fn two<R: Wait + Abort + Copy>(rt: R, alloc: Global) -> Vec<ListSeat<R>> {
    let cache = cache(rt, alloc);
    let mut seats = Vec::new(alloc);
    let whole = port(&rt, alloc, 8, &[]);
    let failing = port(&rt, alloc, 8, &[3]);
    seats
        .push(seat_at(rt, alloc, &cache, whole, 1000))
        .expect(&rt, "memory");
    seats
        .push(seat_at(rt, alloc, &cache, failing, 1000))
        .expect(&rt, "memory");
    seats
}

/// The replies of a port are those of so many cases, the first ones.
fn are_first(rt: &impl Abort, replies: &[Octets], count: usize) -> bool {
    let mut all = replies.len() == count;
    for (number, reply) in replies.iter().enumerate() {
        all = reply.as_slice() == case_of(rt, number).2 && all;
    }
    all
}

#[test]
fn seats_are_served_in_rounds_but_for_one_whose_port_failed(rt: HostRuntime) {
    let alloc = rt.alloc();
    let left = serve_rounds(&rt, alloc, two(rt, alloc), 3, 2).expect(&rt, "memory");
    check_held(&rt, "one is left", left.len() == 1);
    let first = left.first().expect(&rt, "a seat");
    let replies = first.port.replies().expect(&rt, "told replies");
    check_held(&rt, "three rounds of two", are_first(&rt, replies, 6));
}

/// The root's NS set with a signature that is good from 2021 to 2089, as a message.
const SERVERS: &[u8] =
    b"\0\0\x84\0\0\x01\0\x02\0\0\0\0\0\0\x02\0\x01\0\0\x02\0\x01\0\0\x0e\x10\0\x03\x01a\0\0\0\x2e\0\x01\0\0\x0e\x10\0\x15\0\x02\x0d\0\0\0\x0e\x10\xdf\xff\xff\xff\x60\0\0\0\xae\xc9\0\xaa\xbb";

/// The root's key set, as a message.
const KEYS: &[u8] =
    b"\0\0\x84\0\0\x01\0\x01\0\0\0\0\0\0\x30\0\x01\0\0\x30\0\x01\0\0\x0e\x10\0\x06\x01\x01\x03\x0d\xaa\xbb";

/// A query for the root's name servers, with AD.
const REQUEST: &[u8] = b"\0\x07\x01\x20\0\x01\0\0\0\0\0\0\0\0\x02\0\x01";

/// What its reply begins with: AD, and one record.
const AUTHENTIC: &[u8] = b"\0\x07\x81\xa0\0\x01\0\x01\0\0\0\0";

// What the server answers to a query about the root: the same id, and what it has.
fn answer_to(rt: &impl Abort, alloc: Global, query: &[u8]) -> Vec<u8> {
    let message = if query.get(14) == Some(&2) {
        SERVERS
    } else {
        KEYS
    };
    let mut answer = Vec::from_slice(alloc, message).expect(rt, "memory");
    if let ([high, low, ..], [first, second, ..]) = (query, answer.as_mut_slice()) {
        *first = *high;
        *second = *low;
    }
    answer
}

// A server, until it is told that all is done.
fn answer(rt: &impl Abort, alloc: Global, socket: &UdpSocket, done: &AtomicU64) {
    let waits = socket.set_read_timeout(Some(Duration::from_millis(50)));
    waits.expect(rt, "a time to wait");
    let mut buffer = [0u8; 512];
    for _ in 0..100_000u32 {
        if done.load(Ordering::SeqCst) != 0 {
            return;
        }
        if let Ok((length, from)) = socket.recv_from(&mut buffer) {
            let query = buffer.get(..length).unwrap_or(b"");
            let _sent = socket.send_to(answer_to(rt, alloc, query).as_slice(), from);
        }
    }
}

// A client, and how many of its requests are answered with AD.
fn ask<R: Net + Abort>(rt: &R, forwarder: SocketAddr, count: u32) -> u32 {
    let socket = UdpSocket::bind(rt, "127.0.0.1:0").expect(rt, "a socket");
    let waits = socket.set_read_timeout(Some(Duration::from_secs(10)));
    waits.expect(rt, "a time to wait");
    let mut reply = [0u8; 512];
    let mut answered: u32 = 0;
    for _ in 0..count {
        let _sent = socket.send_to(REQUEST, forwarder);
        if let Ok((length, _)) = socket.recv_from(&mut reply) {
            let bytes = reply.get(..length).unwrap_or(b"");
            answered = answered.saturating_add(u32::from(bytes.starts_with(AUTHENTIC)));
        }
    }
    answered
}

// A socket of this machine, and its address.
fn bound<R: Net + Abort>(rt: &R) -> (UdpSocket, SocketAddr) {
    let socket = UdpSocket::bind(rt, "127.0.0.1:0").expect(rt, "a socket");
    let addr = socket.local_addr().expect(rt, "an address");
    (socket, addr)
}

#[test]
fn four_seats_over_one_socket_answer_a_client(rt: HostRuntime) {
    let alloc = rt.alloc();
    let (clients, forwarder) = bound(&rt);
    let (socket, server) = bound(&rt);
    let done = AtomicU64::new(0);
    let ((left, answered), ()) = thread::join(
        &rt,
        || {
            let both = thread::join(
                &rt,
                || serve_clients(rt, alloc, &clients, server, 2, 2).expect(&rt, "memory"),
                || ask(&rt, forwarder, 16),
            );
            done.store(1, Ordering::SeqCst);
            both
        },
        || answer(&rt, alloc, &socket, &done),
    );
    check_held(&rt, "all four are left", left == 4);
    check_held(&rt, "two rounds of eight", answered == 16);
}
