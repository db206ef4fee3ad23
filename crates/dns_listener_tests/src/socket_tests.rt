//! Clients of this machine.
use crate::parts::{Given, check, client, next};
use dns_listener::{Listener, SocketListener};
use dns_ports::Port;
use std::alloc::Global;
use std::io::{Read, Write};
use std::net::{Net, TcpStream, UdpSocket};
use std::process::Abort;
use std::thread;
use std::time::{Clock, Duration};

// What a port gives first, after which it sends a reply.
fn served<P: Port>(port: &mut P) -> (Given, bool) {
    let first = next(port);
    let sent = port.reply(&[9, 9]) == Ok(());
    (first, sent)
}

// Serves two clients one after the other, by connections, and then sees that the second one has closed.
fn serve_streams<R: Net + Clock + Copy + Drop>(
    net: R,
    alloc: Global,
    port: u16,
) -> Option<(Given, bool, Given)> {
    let mut listener = SocketListener::new(net, alloc);
    let mut first = listener.accept(client(port)).ok()?;
    let (_, _) = served(&mut first);
    listener.retire(first);
    let mut second = listener.accept(client(port)).ok()?;
    let (given, sent) = served(&mut second);
    let last = next(&mut second);
    listener.retire(second);
    Some((given, sent, last))
}

// A client that connects once somebody listens, sends a frame, and reads one.
fn ask_stream<R: Net + Abort>(rt: &R, port: u16) -> [u8; 4] {
    let mut reply = [0u8; 4];
    for _ in 0..10_000_000u32 {
        if let Ok(mut stream) = TcpStream::connect(rt, client(port)) {
            stream.write_all(&[0, 1, 7]).expect(rt, "a write");
            stream.read_exact(&mut reply).expect(rt, "a reply");
            return reply;
        }
        thread::yield_now();
    }
    reply
}

fn ask_two_streams<R: Net + Abort>(rt: &R, port: u16) -> [u8; 4] {
    let _first = ask_stream(rt, port);
    ask_stream(rt, port)
}

#[test]
fn clients_are_served_over_connections(rt: HostRuntime) {
    let alloc = rt.alloc();
    let (served, reply) = thread::join(
        &rt,
        || serve_streams(rt, alloc, 40_153),
        || ask_two_streams(&rt, 40_153),
    );
    check(
        &rt,
        "the second one is served",
        served == Some((Given::Request(1, 7), true, Given::Nothing)),
    );
    check(&rt, "it has the reply", reply == [0, 2, 9, 9]);
}

// Serves one client by datagrams.
fn serve_datagram<R: Net + Clock + Copy + Drop>(
    net: R,
    alloc: Global,
    port: u16,
) -> Option<(Given, bool)> {
    let mut listener = SocketListener::new(net, alloc);
    let mut datagrams = listener.udp(client(port)).ok()?;
    let served = served(&mut datagrams);
    listener.retire(datagrams);
    Some(served)
}

// A client that sends a datagram again and again until one comes.
fn ask_datagram<R: Net + Abort>(rt: &R, port: u16) -> [u8; 2] {
    let socket = UdpSocket::bind(rt, "127.0.0.1:0").expect(rt, "a socket");
    let waits = socket.set_read_timeout(Some(Duration::from_millis(50)));
    waits.expect(rt, "a time to wait");
    let mut reply = [0u8; 2];
    for _ in 0..200u32 {
        let _sent = socket.send_to(&[7, 7, 7], client(port));
        if socket.recv_from(&mut reply).is_ok() {
            return reply;
        }
    }
    reply
}

#[test]
fn a_client_is_served_by_datagrams(rt: HostRuntime) {
    let alloc = rt.alloc();
    let (served, reply) = thread::join(
        &rt,
        || serve_datagram(rt, alloc, 40_154),
        || ask_datagram(&rt, 40_154),
    );
    check(
        &rt,
        "it is served",
        served == Some((Given::Request(3, 7), true)),
    );
    check(&rt, "it has the reply", reply == [9, 9]);
}
