//! A client and a server by datagrams of this machine.
ghost use Rattle.std.specs.Prelude.{◌≤◌, length};

use crate::parts::{ASKED, check, request_of};
use dns_handle::{DnsHandle, DnsRequest, DnsResponse, NetError};
use dns_link::SocketDialer;
use dns_multiplexer::RandDraws;
use dns_udp::UdpClientStream;
use std::alloc::Global;
use std::net::{IpAddr, Ipv4Addr, Net, SocketAddr, UdpSocket};
use std::process::Abort;
use std::thread;
use std::thread::Threads;
use std::time::{Clock, Duration};

/// A socket of this machine, which waits five seconds for a datagram.
fn bound<R: Net + Abort>(rt: &R) -> UdpSocket {
    let socket = UdpSocket::bind(rt, "127.0.0.1:0").expect(rt, "a socket");
    let waits = socket.set_read_timeout(Some(Duration::from_secs(5)));
    waits.expect(rt, "a time to wait");
    socket
}

/// What a server does before it answers.
#[derive(Clone, Copy, PartialEq)]
enum Before {
    /// It leaves the first request unanswered.
    LetsOneGo,
    /// The same answer comes from another port.
    AnswersElsewhere,
}

/// The next request: its length, and where it came from.
fn request_to(rt: &impl Abort, socket: &UdpSocket, buf: &mut [u8]) -> (usize, SocketAddr)
    ensures { result.0 ≤ length buf.new }
{
    socket.recv_from(buf).expect(rt, "a request")
}

fn answer(rt: &impl Abort, socket: &UdpSocket, bytes: &[u8], to: SocketAddr) {
    let sent = socket.send_to(bytes, to).expect(rt, "an answer");
    check(rt, "an answer is sent whole", sent == bytes.len());
}

/// Serves one client, by a socket and one with another port, and answers where the client is.
fn serve(rt: &impl Abort, socket: &UdpSocket, other: &UdpSocket, before: Before) -> SocketAddr {
    let mut buf = [0u8; 64];
    if before == Before::LetsOneGo {
        let _ = request_to(rt, socket, &mut buf);
    }
    let (len, from) = request_to(rt, socket, &mut buf);
    // the request as a response
    buf[2] = 0x81;
    let bytes = &buf[..len];
    if before == Before::AnswersElsewhere {
        answer(rt, other, bytes, from);
        thread::yield_now();
    }
    answer(rt, socket, bytes, from);
    from
}

/// Whether the answer has the request's id and is a response.
fn is_answer(reply: &Result<DnsResponse, NetError>) -> bool {
    match reply {
        Ok(DnsResponse { message, .. }) => {
            message.id == 1 && message.response && message.queries.len() == 1
        }
        Err(_) => false,
    }
}

/// Whether a server's answer to a request comes.
fn is_answered<R: Net + Clock + Alloc<A = Global> + Abort>(
    rt: &R,
    server: SocketAddr,
    local: SocketAddr,
) -> bool {
    let alloc = rt.alloc();
    let request = request_of(rt, alloc, ASKED, None);
    let mut dial = SocketDialer::new(rt);
    let mut draws = RandDraws::from_seed(5);
    let mut stream = UdpClientStream::builder(alloc, server)
        .with_os_port_selection(true)
        .with_bind_addr(Some(local))
        .build();
    let reply = stream.send_message(alloc, &mut dial, &mut draws, &request);
    is_answer(&reply)
}

/// Whether a server of this machine is heard by a client at a local address that it has chosen.
fn is_served<R: Net + Clock + Alloc<A = Global> + Threads + Abort + Sync>(
    rt: &R,
    before: Before,
    last: u8,
) -> bool {
    let local = SocketAddr::new(IpAddr::V4(Ipv4Addr::new(127, 0, 0, last)), 0);
    let socket = bound(rt);
    let other = bound(rt);
    let addr = socket.local_addr().expect(rt, "an address");
    let (client, answered) = thread::join(
        rt,
        || serve(rt, &socket, &other, before),
        || is_answered(rt, addr, local),
    );
    answered && client.ip() == local.ip()
}

#[test]
fn a_server_is_heard_late_and_by_its_own_port(rt: HostRuntime) {
    let late = is_served(&rt, Before::LetsOneGo, 1);
    check(&rt, "a late server is heard", late);
    let by_its_port = is_served(&rt, Before::AnswersElsewhere, 2);
    check(
        &rt,
        "an answer from another port is passed over",
        by_its_port,
    );
}

// The example of `UdpClientStreamBuilder::exchange`, word for word.
fn ask_by_datagrams<R: Net + Clock + Copy + Drop>(
    alloc: Global,
    net: R,
    server: SocketAddr,
    seed: u64,
    request: DnsRequest,
    now: u64,
) -> Result<DnsResponse, NetError> {
    let draws = RandDraws::from_seed(seed);
    let mut exchange = UdpClientStream::builder(alloc, server).exchange(
        SocketDialer::new(net),
        draws,
    );
    exchange.send(alloc, request, now)
}

/// Whether the response to a request came, whatever its id.
fn came(reply: &Result<DnsResponse, NetError>) -> bool {
    match reply {
        Ok(response) => response.message.response,
        Err(_) => false,
    }
}

#[test]
fn the_example_of_a_handle_is_answered(rt: HostRuntime) {
    let alloc = rt.alloc();
    let socket = bound(&rt);
    let other = bound(&rt);
    let addr = socket.local_addr().expect(&rt, "an address");
    let request = request_of(&rt, alloc, ASKED, None);
    let (_, reply) = thread::join(
        &rt,
        || serve(&rt, &socket, &other, Before::AnswersElsewhere),
        || ask_by_datagrams(alloc, &rt, addr, 7, request, 0),
    );
    check(&rt, "the example is answered", came(&reply));
}
