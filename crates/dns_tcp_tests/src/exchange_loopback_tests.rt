//! Requests over connections of this machine.
use crate::exchange_parts::asked;
use crate::heard::{Heard, heard_reply};
use crate::parts::{check, query, response_bytes};
use crate::stream_heard::{read_next, write_all};
use crate::stream_parts::put;
use dns_handle::{DnsHandle, DnsRequest, DnsResponse, IoKind, NetError};
use dns_link::{Link, SocketDialer, SocketLink};
use dns_multiplexer::RandDraws;
use dns_tcp::{TcpExchange, TcpStream};
use std::alloc::Global;
use std::io::Write;
use std::net::{Net, SocketAddr, TcpListener};
use std::process::Abort;
use std::thread::{join, sleep};
use std::time::{Clock, Duration, Instant};

/// So many requests are sent over one connection.
const REQUESTS: u32 = 1000;

/// The response to a request.
fn response_to(request: &[u8]) -> [u8; 12] {
    match request {
        [high, low, ..] => response_bytes(u16::from_be_bytes([*high, *low])),
        _ => response_bytes(0),
    }
}

/// Answers the requests of one connection, and counts them, until something else than a message is heard.
fn served<L: Link + Drop>(
    rt: &impl Abort,
    alloc: Global,
    stream: &mut TcpStream<L>,
    read: &mut Vec<u8>,
) -> (u32, Heard) {
    let peer = stream.peer_addr();
    let mut count: u32 = 0;
    for _ in 0..2000u32 {
        read.clear();
        let heard = read_next(rt, stream, read);
        if heard != Heard::Message {
            return (count, heard);
        }
        put(rt, alloc, stream, peer, &response_to(read));
        if write_all(stream) == Heard::Written {
            count = count.saturating_add(1);
        }
    }
    (count, Heard::More)
}

/// Serves one connection.
fn serve(rt: &impl Abort, alloc: Global, listener: &TcpListener) -> (u32, Heard) {
    let (socket, peer) = listener.accept().expect(rt, "a connection");
    let (mut stream, _) = TcpStream::from_stream(alloc, SocketLink::new(socket), peer);
    let mut read = Vec::new(alloc);
    served(rt, alloc, &mut stream, &mut read)
}

/// How many of so many requests over one connection to a server are answered.
fn answered<R: Net + Clock + Alloc<A = Global> + Abort>(rt: &R, server: SocketAddr) -> u32 {
    let alloc = rt.alloc();
    let mut dial = SocketDialer::new(rt);
    let draws = RandDraws::from_seed(1);
    let made = TcpExchange::connect(alloc, &mut dial, server, None, 5000, None, draws);
    let mut exchange = made.ok().expect(rt, "a connection");
    let mut count: u32 = 0;
    for _ in 0..REQUESTS {
        if matches!(asked(alloc, &mut exchange), Heard::Id(_)) {
            count = count.saturating_add(1);
        }
    }
    count
}

/// The connection ends behind the last request.
#[test]
fn a_thousand_requests_are_answered_over_loopback(rt: HostRuntime) {
    let alloc = rt.alloc();
    let listener = TcpListener::bind(&rt, "127.0.0.1:0").expect(&rt, "a listener");
    let addr = listener.local_addr().expect(&rt, "an address");
    let (served, answered) = join(&rt, || serve(&rt, alloc, &listener), || answered(&rt, addr));
    check(
        &rt,
        "all are served, and then the connection ends",
        served == (REQUESTS, Heard::Closed),
    );
    check(&rt, "all are answered", answered == REQUESTS);
}

/// Answers a message by itself, over one connection.
fn echo(rt: &impl Abort, alloc: Global, listener: &TcpListener) {
    let (socket, peer) = listener.accept().expect(rt, "a connection");
    let (mut stream, _) = TcpStream::from_stream(alloc, SocketLink::new(socket), peer);
    let mut read = Vec::new(alloc);
    let _ = read_next(rt, &mut stream, &mut read);
    put(rt, alloc, &mut stream, peer, &read);
    let _ = write_all(&mut stream);
}

/// Whether a message comes back over a stream that connects to a server.
fn is_echoed<R: Net + Clock + Alloc<A = Global> + Abort>(rt: &R, server: SocketAddr) -> bool {
    let alloc = rt.alloc();
    let mut dial = SocketDialer::new(rt);
    let made = TcpStream::with_future(alloc, &mut dial, server, 5000);
    let (mut stream, _) = made.ok().expect(rt, "a connection");
    put(rt, alloc, &mut stream, server, b"echo");
    let written = write_all(&mut stream);
    let mut read = Vec::new(alloc);
    let heard = read_next(rt, &mut stream, &mut read);
    written == Heard::Written && heard == Heard::Message && read.as_slice() == b"echo".as_slice()
}

#[test]
fn a_stream_connects_to_its_server(rt: HostRuntime) {
    let alloc = rt.alloc();
    let listener = TcpListener::bind(&rt, "127.0.0.1:0").expect(&rt, "a listener");
    let addr = listener.local_addr().expect(&rt, "an address");
    let (_, echoed) = join(&rt, || echo(&rt, alloc, &listener), || is_echoed(&rt, addr));
    check(&rt, "a message comes back", echoed);
}

/// What a request hears of a server over a dialer whose reads wait for so many milliseconds, and whether in two seconds.
fn heard_in_time<R: Net + Clock + Copy + Alloc<A = Global> + Abort + Drop>(
    rt: R,
    mut dial: SocketDialer<R>,
    timeout_ms: u64,
    server: SocketAddr,
) -> (Heard, bool) {
    let alloc = rt.alloc();
    let draws = RandDraws::from_seed(1);
    let made = TcpExchange::connect(alloc, &mut dial, server, None, timeout_ms, None, draws);
    let mut exchange = made.ok().expect(&rt, "a connection");
    let began = Instant::now(&rt).expect(&rt, "a clock");
    let heard = asked(alloc, &mut exchange);
    let passed = began.elapsed(&rt).expect(&rt, "a clock");
    (heard, passed.as_secs() < 2)
}

#[test]
fn a_silent_server_is_waited_for_as_long_as_was_asked(rt: HostRuntime) {
    let listener = TcpListener::bind(&rt, "127.0.0.1:0").expect(&rt, "a listener");
    let addr = listener.local_addr().expect(&rt, "an address");
    let heard = heard_in_time(&rt, SocketDialer::new(&rt), 200, addr);
    check(&rt, "time runs out soon", heard == (Heard::Timeout, true));
}

/// Sends a byte of a long frame every 50 milliseconds, until nobody reads any more.
fn drip<R: Net + Clock + Abort>(rt: &R, listener: &TcpListener) {
    let (mut socket, _) = listener.accept().expect(rt, "a connection");
    for _ in 0..100u32 {
        if socket.write_all(b"\xff").is_err() {
            break;
        }
        sleep(rt, Duration::from_millis(50));
    }
}

#[test]
fn a_server_that_drips_is_waited_for_until_the_deadline(rt: HostRuntime) {
    let listener = TcpListener::bind(&rt, "127.0.0.1:0").expect(&rt, "a listener");
    let addr = listener.local_addr().expect(&rt, "an address");
    let (_, heard) = join(
        &rt,
        || drip(&rt, &listener),
        || heard_in_time(&rt, SocketDialer::new(&rt).with_deadline(200), 5000, addr),
    );
    check(&rt, "time runs out soon", heard == (Heard::Timeout, true));
}

// The example of `TcpExchange::connect`, word for word.
fn ask_over_connection<R: Net + Clock + Copy + Drop>(
    alloc: Global,
    net: R,
    server: SocketAddr,
    seed: u64,
    request: DnsRequest,
    now: u64,
) -> Result<DnsResponse, NetError> {
    let mut dial = SocketDialer::new(net).with_deadline(5000);
    let draws = RandDraws::from_seed(seed);
    let mut exchange = TcpExchange::connect(alloc, &mut dial, server, None, 5000, None, draws)?;
    exchange.send(alloc, request, now)
}

#[test]
fn the_example_of_a_handle_hears_a_refusal(rt: HostRuntime) {
    let alloc = rt.alloc();
    let listener = TcpListener::bind(&rt, "127.0.0.1:0").expect(&rt, "a listener");
    let addr = listener.local_addr().expect(&rt, "an address");
    // frees the port, so that nobody listens at it
    drop(listener);
    let reply = ask_over_connection(alloc, &rt, addr, 7, query(alloc), 0);
    let heard = heard_reply(&reply);
    check(
        &rt,
        "nobody listens",
        heard == Heard::Fault(IoKind::ConnectionRefused),
    );
}
