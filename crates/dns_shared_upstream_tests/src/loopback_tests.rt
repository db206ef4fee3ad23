//! Two holders in two threads over one connection of this machine.
ghost use Rattle.std.specs.Prelude.{◌≡◌, ◌<◌};

use crate::heard::Heard;
use crate::holders::{asked, exchange_of, holder_over};
use crate::parts::{check, response_bytes};
use dns_link::{Link, SocketLink};
use dns_multiplexer::{Draws, RandDraws, SerialMessage};
use dns_record::Octets;
use dns_shared_upstream::SharedUpstream;
use dns_tcp::{Feed, TcpStream};
use std::alloc::Global;
use std::marker::Brand;
use std::net::{Net, SocketAddr, TcpListener, TcpStream as Connection};
use std::process::Abort;
use std::sync::Wait;
use std::sync::ledger::{Blank, Ledger};
use std::thread;
use std::thread::Threads;

/// So many requests each holder sends.
const REQUESTS: u32 = 1000;

// The response to a request.
fn response_to(request: &[u8]) -> [u8; 12] {
    match request {
        [high, low, ..] => response_bytes(u16::from_be_bytes([*high, *low])),
        _ => response_bytes(0),
    }
}

// Writes the response to a request.
fn respond<L: Link + Drop>(
    rt: &impl Abort,
    alloc: Global,
    stream: &mut TcpStream<L>,
    request: &[u8],
) {
    let bytes = Octets::from_slice(alloc, &response_to(request)).expect(rt, "memory");
    check(rt, "a response has bytes", !bytes.is_empty());
    let addr = stream.peer_addr();
    let (mut handle, _) = dns_multiplexer::BufDnsStreamHandle::new(alloc, addr);
    let put = stream.enqueue(&mut handle, SerialMessage { bytes, addr });
    check(rt, "it is put into the queue", put.is_ok());
    for _ in 0..100u32 {
        if matches!(stream.drain(), Ok(true)) {
            return;
        }
    }
}

// Answers the requests of one connection, and counts them, until it ends.
fn serve(rt: &impl Abort, alloc: Global, listener: &TcpListener) -> u32 {
    let (socket, peer) = listener.accept().expect(rt, "a connection");
    let (mut stream, _) = TcpStream::from_stream(alloc, SocketLink::new(socket), peer);
    let mut count: u32 = 0;
    for _ in 0..100_000u32 {
        match stream.feed() {
            Ok(Feed::More) => (),
            Ok(Feed::Message(message)) => {
                respond(rt, alloc, &mut stream, message.bytes.as_slice());
                count = count.saturating_add(1);
            }
            _ => return count,
        }
    }
    count
}

// How many requests of a holder are answered.
fn answered<L: Link + Drop, R: Draws + Drop, G: Ledger, W: Wait + Copy>(
    alloc: Global,
    mut holder: SharedUpstream<L, R, G, W>,
) -> u32 {
    let mut count: u32 = 0;
    for _ in 0..REQUESTS {
        if matches!(asked(alloc, &mut holder), Heard::Id(_)) {
            count = count.saturating_add(1);
        }
    }
    count
}

// How many requests of two holders side by side are answered over a connection to a server.
fn both_answered<W, G: Ledger + Send + Sync>(
    rt: W,
    alloc: Global,
    server: SocketAddr,
    blank: Blank,
) -> (u32, u32)
where
    W: Net<Listener = TcpListener, Stream = Connection>
        + Threads
        + Abort
        + Wait
        + Copy
        + Send
        + Sync,
    requires name { blank.name ≡ G.name }
    requires parts { blank.parts ≡ G.parts }
    requires two { G.parts ≡ 2 }
{
    let link = SocketLink::new(Connection::connect(&rt, server).expect(&rt, "a connection"));
    let (exchange, token) = exchange_of(&rt, alloc, RandDraws::from_seed(1));
    let holder = holder_over::<W, G, _, _>(rt, alloc, exchange, token, link, blank);
    let (first, second) = holder.split().ok().expect(&rt, "memory");
    thread::join(
        &rt,
        move || answered(alloc, first),
        move || answered(alloc, second),
    )
}

fn two_answered<W>(rt: W, alloc: Global, server: SocketAddr) -> (u32, u32)
where
    W: Net<Listener = TcpListener, Stream = Connection>
        + Threads
        + Abort
        + Wait
        + Copy
        + Send
        + Sync,
{
    both_answered::<W, Brand>(rt, alloc, server, Blank::new(2))
}

#[test]
fn two_holders_send_a_thousand_requests_each_over_loopback(rt: HostRuntime) {
    let alloc = rt.alloc();
    let listener = TcpListener::bind(&rt, "127.0.0.1:0").expect(&rt, "a listener");
    let addr = listener.local_addr().expect(&rt, "an address");
    let (served, both) = thread::join(
        &rt,
        || serve(&rt, alloc, &listener),
        || two_answered(rt, alloc, addr),
    );
    check(&rt, "all are served", served == 2 * REQUESTS);
    check(&rt, "all are answered", both == (REQUESTS, REQUESTS));
}
