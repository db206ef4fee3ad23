//! Requests to a server of this machine by handles, and by plain sockets of std.

use crate::counts::sum;
use crate::measured::request;
use crate::server::FRAME;
use dns_handle::{DnsHandle, NetError};
use dns_link::SocketDialer;
use dns_multiplexer::RandDraws;
use dns_tcp::TcpExchange;
use std::alloc::Global;
use std::io::{Read, Write};
use std::net::{SocketAddr, TcpStream};
use std::thread;
use std::thread::Threads;

/// Sends so many requests by a handle, and counts the answers.
pub(crate) fn ask_all<H: DnsHandle>(alloc: Global, handle: &mut H, count: u32) -> u64 {
    let mut answered: u64 = 0;
    for _ in 0..count {
        let answer = handle.send(alloc, request(alloc), 1000);
        answered = answered.saturating_add(u64::from(answer.is_ok()));
    }
    answered
}

/// The same over a new connection.
pub(crate) fn ask(
    rt: &HostRuntime,
    alloc: Global,
    server: SocketAddr,
    count: u32,
) -> Result<u64, NetError> {
    let mut dial = SocketDialer::new(rt);
    let draws = RandDraws::from_seed(1);
    let mut exchange = TcpExchange::connect(alloc, &mut dial, server, None, 5000, None, draws)?;
    Ok(ask_all(alloc, &mut exchange, count))
}

/// The same over so many new connections, by a thread each.
pub(crate) fn ask_apart<T: Threads + Sync>(
    rt: &HostRuntime,
    threads: &T,
    alloc: Global,
    server: SocketAddr,
    connections: usize,
    count: u32,
) -> Result<u64, NetError> {
    let counts = thread::map_indices(
        threads,
        alloc,
        connections,
        &|_| { ask(rt, alloc, server, count).unwrap_or(0) },
    )?;
    Ok(sum(&counts))
}

// Writes and reads as many bytes by a plain stream.
fn echo_all<S: Read + Write>(stream: &mut S, count: u32) -> u64 {
    let mut buf = [0u8; FRAME];
    buf[1] = 12;
    let mut answered: u64 = 0;
    for _ in 0..count {
        if stream.write_all(&buf).is_err() || stream.read_exact(&mut buf).is_err() {
            break;
        }
        answered = answered.saturating_add(1);
    }
    answered
}

/// The same by a new socket.
pub(crate) fn echo(rt: &HostRuntime, server: SocketAddr, count: u32) -> u64 {
    match TcpStream::connect(rt, server) {
        Ok(mut stream) => echo_all(&mut stream, count),
        Err(_) => 0,
    }
}
