//! Requests over sockets of this machine, and the server that answers them.
use crate::asking::{ask, ask_apart, echo};
use crate::form::Work;
use crate::holders::{HOLDERS, ask_shared};
use crate::server::serve_each;
use dns_handle::NetError;
use dns_record::NoMemory;
use std::alloc::Global;
use std::net::{SocketAddr, TcpListener};
use std::sync::Wait;
use std::thread::{Threads, join};

// So many connections are made.
fn connections(work: Work) -> usize {
    match work {
        Work::Apart => HOLDERS,
        _ => 1,
    }
}

// So many requests go over each, where each thread makes so many.
fn requests(work: Work, count: u32) -> u32 {
    match work {
        Work::Shared => count.saturating_mul(HOLDERS as u32),
        _ => count,
    }
}

// How many requests are answered, so many of each thread.
fn ask_by<T: Threads + Wait + Copy + Send + Sync>(
    rt: &HostRuntime,
    threads: &T,
    alloc: Global,
    work: Work,
    server: SocketAddr,
    count: u32,
) -> Result<u64, NetError> {
    match work {
        Work::Asked => ask(rt, alloc, server, count),
        Work::Shared => ask_shared(rt, *threads, alloc, server, count),
        Work::Apart => ask_apart(rt, threads, alloc, server, HOLDERS, count),
        _ => Ok(echo(rt, server, count)),
    }
}

// The same by a listener of this machine.
fn answered_by<T: Threads + Wait + Copy + Send + Sync>(
    rt: &HostRuntime,
    threads: &T,
    alloc: Global,
    work: Work,
    listener: &TcpListener,
    count: u32,
) -> Result<u64, NetError> {
    let Ok(server) = listener.local_addr() else {
        return Ok(0);
    };
    let each = requests(work, count);
    let (_, answered) = join(
        threads,
        || serve_each(threads, alloc, listener, connections(work), each),
        || ask_by(rt, threads, alloc, work, server, count),
    );
    answered
}

/// How many requests a server of this machine answers, so many of each thread; none where there is no such server.
pub(crate) fn answered<T: Threads + Wait + Copy + Send + Sync>(
    rt: &HostRuntime,
    threads: &T,
    alloc: Global,
    work: Work,
    count: u32,
) -> Result<u64, NoMemory> {
    let Ok(listener) = TcpListener::bind(rt, "127.0.0.1:0") else {
        return Ok(0);
    };
    match answered_by(rt, threads, alloc, work, &listener, count) {
        Ok(answered) => Ok(answered),
        Err(NetError::NoMemory) => Err(NoMemory),
        Err(_) => Ok(0),
    }
}
