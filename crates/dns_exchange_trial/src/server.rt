//! A server of this machine, which sends back what it reads, marked as a response.
use std::alloc::{AllocError, Global};
use std::io::{Read, Write};
use std::net::TcpListener;
use std::thread;
use std::thread::Threads;

/// The bytes of a request without a question, behind their length.
pub(crate) const FRAME: usize = 14;

// Answers so many requests of a connection, and counts them.
fn serve_all<S: Read + Write>(stream: &mut S, count: u32) -> u64 {
    let mut buf = [0u8; FRAME];
    let mut served: u64 = 0;
    for _ in 0..count {
        if stream.read_exact(&mut buf).is_err() {
            break;
        }
        buf[4] = 0x80;
        if stream.write_all(&buf).is_err() {
            break;
        }
        served = served.saturating_add(1);
    }
    served
}

/// The same of the first connection of a listener.
pub(crate) fn serve(listener: &TcpListener, count: u32) -> u64 {
    match listener.accept() {
        Ok((mut stream, _)) => {
            // As name servers do: else the system holds a response back while the client hasn't said that it has the one before.
            let _ = stream.set_nodelay(true);
            serve_all(&mut stream, count)
        }
        Err(_) => 0,
    }
}

/// The same of so many connections side by side.
pub(crate) fn serve_each<T: Threads + Sync>(
    threads: &T,
    alloc: Global,
    listener: &TcpListener,
    connections: usize,
    count: u32,
) -> Result<Vec<u64>, AllocError> {
    thread::map_indices(threads, alloc, connections, &|_| serve(listener, count))
}
