//! The examples that stand with a dialer over sockets and with a stream's `feed`, word for word.
use crate::parts::check;
use crate::stream_parts::{link_of, stream_over};
use dns_handle::NetError;
use dns_link::{Dialer, Link, SocketDialer};
use dns_multiplexer::SerialMessage;
use dns_tcp::{Feed, TcpStream};
use std::alloc::Global;
use std::net::{Net, SocketAddr, TcpListener};
use std::process::Abort;
use std::time::Clock;

fn is_listening<R: Net + Clock + Copy + Drop>(net: R, server: SocketAddr) -> bool {
    let mut dial = SocketDialer::new(net);
    dial.connect(server, None, 2000).is_ok()
}

fn next_message<L: Link + Drop>(
    stream: &mut TcpStream<L>,
    reads: u32,
) -> Result<Option<SerialMessage>, NetError> {
    for _ in 0..reads {
        match stream.feed()? {
            Feed::Message(message) => return Ok(Some(message)),
            Feed::Closed => return Ok(None),
            Feed::More => {}
        }
    }
    Ok(None)
}

#[test]
fn the_example_of_a_dialer_tells_whether_anybody_listens(rt: HostRuntime) {
    let listener = TcpListener::bind(&rt, "127.0.0.1:0").expect(&rt, "a listener");
    let addr = listener.local_addr().expect(&rt, "an address");
    check(&rt, "somebody listens", is_listening(&rt, addr));
    // frees the port, so that nobody listens at it
    drop(listener);
    check(&rt, "nobody listens", !is_listening(&rt, addr));
}

/// The length of the next message of a link that gives a message of two bytes in two pieces and then ends, after so many reads at most.
fn next_length(rt: &impl Abort, alloc: Global, reads: u32) -> Option<usize> {
    let mut stream = stream_over(alloc, link_of(rt, alloc, &[&[0, 2, 7], &[8]]));
    let next = next_message(&mut stream, reads);
    let message = next.ok().expect(rt, "no fault");
    message.map(|message| message.bytes.len())
}

#[test]
fn the_example_of_feed_gives_the_next_message(rt: HostRuntime) {
    check(&rt, "a message", next_length(&rt, rt.alloc(), 3) == Some(2));
    check(
        &rt,
        "too few reads",
        next_length(&rt, rt.alloc(), 2) == None,
    );
}
