use crate::binding_tests::drawn;
use crate::parts::check;
use dns_handle::IoKind;
use dns_link::{Clock, Datagrams, Dialer, FixedClock, SocketDatagrams, SocketDialer, SystemClock};
use dns_multiplexer::ListDraws;
use dns_udp::{Retries, next_port};
use std::alloc::Global;
use std::collections::BTreeSet;
use std::net::{IpAddr, Ipv4Addr, Net, SocketAddr, UdpSocket};
use std::process::Abort;
use std::thread;
use std::time::{self, Duration, Instant};

/// The port that is drawn where 2000 is avoided and so many draws give it before 2001, and how many attempts there were.
fn attempted(rt: &impl Abort, alloc: Global, avoided: u32) -> (u16, u8) {
    let mut avoid = BTreeSet::new(alloc);
    avoid.insert(2000u16).expect(rt, "memory");
    let mut draws = ListDraws::new(Vec::new(alloc), drawn(rt, alloc, avoided));
    let mut attempted = 0;
    let port = next_port(&mut draws, &mut attempted, &avoid);
    (port, attempted)
}

/// How many draws give a port that is avoided, the port that is drawn then, and the attempts.
const AVOIDED: &[(&str, u32, (u16, u8))] = &[
    ("none is avoided", 0, (2001, 0)),
    ("one is avoided", 1, (2001, 1)),
    ("nine are avoided", 9, (2001, 9)),
    ("ten draws and none more", 10, (0, 10)),
];

#[test]
fn an_avoided_port_is_passed(rt: HostRuntime) {
    for row in AVOIDED {
        let held = attempted(&rt, rt.alloc(), row.1) == row.2;
        check(&rt, row.0, held);
    }
}

// The example of `Retries::tries`, word for word.
fn sends_in_a_second() -> u64 {
    Retries::new(333, 5).tries(1000)
}

#[test]
fn a_request_is_tried_again_after_each_interval(rt: HostRuntime) {
    check(&rt, "four sends in a second", sends_in_a_second() == 4);
    let retries = Retries::new(200, 5);
    check(
        &rt,
        "each interval is a try more",
        retries.tries(100) == 1 && retries.tries(500) == 3 && retries.tries(1500) == 5,
    );
    check(
        &rt,
        "there is one try at least, and no more than may be",
        retries.tries(u64::MAX) == 5 && Retries::new(0, 0).tries(u64::MAX) == 1,
    );
}

#[test]
fn a_fixed_clock_stands_and_that_of_the_system_goes(rt: HostRuntime) {
    check(
        &rt,
        "a fixed clock stands",
        FixedClock::new(1000).now() == 1000,
    );
    check(
        &rt,
        "the clock of the system goes",
        SystemClock::new(&rt).now() > 1_600_000_000,
    );
}

/// By how much a clock goes on in two seconds.
fn seconds_passed(rt: &HostRuntime) -> u64 {
    let mut clock = SystemClock::new(rt);
    let before = clock.now();
    thread::sleep(rt, Duration::from_millis(2000));
    clock.now().saturating_sub(before)
}

#[test]
fn a_clock_is_read_each_time(rt: HostRuntime) {
    check(&rt, "two seconds pass", seconds_passed(&rt) >= 1);
}

/// What a wait for a datagram is answered by a machine that says that nobody hears at the other side (RFC 1122, 4.1.3.1).
fn refused<R: Net + time::Clock + Abort>(rt: &R) -> Option<IoKind> {
    let other = UdpSocket::bind(rt, "127.0.0.1:0").expect(rt, "a socket");
    let nobody = other.local_addr().expect(rt, "an address");
    // frees the port, so that nobody hears at it
    drop(other);
    let socket = UdpSocket::bind(rt, "127.0.0.1:0").expect(rt, "a socket");
    socket.connect(nobody).expect(rt, "a peer");
    let mut datagrams = SocketDatagrams::new(socket, rt);
    let _ = datagrams.send_to(b"x", nobody);
    datagrams.recv_from(&mut [0u8; 8]).err()
}

#[test]
fn a_fault_of_a_socket_is_told(rt: HostRuntime) {
    check(
        &rt,
        "nobody hears",
        refused(&rt) == Some(IoKind::ConnectionRefused),
    );
}

/// For how long a socket waits to which nothing comes.
fn waited<R: Net + time::Clock + Abort>(rt: &R) -> Duration {
    let socket = UdpSocket::bind(rt, "127.0.0.1:0").expect(rt, "a socket");
    let mut datagrams = SocketDatagrams::new(socket, rt);
    let began = Instant::now(rt).expect(rt, "a clock");
    let came = datagrams.recv_from(&mut [0u8; 8]);
    check(rt, "nothing comes", matches!(came, Ok(None)));
    began.elapsed(rt).expect(rt, "a clock")
}

#[test]
fn a_socket_waits_for_a_tenth_of_a_second(rt: HostRuntime) {
    let passed = waited(&rt);
    let is_tick = passed >= Duration::from_millis(90) && passed < Duration::from_millis(900);
    check(&rt, "a wait is a tick", is_tick);
}

/// What a connection from a local address is answered: std has none.
fn bound(rt: &HostRuntime) -> Option<IoKind> {
    let local = SocketAddr::new(IpAddr::V4(Ipv4Addr::new(127, 0, 0, 1)), 0);
    let mut dial = SocketDialer::new(rt);
    dial.connect(local, Some(local), 1).err()
}

#[test]
fn a_stream_has_no_local_address(rt: HostRuntime) {
    check(
        &rt,
        "a stream has no local address",
        bound(&rt) == Some(IoKind::Other),
    );
}
