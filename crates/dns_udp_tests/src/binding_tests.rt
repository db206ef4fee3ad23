ghost use Rattle.std.specs.Prelude.{◌≤◌, All};

use crate::heard::{Heard, heard_made};
use crate::parts::{check, server};
use crate::watching::Watching;
use dns_handle::IoKind;
use dns_link::Dialer;
use dns_multiplexer::ListDraws;
use dns_udp::{UdpSocket, UdpStream};
use std::alloc::Global;
use std::collections::BTreeSet;
use std::net::{IpAddr, Ipv4Addr, SocketAddr};
use std::process::Abort;

/// Every address of version 4, with a port.
fn any(port: u16) -> SocketAddr {
    SocketAddr::new(IpAddr::V4(Ipv4Addr::UNSPECIFIED), port)
}

/// How a stream is made, and how it is bound.
struct Row {
    message: &'static str,
    /// The port that is chosen.
    chosen: Option<u16>,
    /// The port that isn't to be drawn.
    avoided: Option<u16>,
    /// 2000 is drawn so often, then 2001, and then 1024.
    drawn: u32,
    os_ports: bool,
    /// So many binds are refused.
    refusals: u32,
    /// How many binds there are, and the port of the last one.
    binds: u32,
    last: u16,
    heard: Heard,
}

/// A stream of which nothing is chosen.
const PLAIN: Row = Row {
    message: "a port is drawn",
    chosen: None,
    avoided: None,
    drawn: 1,
    os_ports: false,
    refusals: 0,
    binds: 1,
    last: 2000,
    heard: Heard::Made,
};

const ROWS: &[Row] = &[
    PLAIN,
    Row {
        message: "the system chooses",
        os_ports: true,
        last: 0,
        ..PLAIN
    },
    Row {
        message: "a port is avoided",
        avoided: Some(2000),
        last: 2001,
        ..PLAIN
    },
    Row {
        message: "a port is avoided nine times",
        avoided: Some(2000),
        drawn: 9,
        last: 2001,
        ..PLAIN
    },
    Row {
        message: "after ten draws of a port that is avoided the system chooses",
        avoided: Some(2000),
        drawn: 10,
        last: 0,
        ..PLAIN
    },
    Row {
        message: "a port is chosen",
        chosen: Some(7),
        last: 7,
        ..PLAIN
    },
    Row {
        message: "after a refusal another port is drawn",
        refusals: 1,
        binds: 2,
        last: 2001,
        ..PLAIN
    },
    Row {
        message: "so is after nine",
        refusals: 9,
        binds: 10,
        last: 1024,
        ..PLAIN
    },
    Row {
        message: "after ten the system chooses",
        refusals: 10,
        binds: 11,
        last: 0,
        ..PLAIN
    },
    Row {
        message: "it does so once more",
        refusals: 11,
        binds: 12,
        last: 0,
        ..PLAIN
    },
    Row {
        message: "the twelfth refusal is told",
        refusals: 12,
        binds: 12,
        last: 0,
        heard: Heard::Fault(IoKind::AddrInUse),
        ..PLAIN
    },
];

fn rows() -> &'static [Row] {
    ROWS
}

/// 2000 so often, and then 2001.
pub(crate) fn drawn(rt: &impl Abort, alloc: Global, times: u32) -> Vec<u16>
    ensures { All (λ port. 1024 ≤ port) result.items }
{
    let mut ports = Vec::new(alloc);
    for _ in 0..times {
        ports.push(2000u16).expect(rt, "memory");
    }
    ports.push(2001u16).expect(rt, "memory");
    ports
}

/// How a stream is made over a dialer.
fn heard_over(rt: &impl Abort, alloc: Global, dial: &mut Watching, row: &Row) -> Heard {
    let mut draws = ListDraws::new(Vec::new(alloc), drawn(rt, alloc, row.drawn));
    let mut avoid = BTreeSet::new(alloc);
    if let Some(port) = row.avoided {
        avoid.insert(port).expect(rt, "memory");
    }
    let bind = match row.chosen {
        Some(port) => Some(any(port)),
        None => None,
    };
    let made = UdpStream::new(
        alloc,
        dial,
        &mut draws,
        server(),
        bind,
        Some(avoid),
        row.os_ports,
    );
    heard_made(&made)
}

/// Whether a stream is bound as the row says.
fn holds(rt: &impl Abort, alloc: Global, row: &Row) -> bool {
    let mut dial = Watching::new(&[], &[], false, row.refusals);
    let heard = heard_over(rt, alloc, &mut dial, row);
    heard == row.heard && dial.binds == row.binds && dial.last == Some(any(row.last))
}

#[test]
fn a_stream_is_bound_as_the_rows_say(rt: HostRuntime) {
    for row in rows() {
        check(&rt, row.message, holds(&rt, rt.alloc(), row));
    }
}

/// Where a socket for the server is bound.
fn socket_bound(local: Option<SocketAddr>) -> Option<SocketAddr> {
    let mut dial = Watching::new(&[], &[], false, 0);
    let made = match local {
        None => UdpSocket::connect(&mut dial, server()),
        Some(local) => UdpSocket::connect_with_bind(&mut dial, server(), local),
    };
    if let Ok(socket) = made {
        dial.retire_datagrams(socket);
    }
    dial.last
}

#[test]
fn a_socket_is_bound_once(rt: HostRuntime) {
    let anywhere = socket_bound(None) == Some(any(0));
    check(&rt, "a socket is bound at any address", anywhere);
    let as_told = socket_bound(Some(any(7))) == Some(any(7));
    check(&rt, "a socket is bound where it is told to", as_told);
}
