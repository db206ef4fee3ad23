//! A listener over std's sockets: the edge to the system.
ghost use Rattle.std.specs.Prelude.{◌≡◌, IfOk, Ok};
ghost use Rattle.dns_listener.specs.Listening.{nothing_listened, nothing_met};
ghost use Rattle.dns_listener.specs.Sockets.{socket_met, sockets_counts};

use crate::datagram_port::DatagramPort;
use crate::listener::Listener;
use crate::listener_tally::ListenerTally;
use crate::port_counts::PortCounts;
use crate::stream_port::StreamPort;
use dns_handle::IoKind;
use dns_link::{SocketDatagrams, SocketLink, kind_of};
use dns_ports::{Port, PortFault};
use dns_record::Octets;
use std::alloc::Global;
use std::io::{self, ErrorKind};
use std::net::{Net, OpenListener, OpenStream, SocketAddr, TcpListener, UdpSocket};
use std::time::{Clock, Duration};

/// A client that says nothing for so many seconds is given up.
const SILENCE_SECONDS: u64 = 60;

/// A port over a socket.
#[derive(Drop)]
pub enum SocketPort<R: Net + Clock + Drop> {
    Datagrams(DatagramPort<SocketDatagrams<R>>),
    Stream(StreamPort<SocketLink<R::Stream>>),
}

impl<R: Net + Clock + Drop> SocketPort<R> {
    // What it met.
    fn counts(&self) -> &PortCounts
        ensures { result.now ≡ socket_met self.now }
    {
        match self {
            SocketPort::Datagrams(port) => port.counts(),
            SocketPort::Stream(port) => port.counts(),
        }
    }
}

/// It tells nothing of requests and replies.
impl<R: Net + Clock + Drop> Port for SocketPort<R> {
    ghost use Rattle.std.specs.Prelude.{None};
    ghost use Rattle.dns_listener.specs.Sockets.{socket_met};

    ghost faults = { λ p. (socket_met p).faults };

    ghost gots = { λ p. (socket_met p).gots };

    ghost ends = { λ p. (socket_met p).ends };

    ghost received = { λ _. None };

    ghost replied = { λ _. None };

    fn receive(&mut self) -> Result<Option<Octets>, PortFault> {
        match self {
            SocketPort::Datagrams(port) => port.receive(),
            SocketPort::Stream(port) => port.receive(),
        }
    }

    fn reply(&mut self, bytes: &[u8]) -> Result<(), IoKind> {
        match self {
            SocketPort::Datagrams(port) => port.reply(bytes),
            SocketPort::Stream(port) => port.reply(bytes),
        }
    }
}

/// A listener over std's sockets. It begins to listen for connections at the first `accept`, at that address; later calls wait there too,
/// whatever address they give.
#[derive(Drop)]
pub struct SocketListener<R: Net + Clock + Drop> {
    net: R,
    alloc: Global,
    connections: Option<R::Listener>,
    tally: ListenerTally,
}

impl<R: Net + Clock + Copy + Drop> SocketListener<R> {
    /// A listener over the network of a runtime.
    pub fn new(net: R, alloc: Global) -> SocketListener<R>
        ensures { sockets_counts result ≡ nothing_listened }
    {
        SocketListener {
            net,
            alloc,
            connections: None,
            tally: ListenerTally::new(),
        }
    }
}

// A port for the datagrams that come to an address.
fn open_datagrams<R: Net + Clock + Copy + Drop>(
    net: R,
    alloc: Global,
    local: SocketAddr,
) -> Result<SocketPort<R>, IoKind>
    ensures { IfOk result (λ port. socket_met port ≡ nothing_met) }
{
    let socket = match UdpSocket::bind(&net, local) {
        Ok(socket) => SocketDatagrams::new(socket, net),
        Err(error) => return Err(kind_of(&error)),
    };
    match DatagramPort::new(alloc, socket) {
        Ok(port) => Ok(SocketPort::Datagrams(port)),
        Err(_) => Err(IoKind::Other),
    }
}

// The next client's stream, and its address. A read of it waits for so long at most, and replies are sent at once.
fn next_stream<L: OpenListener>(listener: &L) -> io::Result<(L::Stream, SocketAddr)>
where
    L::Stream: OpenStream,
{
    for _ in 0..u64::MAX {
        match listener.accept() {
            Ok((stream, client)) => {
                stream.set_nodelay(true)?;
                stream.set_read_timeout(Some(Duration::from_secs(SILENCE_SECONDS)))?;
                stream.set_write_timeout(Some(Duration::from_secs(SILENCE_SECONDS)))?;
                return Ok((stream, client));
            }
            Err(error) if error.kind() == ErrorKind::Interrupted => (),
            Err(error) => return Err(error),
        }
    }
    Err(io::Error::from(ErrorKind::Other))
}

// Begins to listen at an address, where that wasn't begun yet.
fn listen<R: Net>(
    net: &R,
    connections: &mut Option<R::Listener>,
    local: SocketAddr,
) -> io::Result<()> {
    if connections.is_none() {
        *connections = Some(TcpListener::bind(net, local)?);
    }
    Ok(())
}

// A port for the next client that connects to an address.
fn open_stream<R: Net + Clock + Copy + Drop>(
    net: R,
    alloc: Global,
    connections: &mut Option<R::Listener>,
    local: SocketAddr,
) -> io::Result<SocketPort<R>>
    ensures { IfOk result (λ port. socket_met port ≡ nothing_met) }
{
    listen(&net, connections, local)?;
    let Some(listener) = connections else {
        return Err(io::Error::from(ErrorKind::NotConnected));
    };
    let (stream, client) = next_stream(listener)?;
    let port = StreamPort::new(alloc, SocketLink::new(stream), client);
    Ok(SocketPort::Stream(port))
}

impl<R: Net + Clock + Copy + Drop> Listener for SocketListener<R> {
    ghost use Rattle.std.specs.Prelude.{None};
    ghost use Rattle.dns_listener.specs.Sockets.{sockets_counts};

    type Port = SocketPort<R>;

    ghost counts = { sockets_counts };

    ghost told = { λ _. None };

    fn udp(&mut self, local: SocketAddr) -> Result<SocketPort<R>, IoKind> {
        let made = open_datagrams(self.net, self.alloc, local);
        self.tally.count_listening(&made);
        made
    }

    fn accept(&mut self, local: SocketAddr) -> Result<SocketPort<R>, IoKind> {
        let made = match open_stream(self.net, self.alloc, &mut self.connections, local) {
            Ok(port) => Ok(port),
            Err(error) => Err(kind_of(&error)),
        };
        self.tally.count_listening(&made);
        made
    }

    fn retire(&mut self, port: SocketPort<R>) {
        self.tally.add(port.counts());
    }
}
