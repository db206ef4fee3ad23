//! Datagrams as they are, over one socket (RFC 1035, 4.2.1).
ghost use Rattle.std.specs.Prelude.{◌≡◌, ◌≢◌, ◌≤◌, ◌⊎◌, Err, [], ◌∷◌, IfErr, IfOk, IfSome, length, replicate};
ghost use Rattle.dns_handle.specs.declared.error.NetError.TheVariants as errors;
ghost use Rattle.dns_multiplexer.specs.Queues.{IsPut};
ghost use Rattle.dns_udp.specs.Bindings.{DrawsPorts};
ghost use Rattle.dns_udp.specs.Met.{dialer_view};
ghost use Rattle.dns_udp.specs.StreamViews.{queue_of, socket_of};
ghost use Rattle.dns_udp.specs.Streams.{AreSent, AreSentOnce, HasAsked, HasCome, HasReceived, IsBindingFor, IsSentOnce, IsStreamMade, most_received};

use crate::binding::{Binding, any_address};
use dns_handle::NetError;
use dns_link::{Datagrams, Dialer};
use dns_multiplexer::{BufDnsStreamHandle, DnsStreamHandle, Draws, SerialMessage, StreamReceiver};
use dns_record::{NoMemory, Octets};
use std::alloc::Global;
use std::collections::BTreeSet;
use std::net::SocketAddr;

/// The most bytes of a datagram that is received.
pub const MAX_RECEIVE_BUFFER_SIZE: usize = 4096;

/// Datagrams as they are, over one socket (RFC 1035, 4.2.1).
#[derive(Drop)]
pub struct UdpStream<G: Drop> {
    socket: G,
    queue: StreamReceiver,
}

/// A buffer of so many bytes for datagrams.
pub fn receive_buffer(alloc: Global, size: usize) -> Result<Vec<u8>, NoMemory>
    ensures { IfOk result (λ buf. length buf.items ≡ size) }
{
    let mut buf = Vec::new(alloc);
    buf.resize(size, 0u8)?;
    Ok(buf)
}

/// Where the socket of a stream is bound.
fn binding_for(
    alloc: Global,
    server: &SocketAddr,
    bind: Option<SocketAddr>,
    avoid: Option<BTreeSet<u16>>,
    os_ports: bool,
) -> Binding
    ensures { IsBindingFor server.now bind avoid os_ports result }
{
    Binding {
        local: bind.unwrap_or(any_address(server)),
        avoid: avoid.unwrap_or(BTreeSet::new(alloc)),
        os_ports,
    }
}

/// Sends a message once; what becomes of it isn't told.
fn send_one<G: Datagrams>(socket: &mut G, message: &SerialMessage)
    ensures counts { IsSentOnce message.now (G.counts socket.old) (G.counts socket.new) }
    ensures given { G.given socket.new ≡ G.given socket.old }
    ensures asked { AreSent (message.now ∷ []) (G.calls socket.old) (G.calls socket.new) }
{
    let _ = socket.send_to(message.bytes.as_slice(), message.addr);
}

/// Sends all messages that wait, in order.
fn send_all<G: Datagrams>(socket: &mut G, queue: &mut StreamReceiver)
    ensures counts { AreSentOnce queue.old (G.counts socket.old) (G.counts socket.new) }
    ensures given { G.given socket.new ≡ G.given socket.old }
    ensures queue { queue.new ≡ [] }
    ensures asked { AreSent queue.old (G.calls socket.old) (G.calls socket.new) }
{
    while let Some(message) = queue.pop() {
        send_one(socket, &message);
    }
}

/// Waits once for a datagram, in the room of `buf`.
fn receive_one<G: Datagrams>(
    socket: &mut G,
    mut buf: Vec<u8>,
) -> Result<Option<SerialMessage>, NetError>
    ensures come { HasCome (G.counts socket.old) (G.counts socket.new) (G.given socket.old) (G.given socket.new) result }
    ensures most { IfOk result (λ came. IfSome came (λ m. length m.bytes ≤ length buf.items)) }
    ensures error { IfErr result (λ e. e ≢ errors.NoMemory) }
    ensures asked { HasAsked [] (G.calls socket.old) (G.calls socket.new) result }
{
    let Some((len, from)) = socket.recv_from(&mut buf)? else {
        return Ok(None);
    };
    buf.truncate(len);
    Ok(Some(SerialMessage {
        bytes: Octets::from_vec(buf),
        addr: from,
    }))
}

impl<G: Datagrams + Drop> UdpStream<G> {
    /// A stream over a socket that is made for it by [`Binding::bind`]: at `bind`, else at every address of the server's family
    /// and port 0. Where the port is 0 and the system isn't to choose it, ports are drawn that aren't avoided. The handle puts
    /// datagrams for the server into its queue. The last refusal is the only error.
    pub fn new<D: Dialer<Datagrams = G>, R: Draws>(
        alloc: Global,
        dial: &mut D,
        draws: &mut R,
        remote: SocketAddr,
        bind: Option<SocketAddr>,
        avoid: Option<BTreeSet<u16>>,
        os_ports: bool,
    ) -> Result<(UdpStream<G>, BufDnsStreamHandle), NetError>
        ensures made { IsStreamMade R.draws_port (IsBindingFor remote bind avoid os_ports) draws.old draws.new G.counts G.given
            remote (dialer_view D.counts D.given_datagrams dial.old) (dialer_view D.counts D.given_datagrams dial.new)
            (D.calls dial.old) (D.calls dial.new) result }
        ensures bytes { D.given_bytes dial.new ≡ D.given_bytes dial.old }
        ensures ports { DrawsPorts R.draws_port draws.old draws.new }
    {
        let binding = binding_for(alloc, &remote, bind, avoid, os_ports);
        let mut attempted = 0;
        let socket = binding.bind(dial, draws, &mut attempted)?;
        Ok(UdpStream::with_bound(alloc, socket, remote))
    }

    /// A stream over a socket that is bound, and a handle that puts datagrams for a server into its queue.
    pub fn with_bound(
        alloc: Global,
        socket: G,
        remote: SocketAddr,
    ) -> (UdpStream<G>, BufDnsStreamHandle)
        ensures socket { socket_of result.0 ≡ socket }
        ensures queue { queue_of result.0 ≡ [] }
        ensures handle { result.1 ≡ record { addr = remote; buffer = 32 } }
    {
        let (handle, queue) = BufDnsStreamHandle::new(alloc, remote);
        (UdpStream { socket, queue }, handle)
    }

    /// Puts a message into the queue, under the handle's address. `SendQueueFull` comes only where one more waits than the
    /// handle's buffer holds, which is 33 messages for the handle that `new` and `with_bound` give; where memory runs out, and where
    /// the queue is full, nothing changes.
    pub fn enqueue(
        &mut self,
        handle: &mut BufDnsStreamHandle,
        message: SerialMessage,
    ) -> Result<(), NetError>
        requires { message.bytes ≢ [] }
        ensures put { IsPut handle.old.addr handle.old.buffer message (queue_of self.old) (queue_of self.new) result }
        ensures socket { socket_of self.new ≡ socket_of self.old }
        ensures handle { handle.new ≡ handle.old }
    {
        handle.send(&mut self.queue, message)
    }

    /// Sends all messages that wait, each once and in order; one whose send fails is dropped. Then it waits once for a datagram,
    /// of 4,096 bytes at most. None comes exactly where none came in time; an error other than running out of memory where the wait
    /// failed. Where memory runs out nothing is sent.
    pub fn receive(&mut self, alloc: Global) -> Result<Option<SerialMessage>, NetError>
        ensures received { (result ≡ Err errors.NoMemory) ⊎ HasReceived (queue_of self.old) (G.counts (socket_of self.old))
            (G.counts (socket_of self.new)) (G.given (socket_of self.old)) (G.given (socket_of self.new)) result }
        ensures queue { (result ≡ Err errors.NoMemory) ⊎ (queue_of self.new ≡ []) }
        ensures memory { result ≡ Err errors.NoMemory → self.new ≡ self.old }
        ensures asked { (result ≡ Err errors.NoMemory)
            ⊎ HasAsked (queue_of self.old) (G.calls (socket_of self.old)) (G.calls (socket_of self.new)) result }
        ensures most { IfOk result (λ came. IfSome came (λ m. length m.bytes ≤ most_received)) }
    {
        let buf = receive_buffer(alloc, MAX_RECEIVE_BUFFER_SIZE)?;
        send_all(&mut self.socket, &mut self.queue);
        receive_one(&mut self.socket, buf)
    }
}
