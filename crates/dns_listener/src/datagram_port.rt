//! A port over datagrams (RFC 1035, 4.2.1).
ghost use Rattle.std.specs.Prelude.{◌≡◌, ◌≤◌, None, IfOk, IfSome, IsOk, length, vec_len};
ghost use Rattle.dns_ports.specs.Ports.{ReceiveHasCause, ReplyHasCause, ends_after, gots_after};
ghost use Rattle.dns_listener.specs.Datagrams.{Receives, Sends, Waited, came_in, socket_view};
ghost use Rattle.dns_listener.specs.Listening.{after_receiving, nothing_met};
ghost use Rattle.dns_listener.specs.Ports.{client_of, datagrams_met, socket_of};

use crate::port_counts::PortCounts;
use dns_handle::IoKind;
use dns_link::Datagrams;
use dns_ports::{Port, PortFault};
use dns_record::{NoMemory, Octets};
use std::alloc::Global;
use std::net::SocketAddr;

/// So long a datagram may be: whatever is longer would be cut, and a request that was cut short is no message.
const MOST_BYTES: usize = 65_535;

/// So often in a row nothing may come.
const MOST_WAITS: u32 = 600;

/// A port for the datagrams of a socket. A reply goes to who sent the request that was given last. One that can't be sent, as to an
/// address that was forged, is passed over as if it had been lost on its way: no request ends the port. It gives none after 600 waits
/// in a row in which nothing came.
#[derive(Drop)]
pub struct DatagramPort<D: Datagrams + Drop> {
    socket: D,
    buffer: Vec<u8>,
    client: Option<SocketAddr>,
    counts: PortCounts,
}

// A buffer for any datagram.
fn buffer_of(alloc: Global) -> Result<Vec<u8>, NoMemory>
    ensures { IfOk result (λ buffer. vec_len buffer ≡ 65535) }
{
    Ok(vec![in alloc; 0u8; MOST_BYTES]?)
}

impl<D: Datagrams + Drop> DatagramPort<D> {
    /// A port over a socket that is bound. The only error is that memory ran out.
    pub fn new(alloc: Global, socket: D) -> Result<DatagramPort<D>, NoMemory>
        ensures met { IfOk result (λ port. datagrams_met port ≡ nothing_met) }
        ensures socket { IfOk result (λ port. socket_of port ≡ socket) }
        ensures client { IfOk result (λ port. client_of port ≡ None) }
    {
        let buffer = buffer_of(alloc)?;
        Ok(DatagramPort {
            socket,
            buffer,
            client: None,
            counts: PortCounts::new(),
        })
    }

    /// What it met.
    pub(crate) fn counts(&self) -> &PortCounts
        ensures { result.now ≡ datagrams_met self.now }
    {
        &self.counts
    }
}

// Waits for a datagram, and puts it into a buffer: its length, and who sent it.
fn next_datagram<D: Datagrams>(
    socket: &mut D,
    buffer: &mut [u8],
) -> Result<Option<(usize, SocketAddr)>, IoKind>
    ensures bound { IfOk result (λ came. IfSome came (λ d. d.0 ≤ length buffer.new)) }
    ensures waited { Waited (socket_view D.counts D.given D.calls) socket.old socket.new (came_in result buffer.new) }
{
    let mut left = MOST_WAITS;
    'wait: while left > 0 {
        left -= 1;
        if let Some(came) = socket.recv_from(buffer)? {
            return Ok(Some(came));
        }
    }
    Ok(None)
}

// The next datagram, or none where nothing came for long. Its sender is kept.
fn next_request<D: Datagrams>(
    alloc: Global,
    socket: &mut D,
    buffer: &mut [u8],
    client: &mut Option<SocketAddr>,
) -> Result<Option<Octets>, PortFault>
    ensures { Receives (socket_view D.counts D.given D.calls) socket.old socket.new client.new result }
{
    let came = match next_datagram(socket, buffer) {
        Ok(came) => came,
        Err(kind) => return Err(PortFault::Io(kind)),
    };
    let Some((len, from)) = came else {
        return Ok(None);
    };
    let Ok(request) = Octets::from_slice(alloc, &buffer[..len]) else {
        return Err(PortFault::NoMemory);
    };
    *client = Some(from);
    Ok(Some(request))
}

// Sends bytes to a client, if there is one, whatever becomes of them.
fn send<D: Datagrams>(socket: &mut D, client: Option<SocketAddr>, bytes: &[u8])
    ensures { Sends (socket_view D.counts D.given D.calls) socket.old socket.new client bytes.now }
{
    let Some(client) = client else {
        return;
    };
    let _sent = socket.send_to(bytes, client);
}

/// It tells nothing of requests and replies.
impl<D: Datagrams + Drop> Port for DatagramPort<D> {
    ghost use Rattle.std.specs.Prelude.{None};
    ghost use Rattle.dns_listener.specs.Ports.{datagrams_met};

    ghost faults = { λ p. (datagrams_met p).faults };

    ghost gots = { λ p. (datagrams_met p).gots };

    ghost ends = { λ p. (datagrams_met p).ends };

    ghost received = { λ _. None };

    ghost replied = { λ _. None };

    /// The next datagram, whole. None after 600 waits in a row in which none came, and `Io` where the socket failed.
    fn receive(&mut self) -> Result<Option<Octets>, PortFault>
        ensures gots { (datagrams_met self.new).gots ≡ gots_after (datagrams_met self.old).gots result }
        ensures ends { (datagrams_met self.new).ends ≡ ends_after (datagrams_met self.old).ends result }
        ensures later { (datagrams_met self.old).faults ≤ (datagrams_met self.new).faults }
        ensures cause { ReceiveHasCause (datagrams_met self.old).faults (datagrams_met self.new).faults result }

        // What each answer comes from.
        ensures met { datagrams_met self.new ≡ after_receiving result (datagrams_met self.old) }
        ensures came { Receives (socket_view D.counts D.given D.calls) (socket_of self.old) (socket_of self.new) (client_of self.new) result }
    {
        let alloc = *self.buffer.allocator();
        let given = next_request(
            alloc,
            &mut self.socket,
            self.buffer.as_mut_slice(),
            &mut self.client,
        );
        self.counts.count_receive(&given);
        given
    }

    /// Sends one datagram to the client whose request was given last; whether it can be sent isn't told.
    fn reply(&mut self, bytes: &[u8]) -> Result<(), IoKind>
        ensures gots { (datagrams_met self.new).gots ≡ (datagrams_met self.old).gots }
        ensures ends { (datagrams_met self.new).ends ≡ (datagrams_met self.old).ends }
        ensures later { (datagrams_met self.old).faults ≤ (datagrams_met self.new).faults }
        ensures cause { ReplyHasCause (datagrams_met self.old).faults (datagrams_met self.new).faults result }

        // It never fails.
        ensures passed { IsOk result }
        ensures met { datagrams_met self.new ≡ datagrams_met self.old }
        ensures sent { Sends (socket_view D.counts D.given D.calls) (socket_of self.old) (socket_of self.new) (client_of self.old) bytes.now }
        ensures client { client_of self.new ≡ client_of self.old }
    {
        send(&mut self.socket, self.client, bytes);
        Ok(())
    }
}
