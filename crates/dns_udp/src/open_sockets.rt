//! The sockets of a call: made, sent on, waited on by turns, and given back.
ghost use Rattle.std.specs.Prelude.{◌≡◌, ◌<◌, ◌≤◌, ◌+◌, ◌%◌, ◌++◌, ◌∷◌, [], None, IfErr, IfOk, IfSome, OnOk, length, slice_set};
ghost use Rattle.dns_handle.specs.declared.error.NetError.TheVariants.{NoMemory};
ghost use Rattle.dns_link.specs.Calls.{fault_of};
ghost use Rattle.dns_link.specs.Moved.{received_by};
ghost use Rattle.dns_udp.specs.Asks.{AreTold, AsksMore, GivesBack, IsSentAs, ask_plan, ask_state, failure};
ghost use Rattle.dns_udp.specs.Bindings.{DrawsPorts};
ghost use Rattle.dns_udp.specs.Met.{dialer_view, one_met};
ghost use Rattle.dns_udp.specs.OpenSockets.{GivesAllBack, KeepsSocket, TurnsOne};
ghost use Rattle.dns_udp.specs.Waiting.{IsSentOn, OpensMore};

use crate::Binding;
use dns_handle::{IoKind, NetError, Notice};
use dns_link::{Datagrams, Dialer, NetCall};
use dns_multiplexer::Draws;
use std::collections::VecDeque;
use std::net::SocketAddr;

/// Sends the request on a socket.
fn send_on<G: Datagrams>(socket: &mut G, bytes: &[u8], server: SocketAddr) -> Result<(), NetError>
    ensures counts { IsSentOn (G.counts socket.old) (G.counts socket.new) result }
    ensures given { G.given socket.new ≡ G.given socket.old }
    ensures asked { IsSentAs (NetCall.Send bytes.now server) (G.calls socket.old) (G.calls socket.new) result }
{
    let taken = socket.send_to(bytes, server)?;
    if taken < bytes.len() {
        return Err(NetError::Message(Notice::NotAllBytesSent));
    }
    Ok(())
}

/// Puts a socket behind those that are open, or gives it back where there is no room for it.
fn keep_socket<D: Dialer>(
    dial: &mut D,
    sockets: &mut Vec<D::Datagrams>,
    socket: D::Datagrams,
) -> Result<(), NetError>
    ensures kept { KeepsSocket D.Datagrams.counts D.Datagrams.given (dialer_view D.counts D.given_datagrams dial.old)
        (dialer_view D.counts D.given_datagrams dial.new) sockets.old.items sockets.new.items socket }
    ensures behind { OnOk result (sockets.new.items ≡ sockets.old.items ++ socket ∷ []) }
    ensures dial { OnOk result (dial.new ≡ dial.old) }
    ensures len { OnOk result (length sockets.new.items ≡ length sockets.old.items + 1) }
    ensures memory { IfErr result (λ e. e ≡ NoMemory) }
{
    match sockets.push(socket) {
        Ok(()) => Ok(()),
        Err(refused) => {
            dial.retire_datagrams(refused.value);
            Err(NetError::NoMemory)
        }
    }
}

/// Makes a socket, sends the request on it and puts it behind those that are open, also where the send failed.
pub(crate) fn open_socket<D: Dialer, R: Draws>(
    binding: &Binding,
    dial: &mut D,
    draws: &mut R,
    server: SocketAddr,
    bytes: &[u8],
    sockets: &mut Vec<D::Datagrams>,
) -> Result<(), NetError>
    ensures opens { OpensMore D.Datagrams.counts D.Datagrams.given (dialer_view D.counts D.given_datagrams dial.old)
        (dialer_view D.counts D.given_datagrams dial.new) sockets.old.items sockets.new.items result }
    ensures asked { AsksMore (ask_plan D.Datagrams.calls R.draws_port binding.now (NetCall.Send bytes.now server))
        (ask_state D.calls dial.old draws.old sockets.old.items) (ask_state D.calls dial.new draws.new sockets.new.items)
        (failure result) }
    ensures len { OnOk result (length sockets.new.items ≡ length sockets.old.items + 1) }
    ensures ports { DrawsPorts R.draws_port draws.old draws.new }
{
    let mut attempted = 0;
    let mut socket = binding.bind(dial, draws, &mut attempted)?;
    let sent = send_on(&mut socket, bytes, server);
    keep_socket(dial, sockets, socket)?;
    sent
}

/// Waits for a datagram on the socket whose turn it is.
pub(crate) fn receive_in_turn<G: Datagrams>(
    sockets: &mut Vec<G>,
    turn: &mut usize,
    buf: &mut [u8],
) -> Result<Option<(usize, SocketAddr)>, IoKind>
    requires { turn.old < length sockets.old.items }
    ensures turned { TurnsOne G.counts G.given sockets.old.items sockets.new.items (received_by result buf.new) (one_met result) }

    // The socket whose turn it is is waited on and no other, and the next one's turn is next.
    ensures heard { (socket : G) × (sockets.new.items ≡ slice_set sockets.old.items turn.old socket) }
    ensures next { turn.new ≡ (turn.old + 1) % length sockets.old.items }
    ensures asked { (send : NetCall) → AreTold G.calls send sockets.old.items None
        → AreTold G.calls send sockets.new.items (fault_of result) }
    ensures len { length sockets.new.items ≡ length sockets.old.items }
    ensures turn { turn.new < length sockets.new.items }
    ensures bound { IfOk result (λ came. IfSome came (λ d. d.0 ≤ length buf.new)) }
{
    let at = *turn;
    *turn = (at + 1) % sockets.len();
    sockets[at].recv_from(buf)
}

/// Gives all sockets back.
pub(crate) fn retire_all<D: Dialer>(dial: &mut D, sockets: Vec<D::Datagrams>)
    ensures met { GivesAllBack D.Datagrams.counts D.Datagrams.given (dialer_view D.counts D.given_datagrams dial.old)
        (dialer_view D.counts D.given_datagrams dial.new) sockets.items }
    ensures asked { GivesBack D.Datagrams.calls sockets.items (D.calls dial.old) (D.calls dial.new) }
{
    let mut left = VecDeque::from_vec(sockets);
    while let Some(socket) = left.pop_front() {
        dial.retire_datagrams(socket);
    }
}
