//! What the outside is asked for by one call.
use dns_record::Octets;
use std::net::SocketAddr;

/// A call that asks for a link or a socket, or sends a datagram.
pub enum NetCall {
    /// A link to a peer, from a local address if one is given; connecting, and each read and write, waits for so many milliseconds at
    /// most.
    Connect(SocketAddr, Option<SocketAddr>, u64),
    /// A socket at a local address.
    Bind(SocketAddr),
    /// These bytes to an address, as one datagram.
    Send(Octets, SocketAddr),
}

// By hand, so that a function that lets one go calls this.
impl Drop for NetCall {
    fn drop(self) {
        match self {
            NetCall::Connect(_, _, _) => {}
            NetCall::Bind(_) => {}
            NetCall::Send(_, _) => {}
        }
    }
}
