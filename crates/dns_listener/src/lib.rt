//! Where the ports of a forwarder come from and go back to: clients over UDP and TCP (RFC 1035, 4.2), by std's sockets or in memory. The
//! layer above may use any `Listener`, and the ports that it gives as `Port`s.
#![tactic(auto)]

mod counted_port;
mod datagram_port;
mod list_listener;
mod listener;
mod listener_tally;
mod port_counts;
mod socket_listener;
mod stream_port;

pub use counted_port::CountedPort;
pub use datagram_port::DatagramPort;
pub use list_listener::ListListener;
pub use listener::Listener;
pub use port_counts::PortCounts;
pub use socket_listener::{SocketListener, SocketPort};
pub use stream_port::StreamPort;
