//! A validating forwarder under the names that a caller looks for: the reply that belongs to a request, one exchange of a request and its
//! reply, and seats that are served side by side (RFC 1035, 4.1.1 and 4.2; RFC 4035, 3.2); and what a caller needs to name beside them.
#![tactic(auto)]

pub use dns_forwarded::{
    Outcome, Received, authentic_replies_are_secure, forwarded, nothing_bogus_is_told,
    replies_are_read_back,
};
pub use dns_handle::{IoKind, Protocol};
pub use dns_listener::{
    CountedPort, DatagramPort, ListListener, Listener, PortCounts, SocketListener, SocketPort,
    StreamPort,
};
pub use dns_ports::{ListPort, Port, PortFault};
pub use dns_record::{NoMemory, Octets};
pub use dns_respond::{Exchanged, respond, respond_over};
pub use dns_seats::{Ended, Gate, OpenGate, Seat, Served, serve};
