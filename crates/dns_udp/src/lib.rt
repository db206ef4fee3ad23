//! Requests over datagrams (RFC 1035, 4.2.1; RFC 5452), over any sockets that the outside has.
//!
//! [`accept_datagram`] says which datagram answers a request, [`Retries::tries`] how often one is sent, [`next_port`] from
//! where; the layer above may use them as `specs/Acceptance.antt`, `specs/Tries.antt` and `specs/Ports.antt` say. [`Binding`]
//! makes sockets by the rules of local addresses and drawn ports, [`UdpSocket`] makes one in a single try, and [`UdpStream`]
//! sends and receives over one. [`UdpClientStream`] sends a request and judges what comes, as `IsConversation` of
//! `specs/Conversations.antt` says; [`UdpExchange`] is a handle over it.
#![tactic(auto)]

mod acceptance;
mod addresses;
mod binding;
mod builder;
mod client_stream;
mod exchange;
mod open_sockets;
mod ports;
mod questions;
mod receiving;
mod retries;
mod udp_socket;
mod udp_stream;
mod waiting;

pub use acceptance::{Accepted, accept_datagram};
pub use addresses::is_same_peer;
pub use binding::{Binding, any_address};
pub use builder::UdpClientStreamBuilder;
pub use client_stream::UdpClientStream;
pub use exchange::UdpExchange;
pub use ports::next_port;
pub use questions::{asks_alike, spells_alike};
pub use retries::Retries;
pub use udp_socket::UdpSocket;
pub use udp_stream::{MAX_RECEIVE_BUFFER_SIZE, UdpStream, receive_buffer};
