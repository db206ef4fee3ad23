//! Messages on their way out.
use dns_record::Octets;
use std::marker::Model;
use std::net::SocketAddr;

/// A message as bytes, and where it goes to.
#[derive(Drop)]
pub struct SerialMessage {
    /// The message as it stands on the wire, without a length before it.
    pub bytes: Octets,
    /// The server that it goes to.
    pub addr: SocketAddr,
}

impl Model for SerialMessage {
    ghost use Rattle.dns_multiplexer.specs.Messages.{SerialMessageValue};

    ghost Value = { SerialMessageValue };

    ghost view = { λ m. record { bytes = m.bytes; addr = m.addr } };
}
