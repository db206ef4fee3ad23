//! What carries messages (RFC 1035, 4.2).
ghost use Rattle.std.specs.Prelude.{◌≡◌, false, Some};
ghost use Rattle.dns_handle.specs.Protocols.{is_datagram as is_datagram_protocol, is_stream as is_stream_protocol, protocol_text};

use std::fmt;

/// What carries messages to a server and back (RFC 1035, 4.2).
#[derive(Clone, Copy, Debug, PartialEq, Eq, Hash)]
pub enum Protocol {
    /// One datagram for each message (RFC 1035, 4.2.1).
    Udp,
    /// A connection, with the length of each message before it (RFC 1035, 4.2.2; RFC 7766).
    Tcp,
}

impl Protocol {
    /// Whether each message comes by itself, and may be lost.
    pub fn is_datagram(self) -> bool
        ensures { result ≡ is_datagram_protocol self }
    {
        matches!(self, Protocol::Udp)
    }

    /// Whether messages come one behind another over a connection.
    pub fn is_stream(self) -> bool
        ensures { result ≡ is_stream_protocol self }
    {
        !self.is_datagram()
    }

    /// Whether others are kept from reading what is carried: never, since TLS isn't there.
    pub fn is_encrypted(self) -> bool
        ensures { result ≡ false }
    {
        false
    }

    /// The text, as Display writes it.
    pub fn as_str(&self) -> &'static str
        ensures { result.now ≡ protocol_text self.now }
    {
        match self {
            Protocol::Udp => "udp",
            Protocol::Tcp => "tcp",
        }
    }
}

impl fmt::Display for Protocol {
    ghost output = { λ protocol. Some (protocol_text protocol) };

    fn fmt<W: fmt::Write>(&self, f: &mut fmt::Formatter<W>) -> fmt::Result {
        f.write_str(self.as_str())
    }
}
