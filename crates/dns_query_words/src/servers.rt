//! The address of a server, from a text.
ghost use Rattle.std.specs.Prelude.{IfNone, IfSome};
ghost use Rattle.std.specs.declared.net.socket_addr.SocketAddr.{SocketAddr as Address};
ghost use Rattle.dns_query_words.specs.Servers.{IsAlone, IsServer, IsWithPort};

use std::net::{IpAddr, SocketAddr};

/// The port of DNS (RFC 1035, 4.2).
const PORT: u16 = 53;

/// The server at the address that a text is alone, an IPv4 or IPv6 address (RFC 4291, 2.2): at the port 53. None where it is no address.
pub fn alone_in(text: &[u8]) -> Option<SocketAddr>
    ensures some { IfSome result (IsAlone text.now) }
    ensures none { IfNone result ((server : Address) → ¬ (IsAlone text.now server)) }
{
    match IpAddr::parse_ascii(text) {
        Ok(ip) => Some(SocketAddr::new(ip, PORT)),
        Err(_) => None,
    }
}

// The server whose address and port a text is.
fn with_port_in(text: &[u8]) -> Option<SocketAddr>
    ensures some { IfSome result (IsWithPort text.now) }
    ensures none { IfNone result ((server : Address) → ¬ (IsWithPort text.now server)) }
{
    match SocketAddr::parse_ascii(text) {
        Ok(server) => {
            if server.port() == 0 {
                return None;
            }
            Some(server)
        }
        Err(_) => None,
    }
}

/// The server that a text names: an IPv4 or IPv6 address (RFC 4291, 2.2), at the port 53, or an address and a port that isn't 0, as
/// `192.0.2.1:5353` and `[2001:db8::1]:5353`. None where it names none.
pub fn server_in(text: &[u8]) -> Option<SocketAddr>
    ensures some { IfSome result (IsServer text.now) }
    ensures none { IfNone result ((server : Address) → ¬ (IsServer text.now server)) }
{
    if let Some(server) = alone_in(text) {
        return Some(server);
    }
    with_port_in(text)
}
