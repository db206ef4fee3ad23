//! The address of a server as a word.
ghost use Rattle.std.specs.Prelude.{◌≡◌, ◌==◌, ◌<◌, position, length, IfSome};
ghost use Rattle.std.specs.Option.{option_map};
ghost use Rattle.dns_asking.specs.Addresses.{IsSocketOf, address_in, cut_at, octets_in, port_in};

use dns_text::{u8_in, u16_in};
use std::net::{IpAddr, Ipv4Addr, SocketAddr};

/// The address of a server: that of a machine (RFC 791, 3.1), and a port.
#[derive(Clone, Copy, Debug, PartialEq, Eq)]
pub struct ServerAddress {
    /// The first number first.
    pub octets: [u8; 4],
    /// From 1, where it was read from a word.
    pub port: u16,
}

/// Where a byte of this value stands first.
fn place_of(text: &[u8], byte: u8) -> Option<usize>
    ensures value { result ≡ position (λ b. b == byte) text.now }
    ensures within { IfSome result (λ at. at < length text.now) }
{
    text.iter().position(|b| *b == byte)
}

/// The bytes before the first byte of a value, and those after it.
fn cut_at(text: &[u8], byte: u8) -> Option<(&[u8], &[u8])>
    ensures { option_map (λ x. (x.0.now, x.1.now)) result ≡ cut_at byte text.now }
{
    let at = place_of(text, byte)?;
    Some((&text[..at], &text[at + 1..]))
}

/// The four numbers between dots.
fn octets_in(text: &[u8]) -> Option<[u8; 4]>
    ensures { result ≡ octets_in text.now }
{
    let (one, behind_one) = cut_at(text, b'.')?;
    let (two, behind_two) = cut_at(behind_one, b'.')?;
    let (three, four) = cut_at(behind_two, b'.')?;
    Some([u8_in(one)?, u8_in(two)?, u8_in(three)?, u8_in(four)?])
}

/// The number of a port, which isn't 0.
fn port_in(word: &[u8]) -> Option<u16>
    ensures { result ≡ port_in word.now }
{
    let port = u16_in(word)?;
    if port == 0 { None } else { Some(port) }
}

impl ServerAddress {
    /// The address that a word is: four numbers up to 255 joined by dots, a colon, and a port from 1, in digits without a zero before
    /// others. Of any other word None.
    pub fn read(word: &[u8]) -> Option<ServerAddress>
        ensures { result ≡ address_in word.now }
    {
        let (machine, behind) = cut_at(word, b':')?;
        let octets = octets_in(machine)?;
        let port = port_in(behind)?;
        Some(ServerAddress { octets, port })
    }

    /// The socket address that stands for it.
    pub fn socket_addr(self) -> SocketAddr
        ensures { IsSocketOf self result }
    {
        SocketAddr::new(IpAddr::V4(Ipv4Addr::from_octets(self.octets)), self.port)
    }
}
