//! Whether an address is the one that was asked.
ghost use Rattle.std.specs.Prelude.{◌≡◌};
ghost use Rattle.dns_udp.specs.Addresses.{is_same_address, is_same_peer, numbers_of};
ghost use Rattle.dns_udp.specs.PlainAddresses.{plain_numbers};

use std::net::{IpAddr, SocketAddr};

/// The IPv4 address that an address stands for as ::ffff:a.b.c.d; any other as it is (RFC 4291, 2.5.5.2).
fn canonical(ip: &IpAddr) -> IpAddr
    ensures { plain_numbers result ≡ numbers_of ip.now }
{
    ip.to_canonical()
}

/// Whether two addresses are one.
fn is_same_address(one: &IpAddr, other: &IpAddr) -> bool
    ensures { result ≡ is_same_address one.now other.now }
{
    match (canonical(one), canonical(other)) {
        (IpAddr::V4(one), IpAddr::V4(other)) => one.octets() == other.octets(),
        (IpAddr::V6(one), IpAddr::V6(other)) => one.segments() == other.segments(),
        _ => false,
    }
}

/// Whether address and port are the same. An IPv4 address counts as equal to itself written as ::ffff:a.b.c.d; a scope and a
/// flow label don't count (RFC 5452, 9.1).
pub fn is_same_peer(one: &SocketAddr, other: &SocketAddr) -> bool
    ensures { result ≡ is_same_peer one.now other.now }
{
    is_same_address(&one.ip(), &other.ip()) && one.port() == other.port()
}
