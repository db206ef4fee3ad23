//! Addresses (RFC 1035, 3.4.1; RFC 4291, 2.2).
ghost use Rattle.std.specs.Prelude.{◌≡◌};
ghost use Rattle.dns_master_words.specs.Addresses.{IsByGrammar, ipv4_in, ipv6_in};

use std::net::{Ipv4Addr, Ipv6Addr};

/// The bytes of an address of IPv4: four decimal numbers with dots between them (RFC 1035, 3.4.1).
#[tactic(auto, using(crate::proofs::AddressLaws::ipv4_read, crate::proofs::AddressLaws::ipv4_unread))]
pub fn ipv4_in(word: &[u8]) -> Option<[u8; 4]>
    ensures { result ≡ ipv4_in word.now }
{
    match Ipv4Addr::parse_ascii(word) {
        Ok(address) => Some(address.octets()),
        Err(_) => None,
    }
}

/// The bytes of an address of IPv6: groups of hexadecimal digits with colons between them (RFC 4291, 2.2).
#[tactic(auto, using(crate::proofs::AddressLaws::ipv6_read, crate::proofs::AddressLaws::ipv6_unread))]
pub fn ipv6_in(word: &[u8]) -> Option<[u8; 16]>
    ensures { result ≡ ipv6_in word.now }
{
    match Ipv6Addr::parse_ascii(word) {
        Ok(address) => Some(address.octets()),
        Err(_) => None,
    }
}

/// A law: the bytes that `ipv4_in` and `ipv6_in` give of a word are those that the word spells by the grammar of addresses.
pub fn addresses_follow_their_grammar(_word: &[u8])
    ensures { IsByGrammar _word.now }
{}
