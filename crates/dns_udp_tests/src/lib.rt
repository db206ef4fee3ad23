//! Tests of clocks and dialers, of datagrams and their sockets, and of requests by datagrams, by what `dns_link`,
//! `dns_udp`, `dns_udp` and `dns_udp` give.
//!
//! They stand apart, since a crate with tests of its own is proved twice.
#![tactic(auto)]

#[cfg(test)]
mod acceptance_tests;
#[cfg(test)]
mod binding_tests;
#[cfg(test)]
mod echo;
#[cfg(test)]
mod heard;
#[cfg(test)]
mod parts;
#[cfg(test)]
mod small_tests;
#[cfg(test)]
mod udp_call_tests;
#[cfg(test)]
mod udp_exchange_tests;
#[cfg(test)]
mod udp_loopback_tests;
#[cfg(test)]
mod udp_stream_tests;
#[cfg(test)]
mod watching;
