//! Tests of listeners and their ports: what a client that sends whole requests, cut ones and none gets, in memory and over sockets.
//!
//! They stand apart, since a crate with tests of its own is proved twice.
#![tactic(auto)]

#[cfg(test)]
mod datagram_tests;
#[cfg(test)]
mod listener_tests;
#[cfg(test)]
mod parts;
#[cfg(test)]
mod socket_tests;
#[cfg(test)]
mod stream_tests;
