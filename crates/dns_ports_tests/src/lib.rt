//! Tests of ports in memory: what one gives, takes and tells.
//!
//! They stand apart, since a crate with tests of its own is proved twice.
#![tactic(auto)]

#[cfg(test)]
mod port_tests;
