//! Tests of clients whose answers are validated, by what `dns_secure_client` gives.
//!
//! They stand apart, since a crate with tests of its own is proved twice.
#![tactic(auto)]

#[cfg(test)]
mod scene;
#[cfg(test)]
mod secure_client_tests;
