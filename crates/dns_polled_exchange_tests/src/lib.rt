//! Tests of what is polled of an exchange that threads share, and of four workers over one connection.
//!
//! They stand apart, since a crate with tests of its own is proved twice.
#![tactic(auto)]

#[cfg(test)]
mod echo;
#[cfg(test)]
mod poll_tests;
#[cfg(test)]
mod polled;
#[cfg(test)]
mod worker_tests;
