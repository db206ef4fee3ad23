//! Tests of exchanges of a forwarder over the stored session: which question is looked up for a request, what the reply is, and how long
//! one may be.
//!
//! They stand apart, since a crate with tests of its own is proved twice.
#![tactic(auto)]

#[cfg(test)]
mod exchange_tests;
#[cfg(test)]
mod given;
#[cfg(test)]
mod long_tests;
#[cfg(test)]
mod rows;
#[cfg(test)]
mod scenes;
