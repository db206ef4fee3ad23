//! Tests of a multiplexer's journal: when a history is full, and that each call is answered as the multiplexer answers.
//!
//! They stand apart, since a crate with tests of its own is proved twice.
#![tactic(auto)]

#[cfg(test)]
mod full_tests;
#[cfg(test)]
mod script;
