//! Tests of replies of a forwarder: by a code alone, and those that are as long as they may be or longer.
//!
//! They stand apart, since a crate with tests of its own is proved twice.
#![tactic(auto)]

#[cfg(test)]
mod code_tests;
#[cfg(test)]
mod long_tests;
#[cfg(test)]
mod rows;
