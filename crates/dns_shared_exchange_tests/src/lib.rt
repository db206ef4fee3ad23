//! Tests of an exchange that threads share: that each call through a token is answered as the multiplexer answers, when a history is
//! full, and that callers side by side get their own.
//!
//! They stand apart, since a crate with tests of its own is proved twice.
#![tactic(auto)]

#[cfg(test)]
mod caller;
#[cfg(test)]
mod full_tests;
#[cfg(test)]
mod heard;
#[cfg(test)]
mod parts;
#[cfg(test)]
mod script;
#[cfg(test)]
mod script_tests;
#[cfg(test)]
mod thread_tests;
#[cfg(test)]
mod told;
