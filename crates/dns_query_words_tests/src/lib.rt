//! Tests of words of command lines and of addresses as text. They stand apart, since a crate with tests of its own is proved twice.
#![tactic(auto)]

#[cfg(test)]
mod server_tests;
#[cfg(test)]
mod words_tests;
