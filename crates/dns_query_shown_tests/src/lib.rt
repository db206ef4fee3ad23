//! Tests of what is written beside an answer. They stand apart, since a crate with tests of its own is proved twice.
#![tactic(auto)]

#[cfg(test)]
mod shown_tests;
