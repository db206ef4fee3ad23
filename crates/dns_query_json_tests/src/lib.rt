//! Tests of answers as JSON. They stand apart, since a crate with tests of its own is proved twice.
#![tactic(auto)]

#[cfg(test)]
mod json_tests;
