//! Tests of files that the program for questions reads. They stand apart, since a crate with tests of its own is proved twice.
#![tactic(auto)]

#[cfg(test)]
mod anchor_tests;
#[cfg(test)]
mod resolver_tests;
