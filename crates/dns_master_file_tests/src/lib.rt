//! Tests of lines of master files as they are read, with texts from outside. They stand apart, since a crate with tests of its own is
//! proved twice.
#![tactic(auto)]

#[cfg(test)]
mod read_tests;
#[cfg(test)]
mod rows;
