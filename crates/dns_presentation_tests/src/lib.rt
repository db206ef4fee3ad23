//! Tests of lines of master files, with texts from outside. They stand apart, since a crate with tests of its own is proved twice.
#![tactic(auto)]

#[cfg(test)]
mod line_tests;
#[cfg(test)]
mod rows;
