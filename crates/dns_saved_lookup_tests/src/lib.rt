//! Tests of lookups that are saved. They stand apart, since a crate with tests of its own is proved twice.
#![tactic(auto)]

#[cfg(test)]
mod large_tests;
#[cfg(test)]
mod save_tests;
#[cfg(test)]
mod scenes;
