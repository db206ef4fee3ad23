//! Tests of `run_forward` in memory: how it ends by its words, and where the outside fails. `tools/run_forward` has the program serve
//! clients of a machine.
//!
//! They stand apart, since a crate with tests of its own is proved twice.
#![tactic(auto)]

#[cfg(test)]
mod failing_tests;
#[cfg(test)]
mod replying;
#[cfg(test)]
mod rows;
#[cfg(test)]
mod runs;
#[cfg(test)]
mod seat_tests;
#[cfg(test)]
mod watched;
#[cfg(test)]
mod word_tests;
