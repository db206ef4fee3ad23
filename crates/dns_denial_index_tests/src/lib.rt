//! Tests of indexes of NSEC and NSEC3 records. What an index answers stands beside what the list answers.
//!
//! They stand apart, since a crate with tests of its own is proved twice.
#![tactic(auto)]

#[cfg(test)]
mod nsec3_index_tests;
#[cfg(test)]
mod nsec_index_tests;
#[cfg(test)]
mod random_lists_tests;
