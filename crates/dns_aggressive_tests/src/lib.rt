//! Tests of denials that are made from kept records: calls row by row, and of a store of 65,536 records.
//!
//! They stand apart, since a crate with tests of its own is proved twice.
#![tactic(auto)]

#[cfg(test)]
mod given;
#[cfg(test)]
mod large_store_tests;
#[cfg(test)]
mod library_tests;
#[cfg(test)]
mod store_calls_tests;
