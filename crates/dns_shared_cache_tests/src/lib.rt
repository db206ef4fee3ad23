//! Tests of a shelf and of its holders: which entries it keeps, in which order, and whose acceptance it says; lookups over one shared
//! cache, one after another and side by side, and what one validator's results do to another's answers; and threads that put in and get.
//!
//! They stand apart, since a crate with tests of its own is proved twice.
#![tactic(auto)]

#[cfg(test)]
mod example_tests;
#[cfg(test)]
mod given;
#[cfg(test)]
mod large_tests;
#[cfg(test)]
mod lookup_tests;
#[cfg(test)]
mod numbered;
#[cfg(test)]
mod offer_tests;
#[cfg(test)]
mod rows;
#[cfg(test)]
mod scenes;
#[cfg(test)]
mod script_tests;
#[cfg(test)]
mod thread_tests;
#[cfg(test)]
mod whose_tests;
