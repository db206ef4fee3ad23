//! Tests of the sets of a message, of how a step ends, of what sets and endings ask, and of why a set isn't Secure, by what
//! `dns_outcome`, `dns_outcome` and `dns_flow` give. What an answer's records are marked by is shown by the rows of rows/.
//!
//! They stand apart, since a crate with tests of its own is proved twice.
#![tactic(auto)]

#[cfg(test)]
mod flow_rows;
#[cfg(test)]
mod flow_tests;
#[cfg(test)]
mod judged_steps;
#[cfg(test)]
mod rows;
#[cfg(test)]
mod sets_denial_tests;
#[cfg(test)]
mod sets_outcome_tests;
#[cfg(test)]
mod sets_tests;
