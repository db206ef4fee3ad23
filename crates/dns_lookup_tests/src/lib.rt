//! Tests of lookups and of validations: what a lookup and a whole request send and refuse; replies by turn; sets that are kept, and when
//! what is kept expires; trails of sets that are served from what was kept; how often the verifier is asked; validations driven by hand and
//! side by side, which answer as lookups do; and sets that were found before, in an earlier validation or in an earlier step.
//!
//! They stand apart, since a crate with tests of its own is proved twice.
#![tactic(auto)]

#[cfg(test)]
mod cached_tests;
#[cfg(test)]
mod driven_tests;
#[cfg(test)]
mod example_tests;
#[cfg(test)]
mod expiry_tests;
#[cfg(test)]
mod given;
#[cfg(test)]
mod iteration_tests;
#[cfg(test)]
mod kept_tests;
#[cfg(test)]
mod large_tests;
#[cfg(test)]
mod lookup_tests;
#[cfg(test)]
mod question_tests;
#[cfg(test)]
mod repeat_tests;
#[cfg(test)]
mod request_tests;
#[cfg(test)]
mod rows;
#[cfg(test)]
mod scenes;
#[cfg(test)]
mod served_tests;
#[cfg(test)]
mod side_by_side_tests;
#[cfg(test)]
mod turn_tests;
#[cfg(test)]
mod validating;
