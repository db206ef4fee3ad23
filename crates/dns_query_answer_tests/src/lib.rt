//! Tests of what is written of answers, and of statuses. They stand apart, since a crate with tests of its own is proved twice.
#![tactic(auto)]

#[cfg(test)]
mod answer_tests;
#[cfg(test)]
mod given;
#[cfg(test)]
mod large_tests;
#[cfg(test)]
mod signature_tests;
#[cfg(test)]
mod status_tests;
#[cfg(test)]
mod worked_answers;
