//! Tests of anchors that follow a zone's keys: what is seen, trusted and in which state, row by row; how often the verifier is asked,
//! which no clause says; random lists of sightings beside a plain account of the rules; and lists that are long.
#![tactic(auto)]

#[cfg(test)]
mod asked_tests;
#[cfg(test)]
mod counting;
#[cfg(test)]
mod large_tests;
#[cfg(test)]
mod parts;
#[cfg(test)]
mod plain;
#[cfg(test)]
mod random_tests;
#[cfg(test)]
mod roll_tests;
#[cfg(test)]
mod sighting_tests;
#[cfg(test)]
mod state_tests;
