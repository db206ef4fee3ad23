//! Tests of seats that are served side by side: how each ends, and that a fault or a wait of one changes nothing at the others; and the
//! forwarder of docs/LIBRARY.md, through the facades that it names.
//!
//! They stand apart, since a crate with tests of its own is proved twice.
#![tactic(auto)]

#[cfg(test)]
mod ending_tests;
#[cfg(test)]
mod gate_tests;
#[cfg(test)]
mod given;
#[cfg(test)]
mod library_tests;
#[cfg(test)]
mod many_tests;
#[cfg(test)]
mod requests;
#[cfg(test)]
mod rows;
#[cfg(test)]
mod scenes;
