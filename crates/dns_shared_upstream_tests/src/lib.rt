//! Tests of a connection that several holders share: which answer is whose, what ends a wait, and that each fault of the connection
//! ends the requests of all.
//!
//! They stand apart, since a crate with tests of its own is proved twice.
#![tactic(auto)]

#[cfg(test)]
mod answer_tests;
#[cfg(test)]
mod beside;
#[cfg(test)]
mod beside_tests;
#[cfg(test)]
mod fault_tests;
#[cfg(test)]
mod full_tests;
#[cfg(test)]
mod heard;
#[cfg(test)]
mod holders;
#[cfg(test)]
mod hooked_link;
#[cfg(test)]
mod hooks;
#[cfg(test)]
mod loopback_tests;
#[cfg(test)]
mod parts;
#[cfg(test)]
mod split_tests;
#[cfg(test)]
mod thread_tests;
