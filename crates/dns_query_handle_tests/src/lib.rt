//! Tests of the handles of the program for questions, and of keys from digests that zones are asked for. They stand apart, since a crate
//! with tests of its own is proved twice.
#![tactic(auto)]

#[cfg(test)]
mod anchor_key_tests;
#[cfg(test)]
mod connecting_tests;
#[cfg(test)]
mod echo;
#[cfg(test)]
mod handle_tests;
#[cfg(test)]
mod replies;
