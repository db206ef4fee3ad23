//! Tests of the order of a trail's steps, and of what links show, by what `dns_trail` and `dns_evidence` give; of the caches, of their
//! keys, of when entries expire, and of the texts of causes, by what `dns_cache` gives; and the code of docs/LIBRARY.md, through the
//! facades.
//!
//! They stand apart, since a crate with tests of its own is proved twice.
#![tactic(auto)]

#[cfg(test)]
mod cause_tests;
#[cfg(test)]
mod copy_tests;
#[cfg(test)]
mod expiry_tests;
#[cfg(test)]
mod key_tests;
#[cfg(test)]
mod large_tests;
#[cfg(test)]
mod library_tests;
#[cfg(test)]
mod link_tests;
#[cfg(test)]
mod order_tests;
#[cfg(test)]
mod parts;
#[cfg(test)]
mod script_tests;
