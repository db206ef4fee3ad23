//! Tests of the calls on single keys, signatures and sets, by what `dns_marks` gives, and of how often they ask a
//! verifier, which no clause says; of whether a signature fits, by what `dns_trust` gives; of chains that a verifier
//! accepts by itself, by what `dns_chain_check` gives; and of lists that are long.
//!
//! They stand apart, since a crate with tests of its own is proved twice.
#![tactic(auto)]

#[cfg(test)]
mod accepted_tests;
#[cfg(test)]
mod counting;
#[cfg(test)]
mod dnskey_tests;
#[cfg(test)]
mod key_mark_tests;
#[cfg(test)]
mod large_tests;
#[cfg(test)]
mod parts;
#[cfg(test)]
mod set_mark_tests;
#[cfg(test)]
mod signature_tests;
#[cfg(test)]
mod validity_tests;
#[cfg(test)]
mod wanted;
#[cfg(test)]
mod zone_verdict_tests;
