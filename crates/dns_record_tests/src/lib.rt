//! Tests of names, words and octets, of records, of rdata (views, shapes, canonical forms, signed bytes, key tags and
//! digests), and of verdicts on NSEC and NSEC3 records, by what their crates give, with vectors from outside.
//!
//! They stand apart, since a crate with tests of its own is proved twice. Sources and sinks are tested by what `run`
//! does over them.
#![tactic(auto)]

#[cfg(test)]
mod large_name_tests;
#[cfg(test)]
mod large_rdata_tests;
#[cfg(test)]
mod name_tests;
#[cfg(test)]
mod name_text_tests;
#[cfg(test)]
mod nsec3_rows;
#[cfg(test)]
mod nsec3_tests;
#[cfg(test)]
mod nsec_tests;
#[cfg(test)]
mod octets_tests;
#[cfg(test)]
mod rdata_signed_tests;
#[cfg(test)]
mod rdata_tests;
#[cfg(test)]
mod record_tests;
#[cfg(test)]
mod rows;
#[cfg(test)]
mod words_tests;
