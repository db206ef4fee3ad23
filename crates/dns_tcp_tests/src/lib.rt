//! Tests of frames over links, and of requests over one connection, by what `dns_tcp` and `dns_tcp` give.
//!
//! They stand apart, since a crate with tests of its own is proved twice.
#![tactic(auto)]

#[cfg(test)]
mod answer_tests;
#[cfg(test)]
mod cut_tests;
#[cfg(test)]
mod example_tests;
#[cfg(test)]
mod exchange_loopback_tests;
#[cfg(test)]
mod exchange_parts;
#[cfg(test)]
mod fault_tests;
#[cfg(test)]
mod heard;
#[cfg(test)]
mod long_tests;
#[cfg(test)]
mod parts;
#[cfg(test)]
mod reading_tests;
#[cfg(test)]
mod slow_link;
#[cfg(test)]
mod stream_heard;
#[cfg(test)]
mod stream_parts;
#[cfg(test)]
mod writing_tests;
