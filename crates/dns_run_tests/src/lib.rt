//! Tests of `run`: over some of the repository's rows, over an outside that fails, and over a server in memory. `tools/run_rows` and
//! `tools/run_asks` run the program, the latter over servers of a machine; `dns_run_tests` tries what `run` stands on.
//!
//! They stand apart, since a crate with tests of its own is proved twice.
//! Tests of what `run` stands on: lookups over one server, in memory, and words that are addresses; a lookup below nested zones; and
//! streams of std as sources and sinks. `tools/run_asks` asks servers of a machine by the program.
//!
//! They stand apart, since a crate with tests of its own is proved twice, and below `dns_run`, so that they don't wait for it.
#![tactic(auto)]

#[cfg(test)]
mod address_tests;
#[cfg(test)]
mod ask_tests;
#[cfg(test)]
mod asking_tests;
#[cfg(test)]
mod nested_zone_tests;
#[cfg(test)]
mod replying;
#[cfg(test)]
mod root;
#[cfg(test)]
mod rows;
#[cfg(test)]
mod run_tests;
#[cfg(test)]
mod runs;
#[cfg(test)]
mod stream_tests;
#[cfg(test)]
mod worked_rows;
