//! Tests of the multiplexer, of its queue and of its draws; of requests that wait, of what is polled for them, of sends that are
//! made again, and of replies by turn: by what `dns_mux`, `dns_retry` and `dns_recorded` give.
//!
//! They stand apart, since a crate with tests of its own is proved twice.
#![tactic(auto)]

#[cfg(test)]
mod core_tests;
#[cfg(test)]
mod draw_tests;
#[cfg(test)]
mod example_tests;
#[cfg(test)]
mod heard;
#[cfg(test)]
mod parts;
#[cfg(test)]
mod queue_tests;
#[cfg(test)]
mod replies;
#[cfg(test)]
mod request_queue_tests;
#[cfg(test)]
mod retry_tests;
#[cfg(test)]
mod script;
#[cfg(test)]
mod script_tests;
#[cfg(test)]
mod stream_tests;
#[cfg(test)]
mod turn_tests;
#[cfg(test)]
mod waiting;
