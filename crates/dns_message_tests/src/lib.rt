//! Tests of messages, of requests, of errors and of responses that deny, by what `dns_message` and `dns_handle` give.
//!
//! They stand apart, since a crate with tests of its own is proved twice.
#![tactic(auto)]

#[cfg(test)]
mod lent_tests;
#[cfg(test)]
mod message_pointer_tests;
#[cfg(test)]
mod message_shape_tests;
#[cfg(test)]
mod message_tests;
#[cfg(test)]
mod net_error_tests;
#[cfg(test)]
mod net_missing_tests;
#[cfg(test)]
mod net_negative_tests;
#[cfg(test)]
mod net_request_tests;
#[cfg(test)]
mod parts;
#[cfg(test)]
mod protocol_tests;
#[cfg(test)]
mod rows;
