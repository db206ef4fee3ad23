//! The forwarder as a call: [`run_forward`] reads a session from any source, serves clients of any listener over any network, and writes to
//! any sink how their seats ended (RFC 1035, 4.2; RFC 4035, 3.2).
//!
//! A program gives the words after its name, a source, a sink, a dialer, a listener and a clock, and ends with the status that
//! [`run_forward`] answers.
#![tactic(auto)]

mod connection;
mod connections;
mod datagrams;
mod ending;
mod form;
mod forwarding;
mod lines;
mod opening;
mod picked;
mod program;
mod seating;
mod serving;
mod stop;
mod trust;

pub use form::{Carried, Service};
pub use program::{run_forward, run_forward_seeded};
