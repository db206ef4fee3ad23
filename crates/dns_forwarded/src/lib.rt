//! The reply of a validating forwarder: which one belongs to a request and to what its lookup came to (RFC 1035, 4.1.1; RFC 3225, 3;
//! RFC 4035, 3.2; RFC 6840, 5.7 to 5.9; RFC 6891, 6 and 7). The layer above may use `Received` for the question to look up and for the
//! reply, and `forwarded` for both at once.
#![tactic(auto)]

mod answer;
mod course;
mod laws;
mod outcome;
mod received;
mod reply;

pub use laws::{authentic_replies_are_secure, nothing_bogus_is_told, replies_are_read_back};
pub use outcome::Outcome;
pub use received::{Received, forwarded};
