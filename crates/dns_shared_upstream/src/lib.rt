//! A connection that several holders send their requests over, each with a handle of its own (RFC 7766, 6.2.1): one exchange, and one
//! stream under a lock. The layer above may use [`SharedUpstream`] as a `DnsHandle` whose sends are those of `specs/Sends.antt`.
#![tactic(auto)]

mod held;
mod holder;
mod progress;
mod sending;
mod shared_upstream;

pub use shared_upstream::SharedUpstream;
