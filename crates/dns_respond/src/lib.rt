//! One exchange of a validating forwarder: a request is read, its question is looked up by a validator, and it is replied to (RFC 1035,
//! 4.1.1; RFC 4035, 3.2 and 5). The layer above may use `respond_over` over any cache, and `respond` over one that is shared.
#![tactic(auto)]

mod answering;
mod exchanged;

pub use answering::{respond, respond_over};
pub use exchanged::Exchanged;
