//! Ports of a forwarder: where requests come from and replies go to (RFC 1035, 4.2). The layer above may use any `Port`, by what it
//! counts and tells, and `ListPort` where one in memory is wanted.
#![tactic(auto)]

mod list_port;
mod port;

pub use list_port::ListPort;
pub use port::{Port, PortFault};
