//! Seats of a validating forwarder, side by side: each takes requests from a port, one after another, and sends the replies (RFC 1035, 4.2).
//! The layer above may use `serve` over any ports, handles, verifiers, clocks and gates, by what it says of each seat.
#![tactic(auto)]

mod gate;
mod seat;
mod serving;
mod work;

pub use gate::{Gate, OpenGate};
pub use seat::{Ended, Seat, Served};
pub use serving::serve;
