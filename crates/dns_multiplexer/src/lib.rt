//! The multiplexer: many requests over one connection, each response to its own (RFC 1035, 4.2; RFC 7766, 6.2.1). The layer
//! above may use `DnsMultiplexer` as the machine of `specs/Machine.antt`, and of each history what `specs/History.antt` says;
//! and `MultiplexerCore` as the same machine, which says by `specs/Brought.antt` which event brought an item.
#![tactic(auto)]

mod arrival;
mod draws;
mod item_queue;
mod laws;
mod multiplexer;
mod multiplexer_core;
mod request_id;
mod request_table;
mod sender;
mod serial_message;
mod stream_handle;
mod taken;

pub use arrival::Arrival;
pub use draws::{Draws, ListDraws, RandDraws};
pub use laws::{calls_are_events, replies_are_what_histories_say, states_are_what_histories_say};
pub use multiplexer::DnsMultiplexer;
pub use multiplexer_core::{MultiplexerCore, encoded_request};
pub use request_id::RequestId;
pub use sender::DnsRequestSender;
pub use serial_message::SerialMessage;
pub use stream_handle::{BufDnsStreamHandle, DnsStreamHandle, StreamReceiver};
pub use taken::Taken;
