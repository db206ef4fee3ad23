//! Messages and requests over connections (RFC 1035, 4.2; RFC 7766), over any link that the outside has.
//!
//! [`TcpStream`] cuts what a link gives into messages and writes those that wait, each after its length. The layer above may
//! use it as the machine of `specs/Feeding.antt` and `specs/Draining.antt`. [`unframe`] carries the law: frames in a row,
//! however they are cut, give their messages. [`TcpExchange`] is a handle that owns its stream and its multiplexer: a
//! `DnsHandle` whose sends are those of `specs/Exchanges.antt`.
#![tactic(auto)]

mod carrying;
mod feed;
mod frame_law;
mod frame_reader;
mod frame_writer;
mod link_reads;
mod messages;
mod offering;
mod stream_state;
mod tcp_client_stream;
mod tcp_exchange;
mod tcp_stream;
mod writing;

pub use feed::Feed;
pub use frame_law::unframe;
pub use tcp_client_stream::{DnsClientStream, TcpClientStream};
pub use tcp_exchange::TcpExchange;
pub use tcp_stream::TcpStream;
