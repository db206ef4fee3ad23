//! Messages: their parts, how they are read from bytes and written. The layer above sees a message as a `MessageValue`.
#![tactic(auto)]

mod decode_error;
mod encode_error;
mod header_flags;
mod item;
mod known_names;
mod message;
mod message_bytes;
mod message_reader;
mod message_ref;
mod message_writer;
mod name_reader;
mod number_reader;
mod plain_rdata;
mod rdata;
mod rdata_reader;
mod read_fault;
mod record_reader;
mod section_reader;
mod step;

pub use decode_error::{DecodeError, DecodeKind};
pub use encode_error::EncodeError;
pub use message::{Edns, Message};
pub use message_ref::MessageRef;
