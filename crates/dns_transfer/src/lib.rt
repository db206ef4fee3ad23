//! Zone transfers (RFC 5936; RFC 1995): of a zone's records in several messages, which one is the last. `TransferState` is told the
//! answers of each message; `ClientStreamXfr` reads the messages from a stream, and ends with the transfer. Their clauses name the
//! definitions of `specs/Transfers.antt` and `specs/TransferStreams.antt`.
//!
//! Neither looks at response codes, ids or questions, and a transfer that is cut off ends like a whole one: **only `is_ended` tells
//! whether all of it has come**, after the last message. Records that a caller keeps of a transfer that isn't ended are no zone.
//!
//! ```
//! /// The records of a zone, if all of them came.
//! fn all_of(alloc: Global, messages: Vec<Message>) -> Result<Option<Vec<Record>>, NetError> {
//!     let mut transfer = TransferState::new(false);
//!     let mut records = Vec::new(alloc);
//!     for message in messages {
//!         transfer.process(&message.answers)?;
//!         let mut more = message.answers;
//!         records.append(&mut more)?;
//!     }
//!     Ok(if transfer.is_ended() { Some(records) } else { None })
//! }
//! ```
#![tactic(auto)]

mod stage;
mod transfer_state;
mod transfer_stream;

pub use transfer_state::TransferState;
pub use transfer_stream::ClientStreamXfr;
