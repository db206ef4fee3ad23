//! Lookups with validation over one server: [`ask_server`] makes a handle of a dialer, by datagrams or over one connection, looks a query
//! up over it, and gives the dialer back with all that was met, after errors too.
//!
//! The layer above may use the address of a server as a word, and `ask_server` by its clauses: what it answers is what a validator
//! answers over that handle, and each answer has its cause in what the dialer counted.
#![tactic(auto)]

mod address;
mod asking;
mod inquiry;
mod looking;

pub use address::ServerAddress;
pub use asking::{AskEnd, ask_server};
pub use inquiry::Inquiry;
pub use looking::{LookupEnd, look_up};
