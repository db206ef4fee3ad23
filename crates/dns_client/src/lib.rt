//! Clients: what a program asks of a server beside a lookup. `ClientHandle` gives every handle the calls that send one message: a
//! query, a notify (RFC 1996), an update (RFC 2136), a request for a zone (RFC 5936, RFC 1995). `Client` is a handle over a connection,
//! or over any other handle, with or without EDNS; `MemoizeClientHandle` sends each question once.
//!
//! A call's clause says that it is one send of exactly the message that `dns_update` builds, with all that the handle promises of a
//! send; or no send, where memory runs out before it. The words of the clauses stand in `specs/Sends.antt`.
//!
//! What comes for a request that was sent by a multiplexer is read as a `ClientResponse` or a `ClientStreamingResponse`; over an exchange
//! that threads share, as an `ExchangeStream`; a list of it that is whole, by an `RcStream` for each reader.
//!
//! ```
//! fn add_address<S: DnsHandle + Drop>(
//!     alloc: Global,
//!     client: &mut Client<S>,
//!     zone: Name,
//!     address: Record,
//!     now: u64,
//! ) -> Result<DnsResponse, NetError>
//!     requires { IsTrue (at_or_above zone address.owner) }
//! {
//!     let set = RecordSet::of(alloc, address)?;
//!     client.append(alloc, set, zone, false, now)
//! }
//! ```
#![tactic(auto)]

mod client;
mod client_handle;
mod memoize_client_handle;
mod rc_stream;
mod responses;
mod sending;

pub use client::Client;
pub use client_handle::ClientHandle;
pub use dns_polled_exchange::ExchangeStream;
pub use memoize_client_handle::MemoizeClientHandle;
pub use rc_stream::RcStream;
pub use responses::{ClientResponse, ClientStreamingResponse};
