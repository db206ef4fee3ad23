//! What a request has for the one who sent it.
use dns_handle::{DnsResponse, NetError};

/// What a request has for the one who sent it.
#[derive(Drop)]
pub enum Taken {
    /// The first item that waited: a response, or the fault by which the connection ended.
    Item(Result<DnsResponse, NetError>),
    /// Nothing waits yet.
    Pending,
    /// Nothing waits, and nothing will come.
    Ended,
}
