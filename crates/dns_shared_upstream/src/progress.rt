//! What a turn at the stream brought.
use dns_handle::{DnsResponse, NetError};

/// What a turn at the stream brought.
#[derive(Drop)]
pub(crate) enum Progress {
    /// What waited for the request.
    Answered(Result<DnsResponse, NetError>),
    /// One read: whether a message came by it, which was handed to the exchange.
    Read(bool),
}
