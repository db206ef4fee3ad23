//! Sends that are made again after an error. The layer above may use `RetryDnsHandle` as a handle whose `send` is a row of sends of
//! the handle inside it, each of them due by `specs/Retries.antt`; and `RetrySend`, the same row with one send a poll.
#![tactic(auto)]

mod attempts;
mod retry_handle;
mod retry_send;
mod sending;

pub use retry_handle::RetryDnsHandle;
pub use retry_send::RetrySend;
