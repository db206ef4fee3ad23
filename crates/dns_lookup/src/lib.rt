//! The validator: a lookup over any handle, which asks what a validation asks and gives its answer (RFC 4035, 5). The layer above
//! may use `DnssecDnsHandle::lookup`, and its `send` as that of a `DnsHandle`, by their clauses.
#![tactic(auto)]

mod handle;
mod lookup;
mod sending;

pub use handle::{DnssecDnsHandle, default_cache};
