//! What a lookup is made of: errors, requests, responses with their chains and trails, and handles. The layer above may use
//! `DnsHandle` as a bound, and each type as the plain value of `dns_model` that has its name.
#![tactic(auto)]

mod answered;
mod error;
mod glue;
mod handle;
mod io_kind;
mod letter_case;
mod negative;
mod no_records;
mod notice;
mod protocol;
mod query_key;
mod request;
mod response;

pub use error::{DnsError, NetError, ProtoError};
pub use handle::{DnsHandle, faults_after};
pub use io_kind::IoKind;
pub use no_records::{ForwardNSData, NoRecords};
pub use notice::Notice;
pub use protocol::Protocol;
pub use query_key::QueryKey;
pub use request::{DnsRequest, DnsRequestOptions};
pub use response::DnsResponse;
