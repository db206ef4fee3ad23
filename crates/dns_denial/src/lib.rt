//! Denial of existence (RFC 4034, 4; RFC 4035, 5.4; RFC 5155, 8): what the NSEC or NSEC3 records of a signed zone prove of a
//! query. The layer above may use each call as the definition that its clause names. No call here takes memory.
#![tactic(auto)]

mod covering;
mod encloser;
mod hash_covering;
mod hash_text;
mod hash_verdict;
mod insecure_delegation;
mod listed_types;
mod nsec3_encloser;
mod nsec3_fields;
mod nsec3_parameters;
mod nsec3_records;
mod nsec_records;
mod verdict;

pub use covering::{is_silent_on, nsec_covering};
pub use hash_covering::nsec3_covering;
pub use hash_verdict::{nsec3_verdict, verify_nsec3};
pub use insecure_delegation::verify_nsec3_insecure_delegation;
pub use listed_types::wildcard_lacks;
pub use nsec_records::{NsecFind, NsecRecords, is_owned_by};
pub use nsec3_encloser::EncloserCandidates;
pub use nsec3_fields::{is_considered, is_of_zone};
pub use nsec3_parameters::Nsec3Parameters;
pub use nsec3_records::Nsec3Records;
pub use verdict::{nsec_verdict, verify_nsec};
