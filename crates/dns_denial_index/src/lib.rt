//! Indexes of NSEC and NSEC3 records: a search finds the one that `nsec_covering` or `nsec3_covering` finds by a scan of the list, and a
//! verdict is the one of that list (RFC 4035, 5.4; RFC 5155, 8). The layer above may use each call as the definition that its
//! clause names.
#![tactic(auto)]

mod keyed_nsec;
mod name_keys;
mod nsec3_index;
mod nsec3_verdict;
mod nsec_index;
mod nsec_verdict;
mod places;
mod spans;

pub use nsec_index::NsecIndex;
pub use nsec3_index::Nsec3Index;
