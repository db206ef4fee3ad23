//! The answer that a judged step makes: its message with the marks and ttls of its sets. `dns_outcome` has the calls by which
//! sets are grouped and what they come to. The layer above may use each call as the definition that its clause names.
#![tactic(auto)]

mod marking;

pub use marking::finished;
