//! Names, records, sets and queries, and the small types over bytes that they are made of. The layer above sees each as the plain
//! value of `dns_model` that has its name: `Name` and `NameRef` as lists of labels, `Octets` and `Text` as lists of bytes.
#![tactic(auto)]

mod codes;
mod comparing;
mod name;
mod name_bytes;
mod name_laws;
mod name_ref;
mod name_text;
mod no_memory;
mod octets;
mod query;
mod query_laws;
mod rdata;
mod reading;
mod record;
mod record_set;
mod shown;
mod text;
mod text_reading;
mod words;

pub use codes::{DNSClass, OpCode, RecordType, ResponseCode};
pub use name::Name;
pub use name_laws::{
    equal_names_differ_in_case_alone, equal_names_hash_alike, names_are_in_a_total_order,
};
pub use name_ref::NameRef;
pub use no_memory::NoMemory;
pub use octets::Octets;
pub use query::Query;
pub use query_laws::{equal_queries_differ_in_case_alone, equal_queries_hash_alike};
pub use rdata::Rdata;
pub use record::{Record, clone_records};
pub use record_set::RecordSet;
pub use text::Text;
