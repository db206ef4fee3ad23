//! Names, records and messages, those that change a zone among them, and the bytes that signatures are over: the public names of
//! the crates below, in one place.
//!
//! ```rust
//! use dns_wire::{DNSClass, Message, Name, Query, RecordType};
//!
//! let name = Name::from_ascii(alloc, "www.example.")?;
//! let mut message = Message::query(alloc);
//! message.id = 17;
//! message.recursion_desired = true;
//! let query = Query { name, query_type: RecordType::A, query_class: DNSClass::IN };
//! message.queries.push(query)?;
//! let bytes = message.to_vec()?;
//! let read = Message::from_octets(bytes)?;
//! assert_eq!(rt; read.queries[0].name.to_ascii()?.as_str(), "www.example.");
//! ```
#![tactic(auto)]

pub use dns_evidence::Steps;
pub use dns_message::{DecodeError, DecodeKind, Edns, EncodeError, Message, MessageRef};
pub use dns_model::{Denial, NameError, Proof, Section};
pub use dns_rdata::{
    DigestType, Dnskey, Ds, FoldedWire, Ns, Nsec, Nsec3, Nsec3Record, NsecRecord, RdataSet, Rrsig,
    SerialNumber, Soa, TypeSet, canonical_rdata, ds_covers, has_shape, key_tag, signed_data,
    signed_data_of,
};
pub use dns_record::{
    DNSClass, Name, NameRef, NoMemory, Octets, OpCode, Query, Rdata, Record, RecordSet, RecordType,
    ResponseCode, Text, clone_records,
};
pub use dns_update::{
    append, compare_and_swap, create, delete_all, delete_by_rdata, delete_rrset, notify,
    zone_transfer,
};
