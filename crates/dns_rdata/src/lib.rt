//! Rdata: what each type's is made of, numbers and type bitmaps in it, views of it, canonical forms, and the bytes that
//! signatures and digests are over. The layer above may use each view as the value of `dns_model` that has its name, and
//! each call as the definition that its clause names.
#![tactic(auto)]

mod base32hex;
mod bytes;
mod canonical;
mod counted;
mod digest;
mod dnskey;
mod ds;
mod folded_wire;
mod key_tags;
mod laws;
mod name_hash;
mod ns;
mod nsec;
mod nsec3;
mod part;
mod rrsig;
mod serial;
mod shape;
mod signed;
mod soa;
mod type_set;
mod window;
mod write;

pub use base32hex::{base32hex_decode, base32hex_encode, is_hash_text};
pub use bytes::{u16_at, u32_at};
pub use canonical::{canonical_rdata, has_shape};
pub use digest::{DigestType, ds_covers};
pub use dnskey::Dnskey;
pub use ds::Ds;
pub use folded_wire::FoldedWire;
pub use key_tags::key_tag;
pub use laws::{equal_records_are_signed_once, hashes_and_their_texts_have_one_order};
pub use name_hash::{nsec3_hash, nsec3_hash_of};
pub use ns::Ns;
pub use nsec::{Nsec, NsecRecord};
pub use nsec3::{Nsec3, Nsec3Record};
pub use rrsig::Rrsig;
pub use serial::SerialNumber;
pub use shape::{Field, fields_of};
pub use signed::{RdataSet, signed_data, signed_data_of};
pub use soa::Soa;
pub use type_set::{TypeSet, is_bitmap};
pub use write::{push_u16, push_u32};
