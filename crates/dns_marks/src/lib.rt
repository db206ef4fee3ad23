//! What single calls find of keys, signatures and DS sets, each with the cause where it isn't Secure. The layer above
//! may use each call as the definition that its clause names, and its errors as the plain values of `dns_rules`.
#![tactic(auto)]

mod delegation;
mod hashed;
mod key_marks;
mod rrset_proof;
mod set_mark;
mod signature;
mod signature_keys;
mod tested;
mod zone_verdict;

pub use delegation::verify_dnskey;
pub use key_marks::{KeysMark, mark_keys};
pub use set_mark::{KeyAnswer, mark_rrset};
pub use signature::verify_rrset_with_dnskey;
pub use signature_keys::verify_rrsig_with_keys;
pub use zone_verdict::{DnsAnswer, ZoneVerdict, ds_verdict};
