//! What the NSEC3 records of a zone prove of it (RFC 5155: hashed denial of existence): when a record is true of a zone,
//! which names opt-out leaves without one, and what follows where a verdict is Secure. Definitions are in `specs/`, proofs
//! in `proofs/`; the laws are the contracts of the functions in `laws.rt`, which do nothing.
#![tactic(auto)]

mod laws;

pub use laws::{
    insecure_children_have_no_ds, secure_denials_hold_in_each_zone,
    secure_expansions_hold_in_each_zone, true_records_cover_light_names_alone,
};
