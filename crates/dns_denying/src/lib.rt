//! The sets by which a response denies existence: whether there are some, who made them, and what their records say (RFC 4035,
//! 3.1.3; RFC 5155, 7.2). The layer above may use each call as the definition that its clause names.
#![tactic(auto)]

mod denying;
mod said;

pub use denying::{has_denying, one_signer};
pub use said::{nsec_denials, nsec3_denials};
