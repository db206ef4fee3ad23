//! The lookup that a session asks for: what its upstream answers, its verifier, its trusted keys and its options, the lookup of these,
//! and the whole answer to it. `dns_run` gives these calls again, so that callers of the program find them there.
#![tactic(auto)]

mod answering;
mod listing;
mod replies;
mod verification;

pub use answering::{
    SessionLookup, session_anchors, session_answer, session_lookup, session_options,
    session_upstream,
};
pub use listing::listed_verifier;
pub use verification::{SessionVerifier, Verification, session_verifier};
