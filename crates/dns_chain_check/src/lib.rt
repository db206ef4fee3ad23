//! Whether a chain of trust that is handed in is justified, and whether a verifier accepts it by itself (RFC 4035, 5.2 and 5.3),
//! with the laws of such chains; and whether a cache's entry may serve again (RFC 4035, 4.5). The layer above may use the calls
//! as the definitions `justified`, `accepted_alone` and `still_holds`.
#![tactic(auto)]

mod chain_end;
mod check;
mod earlier;
mod holding;
mod holds;
mod indexed;
mod link_judge;
mod signed;
mod trusted;

pub use check::{accepted_chain, check_chain};
pub use holding::{mark_of, sig_of, still_holds, still_trusted};
pub use trusted::is_trusted;
