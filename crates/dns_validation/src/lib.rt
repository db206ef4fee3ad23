//! A validation that asks and is answered: it says what it asks, is told a reply, and goes on from where it stands. It holds no
//! handle and does no input or output (RFC 4035, 4.3 and 5). The layer above may drive a `Validation` by its clauses.
#![tactic(auto)]

mod accepted;
mod answers;
mod closing;
mod context;
mod hearing;
mod keeping;
mod links;
mod made;
mod open_step;
mod receiving;
mod requests;
mod state;
mod steps;
mod validation;

pub use requests::{asking_options_of, checked, request_for};
pub use validation::{Asking, Validation, Wanted};
