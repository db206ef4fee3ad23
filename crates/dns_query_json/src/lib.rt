//! An answer with all that was found out for it as one JSON value (RFC 8259). The layer above may use [`push_json`], which appends exactly
//! the text of `specs/`.
#![tactic(auto)]

mod answer;
mod chains;
mod denials;
mod links;
mod lists;
mod notes;
mod records;
mod strings;

pub use answer::{Answer, push_json};
