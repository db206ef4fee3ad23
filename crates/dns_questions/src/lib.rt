//! Which questions a trail could put to a verifier, and their text, for whoever has a verifier elsewhere. The layer above may use
//! `trail_questions` and `write_questions` as exactly the definitions of `specs/`.
#![tactic(auto)]

mod keys;
mod question_list;
mod questions;
mod sets;
mod text;

pub use questions::trail_questions;
pub use text::write_questions;
