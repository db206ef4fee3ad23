//! The definitions that the contracts of more than one crate speak of, in `specs/`, and their lemmas.
//! In code there are only the enums without owned parts that those definitions name.
#![tactic(auto)]

mod answered;
mod denial;
mod name_error;
mod proof;
mod section;
mod trail;

pub use answered::Answered;
pub use denial::Denial;
pub use name_error::NameError;
pub use proof::Proof;
pub use section::Section;
pub use trail::{AskRef, MarkOrigin};
