//! Why each set of a trail isn't Secure (RFC 4035, 4.3, 5.2 and 5.3): neither an answer nor its trail says so, and here it is found
//! anew from the trail, by the phases of sets that a lookup goes through; and as a text. The layer above may use `trail_causes` and
//! `write_causes` as exactly the definitions of `specs/`.
#![tactic(auto)]

mod asks;
mod causes;
mod context;
mod given;
mod marked;
mod text;

pub use causes::trail_causes;
pub use text::write_causes;
