//! Texts of sightings of a zone's keys, and which keys are trusted after them (RFC 5011). The layer above may use `read_roll` as exactly the
//! grammar of `specs/`, and `write_trusted` as exactly the lines of the trusted keys.
#![tactic(auto)]

mod forms;
mod laws;
mod naming;
mod reading;
mod roll_text;
mod seen;
mod trusting;
mod writing;

pub use laws::{exactly_trusted, written_once};
pub use reading::read_roll;
pub use roll_text::{GivenKey, RollText, Sight};
pub use writing::write_trusted;
