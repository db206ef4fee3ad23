//! What a set and the ending of a step ask, one step at a time: without handle, input or output, so that whoever asks may drive it
//! (RFC 4035, 4.3, 5.2, 5.3 and 5.4). Phases are as in `specs/Phases.antt`, and lead where the tables of a trail say.
#![tactic(auto)]

mod asks;
mod causes;
mod endings;
mod phases;
mod searching;
mod sets;
mod signatures;

pub use asks::{Ask, Got, probe_of};
pub use causes::{found_of, start_cause};
pub use endings::start_ending;
pub use phases::{Need, Phase, Seeker};
pub use sets::start_set;
