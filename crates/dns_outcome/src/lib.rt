//! What a judged step comes to by its sets: its answer is given, denied, or left to the zone (RFC 4035, 3.1.3, 4.3, 5.3.4 and
//! 5.4); those sets: how a message's records are grouped, and where a record's set stands; and the message that a reply of a trail
//! told. The layer above may use each call as the definition that its clause names.
#![tactic(auto)]

mod answering;
mod denying;
mod grouping;
mod insecure_authority;
mod outcome;
mod set_key;
mod set_places;
mod told;

pub use grouping::{clear_marks, clear_one, judged_part, sets_in};
pub use outcome::{Outcome, foreign_record, outcome_by_zone, outcome_of};
pub use set_places::{SetPlaces, judged_places, set_rtype};
pub use told::told_message;
