//! Which keys of a zone are trusted, by what was seen of its key set (RFC 5011). The layer above may use `AnchorRoll` by its clauses: which
//! sightings are accepted, which keys are trusted after them, and in which state a key is.
#![tactic(auto)]

mod anchor_roll;
mod examining;
mod follow;
mod found;
mod key_table;
mod known;
mod laws;
mod sighting;
mod standing;
mod states;

pub use anchor_roll::{AnchorRoll, roll};
pub use laws::{gap_ends_a_stretch, revoked_for_good, stretch_of_trust, trusted_before_accept};
pub use sighting::Sighting;
pub use states::{KeyState, RollError, Seen};
