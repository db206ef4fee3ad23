//! A lookup that was made over a network, saved as a session: with an `accept` line for each signature that its verifier accepted, so that
//! the same answer is found again without the network and without arithmetic. The layer above may use [`save_lookup`], which gives a text
//! only where the lookup of that text's session, by the signatures that it lists, comes to the same report; and [`saved_reply`] for what
//! was answered to each query.
#![tactic(auto)]

mod accepted;
mod heard;
mod laws;
mod lookup;
mod same;
mod save_error;
mod saving;

pub use accepted::accepted_signatures;
pub use heard::saved_reply;
pub use laws::each_reply_comes_in_its_turn;
pub use lookup::SavedLookup;
pub use save_error::SaveError;
pub use saving::save_lookup;
