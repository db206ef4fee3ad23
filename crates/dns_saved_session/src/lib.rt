//! A lookup as a session text in version 2, by which it can be made again: what it asked for, by which keys and signatures it judged, and
//! what came for each of its queries. The layer above may use [`write_session`], whose text reads back as the session of exactly these
//! parts, and [`SavedReply`] as what came for a query.
#![tactic(auto)]

mod accepts;
mod laws;
mod replies;
mod saved;
mod saved_reply;
mod writing;

pub use laws::what_is_saved_is_read_back;
pub use saved::SavedSession;
pub use saved_reply::{Came, SavedReply};
pub use writing::write_session;
