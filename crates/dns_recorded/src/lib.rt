//! `Recorded`, a handle that answers from replies that were put in. The layer above may use it as a handle whose
//! replies are known beforehand.
#![tactic(auto)]

mod recorded;
mod reply_list;
mod reply_places;

pub use recorded::Recorded;
