//! Handles to one server for the program for questions, one for each concern, each over the handle below it: a connection for each request,
//! a second handle where a response is truncated, the CD bit, an end to all waiting, and notes of what was asked and answered.
//!
//! The layer above may put them on one another, and knows by their `sent` and `requested` what each of them sends and answers.
#![tactic(auto)]

mod checking_handle;
mod connecting_handle;
mod deadline_handle;
mod drawn_id;
mod fallback_handle;
mod note;
mod noting_handle;
mod stopwatch;

pub use checking_handle::CheckingHandle;
pub use connecting_handle::ConnectingHandle;
pub use deadline_handle::DeadlineHandle;
pub use drawn_id::DrawnId;
pub use fallback_handle::FallbackHandle;
pub use note::Note;
pub use noting_handle::NotingHandle;
pub use stopwatch::{ListStopwatch, Stopwatch, SystemStopwatch};
