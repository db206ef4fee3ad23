//! The program for questions as a call: [`run_query`] asks a server what arguments ask for, writes the answer with its marks, and saves the
//! lookup as a session where a file is named.
//!
//! Files come in as texts, the network, the clock and the stopwatches as traits, and what is written goes to any sink; so the program's `main`
//! is all that stands over the system.
#![tactic(auto)]

mod complaints;
mod endings;
mod files;
mod fixed_texts;
mod program;
mod refused;
mod saving;
mod telling;
mod told;
mod unwritten;

pub use files::FileTexts;
pub use program::run_query;
