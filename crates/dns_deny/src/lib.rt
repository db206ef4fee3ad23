//! Sessions with questions behind them, and what the records of the session's answer deny of those (RFC 8198). The layer above may use
//! `read_denials` as exactly the grammar of `specs/`, and `write_denials` as exactly the lines of the questions.
#![tactic(auto)]

mod deny_text;
mod laws;
mod reading;
mod writing;

pub use deny_text::{DenyText, ThenLine};
pub use laws::denials_hold;
pub use reading::read_denials;
pub use writing::write_denials;
