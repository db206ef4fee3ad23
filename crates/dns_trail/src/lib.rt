//! Whether a trail is a derivation: each mark and each ending follows from what was told and from the steps before
//! (RFC 4035, 4.3, 5.2 and 5.3), and its steps were sent and ended in order. It stands on the tables that a lookup uses, and
//! on nothing of its walk. The layer above may use `check_trail` and `is_in_order` as the definitions that their clauses name.
#![tactic(auto)]

mod check;
mod ending;
mod entries;
mod kept;
mod order;
mod places;
mod repeats;
mod search;
mod served;
mod step_context;
mod steps;
mod verdicts;

pub use check::check_trail;
pub use order::is_in_order;
