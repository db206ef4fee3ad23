//! A multiplexer that keeps a journal of its events: what threads share as one exchange takes one turn of it at a time. The layer
//! above may use `JournaledCore` as its journal: what each call adds (`specs/Calls.antt`), when a history is full
//! (`specs/Limits.antt`), and that the journal is a history of the multiplexer (`specs/Histories.antt`, `specs/Laws.antt`).
#![tactic(auto)]

mod drawn_ids;
mod entry;
mod entry_list;
mod exchange_error;
mod journaled_core;
mod laws;
mod recorded_draws;
mod refusal;

pub use entry::Found;
pub use exchange_error::ExchangeError;
pub use journaled_core::JournaledCore;
pub use laws::journals_are_histories;
pub use recorded_draws::RecordedDraws;
pub use refusal::Refusal;
