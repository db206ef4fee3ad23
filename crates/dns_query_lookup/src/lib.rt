//! A question to one server, from its trust anchors to what its lookup came to: by datagrams, and over connections where a response is
//! truncated; or over connections alone. The layer above may use [`ask_server`] by its clause: which handles were put on one another, which
//! keys are trusted, and that a validator looked the question up over them.
#![tactic(auto)]

mod asking;
mod call;
mod looked;
mod looking;
mod servers;
mod stacks;

pub use call::Call;
pub use looked::Looked;
pub use servers::{Outside, ask_server};
