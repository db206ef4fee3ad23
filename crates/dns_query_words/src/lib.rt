//! What the program for questions is told by its command line. The layer above may use [`read_words`], which is the definition of what
//! words ask for, and [`server_in`] and [`alone_in`], which tell the address of a server from its text.
#![tactic(auto)]

mod arguments;
mod draft;
mod options;
mod reading;
mod servers;
mod stop;

pub use arguments::{Arguments, Form};
pub use options::Switches;
pub use reading::read_words;
pub use servers::{alone_in, server_in};
pub use stop::{Refusal, WordsError};
