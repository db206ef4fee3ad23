//! Lines of master files as they are read (RFC 1035, 5). The layer above may use `read_line`, which is the definition of what a
//! line says, and the law that a record is read as it was written.
#![tactic(auto)]

mod codes;
mod field;
mod front;
mod laws;
mod meanings;
mod rdata;
mod reading;
mod stop;

pub use codes::type_of_word;
pub use laws::written_records_are_read;
pub use reading::{RecordLine, read_line};
pub use stop::{LineError, Refusal};
