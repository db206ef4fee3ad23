//! Reports read again, after the sessions that they answer, for whoever checks an answer that another gave; and what an audit
//! answers: whether their chains and trails hold. The layer above may use `read_audit` and `read_report` as exactly the grammar of
//! `specs/`, and `write_audit` as exactly its text. Laws: what `dns_report` writes is read back, also after a session.
#![tactic(auto)]

mod answer_lines;
mod answers;
mod chains;
mod each;
mod endings;
mod laws;
mod link_lines;
mod reading;
mod records;
mod report;
mod report_words;
mod sets;
mod steps;
mod word_cuts;

pub use answers::write_audit;
pub use laws::{
    a_report_is_read_behind_its_session, what_is_read_is_what_would_be_written,
    what_is_written_is_read_back,
};
pub use reading::{read_audit, read_report};
pub use report::Report;
