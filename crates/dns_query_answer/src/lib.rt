//! What is written of the answer to a question, and the status that a program ends with. The layer above may use [`answer_status`] as
//! exactly the table of statuses, [`answer_causes`] as exactly the causes of an answer's trail, and [`write_answer`] as exactly the lines
//! of an answer.
#![tactic(auto)]

mod answer;
mod cause_words;
mod denials;
mod digests;
mod errors;
mod following;
mod nsec3_faults;
mod nsec_faults;
mod places;
mod reasons;
mod record_lines;
mod sentences;
mod signatures;
mod status;
mod wildcards;
mod words;

pub use answer::{answer_causes, told_answer, write_answer};
pub use status::answer_status;
