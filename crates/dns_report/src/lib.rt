//! Report texts: what a lookup answered, in lines. The layer above may use `write_report` and `write_fault` as exactly the
//! texts of `specs/`.
#![tactic(auto)]

mod fault;
mod judged;
mod link;
mod marks;
mod parts;
mod record;
mod report;
mod trail;
mod words;

pub use fault::write_fault;
pub use marks::section_word;
pub use parts::Parts;
pub use report::write_report;
