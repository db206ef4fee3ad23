//! Records as lines of a master file (RFC 1035, 5). The layer above may use `presentation`, which is the definition of that name,
//! the numbers of types that have a form here and no name in `dns_record`, the calendar, and what a tag of a CAA record is.
#![tactic(auto)]

mod addresses;
mod calendar;
mod dnssec_forms;
mod forms;
mod key_forms;
mod line;
mod names;
mod strings;
mod type_lists;
mod type_texts;
mod words;

pub use calendar::{days_in_month, days_in_year};
pub use key_forms::is_tag;
pub use line::presentation;
pub use type_texts::{CAA, CDNSKEY, CDS, SMIMEA, SSHFP, TLSA};
