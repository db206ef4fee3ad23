//! What a record of a section is: one that is kept, or an OPT.
use crate::message::Edns;
use dns_record::Record;

/// One record of a section.
#[derive(Drop)]
pub(crate) enum Item {
    Kept(Record),
    /// An OPT record, and the upper eight bits of the message's code that it holds.
    Opt(Edns, u8),
}
