//! A signature beside its set.

use dns_rdata::Rrsig;
use dns_record::{Record, RecordSet};

/// A signature of a set, which is read.
#[derive(Drop)]
pub struct SetSignature<'a> {
    /// The set.
    pub set: &'a RecordSet,
    /// The signature's record.
    pub sig: &'a Record,
    /// What that record says.
    pub read: &'a Rrsig<'a>,
}
