//! The bytes of a message that is read.
use dns_record::Octets;
use std::alloc::Global;

/// The bytes of a message that is read, with what each reader of a part of it is given beside the place.
#[derive(Drop)]
pub(crate) struct MessageBytes<'a> {
    /// Where the memory of what is read comes from.
    pub(crate) alloc: Global,
    /// The octets that the message stands in, which rdata share.
    pub(crate) octets: &'a Octets,
    pub(crate) bytes: &'a [u8],
}
